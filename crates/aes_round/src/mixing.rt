// The mix of a column of four bytes, and its way back.
ghost use Rattle.std.specs.Prelude.{◌≡◌};
ghost use Rattle.aes_round.specs.Mixing.{backward, dot, forward, mix_column};

use super::field::times;
use super::way::{Back, Forth, Way};

// The coefficients, row by row.
pub(crate) const FORWARD: [u8; 16] = [2, 3, 1, 1, 1, 2, 3, 1, 1, 1, 2, 3, 3, 1, 1, 2];

pub(crate) const BACKWARD: [u8; 16] = [14, 11, 13, 9, 9, 14, 11, 13, 13, 9, 14, 11, 11, 13, 9, 14];

// Four coefficients times a column.
#[tactic(auto, unfolding(crate::specs::Mixing::dot, crate::specs::Bytes::xor))]
fn product(p: u8, q: u8, r: u8, s: u8, c: [u8; 4]) -> u8
    ensures { result ≡ dot p q r s c }
{
    (times(p, c[0]) ^ times(q, c[1])) ^ (times(r, c[2]) ^ times(s, c[3]))
}

// A column times the matrix of the way W. The rows stand one by one, since their places then fold into the code: made by `array::from_fn`, a round
// back takes a tenth longer.
pub(crate) fn mix_by<W: Way>(c: [u8; 4]) -> [u8; 4]
    ensures { result ≡ mix_column W.matrix c }
{
    let m = W::coefficients();
    [
        product(m[0], m[1], m[2], m[3], c),
        product(m[4], m[5], m[6], m[7], c),
        product(m[8], m[9], m[10], m[11], c),
        product(m[12], m[13], m[14], m[15], c),
    ]
}

pub fn mix(c: [u8; 4]) -> [u8; 4]
    ensures { result ≡ mix_column forward c }
{
    mix_by::<Forth>(c)
}

pub fn mix_back(c: [u8; 4]) -> [u8; 4]
    ensures { result ≡ mix_column backward c }
{
    mix_by::<Back>(c)
}
