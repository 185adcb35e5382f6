// The substitution of one byte, and its way back.
ghost use Rattle.std.specs.Prelude.{◌≡◌};
ghost use Rattle.aes_round.specs.Substitution.{sub_byte, sub_byte_back};

use super::way::{Back, Forth, Way};

// What becomes of a byte on the way W.
#[tactic(auto, using(crate::proofs::Laws::Substitution::table_at))]
pub(crate) fn substitute_by<W: Way>(x: u8) -> u8
    ensures { result ≡ W.byte x }
{
    W::table()[x as usize]
}

pub fn substitute(x: u8) -> u8
    ensures { result ≡ sub_byte x }
{
    substitute_by::<Forth>(x)
}

pub fn substitute_back(x: u8) -> u8
    ensures { result ≡ sub_byte_back x }
{
    substitute_by::<Back>(x)
}
