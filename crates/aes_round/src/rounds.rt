// One round of the AES on a word of sixteen bytes, column by column, and its way back.
ghost use Rattle.std.specs.Prelude.{◌≡◌, ◌*◌, ◌%◌, ◌<◌, get_or};
ghost use Rattle.aes_round.specs.Array.{column};
ghost use Rattle.aes_round.specs.Mixing.{mix_column};
ghost use Rattle.aes_round.specs.Bytes.{tab};
ghost use Rattle.aes_round.specs.Rounds.{add_round_key, aes_round, aes_round_back, mix_columns, shift_rows, shift_rows_back};

use super::mixing::mix_by;
use super::substitution::substitute_by;
use super::way::{Back, Forth, Way};
use std::array;

// Each byte substituted.
fn sub_bytes<W: Way>(s: [u8; 16]) -> [u8; 16]
    ensures { result ≡ tab 16 (λ k. W.byte (get_or s k 0)) }
{
    s.map(
        |x| -> u8
            ensures { result ≡ W.byte x }
        { substitute_by::<W>(x) },
    )
}

// Byte k comes from place STEP * k (mod 16).
fn turn_rows<const STEP: u8>(s: [u8; 16]) -> [u8; 16]
    ensures { result ≡ tab 16 (λ k. get_or s (STEP * k % 16) 0) }
{
    array::from_fn(
        |k| -> u8
            requires { k < 16 }
            ensures { result ≡ get_or s (STEP * k % 16) 0 }
        { s[STEP as usize * k % 16] },
    )
}

// Row i is turned by i places to the left.
#[tactic(auto, unfolding(crate::specs::Rounds::shift_rows, crate::specs::Array::array, crate::specs::Array::entry, crate::specs::Bytes::tab))]
fn shift_rows(s: [u8; 16]) -> [u8; 16]
    ensures { result ≡ shift_rows 1 s }
{
    turn_rows::<5>(s)
}

// Row i is turned by i places to the right.
#[tactic(auto, unfolding(crate::specs::Rounds::shift_rows_back, crate::specs::Array::array, crate::specs::Array::entry, crate::specs::Bytes::tab))]
fn shift_rows_back(s: [u8; 16]) -> [u8; 16]
    ensures { result ≡ shift_rows_back 1 s }
{
    turn_rows::<13>(s)
}

// Column j of a word.
fn column(s: [u8; 16], j: usize) -> [u8; 4]
    requires { j < 4 }
    ensures { result ≡ column 1 s j 0 }
{
    array::from_fn(|i| s[4 * j + i])
}

// Each column mixed.
fn mix_columns<W: Way>(s: [u8; 16]) -> [u8; 16]
    ensures { result ≡ mix_columns 1 W.matrix s }
{
    let mixed: [[u8; 4]; 4] = array::from_fn(
        |j| -> [u8; 4]
            requires { j < 4 }
            ensures { result ≡ mix_column W.matrix (column 1 s j 0) }
        { mix_by::<W>(column(s, j)) },
    );
    array::from_fn(|k| mixed[k / 4][k % 4])
}

fn add_round_key(s: [u8; 16], k: [u8; 16]) -> [u8; 16]
    ensures { result ≡ add_round_key s k }
{
    array::from_fn(|i| s[i] ^ k[i])
}

// One full round: SubBytes, ShiftRows, MixColumns, AddRoundKey.
pub fn round(s: [u8; 16], k: [u8; 16]) -> [u8; 16]
    ensures { result ≡ aes_round s k }
{
    let substituted = sub_bytes::<Forth>(s);
    let shifted = shift_rows(substituted);
    let mixed = mix_columns::<Forth>(shifted);
    let keyed = add_round_key(mixed, k);
    keyed
}

// The word that `round` took to s under the same key.
pub fn round_back(s: [u8; 16], k: [u8; 16]) -> [u8; 16]
    ensures { result ≡ aes_round_back s k }
{
    let unkeyed = add_round_key(s, k);
    let unmixed = mix_columns::<Back>(unkeyed);
    let unshifted = shift_rows_back(unmixed);
    let word = sub_bytes::<Back>(unshifted);
    word
}

// A round with the key k, then one with the key l.
pub fn two_rounds(s: [u8; 16], k: [u8; 16], l: [u8; 16]) -> [u8; 16]
    ensures { result ≡ aes_round (aes_round s k) l }
{
    round(round(s, k), l)
}

// The word that `two_rounds` took to s under the same keys.
pub fn two_rounds_back(s: [u8; 16], k: [u8; 16], l: [u8; 16]) -> [u8; 16]
    ensures { result ≡ aes_round_back (aes_round_back s l) k }
{
    round_back(round_back(s, l), k)
}
