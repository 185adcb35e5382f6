// The two ways through a round: forth, as FIPS 197 enciphers (section 5.1), and back (section 5.3). The steps that both have are written once, over the
// way that they go.
ghost use Rattle.std.specs.Prelude.{◌≡◌, List, ℕ};
ghost use Rattle.aes_round.specs.Mixing.{backward, forward};
ghost use Rattle.aes_round.specs.Substitution.{Table, sub_byte, sub_byte_back};

use super::mixing::{BACKWARD, FORWARD};
use super::tables::both_tables;

pub(crate) trait Way {
    // What becomes of a byte.
    ghost byte: { ℕ → ℕ };

    // The matrix that a column is multiplied by, row by row.
    ghost matrix: { List ℕ };

    // Entry x is what becomes of the byte x.
    fn table() -> &'static [u8; 256]
        ensures { Table byte result.now };

    fn coefficients() -> &'static [u8; 16]
        ensures { result.now ≡ matrix };
}

pub(crate) struct Forth;

pub(crate) struct Back;

#[tactic(auto, unfolding(crate::specs::Mixing::forward))]
impl Way for Forth {
    ghost byte = { sub_byte };

    ghost matrix = { forward };

    fn table() -> &'static [u8; 256] {
        both_tables().forth
    }

    fn coefficients() -> &'static [u8; 16] {
        &FORWARD
    }
}

#[tactic(auto, using(crate::proofs::Laws::Substitution::back_table_is), unfolding(crate::specs::Mixing::backward))]
impl Way for Back {
    ghost byte = { sub_byte_back };

    ghost matrix = { backward };

    fn table() -> &'static [u8; 256] {
        both_tables().back
    }

    fn coefficients() -> &'static [u8; 16] {
        &BACKWARD
    }
}
