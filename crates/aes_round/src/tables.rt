// The two tables of the substitution, lent from where they stand: entry x is what becomes of the byte x, forth and back.
ghost use Rattle.aes_round.specs.Substitution.{Table, Undo, sub_byte};

use super::sub_back_table::SUB_BACK;
use super::sub_table::SUB;

#[derive(Clone, Copy)]
pub(crate) struct Tables {
    pub forth: &'static [u8; 256],
    pub back: &'static [u8; 256],
}

pub(crate) fn both_tables() -> Tables
    ensures rule { Table sub_byte result.forth.now }
    ensures undo { Undo result.forth.now result.back.now }
{
    Tables {
        forth: &SUB,
        back: &SUB_BACK,
    }
}
