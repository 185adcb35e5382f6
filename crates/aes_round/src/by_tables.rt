// One round of the AES on a word of four numbers, by four tables. With those of `row_tables` it is the round of FIPS 197.
ghost use Rattle.std.specs.Prelude.{◌≡◌};
ghost use Rattle.aes_round.specs.ByTables.{table_round};

use super::rows::RowTables;

// Row i of a column comes from i columns further on: that is the row shift.
#[tactic(auto, using(crate::proofs::Laws::ByTables::round_is))]
pub fn round_by_tables(tables: &RowTables, s: [u32; 4], k: [u32; 4]) -> [u32; 4]
    ensures { result ≡ table_round tables.now.row_0 tables.now.row_1 tables.now.row_2 tables.now.row_3 s k }
{
    [
        tables.column(s[0], s[1], s[2], s[3]) ^ k[0],
        tables.column(s[1], s[2], s[3], s[0]) ^ k[1],
        tables.column(s[2], s[3], s[0], s[1]) ^ k[2],
        tables.column(s[3], s[0], s[1], s[2]) ^ k[3],
    ]
}
