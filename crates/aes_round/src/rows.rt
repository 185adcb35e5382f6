// The four tables of the path by tables, one for each row of a column: what a byte there adds to the column after SubBytes and MixColumns.
ghost use Rattle.std.specs.Prelude.{◌≡◌};
ghost use Rattle.aes_round.specs.ByTables.{Follows, row_tables, table_column};
ghost use Rattle.aes_round.specs.Substitution.{Table, sub_byte};

use super::row_table_0::ROW_0;
use super::row_table_1::ROW_1;
use super::row_table_2::ROW_2;
use super::row_table_3::ROW_3;
use super::sub_table::SUB;

#[derive(Clone, Copy)]
pub struct RowTables {
    pub row_0: [u32; 256],
    pub row_1: [u32; 256],
    pub row_2: [u32; 256],
    pub row_3: [u32; 256],
}

impl RowTables {
    // A column, by any four tables: row 0 from the number a, row 1 from b, row 2 from c, row 3 from d. The four come one by one, since a
    // digest takes nearly twice as long where they come as an array, which is kept in memory.
    #[tactic(auto, using(crate::proofs::Laws::ByTables::column_is))]
    pub(crate) fn column(&self, a: u32, b: u32, c: u32, d: u32) -> u32
        ensures { result ≡ table_column self.now.row_0 self.now.row_1 self.now.row_2 self.now.row_3 a b c d }
    {
        let p = self.row_0[(a % 0x100) as usize] ^ self.row_1[(b / 0x100 % 0x100) as usize];
        let q = self.row_2[(c / 0x1_0000 % 0x100) as usize]
            ^ self.row_3[(d / 0x100_0000 % 0x100) as usize];
        p ^ q
    }
}

// The four tables beside the one that each of them follows from, so that one proof sees all five. The compiler drops the one that no caller takes.
#[derive(Drop)]
struct WithSubstitution {
    sub: &'static [u8; 256],
    rows: RowTables,
}

fn with_substitution() -> WithSubstitution
    ensures rule { Table sub_byte result.sub.now }
    ensures row_0 { Follows 0 result.sub.now result.rows.row_0 }
    ensures row_1 { Follows 1 result.sub.now result.rows.row_1 }
    ensures row_2 { Follows 2 result.sub.now result.rows.row_2 }
    ensures row_3 { Follows 3 result.sub.now result.rows.row_3 }
{
    WithSubstitution {
        sub: &SUB,
        rows: RowTables {
            row_0: ROW_0,
            row_1: ROW_1,
            row_2: ROW_2,
            row_3: ROW_3,
        },
    }
}

// They take 4 KiB of stack and are built anew by each call: a caller takes them once for a run of rounds and lends them.
pub fn row_tables() -> RowTables
    ensures { result ≡ row_tables }
{
    let all = with_substitution();
    all.rows
}
