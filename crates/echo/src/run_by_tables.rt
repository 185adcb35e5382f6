// Runs of BIG.Round by tables: the square is 64 numbers of 32 bits from the first round to the last, and a round is two steps on them.
ghost use Rattle.std.specs.Prelude.{◌≡◌, ◌+◌, ◌*◌, ◌^◌, ◌<◌, ◌≤◌, length};
ghost use Rattle.aes_round.specs.ByTables.{row_tables};
ghost use Rattle.aes_round.specs.Numbers.{bytes_of, numbers};
ghost use Rattle.aes_round.specs.Rounds.{aes_round};
ghost use Rattle.echo.specs.Numbers.{halves};
ghost use Rattle.echo.specs.Square.{big_mix_columns, big_shift_rows, big_sub_words, wide_keys_from};
ghost use Rattle.echo.specs.Square.{rounds as Square·rounds};

use super::counter::{Counter, count_on};
use super::numbers::{numbers_of, put_numbers};
use aes_round::RowTables;

// What the rounds of a run share: the tables, the counter that the run starts from, and the salt, which is the key of each second AES round.
#[derive(Clone, Copy)]
struct Run<'a> {
    tables: &'a RowTables,
    counter: Counter,
    salt: [u32; 4],
    ghost tables_of_the_rows: { tables.now ≡ row_tables },
}

impl<'a> Run<'a> {
    fn new(tables: &'a RowTables, counter: Counter, salt: [u8; 16]) -> Self
        requires { tables.now ≡ row_tables }
        ensures counter { result.counter ≡ counter }
        ensures salt { result.salt ≡ numbers 4 salt }
    {
        Run {
            tables,
            counter,
            salt: numbers_of(&salt),
        }
    }

    // The word of that number through two AES rounds: the first key is its counter, and the second one the salt.
    fn word(self, word: [u32; 4], number: u64) -> [u32; 4]
        ensures { result ≡ numbers 4 (aes_round (aes_round (bytes_of 4 word) (wide_keys_from (halves self.entry.counter.low self.entry.counter.high) number)) (bytes_of 4 self.entry.salt)) }
    {
        let at = count_on(self.counter, number);
        let low = at.low;
        let high = at.high;
        let key = [
            (low % 0x1_0000_0000) as u32,
            (low / 0x1_0000_0000) as u32,
            (high % 0x1_0000_0000) as u32,
            (high / 0x1_0000_0000) as u32,
        ];
        let once = aes_round::round_by_tables(self.tables, word, key);
        aes_round::round_by_tables(self.tables, once, self.salt)
    }

    // BIG.SubWords (section 3.1), a word after the other where it stands: the word i is that of the number `first` + i.
    fn sub_numbers(self, s: [u32; 64], first: u64) -> [u32; 64]
        requires { first + 15 < 2 ^ 64 }
        ensures { result ≡ numbers 64 (big_sub_words (λ i. wide_keys_from (halves self.entry.counter.low self.entry.counter.high) (first + i)) (bytes_of 4 self.entry.salt) (bytes_of 64 s)) }
    {
        let mut r = s;
        // with `array::from_fn` the closure states the bound on i and the word's rounds once more, and a second closure lays the words out: no plainer
        for i in 0..16 {
            let at = 4 * i;
            let word = [r[at], r[at + 1], r[at + 2], r[at + 3]];
            let through = self.word(word, first + i as u64);
            r[at] = through[0];
            r[at + 1] = through[1];
            r[at + 2] = through[2];
            r[at + 3] = through[3];
        }
        r
    }
}

// BIG.ShiftRows and BIG.MixColumns (sections 3.2 and 3.3) at once, four byte positions at a time: the word i of a column comes from i columns
// further on. With the columns of the square in the inner loop the compiler does four of them at once too; the other way round a digest takes a
// sixth longer.
fn shift_and_mix(s: [u32; 64]) -> [u32; 64]
    ensures { result ≡ numbers 64 (big_mix_columns (big_shift_rows (bytes_of 64 s))) }
{
    let mut r = [0u32; 64];
    // a mix gives four numbers that stand apart: an `array::from_fn` over the 64 would make each mix four times
    for j in 0..4 {
        for c in 0..4 {
            let at = 16 * c + j;
            let a = s[at];
            let b = s[(at + 20) % 64];
            let x = s[(at + 40) % 64];
            let y = s[(at + 60) % 64];
            let m = aes_round::mix_numbers([a, b, x, y]);
            r[at] = m[0];
            r[at + 4] = m[1];
            r[at + 8] = m[2];
            r[at + 12] = m[3];
        }
    }
    r
}

pub(crate) fn run_by_tables(s: &mut [u8], count: u64, counter: Counter, salt: [u8; 16])
    requires s_len { length s.old ≡ 256 }
    requires count_bound { 16 * count ≤ 2 ^ 64 }
    ensures { s.new ≡ Square·rounds count (wide_keys_from (halves counter.low counter.high)) salt s.old }
{
    let tables = aes_round::row_tables();
    let run = Run::new(&tables, counter, salt);
    let mut square = numbers_of(s);
    for r in 0..count {
        let substituted = run.sub_numbers(square, 16 * r);
        square = shift_and_mix(substituted);
    }
    put_numbers(s, square);
}
