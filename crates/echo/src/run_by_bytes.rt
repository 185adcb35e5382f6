// Runs of BIG.Round byte by byte, step after step, with little stack.
ghost use Rattle.std.specs.Prelude.{◌≡◌, ◌*◌, ◌^◌, ◌≤◌, length};
ghost use Rattle.echo.specs.Numbers.{halves};
ghost use Rattle.echo.specs.Square.{wide_keys_from};
ghost use Rattle.echo.specs.Square.{rounds as Square·rounds};

use super::counter::Counter;
use super::mix_columns::mix_columns;
use super::shift_rows::shift_rows;
use super::sub_words::sub_words;

pub(crate) fn run_by_bytes(s: &mut [u8], count: u64, counter: Counter, salt: [u8; 16])
    requires s_len { length s.old ≡ 256 }
    requires count_bound { 16 * count ≤ 2 ^ 64 }
    ensures { s.new ≡ Square·rounds count (wide_keys_from (halves counter.low counter.high)) salt s.old }
{
    for r in 0..count {
        sub_words(s, counter, 16 * r, salt);
        shift_rows(s);
        mix_columns(s);
    }
}
