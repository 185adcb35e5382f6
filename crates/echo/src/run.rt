// Runs of BIG.Round, forward and backward.
ghost use Rattle.std.specs.Prelude.{◌≡◌, ◌*◌, ◌^◌, ◌≤◌, length};
ghost use Rattle.echo.specs.Answers.{refusal_of};
ghost use Rattle.echo.specs.Numbers.{halves};
ghost use Rattle.echo.specs.Routines.{rounds_back_leave, rounds_back_wide_leave, rounds_leave, rounds_refusal, rounds_wide_leave, rounds_wide_refusal};
ghost use Rattle.echo.specs.Square.{wide_keys_from};
ghost use Rattle.echo.specs.Square.{rounds as Square·rounds, rounds_back as Square·roundsBack};

use super::counter::Counter;
use super::lent::sixteen;
use super::mix_columns::mix_columns_back;
use super::refusal::Refusal;
use super::refusals::{check_rounds, check_rounds_wide};
use super::run_by_bytes::run_by_bytes;
use super::run_by_tables::run_by_tables;
use super::shift_rows::shift_rows_back;
use super::sub_words::sub_words_back;

// The rounds forward by the path that is named here. For a node with little stack `run_by_bytes` takes the place of `run_by_tables`: both have this
// contract, and nothing else changes.
pub(crate) fn run(s: &mut [u8], count: u64, counter: Counter, salt: [u8; 16])
    requires s_len { length s.old ≡ 256 }
    requires count_bound { 16 * count ≤ 2 ^ 64 }
    ensures { s.new ≡ Square·rounds count (wide_keys_from (halves counter.low counter.high)) salt s.old }
{
    run_by_tables(s, count, counter, salt);
}

fn run_back(s: &mut [u8], count: u64, counter: Counter, salt: [u8; 16])
    requires s_len { length s.old ≡ 256 }
    requires count_bound { 16 * count ≤ 2 ^ 64 }
    ensures { s.new ≡ Square·roundsBack count (wide_keys_from (halves counter.low counter.high)) salt s.old }
{
    for r in (0..count).rev() {
        mix_columns_back(s);
        shift_rows_back(s);
        sub_words_back(s, counter, 16 * r, salt);
    }
}

// Rewrites the square by 8 or 10 rounds that count on from the counter of these halves, modulo 2^128. Refused as `NoSalt` or `WrongSize`, it
// leaves the square.
pub fn rounds_wide(
    square: &mut [u8],
    count: u64,
    low: u64,
    high: u64,
    salt: &[u8],
) -> Result<(), Refusal>
    ensures refusal { refusal_of result ≡ rounds_wide_refusal (length square.old) count (length salt.now) }
    ensures left { square.new ≡ rounds_wide_leave square.old count (halves low high) salt.now }
{
    check_rounds_wide(square.len(), count, salt.len())?;
    run(square, count, Counter { low, high }, sixteen(salt, 0));
    Ok(())
}

// The way back: the square that `rounds_wide` took to this one, for the same count, starting counter and salt.
pub fn rounds_back_wide(
    square: &mut [u8],
    count: u64,
    low: u64,
    high: u64,
    salt: &[u8],
) -> Result<(), Refusal>
    ensures refusal { refusal_of result ≡ rounds_wide_refusal (length square.old) count (length salt.now) }
    ensures left { square.new ≡ rounds_back_wide_leave square.old count (halves low high) salt.now }
{
    check_rounds_wide(square.len(), count, salt.len())?;
    run_back(square, count, Counter { low, high }, sixteen(salt, 0));
    Ok(())
}

// From a counter of 64 bits: `rounds_wide` with the upper half zero, behind a bound on the counter, above which it is refused as `CounterTooHigh`.
pub fn rounds(square: &mut [u8], count: u64, counter: u64, salt: &[u8]) -> Result<(), Refusal>
    ensures refusal { refusal_of result ≡ rounds_refusal (length square.old) count counter (length salt.now) }
    ensures left { square.new ≡ rounds_leave square.old count counter salt.now }
{
    check_rounds(square.len(), count, counter, salt.len())?;
    rounds_wide(square, count, counter, 0, salt)
}

// The same byte by byte, whichever path `rounds` takes: slower, and with a sixth of the stack.
pub fn rounds_by_bytes(
    square: &mut [u8],
    count: u64,
    counter: u64,
    salt: &[u8],
) -> Result<(), Refusal>
    ensures refusal { refusal_of result ≡ rounds_refusal (length square.old) count counter (length salt.now) }
    ensures left { square.new ≡ rounds_leave square.old count counter salt.now }
{
    check_rounds(square.len(), count, counter, salt.len())?;
    let start = Counter {
        low: counter,
        high: 0,
    };
    run_by_bytes(square, count, start, sixteen(salt, 0));
    Ok(())
}

// The way back: the square that `rounds` took to this one, for the same count, starting counter and salt; `rounds_back_wide` likewise.
pub fn rounds_back(square: &mut [u8], count: u64, counter: u64, salt: &[u8]) -> Result<(), Refusal>
    ensures refusal { refusal_of result ≡ rounds_refusal (length square.old) count counter (length salt.now) }
    ensures left { square.new ≡ rounds_back_leave square.old count counter salt.now }
{
    check_rounds(square.len(), count, counter, salt.len())?;
    rounds_back_wide(square, count, counter, 0, salt)
}
