// The routines that take a mode as a number, and refuse a number that is no mode's as `WrongSize`.
ghost use Rattle.std.specs.Prelude.{◌≡◌, length, true, false, cond, MatchResult};
ghost use Rattle.echo.specs.Answers.{number_of, refusal_of};
ghost use Rattle.echo.specs.Numbers.{halves};
ghost use Rattle.echo.specs.Refusals.{no_salt};
ghost use Rattle.bahmorist.specs.Modes.{compress_in_leaves, compress_in_refusal, compress_wide_in_leaves, compress_wide_in_refusal, digest_bits_in_leaves, digest_bits_in_refusal, digest_in_leaves, digest_in_refusal, mode_of as Modes·mode_of, no_mode};

use super::modes::mode_of;
use echo::{Mode, Refusal};

// What else is refused comes before the mode.
pub(crate) fn digest_in(
    mode: u8,
    bits: u64,
    salt: &[u8],
    message: &[u8],
    out: &mut [u8],
) -> Result<(), Refusal>
    ensures refusal { refusal_of result ≡ digest_in_refusal mode bits (length salt.now) (length message.now) (length out.old) }
    ensures left { out.new ≡ digest_in_leaves mode bits salt.now message.now out.old }
{
    let Some(known) = mode_of(mode) else {
        echo::check_digest(bits, salt.len(), message.len(), out.len())?;
        return Err(Refusal::WrongSize);
    };
    echo::digest(known, bits, salt, message, out)
}

// The same of the first so many bits, where a number that is no mode's comes before bits set below.
pub(crate) fn digest_bits_in(
    mode: u8,
    bits: u64,
    salt: &[u8],
    message: &[u8],
    count: u64,
    out: &mut [u8],
) -> Result<(), Refusal>
    ensures refusal { refusal_of result ≡ digest_bits_in_refusal mode bits (length salt.now) message.now count (length out.old) }
    ensures left { out.new ≡ digest_bits_in_leaves mode bits salt.now message.now count out.old }
{
    let Some(known) = mode_of(mode) else {
        let whole = (count / 8) as usize;
        echo::check_digest(bits, salt.len(), whole, out.len())?;
        return Err(Refusal::WrongSize);
    };
    echo::digest_bits(known, bits, salt, message, count, out)
}

// The mode of a compression: a salt that is none comes before a number that is no mode's.
fn named(number: u8, salt: usize) -> Result<Mode, Refusal>
    ensures { MatchResult result (λ mode. (false ≡ no_mode number) × (mode ≡ Modes·mode_of number))
        (λ refusal. (true ≡ no_mode number) × (number_of refusal ≡ cond (no_salt salt) 2 6)) }
{
    match mode_of(number) {
        Some(mode) => Ok(mode),
        None if salt == 16 => Err(Refusal::WrongSize),
        None => Err(Refusal::NoSalt),
    }
}

pub(crate) fn compress_in(
    mode: u8,
    chaining: &mut [u8],
    block: &[u8],
    counter: u64,
    salt: &[u8],
) -> Result<(), Refusal>
    ensures refusal { refusal_of result ≡ compress_in_refusal mode (length chaining.old) (length block.now) counter (length salt.now) }
    ensures left { chaining.new ≡ compress_in_leaves mode chaining.old block.now counter salt.now }
{
    echo::compress(named(mode, salt.len())?, chaining, block, counter, salt)
}

pub(crate) fn compress_wide_in(
    mode: u8,
    chaining: &mut [u8],
    block: &[u8],
    low: u64,
    high: u64,
    salt: &[u8],
) -> Result<(), Refusal>
    ensures refusal { refusal_of result ≡ compress_wide_in_refusal mode (length chaining.old) (length block.now) (length salt.now) }
    ensures left { chaining.new ≡ compress_wide_in_leaves mode chaining.old block.now (halves low high) salt.now }
{
    echo::compress_wide(named(mode, salt.len())?, chaining, block, low, high, salt)
}
