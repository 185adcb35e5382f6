// Which refusal comes first.
ghost use Rattle.std.specs.Prelude.{◌≡◌, ◌||◌, ◌==◌};
ghost use Rattle.echo.specs.Answers.{refusal_of};
ghost use Rattle.echo.specs.Families.{sizes_fit};
ghost use Rattle.echo.specs.Routines.{compress_refusal, compress_wide_refusal, rounds_refusal, rounds_wide_refusal};
ghost use Rattle.echo.specs.Session.{digest_bits_refusal, digest_refusal};

use super::bits::zero_bits_from;
use super::families::{admitted, block_size, chaining_size};
use super::mode::Mode;
use super::refusal::Refusal;

// The most bits of a message, 2^64 - 161.
pub(crate) const BIT_LIMIT: u64 = 18_446_744_073_709_551_455;

// The most bytes within that, 2^61 - 21.
pub(crate) const LIMIT: u64 = 2_305_843_009_213_693_931;

// The highest starting counter, 2^64 - 161: the 160 words of ten rounds count on from it, and the last stays below 2^64.
const LAST_COUNTER: u64 = 0xffff_ffff_ffff_ff5f;

fn is_round_count(count: u64) -> bool
    ensures { result ≡ (count == 8 || count == 10) }
{
    count == 8 || count == 10
}

fn sizes_fit(mode: Mode, chaining: usize, block: usize) -> bool
    ensures { result ≡ sizes_fit mode chaining block }
{
    if chaining == chaining_size(mode, 256) {
        return block == block_size(mode, 256);
    }
    chaining == chaining_size(mode, 512) && block == block_size(mode, 512)
}

// What a run of rounds is refused for whatever its counter.
pub(crate) fn check_rounds_wide(square: usize, count: u64, salt: usize) -> Result<(), Refusal>
    ensures { refusal_of result ≡ rounds_wide_refusal square count salt }
{
    if salt != 16 {
        return Err(Refusal::NoSalt);
    }
    if square != 256 {
        return Err(Refusal::WrongSize);
    }
    if !is_round_count(count) {
        return Err(Refusal::WrongSize);
    }
    Ok(())
}

// The same with a counter of 64 bits.
pub(crate) fn check_rounds(
    square: usize,
    count: u64,
    counter: u64,
    salt: usize,
) -> Result<(), Refusal>
    ensures { refusal_of result ≡ rounds_refusal square count counter salt }
{
    check_rounds_wide(square, count, salt)?;
    if LAST_COUNTER < counter {
        return Err(Refusal::CounterTooHigh);
    }
    Ok(())
}

// What a compression is refused for whatever its counter.
pub(crate) fn check_compress_wide(
    mode: Mode,
    chaining: usize,
    block: usize,
    salt: usize,
) -> Result<(), Refusal>
    ensures { refusal_of result ≡ compress_wide_refusal mode chaining block salt }
{
    if salt != 16 {
        return Err(Refusal::NoSalt);
    }
    if !sizes_fit(mode, chaining, block) {
        return Err(Refusal::WrongSize);
    }
    Ok(())
}

// The same with a counter of 64 bits.
pub(crate) fn check_compress(
    mode: Mode,
    chaining: usize,
    block: usize,
    counter: u64,
    salt: usize,
) -> Result<(), Refusal>
    ensures { refusal_of result ≡ compress_refusal mode chaining block counter salt }
{
    check_compress_wide(mode, chaining, block, salt)?;
    if LAST_COUNTER < counter {
        return Err(Refusal::CounterTooHigh);
    }
    Ok(())
}

// What a digest at once is refused for in either mode, by the lengths of salt, message and room.
pub fn check_digest(bits: u64, salt: usize, message: usize, room: usize) -> Result<(), Refusal>
    ensures { refusal_of result ≡ digest_refusal bits salt message room }
{
    if !admitted(bits) {
        return Err(Refusal::NotAdmitted);
    }
    if salt != 16 {
        return Err(Refusal::NoSalt);
    }
    if LIMIT < message as u64 {
        return Err(Refusal::TooLong);
    }
    if room < (bits / 8) as usize {
        return Err(Refusal::NoRoom);
    }
    Ok(())
}

// What a digest at once of so many bits is refused for in either mode, by the lengths of salt and room and the message. They are too many exactly
// where their whole bytes are.
pub(crate) fn check_digest_bits(
    bits: u64,
    salt: usize,
    message: &[u8],
    count: u64,
    room: usize,
) -> Result<(), Refusal>
    ensures { refusal_of result ≡ digest_bits_refusal bits salt message.now count room }
{
    check_digest(bits, salt, (count / 8) as usize, room)?;
    if message.len() as u64 != (count + 7) / 8 {
        return Err(Refusal::WrongSize);
    }
    if !zero_bits_from(message, count) {
        return Err(Refusal::SetBelow);
    }
    Ok(())
}
