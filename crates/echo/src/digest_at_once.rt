// The digest of a whole message.
ghost use Rattle.std.specs.Prelude.{◌≡◌, length};
ghost use Rattle.echo.specs.Answers.{refusal_of};
ghost use Rattle.echo.specs.Session.{digest_bits_leaves, digest_bits_refusal, digest_leaves, digest_refusal};

use super::mode::Mode;
use super::refusal::Refusal;
use super::refusals::{check_digest, check_digest_bits};
use super::session::Session;

// Puts the digest of the first `count` bits of the message at the front of `out`, whose bytes behind it stay. Refused as `NotAdmitted`, `NoSalt`,
// `TooLong`, `NoRoom`, `WrongSize` or `SetBelow`, it writes nothing: every refusal comes before any work. The message is read where it lies and
// never copied whole.
pub fn digest_bits(
    mode: Mode,
    bits: u64,
    salt: &[u8],
    message: &[u8],
    count: u64,
    out: &mut [u8],
) -> Result<(), Refusal>
    ensures refusal { refusal_of result ≡ digest_bits_refusal bits (length salt.now) message.now count (length out.old) }
    ensures left { out.new ≡ digest_bits_leaves mode bits salt.now message.now count out.old }
{
    check_digest_bits(bits, salt.len(), message, count, out.len())?;
    let opened = Session::open(mode, bits, salt)?;
    let whole = opened.add_bits(message, count)?;
    whole.read(out)?;
    Ok(())
}

// The same of a message of whole bytes. Refused as `NotAdmitted`, `NoSalt`, `TooLong` or `NoRoom`.
pub fn digest(
    mode: Mode,
    bits: u64,
    salt: &[u8],
    message: &[u8],
    out: &mut [u8],
) -> Result<(), Refusal>
    ensures refusal { refusal_of result ≡ digest_refusal bits (length salt.now) (length message.now) (length out.old) }
    ensures left { out.new ≡ digest_leaves mode bits salt.now message.now out.old }
{
    check_digest(bits, salt.len(), message.len(), out.len())?;
    digest_bits(mode, bits, salt, message, 8 * (message.len() as u64), out)
}
