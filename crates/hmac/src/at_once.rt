// Tags of whole messages.
ghost use Rattle.std.specs.Prelude.{◌≡◌, length};
ghost use Rattle.echo.specs.Answers.{refusal_of};
ghost use Rattle.hmac.specs.Answers.{unverified_number, verdict_of, verification_of};
ghost use Rattle.hmac.specs.Routines.{check_answer, make_leaves, make_refusal, verify_refusal};
ghost use Rattle.hmac.specs.declared.at_once.Unverified.TheVariants.{Refused};

use super::tag_session::TagSession;
use echo::Refusal;

// Why a tag is not verified.
#[derive(Clone, Copy, PartialEq, Eq, Debug)]
pub enum Unverified {
    // the check is refused
    Refused(Refusal),
    // the tag is not that of the message, all of it and nothing else
    WrongTag,
}

impl From<Refusal> for Unverified {
    ghost from_gives = { λ refusal unverified. unverified ≡ Refused refusal };

    fn from(refusal: Refusal) -> Unverified {
        Unverified::Refused(refusal)
    }
}

impl Unverified {
    // The number that C has for it, where 0 is none.
    pub fn number(self) -> u8
        ensures { result ≡ unverified_number self }
    {
        match self {
            Unverified::Refused(refusal) => refusal.number(),
            Unverified::WrongTag => 19,
        }
    }
}

// Puts the tag of the message at the front of `out`, whose bytes behind it stay. Refused as `NotAdmitted`, `NoSalt`, `TooLong` or `NoRoom`, it
// writes nothing.
pub fn make_tag(
    bits: u64,
    salt: &[u8],
    key: &[u8],
    message: &[u8],
    out: &mut [u8],
) -> Result<(), Refusal>
    ensures refusal { refusal_of result ≡ make_refusal bits (length salt.now) (length key.now) (length message.now) (length out.old) }
    ensures left { out.new ≡ make_leaves bits salt.now key.now message.now out.old }
{
    let opened = TagSession::begun(bits, salt, key)?;
    let whole = opened.add(message)?;
    whole.put_tag(out)
}

// Whether the tag is that of the message, all of it and nothing else. Refused as `NotAdmitted`, `NoSalt` or `TooLong`.
pub fn check_tag(
    bits: u64,
    salt: &[u8],
    key: &[u8],
    message: &[u8],
    tag: &[u8],
) -> Result<bool, Refusal>
    ensures { verdict_of result ≡ check_answer bits salt.now key.now message.now tag.now }
{
    let opened = TagSession::begun(bits, salt, key)?;
    let whole = opened.add(message)?;
    let checked = whole.check(tag)?;
    Ok(checked.yes)
}

// `Ok` where the tag is that of the message, all of it and nothing else, and there alone.
pub fn verify_tag(
    bits: u64,
    salt: &[u8],
    key: &[u8],
    message: &[u8],
    tag: &[u8],
) -> Result<(), Unverified>
    ensures { verification_of result ≡ verify_refusal bits salt.now key.now message.now tag.now }
{
    match check_tag(bits, salt, key, message, tag) {
        Ok(true) => Ok(()),
        Ok(false) => Err(Unverified::WrongTag),
        Err(refusal) => Err(Unverified::Refused(refusal)),
    }
}
