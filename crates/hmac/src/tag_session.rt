// Tag sessions: a tag over the pieces of a message.
ghost use Rattle.std.specs.Prelude.{true, ◌≡◌, IfOk, length};
ghost use Rattle.echo.specs.Answers.{refusal_of};
ghost use Rattle.hmac.specs.Answers.{checking_of, tag_answer_of};
ghost use Rattle.hmac.specs.TagSession.{add_tag_answer, blank_tag, check_tag_answer, closed_by, counts_fit, is_tag_session, open_tag_answer, open_tag_refusal};
ghost use Rattle.hmac.specs.TagSession.{opened_tag, read_tag_answer, read_tag_leaves, read_tag_refusal};

use super::comparison::same;
use super::key_block::{block_size, key_block, keyed};
use echo::{Mode, Refusal, Session};

// A tag that is under way. It is passed by value, and each call hands it back. It is worth as much as its key: whoever reads it can make tags.
#[derive(Clone, Copy)]
pub struct TagSession {
    // the digest of K0 xored with ipad, and of the message so far
    pub inner: Session,
    // the digest of K0 xored with opad
    pub outer: Session,
}

// Why a call is refused, and the session as it came.
#[derive(Clone, Copy)]
pub struct RefusedTag {
    pub refusal: Refusal,
    pub session: TagSession,
}

impl From<RefusedTag> for Refusal {
    ghost from_gives = { λ refused refusal. refusal ≡ refused.refusal };

    fn from(refused: RefusedTag) -> Refusal {
        refused.refusal
    }
}

// Whether a tag is right, and the session as it came.
#[derive(Clone, Copy)]
pub struct Checked {
    pub yes: bool,
    pub session: TagSession,
}

// Whether an outer session has the bits of one block, and an inner one at least those, in whole bytes.
fn counts_fit(inner: u64, outer: u64, bits: u64) -> bool
    ensures { result ≡ counts_fit inner outer bits }
{
    let b = 8 * (block_size(bits) as u64);
    outer == b && b <= inner && inner % 8 == 0
}

impl TagSession {
    // Two blank sessions, which are no tag session. A refused opening of a digest hands a blank one out, and no digest has 0 bits.
    fn blank() -> TagSession
        ensures { result ≡ blank_tag }
    {
        let none = Session::open(Mode::DoublePipe, 0, b"").unwrap_err().session;
        TagSession {
            inner: none,
            outer: none,
        }
    }

    // Itself, handed back as it came.
    fn refused(self, refusal: Refusal) -> RefusedTag
        ensures { result ≡ record { refusal = refusal; session = self } }
    {
        RefusedTag {
            refusal,
            session: self,
        }
    }

    // Two sessions that begin with the key, or why there are none. A refusal that carries sessions takes a kilobyte of stack, so that the routines of
    // whole messages call this, and not `open`.
    pub(crate) fn begun(bits: u64, salt: &[u8], key: &[u8]) -> Result<TagSession, Refusal>
        ensures refusal { refusal_of result ≡ open_tag_refusal bits (length salt.now) (length key.now) }
        ensures session { IfOk result (λ session. session ≡ opened_tag bits salt.now key.now) }
    {
        let fresh = Session::open(Mode::DoublePipe, bits, salt)?;
        let block = key_block(bits, salt, key)?;
        Ok(TagSession {
            inner: keyed(fresh, block, 0x36),
            outer: keyed(fresh, block, 0x5c),
        })
    }

    // A session for tags of so many bits under a salt and a key. Refused as `NotAdmitted`, `NoSalt` or `TooLong` (the key), it hands the blank one
    // out.
    pub fn open(bits: u64, salt: &[u8], key: &[u8]) -> Result<TagSession, RefusedTag>
        ensures { tag_answer_of result ≡ open_tag_answer bits salt.now key.now }
    {
        match TagSession::begun(bits, salt, key) {
            Ok(session) => Ok(session),
            Err(refusal) => Err(TagSession::blank().refused(refusal)),
        }
    }

    // Whether the record is a tag session.
    pub fn is_session(self) -> bool
        ensures { result ≡ is_tag_session self }
    {
        if !self.inner.is_session() {
            return false;
        }
        if !self.outer.is_session() {
            return false;
        }
        if self.inner.mode != Mode::DoublePipe {
            return false;
        }
        if self.outer.mode != Mode::DoublePipe {
            return false;
        }
        if self.inner.bits != self.outer.bits {
            return false;
        }
        if !same(&self.inner.salt, &self.outer.salt) {
            return false;
        }
        counts_fit(self.inner.taken, self.outer.taken, self.outer.bits)
    }

    // The session with the piece joined to its message. Refused as `NoSession` or `TooLong`.
    pub fn add(self, piece: &[u8]) -> Result<TagSession, RefusedTag>
        ensures { tag_answer_of result ≡ add_tag_answer self piece.now }
    {
        if !self.is_session() {
            return Err(self.refused(Refusal::NoSession));
        }
        match self.inner.add(piece) {
            Ok(inner) => Ok(TagSession { inner, ..self }),
            Err(refused) => Err(self.refused(refused.refusal)),
        }
    }

    // The outer session with the digest of the inner one.
    fn closed(self) -> Session
        requires { is_tag_session self ≡ true }
        ensures { result ≡ closed_by self }
    {
        let n = (self.inner.bits / 8) as usize;
        let mut digest = [0u8; 64];
        let _ = self.inner.read(&mut digest);
        self.outer.add(&digest[..n]).unwrap()
    }

    // Puts the tag of the message so far at the front of `out`. What hands the session back, as `read` does, takes a kilobyte of stack more.
    pub(crate) fn put_tag(self, out: &mut [u8]) -> Result<(), Refusal>
        ensures refusal { refusal_of result ≡ read_tag_refusal self (length out.old) }
        ensures left { out.new ≡ read_tag_leaves self out.old }
    {
        if !self.is_session() {
            return Err(Refusal::NoSession);
        }
        let closed = self.closed();
        closed.read(out)?;
        Ok(())
    }

    // Puts the tag of the message so far at the front of `out`, whose bytes behind it stay, and hands the session back as it came. Refused as
    // `NoSession` or `NoRoom`, it writes nothing.
    pub fn read(self, out: &mut [u8]) -> Result<TagSession, RefusedTag>
        ensures answer { tag_answer_of result ≡ read_tag_answer self (length out.old) }
        ensures left { out.new ≡ read_tag_leaves self out.old }
    {
        match self.put_tag(out) {
            Ok(()) => Ok(self),
            Err(refusal) => Err(self.refused(refusal)),
        }
    }

    // Whether the tag is that of the message so far, all of it and nothing else; and the session as it came. Refused as `NoSession`.
    pub fn check(self, tag: &[u8]) -> Result<Checked, RefusedTag>
        ensures { checking_of result ≡ check_tag_answer self tag.now }
    {
        if !self.is_session() {
            let refused = self.refused(Refusal::NoSession);
            return Err(refused);
        }
        let closed = self.closed();
        let n = (closed.bits / 8) as usize;
        let mut own = [0u8; 64];
        let _ = closed.read(&mut own);
        Ok(Checked {
            yes: same(&own[..n], tag),
            session: self,
        })
    }
}
