// Sessions: a digest over the pieces of a message.
ghost use Rattle.std.specs.Prelude.{◌≡◌, ◌&&◌, ◌==◌, length, not};
ghost use Rattle.echo.specs.Answers.{answer_of, refusal_of};
ghost use Rattle.echo.specs.Session.{add_answer, add_bits_answer, add_bits_refusal, behind_part, blank, is_session, open_answer, read_answer, read_leaves};

use super::bits::zero_bits_from;
use super::families::{admitted, block_size, chaining_size};
use super::initial::initial;
use super::lent::{copy_in, sixteen};
use super::mode::Mode;
use super::refusal::Refusal;
use super::refusals::BIT_LIMIT;
use super::waiting::zeros_from;

// A digest that is under way. It is passed by value, and each call hands it back.
#[derive(Clone, Copy)]
pub struct Session {
    pub mode: Mode,
    // the digest length
    pub bits: u64,
    pub salt: [u8; 16],
    // the chaining variable, 32 to 128 bytes by mode and digest length, and zeros behind it
    pub chaining: [u8; 128],
    // the message bits so far
    pub taken: u64,
    // those that don't fill a block yet, the most significant bit of a byte first, and zeros behind them
    pub waiting: [u8; 224],
}

// Why a call is refused, and the session as it came.
#[derive(Clone, Copy)]
pub struct Refused {
    pub refusal: Refusal,
    pub session: Session,
}

impl From<Refused> for Refusal {
    ghost from_gives = { λ refused refusal. refusal ≡ refused.refusal };

    fn from(refused: Refused) -> Refusal {
        refused.refusal
    }
}

// Whether so many bits would stand behind a part byte.
fn behind_part(taken: u64, count: u64) -> bool
    ensures { result ≡ behind_part taken count }
{
    taken % 8 != 0 && count != 0
}

impl Session {
    // Double-pipe, else all zero, and no session.
    fn blank() -> Self
        ensures { result ≡ blank }
    {
        Session {
            mode: Mode::DoublePipe,
            bits: 0,
            salt: [0; 16],
            chaining: [0; 128],
            taken: 0,
            waiting: [0; 224],
        }
    }

    // Itself, handed back as it came.
    fn refused(self, refusal: Refusal) -> Refused
        ensures { result ≡ record { refusal = refusal; session = self } }
    {
        Refused {
            refusal,
            session: self,
        }
    }

    // A session for digests of so many bits in a mode under a salt. Refused as `NotAdmitted` or `NoSalt`, it hands the blank one out.
    pub fn open(mode: Mode, bits: u64, salt: &[u8]) -> Result<Session, Refused>
        ensures { answer_of result ≡ open_answer mode bits salt.now }
    {
        if !admitted(bits) {
            return Err(Session::blank().refused(Refusal::NotAdmitted));
        }
        if salt.len() != 16 {
            return Err(Session::blank().refused(Refusal::NoSalt));
        }
        Ok(Session {
            mode,
            bits,
            salt: sixteen(salt, 0),
            chaining: initial(mode, bits),
            taken: 0,
            waiting: [0; 224],
        })
    }

    // Whether the record is a session.
    pub fn is_session(self) -> bool
        ensures { result ≡ is_session self }
    {
        if !admitted(self.bits) || BIT_LIMIT < self.taken {
            return false;
        }
        let within = self.taken % (8 * (block_size(self.mode, self.bits) as u64));
        zero_bits_from(&self.waiting, within)
            && zeros_from(&self.chaining, chaining_size(self.mode, self.bits))
    }

    // What adding so many bits of a piece is refused for.
    fn check_add_bits(self, piece: &[u8], count: u64) -> Result<(), Refusal>
        ensures { refusal_of result ≡ add_bits_refusal self piece.now count }
    {
        if !self.is_session() {
            return Err(Refusal::NoSession);
        }
        if BIT_LIMIT - self.taken < count {
            return Err(Refusal::TooLong);
        }
        if piece.len() as u64 != (count + 7) / 8 {
            return Err(Refusal::WrongSize);
        }
        if behind_part(self.taken, count) {
            return Err(Refusal::BehindPart);
        }
        if !zero_bits_from(piece, count) {
            return Err(Refusal::SetBelow);
        }
        Ok(())
    }

    // The session with so many bits, the first of the piece's bytes, joined to its message. Refused as `NoSession`, `TooLong`, `WrongSize` (bytes
    // that are not the bit count over 8, rounded up), `BehindPart` or `SetBelow`.
    pub fn add_bits(self, piece: &[u8], count: u64) -> Result<Session, Refused>
        ensures { answer_of result ≡ add_bits_answer self piece.now count }
    {
        // and not `map_err(..)?`: what a closure ensures comes out as a chain of records that no law of plain variables fits
        if let Err(refusal) = self.check_add_bits(piece, count) {
            return Err(self.refused(refusal));
        }
        let mut longer = self;
        longer.absorb(piece, count);
        Ok(longer)
    }

    // The session with a piece of whole bytes joined to its message. Refused as `NoSession`, `TooLong` or `BehindPart`.
    pub fn add(self, piece: &[u8]) -> Result<Session, Refused>
        ensures { answer_of result ≡ add_answer self piece.now }
    {
        // where eight bits for each byte can't be counted, the highest number is past the limit as well
        self.add_bits(piece, (piece.len() as u64).saturating_mul(8))
    }

    // Puts the digest of the message so far at the front of `out`, whose bytes behind it stay, and hands the session back as it came. Refused as
    // `NoSession` or `NoRoom`, it writes nothing.
    pub fn read(self, out: &mut [u8]) -> Result<Session, Refused>
        ensures answer { answer_of result ≡ read_answer self (length out.old) }
        ensures left { out.new ≡ read_leaves self out.old }
    {
        if !self.is_session() {
            return Err(self.refused(Refusal::NoSession));
        }
        let n = (self.bits / 8) as usize;
        if out.len() < n {
            return Err(self.refused(Refusal::NoRoom));
        }
        let v = self.finish();
        copy_in(out, 0, &v[..n]);
        Ok(self)
    }
}
