// Digest sessions as a case gives them, and as they are printed.
ghost use Rattle.std.specs.Prelude.{◌+◌, ◌++◌, ◌∷◌, ◌≡◌, ◌≤◌, drop, take};
ghost use Rattle.cases_in.specs.Sessions.{count_in, counted, parts_text, session_in, session_text};
ghost use Rattle.lines.specs.Decimal.{decimal_of};
ghost use Rattle.lines.specs.Hexadecimal.{digits_of};
ghost use Rattle.lines.specs.Lines.{spread};

use super::fields::Fields;
use super::modes::{mode_of, number_of};
use echo::Session;
use lines::Line;

// A record, session or not, and the count that it comes with: the message bits so far, or the bytes.
#[derive(Clone, Copy)]
pub struct Given {
    pub session: Session,
    pub count: u64,
}

// The N bytes from a place on.
fn part<const N: usize>(bytes: &[u8; 385], at: usize) -> [u8; N]
    requires { at + N ≤ 385 }
    ensures { result ≡ take N (drop at bytes.now) }
{
    Fields::new(&bytes[at..]).array().unwrap()
}

// The record in these bytes. The highest count stands for one whose bits don't fit a number, and is no session's either.
pub fn given_session(bytes: &[u8; 385], in_bits: bool) -> Given
    ensures session { result.session ≡ session_in in_bits bytes.now }
    ensures count { result.count ≡ count_in bytes.now }
{
    let count = u64::from_le_bytes(part(bytes, 8));
    let taken = if in_bits {
        count
    } else {
        count.saturating_mul(8)
    };
    let session = Session {
        mode: mode_of(bytes[384]),
        bits: u64::from_le_bytes(part(bytes, 0)),
        salt: part(bytes, 16),
        chaining: part(bytes, 32),
        taken,
        waiting: part(bytes, 160),
    };
    Given { session, count }
}

// The count of a session that is handed back, in bits or in bytes. A record whose bits don't fit a number comes back as it was given.
pub fn counted(in_bits: bool, given: u64, taken: u64) -> u64
    ensures { result ≡ counted in_bits given taken }
{
    if in_bits {
        return taken;
    }
    match given.checked_mul(8) {
        Some(_) => taken / 8,
        None => given,
    }
}

// Puts a space and a number.
fn put_number<const N: usize>(line: &mut Line<N>, number: u64)
    ensures { line.new ≡ take N (line.old ++ 32 ∷ decimal_of number) }
{
    line.text(b" ").decimal(number);
}

// Puts a space and bytes in hex.
fn put_bytes<const N: usize>(line: &mut Line<N>, bytes: &[u8])
    ensures { line.new ≡ take N (line.old ++ 32 ∷ spread digits_of bytes.now) }
{
    line.text(b" ").hex(bytes);
}

// Puts what a session is without its mode, each part behind a space, and of the waiting block so many bytes.
fn put_parts<const N: usize>(line: &mut Line<N>, session: &Session, count: u64, shown: usize)
    requires { shown ≤ 224 }
    ensures { line.new ≡ take N (line.old ++ parts_text shown count session.now) }
{
    put_number(line, session.bits);
    put_number(line, count);
    put_bytes(line, &session.salt);
    put_bytes(line, &session.chaining);
    put_bytes(line, &session.waiting[..shown]);
}

// Puts a session, each part behind a space: the mode and the whole waiting block only where all is printed, else its first 192 bytes.
pub fn put_session<const N: usize>(line: &mut Line<N>, session: Session, count: u64, all: bool)
    ensures { line.new ≡ take N (line.old ++ session_text all count session) }
{
    if all {
        put_number(line, number_of(session.mode));
        put_parts(line, &session, count, 224);
    } else {
        put_parts(line, &session, count, 192);
    }
}
