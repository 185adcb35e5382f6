// The digest of a file, and the line that is printed of it.
ghost use Rattle.std.specs.Prelude.{◌≤◌, IfOk};

use super::help::PROGRAM;
use super::saying::say_too_long;
use super::style::{Style, put_line};
use command::{Failed, open};
use echo::Session;
use host::{NO_FILE, Source};
use lines::Line;

// A file that can't be read, which is said. It ends that file alone, where `Failed` ends the run.
#[derive(Clone, Copy)]
pub(crate) struct Unread;

// Why a file has no digest.
#[derive(Clone, Copy)]
pub(crate) enum NoDigest {
    // It is missing, and missing files are passed over.
    Missing,
    Unread,
}

impl From<Unread> for NoDigest {
    fn from(_unread: Unread) -> NoDigest {
        NoDigest::Unread
    }
}

// Reads once and adds what came. None is the end of the file.
fn add_some(
    rt: &HostRuntime,
    from: &mut Source,
    name: &[u8],
    session: Session,
) -> Result<Option<Session>, Unread> {
    let mut room = [0u8; 65536];
    let n = match host::read(from, &mut room) {
        Ok(n) => n,
        Err(error) => {
            PROGRAM.say_why(rt, name, error);
            return Err(Unread);
        }
    };
    if n == 0 {
        return Ok(None);
    }
    match session.add(&room[..n]) {
        Ok(longer) => Ok(Some(longer)),
        Err(_) => {
            say_too_long(rt, name);
            Err(Unread)
        }
    }
}

// Reads to the end of the file. Nothing says that a file ends, so the turns are counted, up to a number that no run comes to.
fn add_all(
    rt: &HostRuntime,
    from: &mut Source,
    name: &[u8],
    mut session: Session,
) -> Result<Session, Unread> {
    for _ in 0..u64::MAX {
        match add_some(rt, from, name, session)? {
            Some(more) => session = more,
            None => return Ok(session),
        }
    }
    Err(Unread)
}

// Puts the digest of what is read at the front of the room, and answers its length.
fn digest_into(
    rt: &HostRuntime,
    session: Session,
    from: &mut Source,
    name: &[u8],
    room: &mut [u8; 64],
) -> Result<usize, Unread>
    ensures { IfOk result (λ length. length ≤ 64) }
{
    let whole = add_all(rt, from, name, session)?;
    // No opened session is refused here. That this one was not shows that its digest fits the room.
    match whole.read(room) {
        Ok(_) => Ok((whole.bits / 8) as usize),
        Err(_) => Err(Unread),
    }
}

// Prints the line of what is read, and answers whether there is one. A line holds a name of 4,096 bytes, each of them escaped, and what stands
// around it.
fn sum(
    rt: &HostRuntime,
    session: Session,
    from: &mut Source,
    name: &[u8],
    style: Style,
) -> Result<bool, Failed> {
    let mut digest = [0u8; 64];
    let Ok(n) = digest_into(rt, session, from, name, &mut digest) else {
        return Ok(false);
    };
    let mut line = Line::<8448>::new();
    put_line(&mut line, style, &digest[..n], name);
    PROGRAM.print(rt, line.bytes())?;
    Ok(true)
}

// The line of a file.
pub(crate) fn sum_named(
    rt: &HostRuntime,
    session: Session,
    name: &[u8],
    style: Style,
) -> Result<bool, Failed> {
    match open(rt, name) {
        Ok(mut from) => sum(rt, session, &mut from, name, style),
        Err(error) => {
            PROGRAM.say_why(rt, name, error);
            Ok(false)
        }
    }
}

// The digest of what is read, with zeros behind it.
fn digest_of(
    rt: &HostRuntime,
    session: Session,
    from: &mut Source,
    name: &[u8],
) -> Result<[u8; 64], NoDigest> {
    let mut digest = [0u8; 64];
    digest_into(rt, session, from, name, &mut digest)?;
    Ok(digest)
}

// The digest of a file. Where missing files are passed over, that one is missing is not said.
pub(crate) fn digest_named(
    rt: &HostRuntime,
    session: Session,
    name: &[u8],
    passes_missing: bool,
) -> Result<[u8; 64], NoDigest> {
    match open(rt, name) {
        Ok(mut from) => digest_of(rt, session, &mut from, name),
        Err(error) if passes_missing && error == NO_FILE => Err(NoDigest::Missing),
        Err(error) => {
            PROGRAM.say_why(rt, name, error);
            Err(NoDigest::Unread)
        }
    }
}
