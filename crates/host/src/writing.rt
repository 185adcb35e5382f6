// Writing to the standard streams, and to a descriptor by its number.
ghost use Rattle.std.specs.Prelude.{◌≡◌, ◌<ℤ◌, Err, OnOk, pos};
ghost use Rattle.std.specs.Io.KnownBytes.{Appends};

use super::descriptors::Descriptor;
use super::errors::{Error, NO_DESCRIPTOR, NOT_WRITTEN};
use std::fs::OpenOptions;
use std::io::Write;

// Writes all of the bytes, or stops at the first write that takes nothing or fails, when some of them may be written. Of no bytes it makes
// no call. A write that a signal interrupts before it takes a byte is one that failed.
pub fn write_all<W: Write>(to: &mut W, bytes: &[u8]) -> Result<(), Error>
    ensures { OnOk result (Appends (W.contents to.old) (W.contents to.new) bytes.now) }
{
    let mut rest = bytes;
    while !rest.is_empty() {
        match to.write(rest)? {
            0 => return Err(NOT_WRITTEN),
            n => rest = &rest[n..],
        }
    }
    Ok(())
}

// Writes to standard output.
pub fn print(rt: &HostRuntime, bytes: &[u8]) -> Result<(), Error> {
    write_all(&mut rt.stdout(), bytes)
}

// Writes to standard error.
pub fn say(rt: &HostRuntime, bytes: &[u8]) -> Result<(), Error> {
    write_all(&mut rt.stderr(), bytes)
}

// Writes to the descriptor of a number from 3 to 9 where that is open for writing; with any other it answers 9. It is opened once more, by its name:
// std has no other way to one that it did not open. What is a file is written behind its end, and not where the descriptor stands.
pub fn write_to(rt: &HostRuntime, descriptor: i32, bytes: &[u8]) -> Result<(), Error>
    ensures low { descriptor <ℤ pos 3 → result ≡ Err (record { number = pos 9 }) }
    ensures high { pos 9 <ℤ descriptor → result ≡ Err (record { number = pos 9 }) }
{
    let given = Descriptor::of(descriptor).ok_or(NO_DESCRIPTOR)?;
    if !given.is_for_writing(rt) {
        return Err(NO_DESCRIPTOR);
    }
    let mut file = OpenOptions::new().append(true).open(rt, given.path)?;
    write_all(&mut file, bytes)
}
