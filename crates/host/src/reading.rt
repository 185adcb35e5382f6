// Reading of standard input and of files.
ghost use Rattle.std.specs.Prelude.{◌≡◌, ◌<◌, Err, IfOk, OnOk, length, pos, take};
ghost use Rattle.std.specs.Str.{IsUtf8};
ghost use Rattle.std.specs.Counts.{IsPrefixLen};
ghost use Rattle.std.specs.Io.{ReadsAtMost};
ghost use Rattle.std.specs.Io.KnownBytes.{Consumes, IsAtEnd, ReadConsumes};

use super::errors::{Error, NO_TEXT};
use std::fs::File;
use std::io;
use std::io::{Read, Stdin};

// What is read from. A file is closed where its source is dropped.
#[derive(Drop)]
pub enum Source {
    Input(Stdin),
    File(File),
}

impl Read for Source {
    fn read(&mut self, room: &mut [u8]) -> io::Result<usize> {
        match self {
            Source::Input(input) => input.read(room),
            Source::File(file) => file.read(room),
        }
    }
}

pub fn standard_input(rt: &HostRuntime) -> Source
    ensures { (input : _) × (result ≡ Source.Input input) }
{
    Source::Input(rt.stdin())
}

// Opens the file for reading. std takes text for a name, so a file whose name is none can't be opened.
pub fn open(rt: &HostRuntime, name: &[u8]) -> Result<Source, Error>
    ensures { ¬ (IsUtf8 name.now) → result ≡ Err (record { number = pos 84 }) }
{
    let Ok(path) = str::from_utf8(name) else {
        return Err(NO_TEXT);
    };
    Ok(Source::File(File::open(rt, path)?))
}

// Reads once, and answers how many bytes came: none where the input ends.
pub fn read<R: Read>(from: &mut R, room: &mut [u8]) -> Result<usize, Error>
    ensures within { ReadsAtMost result room.new }
    ensures bytes { ReadConsumes (R.remaining from.old) (R.remaining from.new) result room.new }
{
    Ok(from.read(room)?)
}

// Reads until the room is full, the input ends or a read fails: how many bytes it put at the front of the room, and what ended it.
fn fill<R: Read>(from: &mut R, room: &mut [u8]) -> (usize, Result<(), Error>)
    ensures within { IsPrefixLen result.0 room.new }
    ensures bytes { Consumes (R.remaining from.old) (R.remaining from.new) (take result.0 room.new) }
    ensures end { OnOk result.1 (result.0 < length room.new → IsAtEnd (R.remaining from.new)) }
{
    let mut done = 0;
    while done < room.len() {
        match read(from, &mut room[done..]) {
            Ok(0) => return (done, Ok(())),
            Ok(n) => done += n,
            Err(error) => return (done, Err(error)),
        }
    }
    (done, Ok(()))
}

// Reads until the room is full, the input ends or a read fails, and answers how many bytes it put at the front of the room.
pub fn read_full<R: Read>(from: &mut R, room: &mut [u8]) -> usize
    ensures within { IsPrefixLen result room.new }
    ensures bytes { Consumes (R.remaining from.old) (R.remaining from.new) (take result room.new) }
{
    fill(from, room).0
}

// The same, but a read that fails is told: what came before it is not all of the input.
pub fn read_all<R: Read>(from: &mut R, room: &mut [u8]) -> Result<usize, Error>
    ensures within { ReadsAtMost result room.new }
    ensures bytes { IfOk result (λ n. Consumes (R.remaining from.old) (R.remaining from.new) (take n room.new)) }
    ensures end { IfOk result (λ n. n < length room.new → IsAtEnd (R.remaining from.new)) }
{
    let (n, ended) = fill(from, room);
    ended?;
    Ok(n)
}
