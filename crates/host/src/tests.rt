// Fake words, readers and writers, that fail where the system seldom does; and what the system itself answers.
ghost use Rattle.std.specs.Io.{WritesAtMost};

use super::descriptors::allows_writing;
use super::{
    Error, Source, open, read, read_all, read_full, standard_input, word, word_count, write_all,
    write_to,
};
use std::env::{Env, FillError};
use std::io;
use std::io::{Read, Write};
use std::test::Fail;

// Three words, the second of which is empty.
struct Words;

impl Env for Words {
    fn arg(&self, i: usize, room: &mut [u8]) -> Result<usize, FillError> {
        match i {
            0 => fill(b"program", room),
            1 => Ok(0),
            2 => fill(b"abc", room),
            _ => Err(FillError::NotPresent),
        }
    }

    fn var(&self, _name: &str, _room: &mut [u8]) -> Result<usize, FillError> {
        Err(FillError::NotPresent)
    }

    fn var_at(&self, _i: usize, _room: &mut [u8]) -> Result<usize, FillError> {
        Err(FillError::NotPresent)
    }
}

fn fill(bytes: &[u8], room: &mut [u8]) -> Result<usize, FillError>
    ensures { WritesAtMost result room.new }
{
    if room.len() < bytes.len() {
        return Err(FillError::TooLong);
    }
    room[..bytes.len()].copy_from_slice(bytes);
    Ok(bytes.len())
}

#[test]
fn words_are_counted_and_cut(rt: HostRuntime) {
    assert_eq!(rt; word_count(&Words), 3);
    let mut room = [0u8; 7];
    assert_eq!(rt; word(&Words, 0, &mut room), 7);
    assert_eq!(rt; room, *b"program");
    assert_eq!(rt; word(&Words, 1, &mut room), 0);
    assert_eq!(rt; word(&Words, 2, &mut room), 3);
    let mut small = [0u8; 2];
    assert_eq!(rt; word(&Words, 2, &mut small), 2);
}

// Two bytes a turn, and an error behind so many turns, or the end.
#[derive(Drop)]
struct Halting {
    turns: u8,
    fails: bool,
}

impl Read for Halting {
    fn read(&mut self, room: &mut [u8]) -> io::Result<usize> {
        if self.turns == 0 {
            return if self.fails {
                Err(io::Error::from_raw_os_error(5))
            } else {
                Ok(0)
            };
        }
        self.turns -= 1;
        if room.len() < 2 {
            return Ok(0);
        }
        room[0] = self.turns;
        room[1] = 7;
        Ok(2)
    }
}

impl Write for Halting {
    fn write(&mut self, bytes: &[u8]) -> io::Result<usize> {
        if self.turns == 0 {
            return if self.fails {
                Err(io::Error::from_raw_os_error(28))
            } else {
                Ok(0)
            };
        }
        self.turns -= 1;
        Ok(bytes.len().min(2))
    }

    fn flush(&mut self) -> io::Result<()> {
        Ok(())
    }
}

#[test]
fn a_read_that_fails_is_told(rt: HostRuntime) {
    let mut room = [0u8; 8];
    let mut from = Halting {
        turns: 1,
        fails: true,
    };
    assert_eq!(rt; read(&mut from, &mut room), Ok(2));
    assert_eq!(rt; read(&mut from, &mut room), Err(Error { number: 5 }));
    for fails in [false, true] {
        let mut from = Halting { turns: 3, fails };
        assert_eq!(rt; read_full(&mut from, &mut room), 6);
        assert_eq!(rt; room, [2, 7, 1, 7, 0, 7, 0, 0]);
    }
    let mut from = Halting {
        turns: 9,
        fails: true,
    };
    assert_eq!(rt; read_full(&mut from, &mut room), 8);
    for (turns, fails, answer) in [
        (3, false, Ok(6)),
        (3, true, Err(Error { number: 5 })),
        (9, true, Ok(8)),
    ] {
        let mut from = Halting { turns, fails };
        assert_eq!(rt; read_all(&mut from, &mut room), answer);
    }
}

#[test]
fn a_write_that_fails_is_told(rt: HostRuntime) {
    for (turns, fails, answer) in [
        (2, true, Ok(())),
        (1, true, Err(Error { number: 28 })),
        (1, false, Err(Error { number: 5 })),
    ] {
        let mut to = Halting { turns, fails };
        assert_eq!(rt; write_all(&mut to, b"abc"), answer);
    }
    let mut to = Halting {
        turns: 0,
        fails: true,
    };
    assert_eq!(rt; write_all(&mut to, b""), Ok(()));
}

#[test]
fn what_cannot_be_opened_is_told(rt: HostRuntime) -> Result<(), Fail> {
    let names: [(&[u8], i32); 4] = [
        (b"no such file", 2),
        (b"", 2),
        (b"n\xff", 84),
        (b"a\0b", 22),
    ];
    for (name, number) in names {
        match open(&rt, name) {
            Ok(_) => assert!(rt; false),
            Err(error) => assert_eq!(rt; error.number, number),
        }
    }
    assert!(rt; open(&rt, b"/").is_ok());
    for descriptor in [-1, 2, 10] {
        assert_eq!(rt; write_to(&rt, descriptor, b"0\n"), Err(Error { number: 9 }));
    }
    match standard_input(&rt) {
        Source::Input(_) => Ok(()),
        Source::File(_) => Err("a file")?,
    }
}

// As Linux says it of descriptors that are open for reading, for writing, for both, and for nothing but their path.
#[test]
fn how_a_descriptor_is_open(rt: HostRuntime) {
    assert!(rt; !allows_writing(b"pos:\t0\nflags:\t0100000\nmnt_id:\t15\n"));
    assert!(rt; allows_writing(b"pos:\t0\nflags:\t0100001\nmnt_id:\t15\n"));
    assert!(rt; allows_writing(b"pos:\t7\nflags:\t02100002\nmnt_id:\t15\n"));
    assert!(rt; !allows_writing(b"pos:\t0\nflags:\t"));
    assert!(rt; !allows_writing(b"pos:\t1\n"));
    assert!(rt; !allows_writing(b""));
}
