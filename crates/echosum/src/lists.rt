// Lists of digests, read line by line and checked.
use super::checking::Tally;
use super::help::PROGRAM;
use super::options::{Options, Printed};
use super::saying::{
    say_endless, say_improper, say_mismatched, say_no_lines, say_none_verified, say_unread,
};
use command::Failed;
use host::Source;

// A line that goes on for longer ends the reading, since it may never end.
const LONGEST: usize = 1048576;

// Why a list is not taken to its end, which is said.
#[derive(Clone, Copy)]
enum Stopped {
    Unread,
    Unwritten,
}

impl From<Failed> for Stopped {
    fn from(_unwritten: Failed) -> Stopped {
        Stopped::Unwritten
    }
}

// A list that is being read.
#[derive(Drop)]
struct Reading {
    // The line at hand. The room holds a tagged line with a name of 4,096 bytes, each of them escaped, and the length counts the bytes that
    // found no room too.
    line: [u8; 8448],
    length: usize,
    tally: Tally,
}

// A whole line, which may be empty, a comment, or longer than its room.
fn take_line(
    rt: &HostRuntime,
    line: &[u8],
    length: usize,
    tally: &mut Tally,
    options: &Options,
) -> Result<(), Failed> {
    if length == 0 || line.starts_with(b"#") {
        return Ok(());
    }
    let Some(text) = line.get(..length) else {
        tally.count_improper();
        return Ok(());
    };
    match text {
        [b'\r'] => Ok(()),
        [text @ .., b'\r'] => tally.take_line(rt, text, options),
        _ => tally.take_line(rt, text, options),
    }
}

impl Reading {
    fn begun(is_input: bool) -> Reading {
        Reading {
            line: [0; 8448],
            length: 0,
            tally: Tally::begun(is_input),
        }
    }

    // The line at hand is whole.
    fn end_line(&mut self, rt: &HostRuntime, options: &Options) -> Result<(), Failed> {
        let length = self.length;
        self.length = 0;
        take_line(rt, &self.line, length, &mut self.tally, options)
    }

    fn take_byte(
        &mut self,
        rt: &HostRuntime,
        byte: u8,
        list: &[u8],
        options: &Options,
    ) -> Result<(), Stopped> {
        if byte == b'\n' {
            self.end_line(rt, options)?;
            return Ok(());
        }
        if LONGEST <= self.length {
            say_endless(rt, list);
            return Err(Stopped::Unread);
        }
        let at = self.length;
        if at < self.line.len() {
            self.line[at] = byte;
        }
        self.length = at + 1;
        Ok(())
    }

    // Reads once, and answers whether there may be more. A last line without a line end is a line too.
    fn read_some(
        &mut self,
        rt: &HostRuntime,
        from: &mut Source,
        list: &[u8],
        options: &Options,
    ) -> Result<bool, Stopped> {
        let mut room = [0u8; 65536];
        let n = match host::read(from, &mut room) {
            Ok(n) => n,
            Err(error) => {
                PROGRAM.say_why(rt, list, error);
                return Err(Stopped::Unread);
            }
        };
        if n == 0 {
            self.end_line(rt, options)?;
            return Ok(false);
        }
        for byte in &room[..n] {
            self.take_byte(rt, *byte, list, options)?;
        }
        Ok(true)
    }
}

// Reads to the end of a list. Nothing says that a list ends, so the turns are counted, up to a number that no run comes to.
fn read_all(
    rt: &HostRuntime,
    from: &mut Source,
    list: &[u8],
    is_input: bool,
    options: &Options,
) -> Result<Tally, Stopped> {
    let mut reading = Reading::begun(is_input);
    for _ in 0..u64::MAX {
        if !reading.read_some(rt, from, list, options)? {
            break;
        }
    }
    Ok(reading.tally)
}

// Says what was wrong with a list, and answers whether all is well.
fn conclude(rt: &HostRuntime, tally: &Tally, list: &[u8], options: &Options) -> bool {
    if !tally.has_proper {
        say_no_lines(rt, list);
    } else if !matches!(options.printed, Printed::None) {
        say_improper(rt, tally.improper);
        say_unread(rt, tally.unread);
        say_mismatched(rt, tally.mismatched);
        if options.passes_missing && !tally.has_match {
            say_none_verified(rt, list);
        }
    }
    tally.is_verified(options.is_strict)
}

fn check_all(
    rt: &HostRuntime,
    from: &mut Source,
    list: &[u8],
    is_input: bool,
    options: &Options,
) -> Result<bool, Failed> {
    match read_all(rt, from, list, is_input, options) {
        Ok(tally) => Ok(conclude(rt, &tally, list, options)),
        Err(Stopped::Unread) => Ok(false),
        Err(Stopped::Unwritten) => Err(Failed),
    }
}

// Checks the lines of a list, and answers whether all is well. A dash is standard input.
pub(crate) fn check_list(rt: &HostRuntime, list: &[u8], options: &Options) -> Result<bool, Failed> {
    let mut from = match command::open(rt, list) {
        Ok(from) => from,
        Err(error) => {
            PROGRAM.say_why(rt, list, error);
            return Ok(false);
        }
    };
    match list {
        b"-" => check_all(rt, &mut from, b"standard input", true, options),
        _ => check_all(rt, &mut from, list, false, options),
    }
}
