#![tactic(auto)]
// Makes a steering table of the lines that list_table prints, from a file or from standard input, and writes its bytes to standard output; or prints
// `bad line N` alone, for the first line that is bad. Nothing is written before all of the text is known to be good.
mod help;
mod hexadecimal;
mod line;
mod options;
mod text;

ghost use Rattle.std.specs.Prelude.{◌≤◌, length};

use command::{Asked, Failed, give_verdict};
use help::{HELP, PROGRAM};
use lines::Line;
use options::Options;
use text::{BadLine, table_in};

// The longest text that is taken.
const LONGEST: usize = 65536;

fn print_bad_line(rt: &HostRuntime, bad: BadLine) -> Result<(), Failed> {
    let mut line = Line::<64>::new();
    line.text(b"bad line ")
        .decimal(bad.number as u64)
        .text(b"\n");
    PROGRAM.print(rt, line.bytes())
}

// The table of a text, all at once. That a line is bad is a failure, which is printed.
fn write_text(rt: &HostRuntime, text: &[u8], goes_on: bool) -> Result<(), Failed>
    requires { length text.now ≤ 65536 }
{
    let mut table = [0u8; 4096];
    match table_in(text, goes_on, &mut table) {
        Ok(size) => PROGRAM.print(rt, &table[..size]),
        Err(bad) => {
            print_bad_line(rt, bad)?;
            Err(Failed)
        }
    }
}

// One byte more than the longest text: with it the text goes on, and nothing behind it is read.
fn write_asked(rt: &HostRuntime, options: &Options) -> Result<(), Failed> {
    let mut room = [0u8; LONGEST + 1];
    let n = PROGRAM.read_word(rt, options.common.file, &mut room)?;
    write_text(rt, &room[..n.min(LONGEST)], LONGEST < n)
}

fn run(rt: &HostRuntime, options: &mut Options) -> Result<(), Failed> {
    match PROGRAM.asked(rt, |place, word| options.take(place, word))? {
        Asked::Help => PROGRAM.print(rt, HELP),
        Asked::Version => PROGRAM.print_version(rt),
        Asked::Work => write_asked(rt, options),
    }
}

fn main(rt: HostRuntime) {
    let mut options = Options::default();
    let done = run(&rt, &mut options);
    give_verdict(&rt, options.verdict, done.is_ok());
}
