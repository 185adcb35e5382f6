#![tactic(auto)]
// Lists a steering table, from a file or from standard input: each record on its line, with its place, its kind and its body in hex, and
// then the count; or `refused N at P` alone. Every line is one write.
mod help;
mod listing;
mod options;

use command::{Asked, Failed};
use help::{HELP, PROGRAM};
use listing::list;
use options::Options;

// One byte more than the longest table: with it the table is refused, and nothing behind it is read.
fn list_asked(rt: &HostRuntime, options: Options) -> Result<(), Failed> {
    let mut room = [0u8; 4097];
    let n = PROGRAM.read_word(rt, options.common.file, &mut room)?;
    list(rt, &room[..n], options.explains)
}

fn run(rt: &HostRuntime) -> Result<(), Failed> {
    let mut options = Options::default();
    match PROGRAM.asked(rt, |place, word| options.take(place, word))? {
        Asked::Help => PROGRAM.print(rt, HELP),
        Asked::Version => PROGRAM.print_version(rt),
        Asked::Work => list_asked(rt, options),
    }
}

fn main(rt: HostRuntime) {
    let _ = run(&rt);
}
