#![tactic(auto)]
// Prints the fingerprint of a steering table as 64 hex digits, or `refused N at P`. A file or standard input holds sixteen salt bytes and then
// the table; or the table alone, where the salt is on the command line. The line is one write.
mod fingerprinting;
mod help;
mod options;

use command::{Asked, BadWord, Failed};
use fingerprinting::print_under;
use help::{HELP, PROGRAM};
use options::Options;

// One byte more than the longest table: with it the table is refused, and nothing behind it is read.
fn fingerprint_table(rt: &HostRuntime, options: Options, salt: &[u8]) -> Result<(), Failed> {
    let mut room = [0u8; 4097];
    let n = PROGRAM.read_word(rt, options.common.file, &mut room)?;
    print_under(rt, salt, &room[..n], options.explains)
}

// The same, behind the salt. An input that ends within the salt is a salt of the wrong length, and there is no table.
fn fingerprint_salted(rt: &HostRuntime, options: Options) -> Result<(), Failed> {
    let mut room = [0u8; 4113];
    let n = PROGRAM.read_word(rt, options.common.file, &mut room)?;
    let (salt, table) = room[..n].split_at(n.min(16));
    print_under(rt, salt, table, options.explains)
}

fn run(rt: &HostRuntime) -> Result<(), Failed> {
    let mut options = Options::default();
    let asked = PROGRAM.asked(rt, |place, word| options.take(place, word))?;
    match (asked, options.salt) {
        (Asked::Help, _) => PROGRAM.print(rt, HELP),
        (Asked::Version, _) => PROGRAM.print_version(rt),
        _ if options.wants_salt => Err(PROGRAM.say_bad_word(rt, BadWord::NoValue(b"-s"))),
        (Asked::Work, Some(salt)) => fingerprint_table(rt, options, &salt),
        (Asked::Work, None) => fingerprint_salted(rt, options),
    }
}

fn main(rt: HostRuntime) {
    let _ = run(&rt);
}
