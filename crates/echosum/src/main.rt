#![tactic(auto)]
// Prints the ECHO digest of each file that is named, or of standard input, or checks lists of such lines: echosum --help tells how. Every line
// is one write.
mod checking;
mod help;
mod hexadecimal;
mod listed;
mod lists;
mod names;
mod options;
mod saying;
mod style;
mod summing;

use command::{Asked, BadWord, Failed, LONGEST_WORD, give_verdict};
use echo::Session;
use help::{HELP, PROGRAM};
use lists::check_list;
use options::{Options, Printed, defaults};
use saying::{say_bad_bits, say_without};
use summing::sum_named;

// The line of a file, or the check of a list. Answers whether all is well.
fn take_named(
    rt: &HostRuntime,
    name: &[u8],
    session: Session,
    options: &Options,
) -> Result<bool, Failed> {
    if options.asks_check {
        return check_list(rt, name, options);
    }
    sum_named(rt, session, name, options.style())
}

// Each file or list, until a line can't be written. The words are taken once more, which tells the files among them. (Not by `asked`: what it
// is given can't end the run for a line.) Answers whether all is well.
fn take_files(rt: &HostRuntime, session: Session, options: &Options) -> Result<bool, Failed> {
    let mut room = [0u8; LONGEST_WORD];
    let mut so_far = defaults();
    let mut is_good = true;
    for i in 1..host::word_count(rt) {
        let n = host::word(rt, i, &mut room);
        if let Ok(Some(file)) = so_far.take(&room[..n]) {
            is_good &= take_named(rt, file, session, options)?;
        }
    }
    Ok(is_good)
}

// Whether the options go with the check of lists, or without it. What does not is said.
fn check_options(rt: &HostRuntime, options: &Options) -> Result<(), Failed> {
    if options.asks_check {
        if options.is_zero_ended {
            return Err(say_without(rt, b"--zero", b" option is not supported"));
        }
        if options.is_tagged {
            return Err(say_without(rt, b"--tag", b" option is meaningless"));
        }
        return Ok(());
    }
    let option: &[u8] = if options.passes_missing {
        b"--ignore-missing"
    } else if matches!(options.printed, Printed::None) {
        b"--status"
    } else if matches!(options.printed, Printed::Failures) {
        b"--quiet"
    } else if options.is_strict {
        b"--strict"
    } else {
        return Ok(());
    };
    Err(say_without(rt, option, b" option is meaningful only"))
}

fn do_asked(rt: &HostRuntime, options: &Options) -> Result<bool, Failed> {
    if let Some(value) = options.awaited {
        return Err(PROGRAM.say_bad_word(rt, BadWord::NoValue(value.flag())));
    }
    check_options(rt, options)?;
    let Ok(session) = Session::open(options.mode, options.bits(), &options.salt) else {
        return Err(say_bad_bits(rt, options.bits()));
    };
    if options.has_file {
        return take_files(rt, session, options);
    }
    take_named(rt, b"-", session, options)
}

// Does what the words ask for, and answers whether all is well.
fn run(rt: &HostRuntime, options: &mut Options) -> Result<bool, Failed> {
    let asked = PROGRAM.asked(rt, |_, word| {
        options.take(word)?;
        Ok(())
    });
    match asked? {
        Asked::Help => PROGRAM.print(rt, HELP)?,
        Asked::Version => PROGRAM.print_version(rt)?,
        Asked::Work => return do_asked(rt, options),
    }
    Ok(true)
}

fn main(rt: HostRuntime) {
    let mut options = defaults();
    let is_good = run(&rt, &mut options).unwrap_or(false);
    give_verdict(&rt, options.verdict, is_good);
}
