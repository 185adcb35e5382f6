// A line of a list: the file that it names, held against the digest that it has.
use super::help::PROGRAM;
use super::listed::{Listed, listed_in};
use super::names::put_unescaped;
use super::options::{Options, Printed};
use super::summing::{NoDigest, digest_named};
use command::Failed;
use echo::Session;
use lines::Line;

// What came of the lines of a list so far.
#[derive(Clone, Copy)]
pub(crate) struct Tally {
    // whether the list comes from standard input, which no line of it can name then
    is_input: bool,
    // whether some line was properly formatted, and some file matched
    pub has_proper: bool,
    pub has_match: bool,
    pub improper: u64,
    pub unread: u64,
    pub mismatched: u64,
}

impl Tally {
    pub fn begun(is_input: bool) -> Tally {
        Tally {
            is_input,
            has_proper: false,
            has_match: false,
            improper: 0,
            unread: 0,
            mismatched: 0,
        }
    }

    pub fn count_improper(&mut self) {
        self.improper = self.improper.saturating_add(1);
    }

    // A line, without its line end and with something in it.
    pub fn take_line(
        &mut self,
        rt: &HostRuntime,
        line: &[u8],
        options: &Options,
    ) -> Result<(), Failed> {
        let Some(listed) = listed_in(line, &options.terms()) else {
            self.count_improper();
            return Ok(());
        };
        let mut name = Line::<8448>::new();
        put_listed(&mut name, &line[listed.from..listed.to], listed.is_escaped);
        self.take_file(rt, name.bytes(), listed, options)
    }

    fn take_file(
        &mut self,
        rt: &HostRuntime,
        name: &[u8],
        listed: Listed,
        options: &Options,
    ) -> Result<(), Failed> {
        if self.is_input && matches!(name, b"-") {
            self.count_improper();
            return Ok(());
        }
        // The bits of a line are those of a digest, so that no session is refused here.
        let Ok(session) = Session::open(listed.mode, listed.bits, &listed.salt) else {
            self.count_improper();
            return Ok(());
        };
        self.has_proper = true;
        match digest_named(rt, session, name, options.passes_missing) {
            Ok(digest) if digest == listed.digest => {
                self.has_match = true;
                match options.printed {
                    Printed::All => print_result(rt, name, b": OK\n"),
                    _ => Ok(()),
                }
            }
            Ok(_) => {
                self.mismatched = self.mismatched.saturating_add(1);
                print_failure(rt, name, b": FAILED\n", options)
            }
            Err(NoDigest::Missing) => Ok(()),
            Err(NoDigest::Unread) => {
                self.unread = self.unread.saturating_add(1);
                print_failure(rt, name, b": FAILED open or read\n", options)
            }
        }
    }

    // Whether some line was properly formatted and every file that it names is there and matches, and with --strict every line was.
    pub fn is_verified(&self, is_strict: bool) -> bool {
        self.has_match
            && self.unread == 0
            && self.mismatched == 0
            && (self.improper == 0 || !is_strict)
    }
}

// The name that a line has, as it is or with its escapes undone.
fn put_listed<const N: usize>(name: &mut Line<N>, text: &[u8], is_escaped: bool) {
    if is_escaped {
        put_unescaped(name, text);
    } else {
        name.text(text);
    }
}

fn print_failure(
    rt: &HostRuntime,
    name: &[u8],
    what: &[u8],
    options: &Options,
) -> Result<(), Failed> {
    match options.printed {
        Printed::None => Ok(()),
        _ => print_result(rt, name, what),
    }
}

// Prints what came of a file. A name is escaped where it has a line end, as `sha256sum -c` does, and else printed as it is. A line holds a name
// as long as a line of a list, each byte of it escaped, and what stands behind it.
fn print_result(rt: &HostRuntime, name: &[u8], what: &[u8]) -> Result<(), Failed> {
    let mut line = Line::<17152>::new();
    if name.contains(&b'\n') {
        line.named(b"", name, what);
    } else {
        line.text(name).text(what);
    }
    PROGRAM.print(rt, line.bytes())
}
