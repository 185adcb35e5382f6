// The program that speaks.
ghost use Rattle.std.specs.Prelude.{◌≡◌};
ghost use Rattle.std.specs.Io.{ReadsAtMost};

use super::files::{LONGEST_WORD, open};
use super::words::{Asked, BadWord, Stop};
use host::Error;
use lines::Line;

#[derive(Clone, Copy)]
pub struct Program {
    // Its name, which begins each line on standard error.
    pub name: &'static [u8],
    // How it is called, which stands behind what is wrong with a word.
    pub usage: &'static [u8],
}

// Something failed, and was said.
#[derive(Clone, Copy, PartialEq, Eq, Debug)]
pub struct Failed;

impl Program {
    // A line with a name in it. It holds one of 8,448 bytes, each of them escaped, and what stands around it: no word of the command line and no line
    // of a list has a longer one.
    pub fn say(&self, rt: &HostRuntime, before: &[u8], name: &[u8], after: &[u8]) -> Failed {
        let mut front = Line::<64>::new();
        front.text(self.name).text(before);
        let mut line = Line::<17152>::new();
        line.named(front.bytes(), name, after);
        let _ = host::say(rt, line.bytes());
        Failed
    }

    // Says why a call failed.
    pub fn say_why(&self, rt: &HostRuntime, name: &[u8], error: Error) -> Failed {
        let mut why = Line::<64>::new();
        why.text(b": ").reason(error.number).text(b"\n");
        self.say(rt, b": ", name, why.bytes())
    }

    pub fn say_bad_word(&self, rt: &HostRuntime, bad: BadWord) -> Failed {
        let (what, word): (&[u8], &[u8]) = match bad {
            BadWord::Unknown(word) => (b": bad word ", word),
            BadWord::SecondFile(word) => (b": second file ", word),
            BadWord::BadSalt(word) => (b": bad salt ", word),
            BadWord::NoValue(word) => (b": no value behind ", word),
        };
        let mut usage = Line::<128>::new();
        usage.text(b" (usage: ").text(self.usage).text(b")\n");
        self.say(rt, what, word, usage.bytes())
    }

    // Writes to standard output.
    pub fn print(&self, rt: &HostRuntime, bytes: &[u8]) -> Result<(), Failed> {
        host::print(rt, bytes).map_err(|error| self.say_why(rt, b"standard output", error))
    }

    pub fn print_version(&self, rt: &HostRuntime) -> Result<(), Failed> {
        let mut line = Line::<64>::new();
        line.text(self.name).text(b" (Bahmorist) 0.8.0\n");
        self.print(rt, line.bytes())
    }

    // What the words ask for. Each is given to `take`, with its place, up to the first that stops it. A bad one is said.
    pub fn asked<F: FnMut(usize, &[u8]) -> Result<(), Stop<'_>>>(
        &self,
        rt: &HostRuntime,
        mut take: F,
    ) -> Result<Asked, Failed>
        requires { F.IsAlwaysCallable take }
    {
        let mut room = [0u8; LONGEST_WORD];
        for i in 1..host::word_count(rt) {
            let n = host::word(rt, i, &mut room);
            match take(i, &room[..n]) {
                Ok(()) => {}
                Err(Stop::Help) => return Ok(Asked::Help),
                Err(Stop::Version) => return Ok(Asked::Version),
                Err(Stop::Bad(bad)) => return Err(self.say_bad_word(rt, bad)),
            }
        }
        Ok(Asked::Work)
    }

    // Reads the file that the word of this place names, or standard input where there is none, to its end or until the room is full.
    pub fn read_word(
        &self,
        rt: &HostRuntime,
        place: Option<usize>,
        room: &mut [u8],
    ) -> Result<usize, Failed>
        ensures { ReadsAtMost result room.new }
    {
        let Some(i) = place else {
            return self.read(rt, b"-", room);
        };
        let mut name = [0u8; LONGEST_WORD];
        let n = host::word(rt, i, &mut name);
        self.read(rt, &name[..n], room)
    }

    // The same of a name.
    pub fn read(&self, rt: &HostRuntime, name: &[u8], room: &mut [u8]) -> Result<usize, Failed>
        ensures { ReadsAtMost result room.new }
    {
        match read_all(rt, name, room) {
            Ok(n) => Ok(n),
            Err(error) => Err(self.say_why(rt, spoken(name), error)),
        }
    }
}

fn read_all(rt: &HostRuntime, name: &[u8], room: &mut [u8]) -> Result<usize, Error>
    ensures { ReadsAtMost result room.new }
{
    let mut source = open(rt, name)?;
    host::read_all(&mut source, room)
}

fn spoken(name: &[u8]) -> &[u8] {
    match name {
        b"-" => b"standard input",
        _ => name,
    }
}
