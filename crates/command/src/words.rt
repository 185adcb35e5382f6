// Words of the command line.
ghost use Rattle.std.specs.Prelude.{true, ◌≡◌, Err, IsNone, IsSome, None, Ok, Some};
ghost use Rattle.std.specs.Str.{bytes_eq};
ghost use Rattle.command.specs.Words.{is_dashed, kind_of};

// What a word is, before a program looks for its own options.
#[derive(Clone, Copy, PartialEq, Eq, Debug)]
pub enum Word {
    // The name of a file. The dash alone is one, of standard input.
    File,
    // `--`, behind which each word is a file.
    End,
    Help,
    Version,
    // Any other word with a dash in front: an option of the program's own, or a bad word.
    Flag,
}

#[tactic(auto, unfolding(crate::specs::Words::bytes_of))]
pub fn kind_of(word: &[u8], is_ended: bool) -> Word
    ensures { result ≡ kind_of word.now is_ended }
{
    if is_ended {
        Word::File
    } else if is(word, b"--") {
        Word::End
    } else if is(word, b"-h") {
        Word::Help
    } else if is(word, b"--help") {
        Word::Help
    } else if is(word, b"--version") {
        Word::Version
    } else if is_dashed(word) {
        Word::Flag
    } else {
        Word::File
    }
}

fn is_dashed(word: &[u8]) -> bool
    ensures { result ≡ is_dashed word.now }
{
    matches!(word, [b'-', _, ..])
}

fn is(word: &[u8], text: &[u8]) -> bool
    ensures { result ≡ bytes_eq word.now text.now }
{
    word == text
}

// A word that a program can't take.
#[derive(Clone, Copy)]
pub enum BadWord<'a> {
    Unknown(&'a [u8]),
    SecondFile(&'a [u8]),
    BadSalt(&'a [u8]),
    // Nothing stands behind this option, which wants a value.
    NoValue(&'a [u8]),
}

// Why a program takes no further word.
#[derive(Clone, Copy)]
pub enum Stop<'a> {
    Help,
    Version,
    Bad(BadWord<'a>),
}

impl<'a> From<BadWord<'a>> for Stop<'a> {
    ghost use Rattle.command.specs.declared.words.Stop.{Stop};

    ghost from_gives = { λ word stop. stop ≡ Stop.Bad word };

    fn from(word: BadWord<'a>) -> Stop<'a> {
        Stop::Bad(word)
    }
}

// What all programs over one file take of their words.
#[derive(Clone, Copy, Default)]
pub struct Common {
    // The place of the word that names the file, where one does.
    pub file: Option<usize>,
    // Whether `--` was there.
    pub is_ended: bool,
}

impl Common {
    // Takes the word of this place. A flag that is the program's own is given back.
    pub fn take<'a>(&mut self, place: usize, word: &'a [u8]) -> Result<Option<&'a [u8]>, Stop<'a>>
        ensures flag { kind_of word.now self.old.is_ended ≡ Word.Flag → (result ≡ Ok (Some word.entry)) × (self.new ≡ self.old) }
        ensures end { kind_of word.now self.old.is_ended ≡ Word.End → (result ≡ Ok None) × (self.new ≡ record self.old { is_ended = true }) }
        ensures help { kind_of word.now self.old.is_ended ≡ Word.Help → (result ≡ Err Stop.Help) × (self.new ≡ self.old) }
        ensures version { kind_of word.now self.old.is_ended ≡ Word.Version → (result ≡ Err Stop.Version) × (self.new ≡ self.old) }
        ensures file { kind_of word.now self.old.is_ended ≡ Word.File → IsNone self.old.file → (result ≡ Ok None) × (self.new ≡ record self.old { file = Some place }) }
        ensures second { kind_of word.now self.old.is_ended ≡ Word.File → IsSome self.old.file → (result ≡ Err (Stop.Bad (BadWord.SecondFile word.entry))) × (self.new ≡ self.old) }
    {
        match kind_of(word, self.is_ended) {
            Word::Flag => return Ok(Some(word)),
            Word::End => self.is_ended = true,
            Word::Help => return Err(Stop::Help),
            Word::Version => return Err(Stop::Version),
            Word::File if self.file.is_some() => return Err(Stop::Bad(BadWord::SecondFile(word))),
            Word::File => self.file = Some(place),
        }
        Ok(None)
    }
}

// What the words ask for, where none is bad.
#[derive(Clone, Copy, PartialEq, Eq, Debug)]
pub enum Asked {
    Help,
    Version,
    // What the program is for.
    Work,
}
