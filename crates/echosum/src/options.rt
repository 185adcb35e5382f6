// The command line, taken word by word.
use super::listed::Terms;
use super::style::Style;
use command::{BadWord, Stop, Word, kind_of, verdict_in};
use digits::{number_in, salt_in};
use echo::Mode;

// What the word behind a flag is.
#[derive(Clone, Copy)]
pub(crate) enum Value {
    Bits,
    Salt,
}

impl Value {
    pub fn flag(self) -> &'static [u8] {
        match self {
            Value::Bits => b"-b",
            Value::Salt => b"-s",
        }
    }
}

// Which results of a check are printed.
#[derive(Clone, Copy)]
pub(crate) enum Printed {
    All,
    Failures,
    None,
}

// What the words so far ask for.
#[derive(Clone, Copy)]
pub(crate) struct Options {
    pub mode: Mode,
    pub bits: Option<u64>,
    pub salt: [u8; 16],
    // how lines are written
    pub is_tagged: bool,
    pub is_zero_ended: bool,
    // whether lists are checked, and how
    pub asks_check: bool,
    pub printed: Printed,
    pub is_strict: bool,
    pub passes_missing: bool,
    // the descriptor that the verdict goes to. The first word that names one counts: it is the one of whoever waits for the verdict
    pub verdict: Option<i32>,
    // whether any word was a file
    pub has_file: bool,
    // what the next word is, where it belongs to the flag before it
    pub awaited: Option<Value>,
    // whether `--` was there: all words behind it are files
    is_ended: bool,
}

pub(crate) fn defaults() -> Options {
    Options {
        mode: Mode::DoublePipe,
        bits: None,
        salt: [0; 16],
        is_tagged: false,
        is_zero_ended: false,
        asks_check: false,
        printed: Printed::All,
        is_strict: false,
        passes_missing: false,
        verdict: None,
        has_file: false,
        awaited: None,
        is_ended: false,
    }
}

impl Options {
    // Takes one word more, and hands it back where it names a file. (command's `Common` takes one file, and here each word may be one.)
    pub fn take<'a>(&mut self, word: &'a [u8]) -> Result<Option<&'a [u8]>, Stop<'a>> {
        match self.awaited.take() {
            Some(Value::Bits) => self.take_bits(word, word)?,
            Some(Value::Salt) => self.take_salt(word, word)?,
            None => return self.take_word(word),
        }
        Ok(None)
    }

    // A word that is no value.
    fn take_word<'a>(&mut self, word: &'a [u8]) -> Result<Option<&'a [u8]>, Stop<'a>> {
        match kind_of(word, self.is_ended) {
            Word::File => {
                self.has_file = true;
                return Ok(Some(word));
            }
            Word::End => self.is_ended = true,
            Word::Help => return Err(Stop::Help),
            Word::Version => return Err(Stop::Version),
            Word::Flag => self.take_flag(word)?,
        }
        Ok(None)
    }

    fn take_flag<'a>(&mut self, word: &'a [u8]) -> Result<(), BadWord<'a>> {
        match word {
            b"-1" => self.mode = Mode::SinglePipe,
            b"-b" => self.awaited = Some(Value::Bits),
            b"-s" => self.awaited = Some(Value::Salt),
            b"-c" | b"--check" => self.asks_check = true,
            b"-z" | b"--zero" => self.is_zero_ended = true,
            b"--tag" => self.is_tagged = true,
            // Of these two the last one counts.
            b"--quiet" => self.printed = Printed::Failures,
            b"--status" => self.printed = Printed::None,
            b"--strict" => self.is_strict = true,
            b"--ignore-missing" => self.passes_missing = true,
            // A value may stand behind its flag in the same word.
            [b'-', b'b', bits @ ..] => self.take_bits(word, bits)?,
            [b'-', b's', salt @ ..] => self.take_salt(word, salt)?,
            _ => {
                let given = verdict_in(word).ok_or(BadWord::Unknown(word))?;
                self.verdict = self.verdict.or(Some(given));
            }
        }
        Ok(())
    }

    fn take_bits<'a>(&mut self, word: &'a [u8], bits: &[u8]) -> Result<(), BadWord<'a>> {
        self.bits = Some(number_in(bits).ok_or(BadWord::Unknown(word))?);
        Ok(())
    }

    fn take_salt<'a>(&mut self, word: &'a [u8], salt: &[u8]) -> Result<(), BadWord<'a>> {
        self.salt = salt_in(salt).ok_or(BadWord::Unknown(word))?;
        Ok(())
    }

    pub fn bits(&self) -> u64 {
        self.bits.unwrap_or(256)
    }

    // What lines of a list without a tag leave to the flags.
    pub fn terms(&self) -> Terms {
        Terms {
            mode: self.mode,
            bits: self.bits,
            salt: self.salt,
        }
    }

    // How lines are written.
    pub fn style(&self) -> Style {
        Style {
            is_tagged: self.is_tagged,
            is_zero_ended: self.is_zero_ended,
            mode: self.mode,
            bits: self.bits(),
            salt: self.salt,
        }
    }
}
