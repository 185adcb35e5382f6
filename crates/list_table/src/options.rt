// The command line, taken word by word.
use command::{BadWord, Common, Stop};

// What the words so far ask for.
#[derive(Clone, Copy, Default)]
pub(crate) struct Options {
    pub common: Common,
    // Whether a refusal is said in words too.
    pub explains: bool,
}

impl Options {
    pub fn take<'a>(&mut self, place: usize, word: &'a [u8]) -> Result<(), Stop<'a>> {
        match self.common.take(place, word)? {
            None => {}
            Some(b"--explain") => self.explains = true,
            Some(flag) => return Err(Stop::Bad(BadWord::Unknown(flag))),
        }
        Ok(())
    }
}
