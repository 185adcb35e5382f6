// The command line, taken word by word.
use command::{BadWord, Common, Stop};
use digits::salt_in;

// What the words so far ask for, and what the next one is.
#[derive(Clone, Copy, Default)]
pub(crate) struct Options {
    pub common: Common,
    // Whether a refusal is said in words too.
    pub explains: bool,
    // The salt, where one was given: else it stands before the table.
    pub salt: Option<[u8; 16]>,
    // Whether the next word is a salt.
    pub wants_salt: bool,
}

impl Options {
    pub fn take<'a>(&mut self, place: usize, word: &'a [u8]) -> Result<(), Stop<'a>> {
        if self.wants_salt {
            self.wants_salt = false;
            return self.take_salt(word);
        }
        match self.common.take(place, word)? {
            None => {}
            Some(b"--explain") => self.explains = true,
            Some(b"-s") => self.wants_salt = true,
            Some([b'-', b's', salt @ ..]) => return self.take_salt(salt),
            Some(flag) => return Err(Stop::Bad(BadWord::Unknown(flag))),
        }
        Ok(())
    }

    fn take_salt<'a>(&mut self, word: &'a [u8]) -> Result<(), Stop<'a>> {
        self.salt = Some(salt_in(word).ok_or(BadWord::BadSalt(word))?);
        Ok(())
    }
}
