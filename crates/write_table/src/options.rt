// The command line, taken word by word.
use command::{BadWord, Common, Stop, verdict_in};

// What the words so far ask for.
#[derive(Clone, Copy, Default)]
pub(crate) struct Options {
    pub common: Common,
    // The descriptor that the verdict goes to. The first word that names one counts: it is the one of whoever waits for the verdict.
    pub verdict: Option<i32>,
}

impl Options {
    pub fn take<'a>(&mut self, place: usize, word: &'a [u8]) -> Result<(), Stop<'a>> {
        if let Some(flag) = self.common.take(place, word)? {
            let given = verdict_in(flag).ok_or(BadWord::Unknown(flag))?;
            self.verdict = self.verdict.or(Some(given));
        }
        Ok(())
    }
}
