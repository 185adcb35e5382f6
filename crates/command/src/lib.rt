#![tactic(auto)]
// What the programs of the command line have in common: their words, the file that a word names, what they say of failures, and their verdict.
mod files;
mod program;
mod verdicts;
mod words;

pub use files::{LONGEST_WORD, open};
pub use program::{Failed, Program};
pub use verdicts::{give_verdict, verdict_in};
pub use words::{Asked, BadWord, Common, Stop, Word, kind_of};
