// What a program reaches outside itself: the words of its command line, files by their names, and the standard streams.
//
// All of it goes through std, from the runtime that `main` is given. A call that failed answers the system's error, by its number as C has it.
#![tactic(auto)]

mod descriptors;
mod errors;
mod reading;
mod words;
mod writing;

pub use errors::{Error, NO_FILE};
pub use reading::{Source, open, read, read_all, read_full, standard_input};
pub use words::{word, word_count};
pub use writing::{print, say, write_all, write_to};

#[cfg(test)]
mod tests;
