// Words of the command line.
ghost use Rattle.std.specs.Counts.{IsPrefixLen};

use std::env::{Env, FillError};

// How many words the program was started with, its own name among them.
pub fn word_count(rt: &impl Env) -> usize {
    let mut room = [0u8; 1];
    (0..usize::MAX)
        .find(|i| matches!(rt.arg(*i, &mut room), Err(FillError::NotPresent)))
        .unwrap_or(usize::MAX)
}

// Puts the word i at the front of `room` and answers its length. Of a word that is longer than the room only the front comes, and fills it.
pub fn word(rt: &impl Env, i: usize, room: &mut [u8]) -> usize
    ensures { IsPrefixLen result room.new }
{
    let whole = room.len();
    rt.arg(i, room).unwrap_or(whole)
}
