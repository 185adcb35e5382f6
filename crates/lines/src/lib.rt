#![tactic(auto)]
// Lines of text, so that a program can write each with one call.
//
// A `Line` has a room of its own, and whoever puts a text into it is handed the line back, for the next text. What finds no place is dropped, so a
// caller whose line is long enough need not ask.
//
// Beneath it are `put` and `put_..`, over a room that the caller lends. Every routine takes the room and a place in it, puts its text there and
// answers the place behind it, for the next one to go on from. What finds no place is dropped, and then the answer is the room's end. So the answer
// always ends a part of the room, as in `&room[..n]`, and a caller that gives enough room need not ask.
mod bytes;
mod decimal;
mod hexadecimal;
mod line;
mod names;
mod reasons;

pub use bytes::put;
pub use decimal::put_decimal;
pub use hexadecimal::put_hex;
pub use line::Line;
pub use names::put_named;
pub use reasons::put_reason;
