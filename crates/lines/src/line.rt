// The line itself: each text is put into its room where the line ends.
ghost use Rattle.std.specs.Prelude.{ℕ, ◌++◌, ◌≡◌, ◌≤◌, List, [], length, take};
ghost use Rattle.lines.specs.Decimal.{decimal_of};
ghost use Rattle.lines.specs.Hexadecimal.{digits_of};
ghost use Rattle.lines.specs.Lines.{spread};
ghost use Rattle.lines.specs.Names.{escape_of, mark_of};
ghost use Rattle.lines.specs.Reasons.{number_of, reason_of};

use super::bytes::put;
use super::decimal::put_decimal;
use super::hexadecimal::put_hex;
use super::names::put_named;
use super::reasons::put_reason;
use std::marker::Model;

/// A line under way, of at most `N` bytes.
#[derive(Drop)]
pub struct Line<const N: usize> {
    room: [u8; N],
    end: usize,
}

// Clauses see the bytes that were put so far.
impl<const N: usize> Model for Line<N> {
    ghost Value = { List ℕ };

    ghost view = { λ line. take line.end line.room };

    ghost invariant = { λ line. line.end ≤ N };
}

impl<const N: usize> Line<N> {
    pub fn new() -> Self
        ensures { result ≡ [] }
    {
        Line {
            room: [0; N],
            end: 0,
        }
    }

    pub fn bytes(&self) -> &[u8]
        ensures text { result.now ≡ self.now }
        ensures within { length self.now ≤ N }
    {
        &self.room[..self.end]
    }

    pub fn text(&mut self, bytes: &[u8]) -> &mut Self
        ensures same_line { result.ghost_name ≡ self.entry.ghost_name }
        ensures text { result.now ≡ take N (self.old ++ bytes.now) }
    {
        self.end = put(&mut self.room, self.end, bytes);
        self
    }

    // The digits that a number needs, at least one.
    pub fn decimal(&mut self, number: u64) -> &mut Self
        ensures same_line { result.ghost_name ≡ self.entry.ghost_name }
        ensures text { result.now ≡ take N (self.old ++ decimal_of number) }
    {
        self.end = put_decimal(&mut self.room, self.end, number);
        self
    }

    // Two digits for each byte.
    pub fn hex(&mut self, bytes: &[u8]) -> &mut Self
        ensures same_line { result.ghost_name ≡ self.entry.ghost_name }
        ensures text { result.now ≡ take N (self.old ++ spread digits_of bytes.now) }
    {
        self.end = put_hex(&mut self.room, self.end, bytes);
        self
    }

    // A name between texts that are put as they are.
    pub fn named(&mut self, before: &[u8], name: &[u8], after: &[u8]) -> &mut Self
        ensures same_line { result.ghost_name ≡ self.entry.ghost_name }
        ensures text { result.now ≡ take N (self.old ++ mark_of name.now ++ before.now ++ spread escape_of name.now ++ after.now) }
    {
        self.end = put_named(&mut self.room, self.end, before, name, after);
        self
    }

    // The reason behind an error number of Linux: its text, or `error N`.
    pub fn reason(&mut self, error: i32) -> &mut Self
        ensures same_line { result.ghost_name ≡ self.entry.ghost_name }
        ensures text { result.now ≡ take N (self.old ++ reason_of (number_of error)) }
    {
        self.end = put_reason(&mut self.room, self.end, error);
        self
    }
}
