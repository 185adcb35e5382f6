// What a line says:
//
//     PLACE KIND BODY                  a record: digits, two hex digits, and the body in hex
//     records N                        the end: the number of the records before it
//
// A line is without its line end here. The place may be any digits, and is not looked at.
ghost use Rattle.std.specs.Prelude.{◌≡◌, ◌+◌, ◌≤◌, length, not, position};
ghost use Rattle.std.specs.Char.{is_ascii_digit};
ghost use Rattle.write_table.specs.Line.{alone, count_line, digits_in, is_framed, line_of, record_behind, record_in, same_of};

use super::hexadecimal::pairs_in;
use steering::Record;

#[derive(Clone, Copy)]
pub(crate) enum Line {
    Record(Record),
    // The count of the records before it.
    Count,
    Unreadable,
}

// The place of the first byte that is no decimal digit.
fn first_other(line: &[u8]) -> Option<usize>
    ensures { result ≡ position (λ x. not (is_ascii_digit x)) line.now }
{
    line.iter().position(|byte| !byte.is_ascii_digit())
}

// How many bytes at the front are decimal digits.
fn digits_in(line: &[u8]) -> usize
    ensures count { result ≡ digits_in line.now }
    ensures within { result ≤ length line.now }
{
    first_other(line).unwrap_or(line.len())
}

// Whether a space, two bytes and a space stand behind the digits, of which there is at least one.
#[tactic(auto, unfolding(crate::specs::Line::is_framed))]
fn is_framed(line: &[u8], at: usize) -> bool
    requires { at ≤ length line.now }
    ensures { result ≡ is_framed line.now at }
{
    at != 0 && 4 <= line.len() - at && line[at] == b' ' && line[at + 3] == b' '
}

// The record that these bytes are, all of them.
#[tactic(auto, unfolding(crate::specs::Line::alone))]
fn record_of(bytes: &[u8]) -> Line
    ensures { result ≡ alone bytes.now }
{
    match steering::read_at(bytes, 0) {
        Ok(Some((record, next))) if next == bytes.len() => Line::Record(record),
        _ => Line::Unreadable,
    }
}

// The record of a line whose place ends at `at`. No body has more than 64 digits.
fn record_behind(line: &[u8], at: usize) -> Line
    requires { at + 4 ≤ length line.now }
    ensures { result ≡ record_behind line.now at }
{
    let kind = at + 1;
    let body = at + 4;
    let Some(first) = pairs_in::<1>(&line[kind..kind + 2]) else {
        return Line::Unreadable;
    };
    let Some(rest) = pairs_in::<32>(&line[body..]) else {
        return Line::Unreadable;
    };
    let mut bytes = [first[0]; 33];
    bytes[1..].copy_from_slice(&rest);
    record_of(&bytes[..1 + (line.len() - body) / 2])
}

// The record of a line that has a place in front of it.
#[tactic(auto, using(crate::proofs::Laws::Line::framed_long), unfolding(crate::specs::Line::record_in))]
fn record_in(line: &[u8]) -> Line
    ensures { result ≡ record_in line.now }
{
    let at = digits_in(line);
    if !is_framed(line, at) {
        return Line::Unreadable;
    }
    record_behind(line, at)
}

fn is_same(a: &[u8], b: &[u8]) -> bool
    ensures { result ≡ same_of a.now b.now }
{
    a == b
}

// Whether the line is that of so many records, as the lister prints it.
fn is_count(line: &[u8], count: usize) -> bool
    ensures { result ≡ same_of line.now (count_line count) }
{
    let mut right = lines::Line::<28>::new();
    right.text(b"records ").decimal(count as u64);
    is_same(line, right.bytes())
}

// What a line says behind so many records.
#[tactic(auto, unfolding(crate::specs::Line::line_of))]
pub(crate) fn line_in(line: &[u8], count: usize) -> Line
    ensures { result ≡ line_of count line.now }
{
    if is_count(line, count) {
        return Line::Count;
    }
    record_in(line)
}
