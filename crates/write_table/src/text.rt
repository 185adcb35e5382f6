// A whole text, made a table.
ghost use Rattle.std.specs.Prelude.{cond, false, ◌≡◌, ◌≤◌, IfOk, eqb, length, take};
ghost use Rattle.steering.specs.Records.{Fits};
ghost use Rattle.write_table.specs.Text.{bytes_made, made_of, text_of};
ghost use Rattle.write_table.specs.Step.{step_leaves, step_of};
ghost use Rattle.write_table.specs.Line.{line_of};

use super::line::{Line, line_in};
use steering::Record;

// The first line that is bad, by its number.
#[derive(Clone, Copy)]
pub(crate) struct BadLine {
    pub number: usize,
}

// What a good line comes to, with the size of the table behind it: there may be more lines, or the text is over.
#[derive(Clone, Copy)]
enum Step {
    More(usize),
    Over(usize),
}

// A record is put behind those of before, if it finds room.
fn take_record(given: Record, count: usize, size: usize, room: &mut [u8]) -> Result<Step, BadLine>
    requires fits { Fits given }
    requires room_len { (length room.old ≡ 4096) × (count ≤ 65536) }
    ensures step { result ≡ step_of (Line.Record given) count size false }
    ensures left { room.new ≡ step_leaves (Line.Record given) size room.old }
{
    match steering::write_at(room, size, given) {
        Ok(longer) => Ok(Step::More(longer)),
        Err(_) => Err(BadLine { number: count + 1 }),
    }
}

fn take_count(count: usize, size: usize, is_last: bool) -> Result<Step, BadLine>
    requires { count ≤ 65536 }
    ensures { result ≡ step_of Line.Count count size is_last }
{
    if is_last {
        Ok(Step::Over(size))
    } else {
        Err(BadLine { number: count + 2 })
    }
}

// One line, behind so many records in so many bytes of the room.
fn take_line(
    line: &[u8],
    count: usize,
    size: usize,
    is_last: bool,
    room: &mut [u8],
) -> Result<Step, BadLine>
    requires { (length room.old ≡ 4096) × (count ≤ 65536) }
    ensures step { result ≡ step_of (line_of count line.now) count size is_last }
    ensures left { room.new ≡ step_leaves (line_of count line.now) size room.old }
{
    match line_in(line, count) {
        Line::Record(given) => take_record(given, count, size, room),
        Line::Count => take_count(count, size, is_last),
        Line::Unreadable => Err(BadLine { number: count + 1 }),
    }
}

// Whether nothing comes from a place of the text on.
fn is_end(place: usize, size: usize, goes_on: bool) -> bool
    ensures { result ≡ cond goes_on false (eqb place size) }
{
    !goes_on && place == size
}

// Puts the table of a text at the front of the room, which has 4,096 bytes, and answers its size; or answers the first bad line. `goes_on` tells whether the
// input goes on behind the text.
pub(crate) fn table_in(text: &[u8], goes_on: bool, room: &mut [u8]) -> Result<usize, BadLine>
    requires room_len { length room.old ≡ 4096 }
    requires text_len_bound { length text.now ≤ 65536 }
    ensures made { result ≡ made_of (text_of goes_on text.now) }
    ensures left { IfOk result (λ size. take size room.new ≡ bytes_made (text_of goes_on text.now)) }
{
    let mut from = 0;
    let mut count = 0;
    let mut size = 0;
    for (i, byte) in text.iter().enumerate() {
        if *byte != b'\n' {
            continue;
        }
        let is_last = is_end(i + 1, text.len(), goes_on);
        match take_line(&text[from..i], count, size, is_last, room)? {
            Step::More(longer) => size = longer,
            Step::Over(whole) => return Ok(whole),
        }
        from = i + 1;
        count += 1;
    }
    // The count is missing, on the line behind the last.
    let missing = count + 1;
    Err(BadLine { number: missing })
}
