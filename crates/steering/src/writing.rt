// Writing a record at a place of a lent room.
ghost use Rattle.std.specs.Prelude.{◌≡◌, ◌+◌, ◌≤◌, ltb, length};
ghost use Rattle.std.proofs.lemmas.List.Edits.{sets};
ghost use Rattle.steering.specs.Answers.{written_of};
ghost use Rattle.steering.specs.Records.{body_of, kind_of};
ghost use Rattle.steering.specs.Writing.{address_too_high, write_answer, write_body_answer, write_body_leaves, write_leaves};

use super::kinds::Kind;
use super::numbers::put;
use super::records::{Note, Record, record_of};
use super::refusals::WriteRefusal;

// The kind byte of a record.
pub fn kind_of(given: Record) -> u8
    ensures { result ≡ kind_of given }
{
    u8::from(given.kind())
}

// Whether the record is a node's whose address has more than six bytes.
fn is_too_high(given: Record) -> bool
    ensures { result ≡ address_too_high given }
{
    matches!(given, Record::Node(node) if 0x1_0000_0000_0000 <= node.address)
}

// Puts the four numbers of a note into the room, from a place on. Four fields with a name each, so four calls: there is no list to go over.
fn put_note(room: &mut [u8], at: usize, note: Note)
    requires { at + 32 ≤ length room.old }
    ensures { room.new ≡ sets room.old at (body_of (Record.Note note)) }
{
    put(room, at, 8, note.first);
    put(room, at + 8, 8, note.second);
    put(room, at + 16, 8, note.third);
    put(room, at + 24, 8, note.fourth);
}

// Puts the body of a record into the room, from a place on.
fn put_body(room: &mut [u8], at: usize, given: Record)
    requires { at + length (body_of given) ≤ length room.old }
    ensures { room.new ≡ sets room.old at (body_of given) }
{
    match given {
        Record::Node(node) => put(room, at, 6, node.address),
        Record::Floor(floor) => put(room, at, 2, u64::from(floor.level)),
        Record::Hold(hold) => put(room, at, 4, u64::from(hold.time)),
        Record::Note(note) => put_note(room, at, note),
    }
}

// Whether a room of this size is too short, from a place on, for a kind byte and so many bytes more.
fn is_short(room: usize, place: usize, more: usize) -> bool
    ensures { result ≡ ltb room (place + 1 + more) }
{
    room <= place || room - place - 1 < more
}

// Puts a record at a place of the room, its kind byte first, and answers the place behind it; or refuses by 5 (the room from the place on is too short) or
// 12 (an address of 2^48 or more) and writes nothing.
pub fn write_at(room: &mut [u8], place: usize, given: Record) -> Result<usize, WriteRefusal>
    ensures answer { written_of result ≡ write_answer (length room.old) place given }
    ensures left { room.new ≡ write_leaves room.old place given }
{
    let length = given.kind().body_length();
    if is_short(room.len(), place, length) {
        return Err(WriteRefusal::ShortRoom);
    }
    if is_too_high(given) {
        return Err(WriteRefusal::HighAddress);
    }
    room[place] = kind_of(given);
    put_body(room, place + 1, given);
    Ok(place + length + 1)
}

// The same of a record whose kind byte and body are given; or refuses by 5, 9 (no record has that kind) or 10 (the body is not as long as its kind's) and
// writes nothing.
pub fn write_body_at(
    room: &mut [u8],
    place: usize,
    kind: u8,
    body: &[u8],
) -> Result<usize, WriteRefusal>
    ensures answer { written_of result ≡ write_body_answer (length room.old) place kind (length body.now) }
    ensures left { room.new ≡ write_body_leaves room.old place kind body.now }
{
    if is_short(room.len(), place, body.len()) {
        return Err(WriteRefusal::ShortRoom);
    }
    let Ok(known) = Kind::try_from(kind) else {
        return Err(WriteRefusal::UnknownKind);
    };
    if known.body_length() != body.len() {
        return Err(WriteRefusal::BodyLength);
    }
    write_at(room, place, record_of(known, body))
}
