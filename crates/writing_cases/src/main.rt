#![tactic(auto)]
// Writes records of standard input's cases at a place of a room, by their numbers or by their body, and prints what was answered and the room.
//
// A case is 24 bytes, a room and 40 bytes: the task (4 by numbers, 5 by a body), the kind byte, the body's length, three zeros, the room's
// length (two bytes), the place (eight) and eight zeros. The last 40 begin with the numbers of the record for task 4, and with its body for 5.
// Numbers have their least significant byte first.
use cases_in::Fields;
use host::Source;
use lines::Line;
use steering::{HoldTime, JoinFloor, NodeAddress, Note, Radio, Record, WriteRefusal};

// What stands in front of a room.
#[derive(Drop)]
struct Header {
    task: u8,
    kind: u8,
    body_length: usize,
    // the room's length
    n: usize,
    place: usize,
}

fn header_of(bytes: &[u8; 24]) -> Option<Header> {
    let mut fields = Fields::new(bytes);
    let [task, kind, body_length, _, _, _] = fields.array::<6>()?;
    Some(Header {
        task,
        kind,
        body_length: body_length as usize,
        n: u16::from_le_bytes(fields.array()?) as usize,
        place: u64::from_le_bytes(fields.array()?) as usize,
    })
}

// What the answer's refusal number and next place are: 0 for no refusal, and for no place.
fn number_and_next(answer: Result<usize, WriteRefusal>) -> (u8, usize) {
    match answer {
        Ok(next) => (0, next),
        Err(refusal) => (refusal.number(), 0),
    }
}

// The line holds a room of 4,097 bytes.
fn print_room(rt: &HostRuntime, answer: Result<usize, WriteRefusal>, room: &[u8]) {
    let (number, next) = number_and_next(answer);
    let mut line = Line::<8256>::new();
    line.decimal(number as u64).text(b" ").decimal(next as u64);
    line.text(b" ").hex(room).text(b"\n");
    let _ = host::print(rt, line.bytes());
}

fn floor_of(radio: Radio, numbers: &mut Fields) -> Option<Record> {
    let level = u16::from_le_bytes(numbers.array()?);
    Some(Record::Floor(JoinFloor { radio, level }))
}

fn note_of(numbers: &mut Fields) -> Option<Record> {
    Some(Record::Note(Note {
        first: u64::from_le_bytes(numbers.array()?),
        second: u64::from_le_bytes(numbers.array()?),
        third: u64::from_le_bytes(numbers.array()?),
        fourth: u64::from_le_bytes(numbers.array()?),
    }))
}

// The record of a kind whose numbers are given.
fn record_of(kind: u8, numbers: &mut Fields) -> Option<Record> {
    match kind {
        1 => Some(Record::Node(NodeAddress {
            address: u64::from_le_bytes(numbers.array()?),
        })),
        2 => floor_of(Radio::Low, numbers),
        3 => floor_of(Radio::High, numbers),
        4 => Some(Record::Hold(HoldTime {
            time: u32::from_le_bytes(numbers.array()?),
        })),
        _ => note_of(numbers),
    }
}

// Puts the record of a header and of what is given into the room, by its numbers or by its body.
fn put_given(
    header: &Header,
    given: &[u8; 40],
    room: &mut [u8],
) -> Option<Result<usize, WriteRefusal>> {
    let mut fields = Fields::new(given);
    if header.task == 4 {
        let record = record_of(header.kind, &mut fields)?;
        return Some(steering::write_at(room, header.place, record));
    }
    let body = fields.bytes(header.body_length)?;
    Some(steering::write_body_at(room, header.place, header.kind, body))
}

// The case of a header and a room: reads the 40 bytes that follow, and prints the room afterwards.
fn write(rt: &HostRuntime, input: &mut Source, header: &Header, room: &mut [u8]) {
    let mut given = [0u8; 40];
    if host::read_full(input, &mut given) < 40 || 40 < header.body_length {
        return;
    }
    if let Some(answer) = put_given(header, &given, room) {
        print_room(rt, answer, room);
    }
}

// Reads the room that follows its header; none where it is too long.
fn run_next(
    rt: &HostRuntime,
    input: &mut Source,
    header: &Header,
    room: &mut [u8; 4097],
) -> Option<()> {
    let lent = room.get_mut(..header.n)?;
    if host::read_full(input, lent) == header.n {
        write(rt, input, header, lent);
    }
    Some(())
}

// The next case; none at the end of the input.
fn next(rt: &HostRuntime, input: &mut Source, room: &mut [u8; 4097]) -> Option<()> {
    let mut bytes = [0u8; 24];
    if host::read_full(input, &mut bytes) < 24 {
        return None;
    }
    run_next(rt, input, &header_of(&bytes)?, room)
}

// A proved loop has to end, and nothing says that the input does: there are more turns than any run uses up.
fn main(rt: HostRuntime) {
    let mut input = host::standard_input(&rt);
    let mut room = [0u8; 4097];
    for _ in 0..u64::MAX {
        if next(&rt, &mut input, &mut room).is_none() {
            return;
        }
    }
}
