#![tactic(auto)]
// Reads tables of standard input's cases at a place, counts their records or takes their fingerprint, and prints what was answered.
//
// A case is 24 bytes and a table: the task (1, 2, 3), the salt's length, the output room's length, a zero, the place (two bytes), the
// table's length (two) and sixteen salt bytes. Numbers have their least significant byte first.
ghost use Rattle.std.specs.Prelude.{◌≤◌, length};

use cases_in::Fields;
use host::Source;
use lines::Line;
use steering::{Radio, Record, Refusal};

// What stands in front of a table.
#[derive(Drop)]
struct Header {
    task: u8,
    salt_length: usize,
    // the output room's length
    lent: usize,
    place: usize,
    // the table's length
    n: usize,
    salt: [u8; 16],
}

fn header_of(bytes: &[u8; 24]) -> Option<Header> {
    let mut fields = Fields::new(bytes);
    let [task, salt_length, lent, _] = fields.array::<4>()?;
    Some(Header {
        task,
        salt_length: salt_length as usize,
        lent: lent as usize,
        place: u16::from_le_bytes(fields.array()?) as usize,
        n: u16::from_le_bytes(fields.array()?) as usize,
        salt: fields.array()?,
    })
}

fn print_refused(rt: &HostRuntime, refusal: Refusal) {
    let mut line = Line::<64>::new();
    line.text(b"refused ").decimal(refusal.number() as u64);
    line.text(b" at ")
        .decimal(refusal.place() as u64)
        .text(b"\n");
    let _ = host::print(rt, line.bytes());
}

// Puts a text and a number of so many hex digits, up to sixteen and an even count; of sixteen where it needs more.
fn put_field<const N: usize>(line: &mut Line<N>, text: &[u8], number: u64, digits: usize) {
    let bytes = number.to_be_bytes();
    let from = if 16 <= digits || number >> (4 * digits) != 0 {
        0
    } else {
        8 - digits / 2
    };
    line.text(text).hex(&bytes[from..]);
}

fn put_record<const N: usize>(line: &mut Line<N>, record: Record) {
    match record {
        Record::Node(node) => put_field(line, b" node ", node.address, 12),
        Record::Floor(floor) => {
            let text: &[u8] = match floor.radio {
                Radio::Low => b" floor low ",
                Radio::High => b" floor high ",
            };
            put_field(line, text, floor.level as u64, 4);
        }
        Record::Hold(hold) => put_field(line, b" hold ", hold.time as u64, 8),
        Record::Note(note) => {
            put_field(line, b" note ", note.first, 16);
            put_field(line, b" ", note.second, 16);
            put_field(line, b" ", note.third, 16);
            put_field(line, b" ", note.fourth, 16);
        }
    }
}

fn print_found(rt: &HostRuntime, record: Record, next: usize) {
    let mut line = Line::<128>::new();
    line.text(b"found ").decimal(next as u64);
    put_record(&mut line, record);
    line.text(b"\n");
    let _ = host::print(rt, line.bytes());
}

fn read(rt: &HostRuntime, table: &[u8], place: usize) {
    match steering::read_at(table, place) {
        Ok(Some((record, next))) => print_found(rt, record, next),
        Ok(None) => {
            let _ = host::print(rt, b"end\n");
        }
        Err(refusal) => print_refused(rt, refusal),
    }
}

fn print_count(rt: &HostRuntime, records: usize) {
    let mut line = Line::<64>::new();
    line.text(b"records ").decimal(records as u64).text(b"\n");
    let _ = host::print(rt, line.bytes());
}

fn count(rt: &HostRuntime, table: &[u8]) {
    match steering::count(table) {
        Ok(records) => print_count(rt, records),
        Err(refusal) => print_refused(rt, refusal),
    }
}

// The number and the place of a refusal, or zeros where there is none.
fn number_and_place(answer: Result<(), Refusal>) -> (u8, usize) {
    match answer {
        Ok(()) => (0, 0),
        Err(refusal) => (refusal.number(), refusal.place()),
    }
}

fn print_room(rt: &HostRuntime, answer: Result<(), Refusal>, room: &[u8]) {
    let (number, place) = number_and_place(answer);
    let mut line = Line::<128>::new();
    line.decimal(number as u64).text(b" ").decimal(place as u64);
    line.text(b" ").hex(room).text(b"\n");
    let _ = host::print(rt, line.bytes());
}

// Lends the first so many bytes of the room.
fn fingerprint(rt: &HostRuntime, salt: &[u8], table: &[u8], room: &mut [u8], end: usize)
    requires { end ≤ length room.old }
{
    let answer = steering::fingerprint(salt, table, &mut room[..end]);
    print_room(rt, answer, room);
}

// The case of a header and a table.
fn run(rt: &HostRuntime, header: &Header, table: &[u8]) {
    match header.task {
        1 => read(rt, table, header.place),
        2 => count(rt, table),
        _ => {
            if header.salt_length <= 16 && header.lent <= 40 {
                let mut room = [0xa5u8; 40];
                let salt = &header.salt[..header.salt_length];
                fingerprint(rt, salt, table, &mut room, header.lent);
            }
        }
    }
}

// Reads the table that follows its header; none where there is no room for it.
fn run_next(
    rt: &HostRuntime,
    input: &mut Source,
    header: &Header,
    room: &mut [u8; 4097],
) -> Option<()> {
    let table = room.get_mut(..header.n)?;
    if host::read_full(input, table) == header.n {
        run(rt, header, table);
    }
    Some(())
}

// The next case; none at the end of the input.
fn next(rt: &HostRuntime, input: &mut Source, room: &mut [u8; 4097]) -> Option<()> {
    let mut bytes = [0u8; 24];
    if host::read_full(input, &mut bytes) < 24 {
        return None;
    }
    run_next(rt, input, &header_of(&bytes)?, room)
}

// A proved loop has to end, and nothing says that the input does: there are more turns than any run uses up.
fn main(rt: HostRuntime) {
    let mut input = host::standard_input(&rt);
    let mut room = [0u8; 4097];
    for _ in 0..u64::MAX {
        if next(&rt, &mut input, &mut room).is_none() {
            return;
        }
    }
}
