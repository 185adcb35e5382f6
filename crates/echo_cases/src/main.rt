#![tactic(auto)]
// Runs rounds, forward and backward, and compressions on the cases of standard input, which a second implementation made, and prints
// the refusal number of each and the whole lent memory behind it.
//
// A case is 545 bytes: a kind (1 rounds, 2 rounds back, 3 compression, 4 rounds byte by byte, 5 compression in single-pipe; 6, 7, 8 and 9 are 1, 2, 3 and
// 5 with a counter of 128 bits), the salt's length, the round count, the length of the square or chaining variable and that of the block (two bytes
// each), the counter (eight bytes), then room for the salt (18 bytes), for the square or chaining variable (272) and for the block (240). From kind
// 6 on the counter's upper half follows, eight bytes more. Numbers have their least significant byte first.
ghost use Rattle.std.specs.Prelude.{◌≤◌};

use cases_in::Fields;
use echo::{Mode, Refusal};
use lines::Line;

#[derive(Drop)]
struct Case<'a> {
    kind: u8,
    salt: &'a [u8],
    // the round count
    count: u64,
    counter: u64,
    // the room for the square or chaining variable, and how much of it is lent
    room: [u8; 272],
    lent: usize,
    block: &'a [u8],
}

// The case of these bytes; none where a length is more than its room.
fn case_of(bytes: &[u8; 545]) -> Option<Case<'_>> {
    let mut fields = Fields::new(bytes);
    let [kind, salt_length, count] = fields.array::<3>()?;
    let lent = u16::from_le_bytes(fields.array()?) as usize;
    let block_length = u16::from_le_bytes(fields.array()?) as usize;
    let counter = u64::from_le_bytes(fields.array()?);
    let salt = Fields::new(fields.bytes(18)?).bytes(salt_length as usize)?;
    Some(Case {
        kind,
        salt,
        count: count as u64,
        counter,
        room: fields.array()?,
        lent,
        block: fields.bytes(block_length)?,
    })
}

// The refusal's number, or 0 where there is none.
fn number_of(answer: Result<(), Refusal>) -> u8 {
    match answer {
        Ok(()) => 0,
        Err(refusal) => refusal.number(),
    }
}

fn print(rt: &HostRuntime, answer: Result<(), Refusal>, bytes: &[u8]) {
    let mut line = Line::<600>::new();
    line.decimal(number_of(answer) as u64)
        .text(b" ")
        .hex(bytes)
        .text(b"\n");
    let _ = host::print(rt, line.bytes());
}

// Calls the routine of the case's kind on the square or chaining variable.
fn apply(case: &Case, lent: &mut [u8], high: u64) -> Result<(), Refusal> {
    let Case {
        salt,
        count,
        counter,
        block,
        ..
    } = *case;
    match case.kind {
        1 => echo::rounds(lent, count, counter, salt),
        2 => echo::rounds_back(lent, count, counter, salt),
        4 => echo::rounds_by_bytes(lent, count, counter, salt),
        5 => echo::compress(Mode::SinglePipe, lent, block, counter, salt),
        0 | 3 => echo::compress(Mode::DoublePipe, lent, block, counter, salt),
        6 => echo::rounds_wide(lent, count, counter, high, salt),
        7 => echo::rounds_back_wide(lent, count, counter, high, salt),
        9 => echo::compress_wide(Mode::SinglePipe, lent, block, counter, high, salt),
        _ => echo::compress_wide(Mode::DoublePipe, lent, block, counter, high, salt),
    }
}

fn run(rt: &HostRuntime, case: &Case, high: u64) {
    if 272 < case.lent {
        return;
    }
    let mut room = case.room;
    let answer = apply(case, &mut room[..case.lent], high);
    print(rt, answer, &room);
}

// A proved loop has to end, and nothing says that the input does: there are more turns than any run uses up.
fn main(rt: HostRuntime) {
    let mut input = host::standard_input(&rt);
    let mut bytes = [0u8; 545];
    for _ in 0..u64::MAX {
        if host::read_full(&mut input, &mut bytes) < 545 {
            return;
        }
        let mut upper = [0u8; 8];
        if 6 <= bytes[0] && host::read_full(&mut input, &mut upper) < 8 {
            return;
        }
        if let Some(case) = case_of(&bytes) {
            run(&rt, &case, u64::from_le_bytes(upper));
        }
    }
}
