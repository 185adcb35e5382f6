// A refusal in words: one line on standard error.
use super::refused::Refused;
use command::Program;
use lines::Line;
use steering::Refusal;

type Words = Line<256>;

// How many bytes follow a kind byte, and 0 where no record has that kind: as many as the library takes of a table that has enough for any kind.
#[tactic(auto, using(crate::proofs::Laws::Records::not_first))]
fn body_length(kind: u8) -> usize {
    let mut table = [0u8; 33];
    table[0] = kind;
    match steering::read_at(&table, 0) {
        Ok(Some((_, next))) => next - 1,
        _ => 0,
    }
}

// What stands at the end of a line with a place in it.
fn put_end(line: &mut Words, refused: &Refused) {
    line.text(b"; places count from 0, the table's first byte");
    if refused.salt.is_some() {
        line.text(b", and not from the salt");
    }
    line.text(b"\n");
}

fn put_bad_length(line: &mut Words, salt: &[u8]) {
    line.text(b"the salt is ").decimal(salt.len() as u64);
    line.text(b" bytes and not 16\n");
}

fn put_long(line: &mut Words) {
    line.text(b"the table is over 4096 bytes\n");
}

fn put_unknown(line: &mut Words, place: usize, kind: u8, refused: &Refused) {
    line.text(b"the kind byte at place ").decimal(place as u64);
    line.text(b" is ")
        .hex(&[kind])
        .text(b", which no record has");
    put_end(line, refused);
}

fn put_cut_short(line: &mut Words, place: usize, kind: u8, there: usize, refused: &Refused) {
    line.text(b"the record at place ").decimal(place as u64);
    line.text(b", of kind ").hex(&[kind]);
    line.text(b", is cut short: its body has ")
        .decimal(body_length(kind) as u64);
    line.text(b" bytes, and the table ends after ")
        .decimal(there as u64);
    line.text(b" of them");
    put_end(line, refused);
}

// The line of a refusal that reading a whole table meets, and nothing for any other.
fn put_refusal(line: &mut Words, refused: &Refused) {
    let table = refused.table;
    match (
        refused.refusal,
        refused.salt,
        table.get(refused.refusal.place()),
    ) {
        (Refusal::BadSalt, Some(salt), _) => put_bad_length(line, salt),
        (Refusal::LongTable, _, _) => put_long(line),
        (Refusal::UnknownKind { place }, _, Some(kind)) => put_unknown(line, place, *kind, refused),
        (Refusal::CutShort { place }, _, Some(kind)) => put_cut_short(
            line,
            place,
            *kind,
            table.len() - place - 1,
            refused,
        ),
        _ => {}
    }
}

pub(crate) fn explain(rt: &HostRuntime, program: &Program, refused: &Refused) {
    let mut line = Words::new();
    put_refusal(&mut line, refused);
    program.say(rt, b": ", b"", line.bytes());
}
