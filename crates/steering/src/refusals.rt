// Why a table is not read, or a record not written. docs/REFUSALS.md has the numbers.
ghost use Rattle.std.specs.Prelude.{◌≡◌};
ghost use Rattle.steering.specs.Answers.{refusal_number, refusal_place, write_number};

#[derive(Clone, Copy, PartialEq, Eq, Debug)]
pub enum Refusal {
    // The salt is not sixteen bytes.
    BadSalt,
    // The room is too short for a fingerprint.
    ShortRoom,
    // The place is past the table's end.
    PastEnd,
    // The table is over 4,096 bytes.
    LongTable,
    // No record has the kind byte at this place.
    UnknownKind { place: usize },
    // The record whose kind byte is at this place is cut short.
    CutShort { place: usize },
}

impl Refusal {
    pub fn number(self) -> u8
        ensures { result ≡ refusal_number self }
    {
        match self {
            Refusal::BadSalt => 2,
            Refusal::ShortRoom => 5,
            Refusal::PastEnd => 6,
            Refusal::LongTable => 8,
            Refusal::UnknownKind { .. } => 9,
            Refusal::CutShort { .. } => 10,
        }
    }

    // The place of the kind byte that the refusal speaks of, else 0.
    pub fn place(self) -> usize
        ensures { result ≡ refusal_place self }
    {
        match self {
            Refusal::UnknownKind { place } | Refusal::CutShort { place } => place,
            _ => 0,
        }
    }
}

#[derive(Clone, Copy, PartialEq, Eq, Debug)]
pub enum WriteRefusal {
    // The room from the place on is too short for the record.
    ShortRoom,
    // No record has that kind byte.
    UnknownKind,
    // The body is not as long as its kind's.
    BodyLength,
    // The address is 2^48 or more.
    HighAddress,
}

impl WriteRefusal {
    pub fn number(self) -> u8
        ensures { result ≡ write_number self }
    {
        match self {
            WriteRefusal::ShortRoom => 5,
            WriteRefusal::UnknownKind => 9,
            WriteRefusal::BodyLength => 10,
            WriteRefusal::HighAddress => 12,
        }
    }
}
