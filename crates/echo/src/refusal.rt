// Why a call is refused.
ghost use Rattle.std.specs.Prelude.{◌≡◌};
ghost use Rattle.echo.specs.Answers.{number_of};

#[derive(Clone, Copy, PartialEq, Eq, Debug)]
pub enum Refusal {
    // the digest length is not a multiple of 8 from 128 to 512
    NotAdmitted,
    // the salt is not 16 bytes
    NoSalt,
    // the record is no session
    NoSession,
    // the message would pass 2^64 - 161 bits
    TooLong,
    // the room is smaller than the digest
    NoRoom,
    // sizes that are not the mode's, no square, no round count, or bytes that are not those of the bits
    WrongSize,
    // the starting counter is above 2^64 - 161
    CounterTooHigh,
    // bits would stand behind a part byte
    BehindPart,
    // a bit is set below the last one used
    SetBelow,
}

impl Refusal {
    // The number that C has for it, where 0 is none.
    pub fn number(self) -> u8
        ensures { result ≡ number_of self }
    {
        match self {
            Refusal::NotAdmitted => 1,
            Refusal::NoSalt => 2,
            Refusal::NoSession => 3,
            Refusal::TooLong => 4,
            Refusal::NoRoom => 5,
            Refusal::WrongSize => 6,
            Refusal::CounterTooHigh => 7,
            Refusal::BehindPart => 16,
            Refusal::SetBelow => 17,
        }
    }
}
