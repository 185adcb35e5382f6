// The records of a steering table.
ghost use Rattle.std.specs.Prelude.{◌≡◌, length};
ghost use Rattle.steering.specs.Kinds.{kind_byte};
ghost use Rattle.steering.specs.Records.{body_length, kind_of, record_of};

use super::kinds::Kind;
use super::numbers::number;

// 2.4 GHz and 5 GHz.
#[derive(Clone, Copy, PartialEq, Eq, Debug)]
pub enum Radio {
    Low,
    High,
}

// Six bytes.
#[derive(Clone, Copy, PartialEq, Eq, Debug)]
pub struct NodeAddress {
    pub address: u64,
}

#[derive(Clone, Copy, PartialEq, Eq, Debug)]
pub struct JoinFloor {
    pub radio: Radio,
    pub level: u16,
}

#[derive(Clone, Copy, PartialEq, Eq, Debug)]
pub struct HoldTime {
    pub time: u32,
}

#[derive(Clone, Copy, PartialEq, Eq, Debug)]
pub struct Note {
    pub first: u64,
    pub second: u64,
    pub third: u64,
    pub fourth: u64,
}

#[derive(Clone, Copy, PartialEq, Eq, Debug)]
pub enum Record {
    Node(NodeAddress),
    Floor(JoinFloor),
    Hold(HoldTime),
    Note(Note),
}

impl Record {
    pub(crate) fn kind(self) -> Kind
        ensures { kind_byte result ≡ kind_of self }
    {
        match self {
            Record::Node(_) => Kind::Node,
            Record::Floor(floor) => match floor.radio {
                Radio::Low => Kind::LowFloor,
                Radio::High => Kind::HighFloor,
            },
            Record::Hold(_) => Kind::Hold,
            Record::Note(_) => Kind::Note,
        }
    }
}

// The record of a kind whose body is given whole.
#[tactic(auto, using(crate::proofs::Laws::Records::long), unfolding(crate::specs::Records::body_length))]
pub(crate) fn record_of(kind: Kind, body: &[u8]) -> Record
    requires { length body.now ≡ body_length (kind_byte kind) }
    ensures { result ≡ record_of (kind_byte kind) body.now }
{
    match kind {
        Kind::Node => Record::Node(NodeAddress {
            address: number(&body[..6]),
        }),
        Kind::LowFloor => Record::Floor(JoinFloor {
            radio: Radio::Low,
            level: number(&body[..2]) as u16,
        }),
        Kind::HighFloor => Record::Floor(JoinFloor {
            radio: Radio::High,
            level: number(&body[..2]) as u16,
        }),
        Kind::Hold => Record::Hold(HoldTime {
            time: number(&body[..4]) as u32,
        }),
        Kind::Note => Record::Note(Note {
            first: number(&body[0..8]),
            second: number(&body[8..16]),
            third: number(&body[16..24]),
            fourth: number(&body[24..32]),
        }),
    }
}
