// The kinds of a table's records: the byte of each, and how many bytes follow it.
ghost use Rattle.std.specs.Prelude.{◌≡◌};
ghost use Rattle.steering.specs.Kinds.{NamesKind, kind_byte};
ghost use Rattle.steering.specs.Records.{body_length};

#[derive(Clone, Copy, PartialEq, Eq, Debug)]
pub(crate) enum Kind {
    Node,
    LowFloor,
    HighFloor,
    Hold,
    Note,
}

impl From<Kind> for u8 {
    ghost from_gives = { λ kind byte. byte ≡ kind_byte kind };

    fn from(kind: Kind) -> u8 {
        match kind {
            Kind::Node => 1,
            Kind::LowFloor => 2,
            Kind::HighFloor => 3,
            Kind::Hold => 4,
            Kind::Note => 5,
        }
    }
}

// A byte that no record has as its kind comes back.
impl TryFrom<u8> for Kind {
    type Error = u8;

    ghost try_from_gives = { NamesKind };

    fn try_from(byte: u8) -> Result<Kind, u8> {
        match byte {
            1 => Ok(Kind::Node),
            2 => Ok(Kind::LowFloor),
            3 => Ok(Kind::HighFloor),
            4 => Ok(Kind::Hold),
            5 => Ok(Kind::Note),
            _ => Err(byte),
        }
    }
}

impl Kind {
    #[tactic(auto, unfolding(crate::specs::Records::body_length))]
    pub(crate) fn body_length(self) -> usize
        ensures { result ≡ body_length (kind_byte self) }
    {
        match self {
            Kind::Node => 6,
            Kind::LowFloor | Kind::HighFloor => 2,
            Kind::Hold => 4,
            Kind::Note => 32,
        }
    }
}
