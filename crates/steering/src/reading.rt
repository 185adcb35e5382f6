// Reading a table at a place.
ghost use Rattle.std.specs.Prelude.{◌≡◌, IfOk, IfSome, get_or};
ghost use Rattle.steering.specs.Answers.{reading_of};
ghost use Rattle.steering.specs.Kinds.{kind_byte};
ghost use Rattle.steering.specs.Reading.{read_at};
ghost use Rattle.steering.specs.Standing.{standing_of};

use super::kinds::Kind;
use super::records::{Record, record_of};
use super::refusals::Refusal;

// The kind of the record at a place and the place behind it, or none at the end; or a refusal. What is in the body is not looked at: counting needs
// no more, and takes three times as long where it makes each record.
pub(crate) fn stands_at(table: &[u8], place: usize) -> Result<Option<(Kind, usize)>, Refusal>
    ensures reading { standing_of table.now place result ≡ read_at table.now place }
    ensures kind { IfOk result (λ found. IfSome found (λ standing. kind_byte standing.0 ≡ get_or table.now place 0)) }
{
    let n = table.len();
    if n < place {
        return Err(Refusal::PastEnd);
    }
    if 4096 < n {
        return Err(Refusal::LongTable);
    }
    if place == n {
        return Ok(None);
    }
    let Ok(kind) = Kind::try_from(table[place]) else {
        return Err(Refusal::UnknownKind { place });
    };
    let at = place + 1;
    let length = kind.body_length();
    if n - at < length {
        return Err(Refusal::CutShort { place });
    }
    Ok(Some((kind, at + length)))
}

// The record at a place and the place behind it, or none at the end; or a refusal by 6 (the place is past the end), 8 (the table is over 4,096 bytes),
// 9 (unknown kind) or 10 (cut short).
pub fn read_at(table: &[u8], place: usize) -> Result<Option<(Record, usize)>, Refusal>
    ensures { reading_of result ≡ read_at table.now place }
{
    match stands_at(table, place)? {
        Some((kind, next)) => Ok(Some((record_of(kind, &table[place + 1..next]), next))),
        None => Ok(None),
    }
}
