// Why a call of the system failed, in the words of the C library.
ghost use Rattle.std.specs.Prelude.{◌≡◌};
ghost use Rattle.lines.specs.Lines.{Put};
ghost use Rattle.lines.specs.Reasons.{number_of, reason_of};

use super::bytes::put;
use super::decimal::put_decimal;

// An error number as C has it, of which none is below 0.
fn number(error: i32) -> u64
    ensures { result ≡ number_of error }
{
    u64::try_from(error).unwrap_or(0)
}

fn put_number(room: &mut [u8], at: usize, error: u64) -> usize
    ensures { Put room.old at (reason_of error) room.new result }
{
    if error == 2 {
        return put(room, at, b"No such file or directory");
    }
    if error == 5 {
        return put(room, at, b"Input/output error");
    }
    if error == 9 {
        return put(room, at, b"Bad file descriptor");
    }
    if error == 13 {
        return put(room, at, b"Permission denied");
    }
    if error == 20 {
        return put(room, at, b"Not a directory");
    }
    if error == 21 {
        return put(room, at, b"Is a directory");
    }
    if error == 28 {
        return put(room, at, b"No space left on device");
    }
    if error == 36 {
        return put(room, at, b"File name too long");
    }
    let end = put(room, at, b"error ");
    put_decimal(room, end, error)
}

// The reason behind an error number of Linux: the text of those that opening, reading and writing files meet most, and `error N` for any
// other.
pub fn put_reason(room: &mut [u8], at: usize, error: i32) -> usize
    ensures { Put room.old at (reason_of (number_of error)) room.new result }
{
    put_number(room, at, number(error))
}
