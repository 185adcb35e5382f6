// Bytes as hex digits.
ghost use Rattle.std.specs.Prelude.{◌/◌, ◌%◌, ◌<◌, ◌≡◌};
ghost use Rattle.lines.specs.Lines.{Put, spread};
ghost use Rattle.lines.specs.Hexadecimal.{digit_of, digits_of};

use super::bytes::{put_byte, start};

// The digit, in lower case, of a value below 16.
fn digit(value: u8) -> u8
    requires { value < 16 }
    ensures { result ≡ digit_of value }
{
    if value < 10 {
        b'0' + value
    } else {
        b'a' + (value - 10)
    }
}

fn high_digit(byte: u8) -> u8
    ensures { result ≡ digit_of (byte / 16) }
{
    digit(byte / 16)
}

fn low_digit(byte: u8) -> u8
    ensures { result ≡ digit_of (byte % 16) }
{
    digit(byte % 16)
}

// Two digits for each byte.
pub fn put_hex(room: &mut [u8], at: usize, bytes: &[u8]) -> usize
    ensures { Put room.old at (spread digits_of bytes.now) room.new result }
{
    let mut end = start(room.len(), at);
    for i in 0..bytes.len() {
        let byte = bytes[i];
        let between = put_byte(room, end, high_digit(byte));
        end = put_byte(room, between, low_digit(byte));
    }
    end
}
