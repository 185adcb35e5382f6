// Numbers in decimal.
ghost use Rattle.std.specs.Prelude.{◌+◌, ◌%◌, ◌≡◌};
ghost use Rattle.lines.specs.Decimal.{decimal_of};
ghost use Rattle.lines.specs.Lines.{Put};

use super::bytes::put;

// The last digit of a number.
fn last_digit(number: u64) -> u8
    ensures { result ≡ 48 + number % 10 }
{
    b'0' + (number % 10) as u8
}

// The digits that a number needs, at least one. They are found from the last one on, and stand at the end of `digits`.
pub fn put_decimal(room: &mut [u8], at: usize, number: u64) -> usize
    ensures { Put room.old at (decimal_of number) room.new result }
{
    let mut digits = [0u8; 20];
    digits[19] = last_digit(number);
    let mut from = 19;
    let mut rest = number / 10;
    while 0 < rest {
        from -= 1;
        digits[from] = last_digit(rest);
        rest /= 10;
    }
    put(room, at, &digits[from..20])
}
