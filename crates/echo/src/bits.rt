// Bits of bytes, the most significant bit of a byte first.
ghost use Rattle.std.specs.Prelude.{◌≡◌, ◌+◌, ◌-◌, ◌^◌, ◌<◌, true, drop};
ghost use Rattle.echo.specs.Bits.{bits_of, byte_bits};
ghost use Rattle.echo.specs.Session.{all_zero};

use super::waiting::zeros_from;

// A byte of which the first `used` bits count, with the bit behind them set.
pub(crate) fn marked(x: u8, used: u64) -> u8
    requires used_bound { used < 8 }
    requires x_value { all_zero (drop used (byte_bits x)) ≡ true }
    ensures { result ≡ x + 2 ^ (7 - used) }
{
    x + (0x80 >> used)
}

// Whether the bits of a byte behind the first `used` are zero.
fn clear_behind(x: u8, used: u64) -> bool
    requires { used < 8 }
    ensures { result ≡ all_zero (drop used (byte_bits x)) }
{
    x << used == 0
}

// Whether every bit from the place `at` on is zero.
pub(crate) fn zero_bits_from(bytes: &[u8], at: u64) -> bool
    ensures { result ≡ all_zero (drop at (bits_of bytes.now)) }
{
    let place = (at / 8) as usize;
    match bytes.get(place) {
        None => true,
        Some(x) => clear_behind(*x, at % 8) && zeros_from(bytes, place + 1),
    }
}
