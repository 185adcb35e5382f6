// Hex digits.
ghost use Rattle.std.specs.Prelude.{◌≤◌, ◌≡◌, is_none, length, position};
ghost use Rattle.digits.specs.Hexadecimal.{nibble_of};
ghost use Rattle.echosum.specs.Hexadecimal.{digits_in};

use digits::nibble;

// The place of the first byte that is no digit.
fn first_other(text: &[u8]) -> Option<usize>
    ensures { result ≡ position (λ x. is_none (nibble_of x)) text.now }
{
    text.iter().position(|digit| nibble(*digit).is_none())
}

// How many bytes at the front are digits.
pub(crate) fn digits_in(text: &[u8]) -> usize
    ensures count { result ≡ digits_in text.now }
    ensures within { result ≤ length text.now }
{
    first_other(text).unwrap_or(text.len())
}
