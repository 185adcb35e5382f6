// The values of hex digits, and the bytes of pairs of them.
ghost use Rattle.std.specs.Prelude.{◌≡◌, ◌≤◌, IfSome};
ghost use Rattle.digits.specs.Hexadecimal.{byte_of, bytes_of, nibble_of};

// The value of a hex digit of either case.
#[tactic(auto, unfolding(crate::specs::Hexadecimal::nibble_of))]
pub fn nibble(digit: u8) -> Option<u8>
    ensures is { result ≡ nibble_of digit }
    ensures small { IfSome result (λ value. value ≤ 15) }
{
    match digit {
        b'0'..=b'9' => Some(digit - b'0'),
        b'A'..=b'F' => Some(digit - b'A' + 10),
        b'a'..=b'f' => Some(digit - b'a' + 10),
        _ => None,
    }
}

// The byte of a pair of digits.
#[tactic(auto, unfolding(crate::specs::Hexadecimal::byte_of))]
fn byte_in(high: u8, low: u8) -> Option<u8>
    ensures { result ≡ byte_of high low }
{
    Some(16 * nibble(high)? + nibble(low)?)
}

// The bytes of at most N pairs of digits, with zeros behind them. (They are written by index: of what a zip of `iter_mut` wrote, a proof knows
// no element.)
#[tactic(auto, unfolding(crate::specs::Hexadecimal::bytes_of))]
pub fn bytes_in<const N: usize>(text: &[u8]) -> Option<[u8; N]>
    ensures { result ≡ bytes_of N text.now }
{
    let (pairs, rest) = text.as_chunks::<2>();
    if N < pairs.len() || !rest.is_empty() {
        return None;
    }
    let mut bytes = [0; N];
    for (i, pair) in pairs.iter().enumerate() {
        bytes[i] = byte_in(pair[0], pair[1])?;
    }
    Some(bytes)
}
