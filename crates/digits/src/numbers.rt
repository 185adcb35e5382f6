// Numbers in decimal.
ghost use Rattle.std.specs.Prelude.{◌≡◌, ◌≤◌, IfSome};
ghost use Rattle.digits.specs.Numbers.{decimal_of, number_of};

use super::hexadecimal::nibble;

// The value of a decimal digit.
#[tactic(auto, unfolding(crate::specs::Numbers::decimal_of))]
fn decimal(digit: u8) -> Option<u8>
    ensures is { result ≡ decimal_of digit }
    ensures small { IfSome result (λ value. value ≤ 9) }
{
    nibble(digit).filter(|value| *value <= 9)
}

// One to sixteen decimal digits, so that the value fits.
#[tactic(auto, using(crate::proofs::Laws::Numbers::digit_steps), unfolding(crate::specs::Numbers::number_of, crate::specs::Numbers::number_from))]
pub fn number_in(word: &[u8]) -> Option<u64>
    ensures { result ≡ number_of word.now }
{
    if word.is_empty() || 16 < word.len() {
        return None;
    }
    let mut value = 0;
    for digit in word {
        value = 10 * value + u64::from(decimal(*digit)?);
    }
    Some(value)
}
