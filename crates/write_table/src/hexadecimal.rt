// Hex digits as the lister prints them.
ghost use Rattle.std.specs.Prelude.{◌*◌, ◌/◌, ◌<◌, ◌≡◌, ◌≤◌, MatchOption, length, not, take, true};
ghost use Rattle.std.specs.Char.{is_ascii_uppercase};
ghost use Rattle.std.specs.List.{list_all};
ghost use Rattle.write_table.specs.Hexadecimal.{is_hex, pairs_of};

use digits::bytes_in;

// Whether there is no capital.
fn is_small(text: &[u8]) -> bool
    ensures { result ≡ list_all (λ x. not (is_ascii_uppercase x)) text.now }
{
    text.iter().all(|byte| !byte.is_ascii_uppercase())
}

// The bytes of at most N pairs of digits, with zeros behind them. Capitals are no digits: the lister prints small letters.
pub(crate) fn pairs_in<const N: usize>(text: &[u8]) -> Option<[u8; N]>
    ensures { MatchOption result (is_hex text.now ≡ true → 2 * N < length text.now)
        (λ bytes. (is_hex text.now ≡ true) × (length text.now ≤ 2 * N) × (take (length text.now / 2) bytes ≡ pairs_of text.now)) }
{
    if !is_small(text) {
        return None;
    }
    bytes_in(text)
}
