// Salts in hex.
ghost use Rattle.std.specs.Prelude.{◌≡◌};
ghost use Rattle.digits.specs.Salts.{salt_of};

use super::hexadecimal::bytes_in;

// Thirty-two hex digits.
pub fn salt_in(word: &[u8]) -> Option<[u8; 16]>
    ensures { result ≡ salt_of word.now }
{
    if word.len() != 32 {
        return None;
    }
    bytes_in(word)
}
