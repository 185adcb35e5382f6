// Bytes as numbers of 32 bits, the least significant byte first, and back.
ghost use Rattle.std.specs.Prelude.{◌≡◌, ◌+◌, ◌*◌, ◌≤◌, length, slice_index};
ghost use Rattle.aes_round.specs.Bytes.{tab};
ghost use Rattle.aes_round.specs.Numbers.{byte_of, bytes_of, number, numbers};
ghost use Rattle.echo.specs.Placed.{Placed};

// The number of the four bytes of s from the place `at` on.
fn number_at(s: &[u8], at: usize) -> u32
    requires { at + 4 ≤ length s.now }
    ensures { result ≡ number (λ p. slice_index s.now (at + p)) }
{
    u32::from_le_bytes([s[at], s[at + 1], s[at + 2], s[at + 3]])
}

// The bytes as N numbers, four for each word.
pub(crate) fn numbers_of<const N: usize>(s: &[u8]) -> [u32; N]
    requires { length s.now ≡ 4 * N }
    ensures { result ≡ numbers N s.now }
{
    std::array::from_fn(|k| number_at(s, 4 * k))
}

// Puts the four bytes of x into s, from the place `at` on.
fn put_number(s: &mut [u8], at: usize, x: u32)
    requires { at + 4 ≤ length s.old }
    ensures { Placed s.old at (tab 4 (byte_of x)) 4 s.new }
{
    s[at..at + 4].copy_from_slice(&x.to_le_bytes());
}

// Puts 64 numbers into the square.
pub(crate) fn put_numbers(s: &mut [u8], r: [u32; 64])
    requires { length s.old ≡ 256 }
    ensures { s.new ≡ bytes_of 64 r }
{
    for (k, x) in r.iter().enumerate() {
        put_number(s, 4 * k, *x);
    }
}
