// Field arithmetic on the four bytes of a number at once.
ghost use Rattle.std.specs.Prelude.{◌≡◌};
ghost use Rattle.aes_round.specs.ByTables.{mix_numbers};
ghost use Rattle.aes_round.specs.Field.{mul};
ghost use Rattle.aes_round.specs.Numbers.{byte_of, number};

// Each byte times x: shifted by one place without its top bit, and 1b xored in where that was set. h has the top bits: with h / 80 taken away, a
// byte of it that was 80 is 7f, of which the mask leaves 1b, and no byte borrows from the next.
fn double_each(x: u32) -> u32
    ensures { result ≡ number (λ p. mul 2 (byte_of x p)) }
{
    let h = x & 0x8080_8080;
    let low = x ^ h;
    let ones = h - h / 0x80;
    (low << 1) ^ (ones & 0x1b1b_1b1b)
}

// Four columns mixed at once: the bytes at the same place in the four numbers are a column. With the sum t of all four rows, 02 a + 03 b + c + d is
// a + t + 02 (a + b).
pub fn mix_numbers(c: [u32; 4]) -> [u32; 4]
    ensures { result ≡ mix_numbers c }
{
    let t = (c[0] ^ c[1]) ^ (c[2] ^ c[3]);
    [
        (c[0] ^ t) ^ double_each(c[0] ^ c[1]),
        (c[1] ^ t) ^ double_each(c[1] ^ c[2]),
        (c[2] ^ t) ^ double_each(c[2] ^ c[3]),
        (c[3] ^ t) ^ double_each(c[3] ^ c[0]),
    ]
}
