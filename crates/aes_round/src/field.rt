// The field of bytes, by shift, mask and xor.
ghost use Rattle.std.specs.Prelude.{◌≡◌};
ghost use Rattle.aes_round.specs.Field.{mul};

// A byte times x: a shift by one place, with 1b xored in where the top bit was set.
pub fn double(b: u8) -> u8
    ensures { result ≡ mul 2 b }
{
    if b & 0x80 == 0 {
        b << 1
    } else {
        (b << 1) ^ 0x1b
    }
}

// The product of two bytes: for each coefficient of c, the lowest first, b as often doubled. Where c is a constant the loop folds
// away.
pub fn times(c: u8, b: u8) -> u8
    ensures { result ≡ mul c b }
{
    let mut sum: u8 = 0;
    let mut p = c;
    let mut q = b;
    while 0 < p {
        if p & 1 == 1 {
            sum = sum ^ q;
        }
        p = p >> 1;
        q = double(q);
    }
    sum
}
