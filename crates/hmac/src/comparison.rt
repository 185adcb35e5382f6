// Whether two byte strings are the same.
ghost use Rattle.std.specs.Prelude.{◌≡◌};
ghost use Rattle.hmac.specs.Same.{same as Same·same};

// Looks at every byte whatever the first ones are, where the lengths are equal.
pub fn same(a: &[u8], b: &[u8]) -> bool
    ensures { result ≡ Same·same a.now b.now }
{
    let n = a.len();
    if b.len() != n {
        return false;
    }
    let mut differing: u8 = 0;
    for i in 0..n {
        differing = differing | (a[i] ^ b[i]);
    }
    differing == 0
}
