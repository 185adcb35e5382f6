// Bytes into and out of lent slices.
ghost use Rattle.std.specs.Prelude.{◌≡◌, ◌+◌, ◌*◌, ◌<◌, ◌≤◌, length, slice_index};
ghost use Rattle.aes_round.specs.Bytes.{tab};
ghost use Rattle.echo.specs.Placed.{Placed};

// Copies all of src into dst, from the place `at` on.
pub(crate) fn copy_in(dst: &mut [u8], at: usize, src: &[u8])
    requires { at + length src.now ≤ length dst.old }
    ensures { Placed dst.old at src.now (length src.now) dst.new }
{
    dst[at..at + src.len()].copy_from_slice(src);
}

// The sixteen bytes of src from the place `at` on.
pub(crate) fn sixteen(src: &[u8], at: usize) -> [u8; 16]
    requires { at + 16 ≤ length src.now }
    ensures { result ≡ tab 16 (λ k. slice_index src.now (at + k)) }
{
    let mut r = [0u8; 16];
    r.copy_from_slice(&src[at..at + 16]);
    r
}
