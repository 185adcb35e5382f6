// The chaining variable that a digest begins with.
ghost use Rattle.std.specs.Prelude.{◌≡◌, ◌-◌, ◌%◌, ◌≤◌, ◌++◌, length, replicate, slice_index};
ghost use Rattle.aes_round.specs.Bytes.{tab};
ghost use Rattle.echo.specs.Digest.{initial as Digest·initial};
ghost use Rattle.echo.specs.Families.{chaining_size};

use super::families::chaining_size;
use super::mode::Mode;

// Fills v with a word, over and over.
fn repeat(v: &mut [u8], word: [u8; 16])
    ensures { v.new ≡ tab (length v.old) (λ k. slice_index word (k % 16)) }
{
    for (k, x) in v.iter_mut().enumerate() {
        *x = word[k % 16];
    }
}

// The initial chaining variable, in room for the longer one: each word is the digest length.
pub(crate) fn initial(mode: Mode, bits: u64) -> [u8; 128]
    requires { bits ≤ 512 }
    ensures { result ≡ Digest·initial (chaining_size mode bits) bits ++ replicate (128 - chaining_size mode bits) 0 }
{
    let c = chaining_size(mode, bits);
    let mut v = [0u8; 128];
    repeat(&mut v[..c], (bits as u128).to_le_bytes());
    v
}
