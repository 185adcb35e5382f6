// What the mode and the digest length fix.
ghost use Rattle.std.specs.Prelude.{◌≡◌};
ghost use Rattle.echo.specs.Families.{block_size, chaining_size};
ghost use Rattle.echo.specs.Session.{admitted as Session·admitted};

use super::mode::Mode;

pub(crate) fn admitted(bits: u64) -> bool
    ensures { result ≡ Session·admitted bits }
{
    128 <= bits && bits <= 512 && bits % 8 == 0
}

pub(crate) fn chaining_size(mode: Mode, bits: u64) -> usize
    ensures { result ≡ chaining_size mode bits }
{
    match mode {
        Mode::DoublePipe => if bits <= 256 { 64 } else { 128 },
        Mode::SinglePipe => if bits <= 256 { 32 } else { 64 },
    }
}

// The rest of the square.
pub(crate) fn block_size(mode: Mode, bits: u64) -> usize
    ensures { result ≡ block_size mode bits }
{
    256 - chaining_size(mode, bits)
}
