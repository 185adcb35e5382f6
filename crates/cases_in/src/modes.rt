// Modes by their numbers: 1 is single-pipe.
ghost use Rattle.std.specs.Prelude.{◌≡◌};
ghost use Rattle.cases_in.specs.Modes.{mode_of, number_of};

use echo::Mode;

pub fn mode_of(number: u8) -> Mode
    ensures { result ≡ mode_of number }
{
    match number {
        1 => Mode::SinglePipe,
        _ => Mode::DoublePipe,
    }
}

pub fn number_of(mode: Mode) -> u64
    ensures { result ≡ number_of mode }
{
    match mode {
        Mode::DoublePipe => 0,
        Mode::SinglePipe => 1,
    }
}
