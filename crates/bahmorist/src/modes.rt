// Modes as numbers: 0 double-pipe, 1 single-pipe.
ghost use Rattle.std.specs.Prelude.{◌≡◌, true, false, MatchOption};
ghost use Rattle.bahmorist.specs.Modes.{mode_of, no_mode};

use echo::Mode;

pub(crate) fn mode_of(number: u8) -> Option<Mode>
    ensures { MatchOption result (true ≡ no_mode number) (λ mode. (false ≡ no_mode number) × (mode ≡ mode_of number)) }
{
    match number {
        0 => Some(Mode::DoublePipe),
        1 => Some(Mode::SinglePipe),
        _ => None,
    }
}
