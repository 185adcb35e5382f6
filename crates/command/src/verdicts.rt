// The verdict: whether all went well. A program has no status of its own, so it is written where tools/run reads it.
ghost use Rattle.std.specs.Prelude.{◌≡◌};
ghost use Rattle.command.specs.Verdicts.{verdict_of};

// The descriptor that a word names for the verdict: `--verdict-fd=N`, N from 3 to 9.
#[tactic(auto, unfolding(crate::specs::Words::bytes_of))]
pub fn verdict_in(word: &[u8]) -> Option<i32>
    ensures { result ≡ verdict_of word.now }
{
    match word.strip_prefix(b"--verdict-fd=")? {
        [digit @ b'3'..=b'9'] => Some((digit - b'0') as i32),
        _ => None,
    }
}

// Nowhere, where no word names one.
pub fn give_verdict(rt: &HostRuntime, descriptor: Option<i32>, is_good: bool) {
    let Some(number) = descriptor else {
        return;
    };
    let status: &[u8] = if is_good { b"0\n" } else { b"1\n" };
    let _ = host::write_to(rt, number, status);
}
