// The number of an answer, for C: 0, or that of what was refused.
ghost use Rattle.std.specs.Prelude.{◌≡◌, ℕ, Ok, Err, Result, refl};
ghost use Rattle.echo.specs.Answers.{refusal_of};
ghost use Rattle.hmac.specs.Answers.{verification_of};

use echo::Refusal;
use hmac::Unverified;

// What an answer can be refused as.
pub(crate) trait Numbered {
    // the number of a whole answer
    ghost answered: { Result (Unit {0}) Self → ℕ };

    fn number(self) -> u8
        ensures { result ≡ answered (Err self) };

    ghost done_is_0: { (done : Unit {0}) → answered (Ok done) ≡ 0 };
}

impl Numbered for Refusal {
    ghost answered = { refusal_of };

    ghost done_is_0 = { λ done. refl };

    fn number(self) -> u8 {
        Refusal::number(self)
    }
}

impl Numbered for Unverified {
    ghost answered = { verification_of };

    ghost done_is_0 = { λ done. refl };

    fn number(self) -> u8 {
        Unverified::number(self)
    }
}

pub(crate) fn number<E: Numbered>(answer: Result<(), E>) -> u8
    ensures { result ≡ E.answered answer }
{
    match answer {
        Ok(()) => 0,
        Err(refusal) => refusal.number(),
    }
}
