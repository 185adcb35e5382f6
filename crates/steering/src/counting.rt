// Counting the records of a table.
ghost use Rattle.std.specs.Prelude.{◌≡◌};
ghost use Rattle.steering.specs.Answers.{counted_of};
ghost use Rattle.steering.specs.Parsing.{count_of, parse};

use super::reading::stands_at;
use super::refusals::Refusal;

// Counts the records of a table; or refuses by 8, 9 or 10, for the record nearest the front.
#[tactic(auto, using(crate::proofs::Laws::Parsing::count_end, crate::proofs::Laws::Parsing::count_next, crate::proofs::Laws::Parsing::count_stop, crate::proofs::Laws::Reading::less_left))]
pub fn count(table: &[u8]) -> Result<usize, Refusal>
    ensures { counted_of result ≡ count_of (parse table.now) }
{
    let mut at = 0;
    let mut records: usize = 0;
    loop {
        match stands_at(table, at) {
            Ok(Some((_, next))) => at = next,
            Ok(None) => return Ok(records),
            Err(refusal) => return Err(refusal),
        }
        records += 1;
    }
}
