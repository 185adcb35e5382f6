// The fingerprint of a table.
ghost use Rattle.std.specs.Prelude.{◌≡◌, length};
ghost use Rattle.steering.specs.Answers.{fingerprinted_of};
ghost use Rattle.steering.specs.Fingerprint.{fingerprint_answer, fingerprint_leaves};
ghost use Rattle.steering.specs.Parsing.{parse};

use super::counting::count;
use super::refusals::Refusal;
use echo::Mode;

// What a fingerprint is refused for, by the lengths of salt and room and by the table.
fn refusal_of(salt: usize, room: usize, table: &[u8]) -> Result<(), Refusal>
    ensures { fingerprinted_of result ≡ fingerprint_answer salt room (parse table.now) }
{
    if salt != 16 {
        return Err(Refusal::BadSalt);
    }
    if room < 32 {
        return Err(Refusal::ShortRoom);
    }
    count(table)?;
    Ok(())
}

// Puts the 256-bit digest, in double-pipe, of the whole table, which is read where it lies, at the front of `out`, whose bytes behind it stay; or refuses by
// 2, 5, 8, 9 or 10 and writes nothing. The digest layer takes each table that gets that far (`the_digest_layer_takes_each_message`), so what it answers
// is not looked at.
pub fn fingerprint(salt: &[u8], table: &[u8], out: &mut [u8]) -> Result<(), Refusal>
    ensures answer { fingerprinted_of result ≡ fingerprint_answer (length salt.now) (length out.old) (parse table.now) }
    ensures left { out.new ≡ fingerprint_leaves salt.now table.now out.old }
{
    refusal_of(salt.len(), out.len(), table)?;
    let _ = echo::digest(Mode::DoublePipe, 256, salt, table, out);
    Ok(())
}
