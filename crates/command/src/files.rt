// The files that words name.
ghost use Rattle.std.specs.Prelude.{◌≡◌, ◌≢◌, [], ◌∷◌, Err, Ok, pos};
ghost use Rattle.std.specs.Str.{IsUtf8};
ghost use Rattle.host.specs.declared.reading.Source.{Source};

use host::{Error, Source};

// Of a longer word only the front is taken, and that will do: no option, number, salt or path is so long.
pub const LONGEST_WORD: usize = 4096;

// A dash is standard input.
pub fn open(rt: &HostRuntime, name: &[u8]) -> Result<Source, Error>
    ensures dash { name.now ≡ 45 ∷ [] → (input : _) × (result ≡ Ok (Source.Input input)) }
    ensures file { name.now ≢ 45 ∷ [] → ¬ (IsUtf8 name.now) → result ≡ Err (record { number = pos 84 }) }
{
    match name {
        b"-" => Ok(host::standard_input(rt)),
        _ => host::open(rt, name),
    }
}
