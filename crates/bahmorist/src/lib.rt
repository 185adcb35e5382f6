#![tactic(auto)]
// The library as C and Rust see it: include/bahmorist.h declares these functions. A slice is a pointer and a length there. Each but the last answers as
// the routine of a layer below that it calls, and so its contract is that routine's; those that end in `_in`, `bahmorist_digest_bits` and
// `bahmorist_compress_wide` take a mode as a number, and refuse a number that is no mode's by 6. Those that end in `_wide` take a counter of 128 bits by its halves.
mod answers;
mod in_modes;
mod modes;

ghost use Rattle.std.specs.Prelude.{◌≡◌, length};
ghost use Rattle.echo.specs.declared.mode.Mode.TheVariants.{DoublePipe};
ghost use Rattle.echo.specs.Numbers.{halves};
ghost use Rattle.echo.specs.Routines.{compress_leaves, compress_refusal, rounds_back_leave, rounds_back_wide_leave, rounds_leave, rounds_refusal, rounds_wide_leave, rounds_wide_refusal};
ghost use Rattle.echo.specs.Session.{digest_leaves, digest_refusal};
ghost use Rattle.hmac.specs.Routines.{check_answer, make_leaves, make_refusal, verify_refusal};
ghost use Rattle.hmac.specs.Same.{same};
ghost use Rattle.steering.specs.Fingerprint.{fingerprint_answer, fingerprint_leaves};
ghost use Rattle.steering.specs.Parsing.{count_of, parse};
ghost use Rattle.steering.specs.Reading.{number_of as readNumber, read_at};
ghost use Rattle.steering.specs.Writing.{write_body_answer, write_body_leaves};
ghost use Rattle.bahmorist.specs.Answers.{number_of, version_number};
ghost use Rattle.bahmorist.specs.Tables.{kind_read, next_read};
ghost use Rattle.bahmorist.specs.Modes.{compress_in_leaves, compress_in_refusal, compress_wide_in_leaves, compress_wide_in_refusal, digest_bits_in_leaves, digest_bits_in_refusal, digest_in_leaves, digest_in_refusal};

use answers::number;
use echo::Mode;
use in_modes::{compress_in, compress_wide_in, digest_bits_in, digest_in};

// The digest of a message at the front of `out`, and 0; or a refusal by 1, 2, 4 or 5.
#[unsafe(no_mangle)]
pub extern "C" fn bahmorist_digest(bits: u64, salt: &[u8], message: &[u8], out: &mut [u8]) -> u8
    ensures refusal { result ≡ digest_refusal bits (length salt.now) (length message.now) (length out.old) }
    ensures left { out.new ≡ digest_leaves DoublePipe bits salt.now message.now out.old }
{
    number(echo::digest(Mode::DoublePipe, bits, salt, message, out))
}

// The same in the mode of a number, and 0; or a refusal by 1, 2, 4, 5 or 6.
#[unsafe(no_mangle)]
pub extern "C" fn bahmorist_digest_in(
    mode: u8,
    bits: u64,
    salt: &[u8],
    message: &[u8],
    out: &mut [u8],
) -> u8
    ensures refusal { result ≡ digest_in_refusal mode bits (length salt.now) (length message.now) (length out.old) }
    ensures left { out.new ≡ digest_in_leaves mode bits salt.now message.now out.old }
{
    number(digest_in(mode, bits, salt, message, out))
}

// The same of the first so many bits of a message, and 0; or a refusal by 1, 2, 4, 5, 6 or 17.
#[unsafe(no_mangle)]
pub extern "C" fn bahmorist_digest_bits(
    mode: u8,
    bits: u64,
    salt: &[u8],
    message: &[u8],
    count: u64,
    out: &mut [u8],
) -> u8
    ensures refusal { result ≡ digest_bits_in_refusal mode bits (length salt.now) message.now count (length out.old) }
    ensures left { out.new ≡ digest_bits_in_leaves mode bits salt.now message.now count out.old }
{
    number(digest_bits_in(mode, bits, salt, message, count, out))
}

// The square after 8 or 10 rounds that count on from `counter`, and 0; or a refusal by 2, 6 or 7.
#[unsafe(no_mangle)]
pub extern "C" fn bahmorist_rounds(square: &mut [u8], rounds: u64, counter: u64, salt: &[u8]) -> u8
    ensures refusal { result ≡ rounds_refusal (length square.old) rounds counter (length salt.now) }
    ensures left { square.new ≡ rounds_leave square.old rounds counter salt.now }
{
    number(echo::rounds(square, rounds, counter, salt))
}

// The square that those rounds took to this one, and 0; or a refusal by 2, 6 or 7.
#[unsafe(no_mangle)]
pub extern "C" fn bahmorist_rounds_back(
    square: &mut [u8],
    rounds: u64,
    counter: u64,
    salt: &[u8],
) -> u8
    ensures refusal { result ≡ rounds_refusal (length square.old) rounds counter (length salt.now) }
    ensures left { square.new ≡ rounds_back_leave square.old rounds counter salt.now }
{
    number(echo::rounds_back(square, rounds, counter, salt))
}

// The square after 8 or 10 rounds that count on from the counter of these halves, modulo 2^128, and 0; or a refusal by 2 or 6.
#[unsafe(no_mangle)]
pub extern "C" fn bahmorist_rounds_wide(
    square: &mut [u8],
    rounds: u64,
    low: u64,
    high: u64,
    salt: &[u8],
) -> u8
    ensures refusal { result ≡ rounds_wide_refusal (length square.old) rounds (length salt.now) }
    ensures left { square.new ≡ rounds_wide_leave square.old rounds (halves low high) salt.now }
{
    number(echo::rounds_wide(square, rounds, low, high, salt))
}

// The square that those rounds took to this one, and 0; or a refusal by 2 or 6.
#[unsafe(no_mangle)]
pub extern "C" fn bahmorist_rounds_back_wide(
    square: &mut [u8],
    rounds: u64,
    low: u64,
    high: u64,
    salt: &[u8],
) -> u8
    ensures refusal { result ≡ rounds_wide_refusal (length square.old) rounds (length salt.now) }
    ensures left { square.new ≡ rounds_back_wide_leave square.old rounds (halves low high) salt.now }
{
    number(echo::rounds_back_wide(square, rounds, low, high, salt))
}

// The next chaining value in the place of this one, and 0; or a refusal by 2, 6 or 7.
#[unsafe(no_mangle)]
pub extern "C" fn bahmorist_compress(
    chaining: &mut [u8],
    block: &[u8],
    counter: u64,
    salt: &[u8],
) -> u8
    ensures refusal { result ≡ compress_refusal DoublePipe (length chaining.old) (length block.now) counter (length salt.now) }
    ensures left { chaining.new ≡ compress_leaves DoublePipe chaining.old block.now counter salt.now }
{
    number(echo::compress(Mode::DoublePipe, chaining, block, counter, salt))
}

// The same in the mode of a number, and 0; or a refusal by 2, 6 or 7.
#[unsafe(no_mangle)]
pub extern "C" fn bahmorist_compress_in(
    mode: u8,
    chaining: &mut [u8],
    block: &[u8],
    counter: u64,
    salt: &[u8],
) -> u8
    ensures refusal { result ≡ compress_in_refusal mode (length chaining.old) (length block.now) counter (length salt.now) }
    ensures left { chaining.new ≡ compress_in_leaves mode chaining.old block.now counter salt.now }
{
    number(compress_in(mode, chaining, block, counter, salt))
}

// The same from the counter of these halves, which counts on modulo 2^128, and 0; or a refusal by 2 or 6.
#[unsafe(no_mangle)]
pub extern "C" fn bahmorist_compress_wide(
    mode: u8,
    chaining: &mut [u8],
    block: &[u8],
    low: u64,
    high: u64,
    salt: &[u8],
) -> u8
    ensures refusal { result ≡ compress_wide_in_refusal mode (length chaining.old) (length block.now) (length salt.now) }
    ensures left { chaining.new ≡ compress_wide_in_leaves mode chaining.old block.now (halves low high) salt.now }
{
    number(compress_wide_in(mode, chaining, block, low, high, salt))
}

// The fingerprint of a table at the front of `out`, and 0; or a refusal by 2, 5, 8, 9 or 10. `place` is written on every call: the place of
// the kind byte with 9 and 10, and else 0.
#[unsafe(no_mangle)]
pub extern "C" fn bahmorist_fingerprint(
    salt: &[u8],
    table: &[u8],
    out: &mut [u8],
    place: &mut u64,
) -> u8
    ensures refusal { result ≡ (fingerprint_answer (length salt.now) (length out.old) (parse table.now)).refusal }
    ensures left { out.new ≡ fingerprint_leaves salt.now table.now out.old }
    ensures place { place.new ≡ (fingerprint_answer (length salt.now) (length out.old) (parse table.now)).place }
{
    match steering::fingerprint(salt, table, out) {
        Ok(()) => {
            *place = 0;
            0
        }
        Err(refusal) => {
            *place = refusal.place() as u64;
            refusal.number()
        }
    }
}

// What stands at a place of a table, and 0; or a refusal by 6, 8, 9 or 10. `kind` and `next` are written on every call: the record's kind byte and the place
// behind the record; 0 and the place at the table's end; 0 and the refusal's place.
#[unsafe(no_mangle)]
pub extern "C" fn bahmorist_read_at(table: &[u8], place: u64, kind: &mut u8, next: &mut u64) -> u8
    ensures refusal { result ≡ readNumber (read_at table.now place) }
    ensures kind { kind.new ≡ kind_read (read_at table.now place) }
    ensures next { next.new ≡ next_read place (read_at table.now place) }
{
    match steering::read_at(table, place as usize) {
        Ok(Some((record, behind))) => {
            *kind = steering::kind_of(record);
            *next = behind as u64;
            0
        }
        Ok(None) => {
            *kind = 0;
            *next = place;
            0
        }
        Err(refusal) => {
            *kind = 0;
            *next = refusal.place() as u64;
            refusal.number()
        }
    }
}

// How many records a table has, and 0; or a refusal by 8, 9 or 10. `count` and `place` are written on every call: the number of records, 0 with a refusal,
// and the refusal's place.
#[unsafe(no_mangle)]
pub extern "C" fn bahmorist_count(table: &[u8], count: &mut u64, place: &mut u64) -> u8
    ensures refusal { result ≡ (count_of (parse table.now)).refusal }
    ensures count { count.new ≡ (count_of (parse table.now)).count }
    ensures place { place.new ≡ (count_of (parse table.now)).place }
{
    match steering::count(table) {
        Ok(records) => {
            *place = 0;
            *count = records as u64;
            0
        }
        Err(refused) => {
            *count = 0;
            *place = refused.place() as u64;
            refused.number()
        }
    }
}

// Puts a record at a place of the room, its kind byte first, and 0; or a refusal by 5, 9 or 10. `next` is written on every call: the place behind the
// record, and 0 with a refusal.
#[unsafe(no_mangle)]
pub extern "C" fn bahmorist_write_at(
    room: &mut [u8],
    place: u64,
    kind: u8,
    body: &[u8],
    next: &mut u64,
) -> u8
    ensures refusal { result ≡ (write_body_answer (length room.old) place kind (length body.now)).refusal }
    ensures left { room.new ≡ write_body_leaves room.old place kind body.now }
    ensures next { next.new ≡ (write_body_answer (length room.old) place kind (length body.now)).next }
{
    match steering::write_body_at(room, place as usize, kind, body) {
        Ok(after) => {
            *next = after as u64;
            0
        }
        Err(refusal) => {
            *next = 0;
            refusal.number()
        }
    }
}

// The tag of a message under a key at the front of `out`, and 0; or a refusal by 1, 2, 4 or 5.
#[unsafe(no_mangle)]
pub extern "C" fn bahmorist_hmac(
    bits: u64,
    salt: &[u8],
    key: &[u8],
    message: &[u8],
    out: &mut [u8],
) -> u8
    ensures refusal { result ≡ make_refusal bits (length salt.now) (length key.now) (length message.now) (length out.old) }
    ensures left { out.new ≡ make_leaves bits salt.now key.now message.now out.old }
{
    number(hmac::make_tag(bits, salt, key, message, out))
}

// 0 where a tag is that of a message under a key, and there alone; or a refusal by 1, 2 or 4, or by 19 for any other tag.
#[unsafe(no_mangle)]
pub extern "C" fn bahmorist_hmac_verify(
    bits: u64,
    salt: &[u8],
    key: &[u8],
    message: &[u8],
    tag: &[u8],
) -> u8
    ensures { result ≡ verify_refusal bits salt.now key.now message.now tag.now }
{
    number(hmac::verify_tag(bits, salt, key, message, tag))
}

// Whether a tag is that of a message under a key, and 0; or a refusal by 1, 2 or 4. `yes` is written on every call: 1 for yes, and 0 for no
// and with a refusal.
#[unsafe(no_mangle)]
pub extern "C" fn bahmorist_hmac_check(
    bits: u64,
    salt: &[u8],
    key: &[u8],
    message: &[u8],
    tag: &[u8],
    yes: &mut u8,
) -> u8
    ensures refusal { result ≡ (check_answer bits salt.now key.now message.now tag.now).refusal }
    ensures yes { yes.new ≡ number_of (check_answer bits salt.now key.now message.now tag.now).yes }
{
    match hmac::check_tag(bits, salt, key, message, tag) {
        Ok(right) => {
            *yes = u8::from(right);
            0
        }
        Err(refusal) => {
            *yes = 0;
            refusal.number()
        }
    }
}

// 1 where two strings of bytes are the same, and else 0.
#[unsafe(no_mangle)]
pub extern "C" fn bahmorist_same(a: &[u8], b: &[u8]) -> u8
    ensures { result ≡ number_of (same a.now b.now) }
{
    u8::from(hmac::same(a, b))
}

// The version of the library as one number.
#[unsafe(no_mangle)]
pub extern "C" fn bahmorist_version() -> u32
    ensures { result ≡ version_number }
{
    800
}
