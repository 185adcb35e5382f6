// Compression (sections 3 to 5), over the size of the chaining variable.
ghost use Rattle.std.specs.Prelude.{◌≡◌, ◌+◌, ◌*◌, ◌/◌, ◌^◌, ◌<◌, ◌≤◌, length};
ghost use Rattle.aes_round.specs.Bytes.{xor_bytes};
ghost use Rattle.echo.specs.Answers.{refusal_of};
ghost use Rattle.echo.specs.Compression.{fold};
ghost use Rattle.echo.specs.Compression.{compress as Compression·compress};
ghost use Rattle.echo.specs.Families.{round_count};
ghost use Rattle.echo.specs.Numbers.{halves};
ghost use Rattle.echo.specs.Routines.{compress_leaves, compress_refusal, compress_wide_leaves, compress_wide_refusal};
ghost use Rattle.echo.specs.Square.{keys_from, wide_keys_from};

use super::counter::Counter;
use super::families::chaining_size;
use super::lent::{copy_in, sixteen};
use super::mode::Mode;
use super::refusal::Refusal;
use super::refusals::{check_compress, check_compress_wide};
use super::run::run;

// Xors src into v. By the place in src, since a proof knows nothing of what is written through a `zip`.
fn xor_in(v: &mut [u8], src: &[u8])
    requires { length src.now ≡ length v.old }
    ensures { v.new ≡ xor_bytes (length v.old) v.old src.now }
{
    for (k, x) in v.iter_mut().enumerate() {
        *x ^= src[k];
    }
}

// Xors the fold of src into v, part by part of v's size.
fn fold_in(v: &mut [u8], src: &[u8])
    requires { 0 < length v.old }
    ensures { v.new ≡ xor_bytes (length v.old) v.old (fold (length v.old) src.now) }
{
    let c = v.len();
    for part in src.chunks_exact(c) {
        xor_in(v, part);
    }
}

// A chaining variable and a block that fill a square together, through `count` rounds.
fn compress_wide_in(chaining: &mut [u8], block: &[u8], count: u64, counter: Counter, salt: [u8; 16])
    requires chaining_nonzero { 0 < length chaining.old }
    requires block_len { length chaining.old + length block.now ≡ 256 }
    requires count_bound { 16 * count ≤ 2 ^ 64 }
    ensures { chaining.new ≡ Compression·compress (length chaining.old) count (wide_keys_from (halves counter.low counter.high)) salt chaining.old block.now }
{
    let c = chaining.len();
    let mut square = [0u8; 256];
    copy_in(&mut square, 0, chaining);
    copy_in(&mut square, c, block);
    run(&mut square, count, counter, salt);
    fold_in(chaining, block);
    fold_in(chaining, &square);
}

// The same with a counter of 64 bits that does not outgrow them.
pub(crate) fn compress_in(
    chaining: &mut [u8],
    block: &[u8],
    count: u64,
    counter: u64,
    salt: [u8; 16],
)
    requires chaining_nonzero { 0 < length chaining.old }
    requires block_len { length chaining.old + length block.now ≡ 256 }
    requires count_bound { counter + 16 * count ≤ 2 ^ 64 }
    ensures { chaining.new ≡ Compression·compress (length chaining.old) count (keys_from counter) salt chaining.old block.now }
{
    let start = Counter {
        low: counter,
        high: 0,
    };
    compress_wide_in(chaining, block, count, start, salt);
}

// The rounds of a mode for a chaining variable of that size.
pub(crate) fn round_count(mode: Mode, chaining: usize) -> u64
    ensures { result ≡ round_count mode chaining }
{
    if chaining == chaining_size(mode, 256) {
        8
    } else {
        10
    }
}

// Rewrites the chaining variable by one block, whose counter has these halves and counts on modulo 2^128. Refused as `NoSalt` or
// `WrongSize`, it leaves the variable. Sizes are 64 and 192 bytes or 128 and 128 in double-pipe, 32 and 224 or 64 and 192 in single-pipe.
pub fn compress_wide(
    mode: Mode,
    chaining: &mut [u8],
    block: &[u8],
    low: u64,
    high: u64,
    salt: &[u8],
) -> Result<(), Refusal>
    ensures refusal { refusal_of result ≡ compress_wide_refusal mode (length chaining.old) (length block.now) (length salt.now) }
    ensures left { chaining.new ≡ compress_wide_leaves mode chaining.old block.now (halves low high) salt.now }
{
    let c = chaining.len();
    check_compress_wide(mode, c, block.len(), salt.len())?;
    compress_wide_in(
        chaining,
        block,
        round_count(mode, c),
        Counter { low, high },
        sixteen(salt, 0),
    );
    Ok(())
}

// From a counter of 64 bits: `compress_wide` with the upper half zero, behind a bound on the counter, above which it is refused as `CounterTooHigh`.
pub fn compress(
    mode: Mode,
    chaining: &mut [u8],
    block: &[u8],
    counter: u64,
    salt: &[u8],
) -> Result<(), Refusal>
    ensures refusal { refusal_of result ≡ compress_refusal mode (length chaining.old) (length block.now) counter (length salt.now) }
    ensures left { chaining.new ≡ compress_leaves mode chaining.old block.now counter salt.now }
{
    check_compress(mode, chaining.len(), block.len(), counter, salt.len())?;
    compress_wide(mode, chaining, block, counter, 0, salt)
}
