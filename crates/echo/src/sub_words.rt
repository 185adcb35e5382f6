// BIG.SubWords (section 3.1) and its way back: each word of the square through two AES rounds.
ghost use Rattle.std.specs.Prelude.{◌≡◌, ℕ, ◌+◌, ◌^◌, ◌<◌, List, length, slice_index};
ghost use Rattle.aes_round.specs.Array.{array};
ghost use Rattle.aes_round.specs.Rounds.{aes_round, aes_round_back};
ghost use Rattle.echo.specs.Numbers.{halves};
ghost use Rattle.echo.specs.Square.{big_sub_words, big_sub_words_back, wide_keys_from, word};

use super::counter::{Counter, count_on};
use super::lent::{copy_in, sixteen};

// The first key of the word of that number: the counter as sixteen bytes, the least significant first.
fn counter_key(counter: Counter, number: u64) -> [u8; 16]
    ensures { result ≡ wide_keys_from (halves counter.low counter.high) number }
{
    let Counter { low, high } = count_on(counter, number);
    let mut key = [0u8; 16];
    key[..8].copy_from_slice(&low.to_le_bytes());
    key[8..].copy_from_slice(&high.to_le_bytes());
    key
}

// Each word of the square through `step`, with its number: the word j is that of the number `first` + j. By places, since a proof knows nothing of
// what is written through the words that `chunks_exact_mut` lends.
fn each_word<F: Fn([u8; 16], u64) -> [u8; 16]>(s: &mut [u8], first: u64, step: F)
    requires callable { F.IsAlwaysCallable step }
    requires s_len { length s.old ≡ 256 }
    requires first_bound { first + 15 < 2 ^ 64 }
    ensures { (f : List ℕ → ℕ → List ℕ) → ((w : List ℕ) (n : ℕ) (t : List ℕ) → F.post step w n t → t ≡ f w n) → s.new ≡ array 16 (λ i b. slice_index (f (word s.old i) (first + i)) b) }
{
    for j in 0..16 {
        let through = step(sixteen(s, 16 * j), first + j as u64);
        copy_in(s, 16 * j, &through);
    }
}

pub(crate) fn sub_words(s: &mut [u8], counter: Counter, first: u64, salt: [u8; 16])
    requires s_len { length s.old ≡ 256 }
    requires first_bound { first + 15 < 2 ^ 64 }
    ensures { s.new ≡ big_sub_words (λ i. wide_keys_from (halves counter.low counter.high) (first + i)) salt s.old }
{
    each_word(
        s,
        first,
        |w: [u8; 16], number: u64|
            ensures { result ≡ aes_round (aes_round w (wide_keys_from (halves counter.low counter.high) number)) salt }
        { aes_round::two_rounds(w, counter_key(counter, number), salt) },
    );
}

pub(crate) fn sub_words_back(s: &mut [u8], counter: Counter, first: u64, salt: [u8; 16])
    requires s_len { length s.old ≡ 256 }
    requires first_bound { first + 15 < 2 ^ 64 }
    ensures { s.new ≡ big_sub_words_back (λ i. wide_keys_from (halves counter.low counter.high) (first + i)) salt s.old }
{
    each_word(
        s,
        first,
        |w: [u8; 16], number: u64|
            ensures { result ≡ aes_round_back (aes_round_back w salt) (wide_keys_from (halves counter.low counter.high) number) }
        { aes_round::two_rounds_back(w, counter_key(counter, number), salt) },
    );
}
