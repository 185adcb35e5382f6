// BIG.ShiftRows (section 3.2) and its way back: whole words are moved along the rows of the square, in place, with one spare word.
ghost use Rattle.std.specs.Prelude.{◌≡◌, ℕ, ◌+◌, ◌*◌, ◌/◌, ◌%◌, ◌<◌, ◌≢◌, length};
ghost use Rattle.echo.specs.Placed.{Placed};
ghost use Rattle.echo.specs.Square.{big_shift_rows, big_shift_rows_back, word};

use super::lent::{copy_in, sixteen};

// The word e of the square becomes the one that follows it in its row. How far that one stands is written out, so that a compiler sees that the two
// don't overlap and moves all sixteen bytes at once.
fn pull_word(s: &mut [u8], e: usize)
    requires s_len { length s.old ≡ 256 }
    requires e_bound { e < 12 }
    ensures { Placed s.old (16 * e) (word s.old (e + 4)) 16 s.new }
{
    s.copy_within(16 * (e + 4)..16 * (e + 5), 16 * e);
}

// The row i is turned by one place to the left: its first word is kept aside, the other three move up, and the first comes back as the last.
fn turn_once(s: &mut [u8], i: usize)
    requires s_len { length s.old ≡ 256 }
    requires i_bound { i < 4 }
    ensures turned { (j : ℕ) → j < 4 → word s.new (i + 4 * j) ≡ word s.old (i + 4 * ((j + 1) % 4)) }
    ensures others { (e : ℕ) → e % 4 ≢ i → word s.new e ≡ word s.old e }
{
    let spare = sixteen(s, 16 * i);
    for j in 0..3 {
        pull_word(s, i + 4 * j);
    }
    copy_in(s, 16 * (i + 12), &spare);
}

// The row i is turned by so many places to the left, one at a time. The four words don't stand side by side, so that `rotate_left` has no slice of them.
fn turn_row(s: &mut [u8], i: usize, places: usize)
    requires s_len { length s.old ≡ 256 }
    requires i_bound { i < 4 }
    ensures turned { (j : ℕ) → j < 4 → word s.new (i + 4 * j) ≡ word s.old (i + 4 * ((j + places) % 4)) }
    ensures others { (e : ℕ) → e % 4 ≢ i → word s.new e ≡ word s.old e }
{
    for n in 0..places {
        turn_once(s, i);
    }
}

// Each row i is turned by so many places to the left as `places` says of it; row 0 stays.
fn turn_rows<F: Fn(usize) -> usize>(s: &mut [u8], places: F)
    requires callable { (i : ℕ) → i < 4 → F.pre places i }
    requires s_len { length s.old ≡ 256 }
    ensures { (p : ℕ → ℕ) → p 0 % 4 ≡ 0 → ((i n : ℕ) → F.post places i n → n ≡ p i) → (e : ℕ) → e < 16 → word s.new e ≡ word s.old (e % 4 + 4 * ((e / 4 + p (e % 4)) % 4)) }
{
    for i in 1..4 {
        turn_row(s, i, places(i));
    }
}

// Row i is turned by i places to the left.
pub(crate) fn shift_rows(s: &mut [u8])
    requires { length s.old ≡ 256 }
    ensures { s.new ≡ big_shift_rows s.old }
{
    turn_rows(s, |i| i);
}

// Row i is turned by i places to the right, which is 4 - i to the left.
pub(crate) fn shift_rows_back(s: &mut [u8])
    requires { length s.old ≡ 256 }
    ensures { s.new ≡ big_shift_rows_back s.old }
{
    turn_rows(s, |i| 4 - i);
}
