// A line of a list, with or without a tag.
//
//     DIGEST  NAME                     or a star for the second space
//     ECHO-BITS-MODE-SALT (NAME) = DIGEST
//
// A backslash in front of either tells that the name is escaped. A line is without its line end here.
ghost use Rattle.std.specs.Prelude.{◌≤◌, ◌≡◌, length};
ghost use Rattle.echosum.specs.Listed.{bits_for, framed_of, gap_of, head_of, is_admitted, listed_of, mark_in, mode_of};
ghost use Rattle.echosum.specs.Listed.{plain_of, plain_to, tagged_of};

use super::hexadecimal::digits_in;
use super::names::is_name;
use digits::{bytes_in, number_in, salt_in};
use echo::Mode;

// What a line without a tag leaves to the flags: mode, salt, and the bits that it has to have, if any.
#[derive(Clone, Copy)]
pub(crate) struct Terms {
    pub mode: Mode,
    pub bits: Option<u64>,
    pub salt: [u8; 16],
}

// What a line says. The digest has zeros behind it, and the name stands from one place up to another. (Places and no slice: what a contract
// says of a line is a value, and no value of it is a reference into the line.)
#[derive(Clone, Copy)]
pub(crate) struct Listed {
    pub mode: Mode,
    pub bits: u64,
    pub salt: [u8; 16],
    pub digest: [u8; 64],
    pub is_escaped: bool,
    pub from: usize,
    pub to: usize,
}

// What stands in front of a tagged line's name.
#[derive(Clone, Copy)]
struct Head {
    mode: Mode,
    bits: u64,
    salt: [u8; 16],
}

// Whether there is a digest of so many bits.
#[tactic(auto, unfolding(crate::specs::Listed::is_admitted))]
fn is_admitted(bits: u64) -> bool
    ensures { result ≡ is_admitted bits }
{
    128 <= bits && bits <= 512 && bits % 8 == 0
}

// The bits of so many digits, if there is a digest of them and no others are wanted.
#[tactic(auto, unfolding(crate::specs::Listed::bits_for))]
fn bits_for(digits: usize, wanted: Option<u64>) -> Option<u64>
    ensures { result ≡ bits_for digits wanted }
{
    if 128 < digits {
        return None;
    }
    let bits = 4 * digits as u64;
    if !is_admitted(bits) {
        return None;
    }
    match wanted {
        Some(wanted) if wanted != bits => None,
        _ => Some(bits),
    }
}

// Whether two bytes stand between a digest and a name: a space, and a space or a star.
#[tactic(auto, unfolding(crate::specs::Listed::gap_of))]
fn is_gap(one: u8, two: u8) -> bool
    ensures { result ≡ gap_of one two }
{
    one == b' ' && (two == b' ' || two == b'*')
}

// A line without a tag, from `at` on, whose digits end at `end` and stand for so many bits.
#[tactic(auto, unfolding(crate::specs::Listed::plain_to))]
fn plain_to(line: &[u8], at: usize, terms: &Terms, end: usize, bits: u64) -> Option<Listed>
    requires { (at ≤ end) × (end ≤ length line.now) }
    ensures { result ≡ plain_to line.now at terms.now end bits }
{
    let all = line.len();
    if all - end < 3 {
        return None;
    }
    if !is_gap(line[end], line[end + 1]) {
        return None;
    }
    let from = end + 2;
    let is_escaped = at == 1;
    if !is_name(&line[from..all], is_escaped) {
        return None;
    }
    let digest = bytes_in(&line[at..end])?;
    Some(Listed {
        mode: terms.mode,
        bits,
        salt: terms.salt,
        digest,
        is_escaped,
        from,
        to: all,
    })
}

// A line without a tag, from `at` on.
#[tactic(auto, unfolding(crate::specs::Listed::plain_of))]
fn plain_in(line: &[u8], at: usize, terms: &Terms) -> Option<Listed>
    requires { at ≤ length line.now }
    ensures { result ≡ plain_of line.now at terms.now }
{
    let all = line.len();
    let digits = digits_in(&line[at..all]);
    let bits = bits_for(digits, terms.bits)?;
    plain_to(line, at, terms, at + digits, bits)
}

// Whether the fifty bytes in front of a tagged line's name begin and end as they have to.
#[tactic(auto, unfolding(crate::specs::Listed::framed_of))]
fn is_framed(text: &[u8]) -> bool
    requires { length text.now ≡ 50 }
    ensures { result ≡ framed_of text.now }
{
    text[0..5] == b"ECHO-"[..] && text[48..50] == b" ("[..]
}

// The mode that stands between dashes.
#[tactic(auto, unfolding(crate::specs::Listed::mode_of))]
fn mode_in(text: &[u8]) -> Option<Mode>
    ensures { result ≡ mode_of text.now }
{
    if text == b"-single-".as_slice() {
        Some(Mode::SinglePipe)
    } else if text == b"-double-".as_slice() {
        Some(Mode::DoublePipe)
    } else {
        None
    }
}

// The fifty bytes in front of a tagged line's name.
#[tactic(auto, unfolding(crate::specs::Listed::head_of))]
fn head_in(text: &[u8]) -> Option<Head>
    requires { length text.now ≡ 50 }
    ensures { result ≡ head_of text.now }
{
    if !is_framed(text) {
        return None;
    }
    let bits = number_in(&text[5..8])?;
    if !is_admitted(bits) {
        return None;
    }
    let mode = mode_in(&text[8..16])?;
    let salt = salt_in(&text[16..48])?;
    Some(Head { mode, bits, salt })
}

// A line with a tag, from `at` on.
#[tactic(auto, unfolding(crate::specs::Listed::tagged_of, crate::specs::Listed::tagged_by, crate::specs::Listed::tagged_to))]
fn tagged_in(line: &[u8], at: usize) -> Option<Listed>
    requires { at ≤ length line.now }
    ensures { result ≡ tagged_of line.now at }
{
    let all = line.len();
    if all - at < 50 {
        return None;
    }
    let from = at + 50;
    let Head { mode, bits, salt } = head_in(&line[at..from])?;
    let digits = (bits / 4) as usize;
    if all - from < digits + 4 {
        return None;
    }
    let begin = all - digits;
    let to = begin - 4;
    if line[to..begin] != b") = "[..] {
        return None;
    }
    let is_escaped = at == 1;
    if !is_name(&line[from..to], is_escaped) {
        return None;
    }
    let digest = bytes_in(&line[begin..all])?;
    Some(Listed {
        mode,
        bits,
        salt,
        digest,
        is_escaped,
        from,
        to,
    })
}

// One byte where the line begins with a backslash, and none where it does not.
#[tactic(auto, unfolding(crate::specs::Listed::mark_in))]
fn mark_in(line: &[u8]) -> usize
    ensures is { result ≡ mark_in line.now }
    ensures within { result ≤ length line.now }
{
    match line {
        [b'\\', ..] => 1,
        _ => 0,
    }
}

// What a line says. No line is good both with and without a tag.
#[tactic(auto, unfolding(crate::specs::Listed::listed_of))]
pub(crate) fn listed_in(line: &[u8], terms: &Terms) -> Option<Listed>
    ensures { result ≡ listed_of line.now terms.now }
{
    let at = mark_in(line);
    match tagged_in(line, at) {
        Some(tagged) => Some(tagged),
        None => plain_in(line, at, terms),
    }
}
