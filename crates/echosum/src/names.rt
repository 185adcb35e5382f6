// Names in a list, some of them escaped as `lines` escapes them.
ghost use Rattle.std.specs.Prelude.{◌≡◌, ◌++◌, take};
ghost use Rattle.echosum.specs.Names.{are_escapes, fault_at, is_name, meant_by, opens_at, undone_at, unescaped};

use lines::Line;

// The byte that a letter behind a backslash stands for.
#[tactic(auto, unfolding(crate::specs::Names::meant_by))]
fn meant(letter: u8) -> Option<u8>
    ensures { result ≡ meant_by letter }
{
    match letter {
        b'n' => Some(b'\n'),
        b'r' => Some(b'\r'),
        b'\\' => Some(b'\\'),
        _ => None,
    }
}

// Whether a byte begins an escape. `is_open` tells that the byte before it did.
fn opens(is_open: bool, byte: u8) -> bool
    ensures { result ≡ opens_at is_open byte }
{
    !is_open && byte == b'\\'
}

// Whether a byte is no letter, where the one before it begins an escape.
fn is_fault(is_open: bool, byte: u8) -> bool
    ensures { result ≡ fault_at is_open byte }
{
    is_open && meant(byte).is_none()
}

// Whether every backslash stands before a letter that it escapes, or is one.
#[tactic(auto, unfolding(crate::specs::Names::are_escapes, crate::specs::Names::are_escapes_from))]
fn are_escapes(text: &[u8]) -> bool
    ensures { result ≡ are_escapes text.now }
{
    let mut is_open = false;
    for byte in text {
        if is_fault(is_open, *byte) {
            return false;
        }
        is_open = opens(is_open, *byte);
    }
    !is_open
}

// Whether a text can stand for the name of a file: there is some, no byte of it is 0, and its escapes can be undone where it has any.
#[tactic(auto, unfolding(crate::specs::Names::is_name))]
pub(crate) fn is_name(text: &[u8], is_escaped: bool) -> bool
    ensures { result ≡ is_name is_escaped text.now }
{
    if text.is_empty() {
        return false;
    }
    if text.contains(&0) {
        return false;
    }
    !is_escaped || are_escapes(text)
}

// One byte of a text whose escapes are undone.
fn put_undone<const N: usize>(line: &mut Line<N>, is_open: bool, byte: u8)
    ensures { line.new ≡ take N (line.old ++ undone_at is_open byte) }
{
    if is_open {
        line.text(&[meant(byte).unwrap_or(0)]);
    } else if byte == b'\\' {
        line.text(&[]);
    } else {
        line.text(&[byte]);
    }
}

// The name that an escaped one stands for.
pub(crate) fn put_unescaped<const N: usize>(line: &mut Line<N>, text: &[u8])
    ensures { line.new ≡ take N (line.old ++ unescaped text.now) }
{
    // So that a line that gets no byte is within its room too.
    prove!(line.bytes().len() <= N);
    let mut is_open = false;
    for byte in text {
        put_undone(line, is_open, *byte);
        is_open = opens(is_open, *byte);
    }
}
