// Lines that hold a name from outside. A line end in it would begin a line of its own, so it is escaped as `sha256sum` does.
ghost use Rattle.std.specs.Prelude.{◌≡◌, ◌++◌};
ghost use Rattle.lines.specs.Lines.{Put, spread};
ghost use Rattle.lines.specs.Names.{escape_of, is_plain, letter_of, mark_of};

use super::bytes::{put, put_byte, start};

// What stands behind the backslash of a byte that is escaped, and 0 for any other.
fn letter(byte: u8) -> u8
    ensures { result ≡ letter_of byte }
{
    if byte == b'\n' {
        return b'n';
    }
    if byte == b'\r' {
        return b'r';
    }
    if byte == b'\\' {
        return b'\\';
    }
    0
}

fn put_escaped(room: &mut [u8], at: usize, byte: u8) -> usize
    ensures { Put room.old at (escape_of byte) room.new result }
{
    let letter = letter(byte);
    if letter == 0 {
        return put_byte(room, at, byte);
    }
    let end = put_byte(room, at, b'\\');
    put_byte(room, end, letter)
}

fn put_name(room: &mut [u8], at: usize, name: &[u8]) -> usize
    ensures { Put room.old at (spread escape_of name.now) room.new result }
{
    let mut end = start(room.len(), at);
    for i in 0..name.len() {
        end = put_escaped(room, end, name[i]);
    }
    end
}

fn is_plain(name: &[u8]) -> bool
    ensures { result ≡ is_plain name.now }
{
    for i in 0..name.len() {
        if letter(name[i]) != 0 {
            return false;
        }
    }
    true
}

// A backslash where the name behind it is escaped, and nothing where it is as it was.
fn put_mark(room: &mut [u8], at: usize, name: &[u8]) -> usize
    ensures { Put room.old at (mark_of name.now) room.new result }
{
    if is_plain(name) {
        return start(room.len(), at);
    }
    put_byte(room, at, b'\\')
}

// A line with a name in it, between texts that are put as they are.
pub fn put_named(room: &mut [u8], at: usize, before: &[u8], name: &[u8], after: &[u8]) -> usize
    ensures { Put room.old at (mark_of name.now ++ before.now ++ spread escape_of name.now ++ after.now) room.new result }
{
    let marked = put_mark(room, at, name);
    let begun = put(room, marked, before);
    let named = put_name(room, begun, name);
    put(room, named, after)
}
