// Numbers in a lent slice, the most significant byte first.
ghost use Rattle.std.specs.Prelude.{◌≡◌, ◌+◌, ◌≤◌, length};
ghost use Rattle.std.proofs.lemmas.List.Edits.{sets};
ghost use Rattle.steering.specs.Numbers.{big_endian, bytes_of};

// The number that up to eight bytes stand for.
pub(crate) fn number(bytes: &[u8]) -> u64
    requires { length bytes.now ≤ 8 }
    ensures { result ≡ big_endian bytes.now }
{
    let mut eight = [0; 8];
    eight[8 - bytes.len()..].copy_from_slice(bytes);
    u64::from_be_bytes(eight)
}

// Puts the last n bytes of a number into the room, from a place on.
pub(crate) fn put(room: &mut [u8], at: usize, n: usize, number: u64)
    requires few { n ≤ 8 }
    requires within { at + n ≤ length room.old }
    ensures { room.new ≡ sets room.old at (bytes_of n number) }
{
    let eight = number.to_be_bytes();
    room[at..at + n].copy_from_slice(&eight[8 - n..]);
}
