// Bytes as they are.
ghost use Rattle.std.specs.Prelude.{min, ◌≡◌, [], ◌∷◌};
ghost use Rattle.lines.specs.Lines.{Put};

pub(crate) fn put_byte(room: &mut [u8], at: usize, byte: u8) -> usize
    ensures { Put room.old at (byte ∷ []) room.new result }
{
    if at < room.len() {
        room[at] = byte;
        return at + 1;
    }
    room.len()
}

// The place `at`, or the end of a room of this size where that comes first.
pub(crate) fn start(size: usize, at: usize) -> usize
    ensures { result ≡ min at size }
{
    if at < size { at } else { size }
}

pub fn put(room: &mut [u8], at: usize, bytes: &[u8]) -> usize
    ensures { Put room.old at bytes.now room.new result }
{
    let mut end = start(room.len(), at);
    for i in 0..bytes.len() {
        end = put_byte(room, end, bytes[i]);
    }
    end
}
