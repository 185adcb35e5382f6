// The bytes that a seed stands for.
ghost use Rattle.std.specs.Prelude.{◌≡◌, slice_index, EachIndex};
ghost use Rattle.cases_in.specs.Bytes.{seeded};

// Fills the room with the bytes of a seed.
pub fn fill(room: &mut [u8], seed: u8)
    ensures { EachIndex room.new (λ k. slice_index room.new k ≡ seeded seed k) }
{
    for (i, byte) in room.iter_mut().enumerate() {
        *byte = ((seed as usize + 29 * (i % 256) + 101 * (i / 256 % 256)) % 256) as u8;
    }
}
