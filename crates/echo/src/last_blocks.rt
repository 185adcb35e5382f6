// The blocks of padding at the end of a message.
ghost use Rattle.std.specs.Prelude.{◌≡◌, ◌-◌, ◌%◌, ◌^◌, ◌≤◌, true, ◌++◌, take, drop, ◌==◌};
ghost use Rattle.echo.specs.Bits.{bits_of};
ghost use Rattle.echo.specs.Families.{either};
ghost use Rattle.echo.specs.Numbers.{little_endian};
ghost use Rattle.echo.specs.Session.{all_zero, bit_limit, block_of, chaining_of, compressed, final_chaining, msize_of};

use super::bits::marked;
use super::families::block_size;
use super::lent::copy_in;
use super::session::Session;

// The last eighteen bytes of the padding: the digest length in two bytes and the message's bit count in sixteen.
fn lengths(bits: u64, taken: u64) -> [u8; 18]
    requires { bits ≤ 512 }
    ensures { result ≡ little_endian 2 bits ++ little_endian 16 taken }
{
    let mut end = [0u8; 18];
    end[..2].copy_from_slice(&(bits as u16).to_le_bytes());
    end[2..].copy_from_slice(&(taken as u128).to_le_bytes());
    end
}

// The counter of the block with the padding's first bit, of which so many bits are message: 0 for a block of pure padding.
fn last_counter(within: u64, taken: u64) -> u64
    ensures { result ≡ either (within == 0) 0 taken }
{
    if within == 0 { 0 } else { taken }
}

impl Session {
    // Closes the waiting block with the lengths and compresses it.
    fn close(&mut self, counter: u64)
        requires counter_bound { counter ≤ 2 ^ 64 - 161 }
        requires bits_bound { self.old.bits ≤ 512 }
        ensures { self.new.chaining ≡ compressed self.old.mode self.old.bits self.old.salt self.old.chaining counter (take (block_of self.old - 18) self.old.waiting ++ (little_endian 2 self.old.bits ++ little_endian 16 self.old.taken)) }
    {
        let at = block_size(self.mode, self.bits) - 18;
        let end = lengths(self.bits, self.taken);
        copy_in(&mut self.waiting, at, &end);
        self.compress(counter);
    }

    // The chaining room after the blocks that are left: those of the waiting bits and the padding.
    pub(crate) fn finish(mut self) -> [u8; 128]
        requires waiting_value { all_zero (drop (self.taken % msize_of self) (bits_of self.waiting)) ≡ true }
        requires bits_bound { self.bits ≤ 512 }
        requires taken_le_bit_limit { self.taken ≤ bit_limit }
        ensures { take (chaining_of self) result ≡ final_chaining self }
    {
        let b = block_size(self.mode, self.bits);
        let at = (self.taken / 8 % (b as u64)) as usize;
        let counter = last_counter(self.taken % (8 * (b as u64)), self.taken);
        self.waiting[at] = marked(self.waiting[at], self.taken % 8);
        if at + 19 <= b {
            self.close(counter);
            return self.chaining;
        }
        self.compress(counter);
        self.waiting = [0; 224];
        self.close(0);
        self.chaining
    }
}
