// The waiting block of a session.
ghost use Rattle.std.specs.Prelude.{◌≡◌, ◌+◌, ◌-◌, ◌/◌, ◌%◌, ◌^◌, ◌≤◌, length, take, drop};
ghost use Rattle.echo.specs.Session.{add_bits, add_byte, all_zero, bit_limit, block_of, compressed, made};

use super::compression::{compress_in, round_count};
use super::families::{block_size, chaining_size};
use super::session::Session;

// Whether every byte from the place `at` on is zero.
pub(crate) fn zeros_from(bytes: &[u8], at: usize) -> bool
    requires { at ≤ length bytes.now }
    ensures { result ≡ all_zero (drop at bytes.now) }
{
    bytes[at..].iter().all(|x| *x == 0)
}

impl Session {
    // Compresses the waiting block. The chaining room is copied out and back, since two fields can't be lent at once here.
    pub(crate) fn compress(&mut self, counter: u64)
        requires { counter ≤ 2 ^ 64 - 161 }
        ensures { self.new ≡ made self.old.mode self.old.bits self.old.salt (compressed self.old.mode self.old.bits self.old.salt self.old.chaining counter (take (block_of self.old) self.old.waiting)) self.old.taken self.old.waiting }
    {
        let c = chaining_size(self.mode, self.bits);
        let b = block_size(self.mode, self.bits);
        let count = round_count(self.mode, c);
        let salt = self.salt;
        let mut v = self.chaining;
        compress_in(&mut v[..c], &self.waiting[..b], count, counter, salt);
        self.chaining = v;
    }

    // One byte more, `at` the waiting bytes in use and `taken` the message bits, which are counted outside: counted in the session, byte by byte, they
    // make a digest a tenth slower. So does the block size, read off the session for each byte. Answers how many are in use then.
    fn put(&mut self, block: usize, at: usize, taken: u64, x: u8) -> usize
        requires block_value { block ≡ block_of self.old }
        requires at_value { at ≡ taken / 8 % block_of self.old }
        requires taken_bound { taken + 8 ≤ bit_limit }
        ensures value { result ≡ (taken + 8) / 8 % block_of self.new }
        ensures kept { self.new.taken ≡ self.old.taken }
        ensures block_kept { block_of self.new ≡ block_of self.old }
        ensures after { made self.new.mode self.new.bits self.new.salt self.new.chaining (taken + 8) self.new.waiting ≡ add_byte (made self.old.mode self.old.bits self.old.salt self.old.chaining taken self.old.waiting) x }
    {
        self.waiting[at] = x;
        if at + 1 < block {
            return at + 1;
        }
        self.compress(taken + 8);
        self.waiting = [0; 224];
        0
    }

    // So many bits of a piece: its whole bytes one by one, and then the part byte.
    pub(crate) fn absorb(&mut self, piece: &[u8], count: u64)
        requires piece_len { length piece.now ≡ (count + 7) / 8 }
        requires count_bound { self.old.taken + count ≤ bit_limit }
        ensures { self.new ≡ add_bits self.old piece.now count }
    {
        let whole = (count / 8) as usize;
        let block = block_size(self.mode, self.bits);
        let mut at = (self.taken / 8 % (block as u64)) as usize;
        let mut taken = self.taken;
        for x in &piece[..whole] {
            at = self.put(block, at, taken, *x);
            taken += 8;
        }
        self.taken += count;
        if count % 8 != 0 {
            self.waiting[at] = piece[whole];
        }
    }
}
