// The key as one block, and digest sessions that begin with it.
ghost use Rattle.std.specs.Prelude.{true, ◌≡◌, ltb, IfOk, length, replicate, take};
ghost use Rattle.aes_round.specs.Bytes.{xor_bytes};
ghost use Rattle.echo.specs.Answers.{refusal_of};
ghost use Rattle.echo.specs.Families.{either};
ghost use Rattle.echo.specs.Session.{add_bytes, admitted, is_session, limit};
ghost use Rattle.hmac.specs.DoublePipe.{block_size, digest_of};
ghost use Rattle.hmac.specs.Hmac.{key_block};

use echo::{Mode, Refusal, Session};

// The block size of a digest length in double-pipe.
pub(crate) fn block_size(bits: u64) -> usize
    ensures { result ≡ block_size bits }
{
    if bits <= 256 { 192 } else { 128 }
}

// K0, which is the key, or the digest of a key longer than a block, at the front of room for either family's block. Refused as `TooLong` where the
// key passes the limit.
pub(crate) fn key_block(bits: u64, salt: &[u8], key: &[u8]) -> Result<[u8; 192], Refusal>
    requires bits_value { admitted bits ≡ true }
    requires salt_len { length salt.now ≡ 16 }
    ensures refusal_value { refusal_of result ≡ either (ltb limit (length key.now)) 4 0 }
    ensures bytes_value { IfOk result (λ block. take (block_size bits) block ≡ key_block (digest_of bits salt.now) (block_size bits) key.now) }
{
    let mut block = [0u8; 192];
    let n = key.len();
    if block_size(bits) < n {
        echo::digest(Mode::DoublePipe, bits, salt, key, &mut block)?;
        return Ok(block);
    }
    block[..n].copy_from_slice(key);
    Ok(block)
}

// The block xored with a pad of one byte repeated.
fn xored(mut block: [u8; 192], pad: u8) -> [u8; 192]
    ensures { result ≡ xor_bytes 192 block (replicate 192 pad) }
{
    for byte in &mut block {
        *byte ^= pad;
    }
    block
}

// A digest session to which K0, at the front of `block`, was added, xored with a pad of one byte repeated.
pub(crate) fn keyed(fresh: Session, block: [u8; 192], pad: u8) -> Session
    requires fresh_value { is_session fresh ≡ true }
    requires taken_value { fresh.taken ≡ 0 }
    ensures { result ≡ add_bytes fresh (xor_bytes (block_size fresh.bits) (take (block_size fresh.bits) block) (replicate (block_size fresh.bits) pad)) }
{
    let b = block_size(fresh.bits);
    let padded = xored(block, pad);
    fresh.add(&padded[..b]).unwrap()
}
