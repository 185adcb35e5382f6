#![tactic(auto)]
// Digests the messages of standard input's cases, at once or in pieces, and prints each digest in hex, or `refused N`.
//
// A case is 32 bytes: the digest length in bits (two bytes), the message's length (two), a seed, the piece size (two; 0 for the digest at
// once), the salt's length, the mode (0 double-pipe, 1 single-pipe), 0 or 1 + the bits of the last byte that don't count, six zeros and sixteen salt
// bytes. Numbers have their least significant byte first. The message's byte i is seed + 29 i + 101 (i / 256), modulo 256. With pieces the digest is
// read after each piece, too: reading changes nothing. Where bits are told that don't count, those are zero, and the routines for bits are called.
ghost use Rattle.std.specs.Prelude.{◌≤◌, ◌*◌, ◌<◌, length};

use cases_in::{Fields, fill, mode_of};
use echo::{Mode, Refusal, Session};
use lines::Line;

#[derive(Drop)]
struct Case<'a> {
    bits: u64,
    // the message's length and the byte that it begins with
    n: usize,
    seed: u8,
    // the piece size
    k: usize,
    mode: Mode,
    // the bits of the last byte that don't count, where they are told
    unused: Option<u8>,
    salt: &'a [u8],
}

// The case of these bytes; none where the salt's length is too much.
fn case_of(bytes: &[u8; 32]) -> Option<Case<'_>> {
    let mut fields = Fields::new(bytes);
    let bits = u16::from_le_bytes(fields.array()?) as u64;
    let n = u16::from_le_bytes(fields.array()?) as usize;
    let [seed] = fields.array::<1>()?;
    let k = u16::from_le_bytes(fields.array()?) as usize;
    let [salt_length, mode, told] = fields.array::<3>()?;
    fields.bytes(6)?;
    Some(Case {
        bits,
        n,
        seed,
        k,
        mode: mode_of(mode),
        unused: told.checked_sub(1),
        salt: fields.bytes(salt_length as usize)?,
    })
}

fn print_refused(rt: &HostRuntime, refusal: Refusal) {
    let mut line = Line::<32>::new();
    line.text(b"refused ")
        .decimal(refusal.number() as u64)
        .text(b"\n");
    let _ = host::print(rt, line.bytes());
}

fn print_digest(rt: &HostRuntime, digest: &[u8]) {
    let mut line = Line::<129>::new();
    line.hex(digest).text(b"\n");
    let _ = host::print(rt, line.bytes());
}

// Adds the message in pieces of k bytes, and reads after each and at the end.
fn in_pieces(opened: Session, message: &[u8], k: usize, out: &mut [u8]) -> Result<(), Refusal>
    requires { 0 < k }
{
    let mut session = opened;
    for piece in message.chunks(k) {
        session = session.add(piece)?.read(out)?;
    }
    session.read(out)?;
    Ok(())
}

// The same with so many bits of the message: eight of each byte, but for a part byte at the message's end. It and `digest_of_bits` are functions of
// their own, since one for bytes and bits would ask at each call which of the two routines to take.
fn bits_in_pieces(
    opened: Session,
    message: &[u8],
    count: u64,
    k: usize,
    out: &mut [u8],
) -> Result<(), Refusal>
    requires { 0 < k }
{
    let mut session = opened;
    let mut left = count;
    for piece in message.chunks(k) {
        let bits = left.min((piece.len() as u64).saturating_mul(8));
        left -= bits;
        session = session.add_bits(piece, bits)?.read(out)?;
    }
    session.read(out)?;
    Ok(())
}

// The bits of the last of n bytes that don't count: at most seven, and none where there is no byte.
fn unused_bits(unused: u8, n: usize) -> u8
    ensures upper_bound { result < 8 }
    ensures upper_bound_2 { result ≤ 8 * n }
{
    if n == 0 { 0 } else { unused.min(7) }
}

// Clears the bits of the last byte that don't count.
fn clear_last(message: &mut [u8], unused: u8)
    requires { unused < 8 }
{
    if let Some(last) = message.last_mut() {
        *last = (*last >> unused) << unused;
    }
}

// The digest of the message, at once or in pieces.
fn digest_of(case: &Case, message: &[u8], out: &mut [u8]) -> Result<(), Refusal> {
    if case.k == 0 {
        return echo::digest(case.mode, case.bits, case.salt, message, out);
    }
    let opened = Session::open(case.mode, case.bits, case.salt)?;
    in_pieces(opened, message, case.k, out)
}

// The digest of so many bits of the message.
fn digest_of_bits(case: &Case, message: &[u8], count: u64, out: &mut [u8]) -> Result<(), Refusal> {
    if case.k == 0 {
        return echo::digest_bits(case.mode, case.bits, case.salt, message, count, out);
    }
    let opened = Session::open(case.mode, case.bits, case.salt)?;
    bits_in_pieces(opened, message, count, case.k, out)
}

// The digest of all bits of the message but the last so many.
fn digest_but(case: &Case, message: &mut [u8], unused: u8, out: &mut [u8]) -> Result<(), Refusal>
    requires bounded { length message.old ≤ 1024 }
    requires unused_bound { unused ≤ 8 * length message.old }
    requires in_a_byte { unused < 8 }
{
    clear_last(message, unused);
    let count = 8 * (message.len() as u64) - unused as u64;
    digest_of_bits(case, message, count, out)
}

// The digest of a case, by the routines for bytes or for bits.
fn digest_in(case: &Case, message: &mut [u8], out: &mut [u8]) -> Result<(), Refusal>
    requires { length message.old ≤ 1024 }
{
    match case.unused {
        None => digest_of(case, message, out),
        Some(told) => {
            let unused = unused_bits(told, message.len());
            digest_but(case, message, unused, out)
        }
    }
}

fn run(rt: &HostRuntime, case: &Case) {
    if 1024 < case.n {
        return;
    }
    let mut room = [0u8; 1024];
    fill(&mut room, case.seed);
    let mut out = [0u8; 64];
    match digest_in(case, &mut room[..case.n], &mut out) {
        Ok(()) => print_digest(rt, &out[..(case.bits / 8).min(64) as usize]),
        Err(refusal) => print_refused(rt, refusal),
    }
}

// A proved loop has to end, and nothing says that the input does: there are more turns than any run uses up.
fn main(rt: HostRuntime) {
    let mut input = host::standard_input(&rt);
    let mut bytes = [0u8; 32];
    for _ in 0..u64::MAX {
        if host::read_full(&mut input, &mut bytes) < 32 {
            return;
        }
        if let Some(case) = case_of(&bytes) {
            run(&rt, &case);
        }
    }
}
