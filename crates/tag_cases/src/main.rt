#![tactic(auto)]
// Makes and checks the tags of standard input's cases, and opens, adds to, reads, checks and asks about tag sessions, which need not come from an
// opening nor be tag sessions at all. Prints the tags, and everything that is handed back.
//
// A case is a head of 40 bytes: the task; the length of the piece, of the output room or of the tag; the digest length in bits (eight bytes); the
// lengths of key and message (two each); the piece size (two; 0 for at once); seeds of key and message; the salt's length; five zeros; and sixteen salt
// bytes. Behind the head from task 3 on stand 1025 bytes: the inner and the outer session, each the digest length in bits (eight), the message bytes so
// far (eight), the salt (16), the chaining value's room (128), the waiting block's (224) and the mode (0 double-pipe, 1 single-pipe); then the room of
// the piece, the output or the tag (255). Numbers have their least significant byte first. Byte i of key or message is seed + 29 i + 101 (i / 256),
// modulo 256.
//
// The tasks are 1 a whole message, 2 open, 3 add, 4 read, 5 ask whether it is a tag session, 6 check; and 7 add, 8 read, 9 check, which print all of the
// two sessions that are handed back, where 2, 3, 4 and 6 leave the modes and the waiting blocks' last 32 bytes out; and 10 add, 11 read, 12 ask, 13
// check, which print all, and have message bits so far for bytes.
ghost use Rattle.std.specs.Prelude.{◌≤◌, ◌+◌, ◌<◌};

use cases_in::{Fields, Given, counted, fill, given_session, put_session};
use echo::{Refusal, Session};
use hmac::{Checked, RefusedTag, TagSession};
use host::Source;
use lines::Line;

// ---- cases

#[derive(Drop)]
struct Head<'a> {
    task: u8,
    // how much is lent of the room of the piece, the output or the tag
    n: u8,
    bits: u64,
    key_length: usize,
    message_length: usize,
    // the piece size
    k: usize,
    key_seed: u8,
    message_seed: u8,
    // none where its length is too much
    salt: Option<&'a [u8]>,
}

fn head_of(bytes: &[u8; 40]) -> Option<Head<'_>> {
    let mut fields = Fields::new(bytes);
    let [task, n] = fields.array::<2>()?;
    let bits = u64::from_le_bytes(fields.array()?);
    let key_length = u16::from_le_bytes(fields.array()?) as usize;
    let message_length = u16::from_le_bytes(fields.array()?) as usize;
    let k = u16::from_le_bytes(fields.array()?) as usize;
    let [key_seed, message_seed, salt_length] = fields.array::<3>()?;
    fields.bytes(5)?;
    Some(Head {
        task,
        n,
        bits,
        key_length,
        message_length,
        k,
        key_seed,
        message_seed,
        salt: fields.bytes(salt_length as usize),
    })
}

// What stands behind the head from task 3 on: a tag session or a record that is none, and the room of the piece, the output or the tag.
#[derive(Drop)]
struct Body {
    inner: Given,
    outer: Given,
    room: [u8; 255],
}

fn body_of(bytes: &[u8; 1025], in_bits: bool) -> Option<Body> {
    let mut fields = Fields::new(bytes);
    let inner = fields.array()?;
    let outer = fields.array()?;
    Some(Body {
        inner: given_session(&inner, in_bits),
        outer: given_session(&outer, in_bits),
        room: fields.array()?,
    })
}

// How a session is printed: all of it or what it had before it had a mode, by its bits or its bytes, and the counts that its two sessions were handed
// over with.
#[derive(Clone, Copy)]
struct Form {
    all: bool,
    in_bits: bool,
    inner: u64,
    outer: u64,
}

// ---- answers

// The refusal's number, or 0 where there is none, and the session that is handed back in either case.
fn number_and_session(answer: Result<TagSession, RefusedTag>) -> (u8, TagSession) {
    match answer {
        Ok(session) => (0, session),
        Err(refused) => (refused.refusal.number(), refused.session),
    }
}

// The same of a check, which says no where it is refused.
fn number_and_check(answer: Result<Checked, RefusedTag>) -> (u8, Checked) {
    match answer {
        Ok(checked) => (0, checked),
        Err(RefusedTag { refusal, session }) => (
            refusal.number(),
            Checked {
                yes: false,
                session,
            },
        ),
    }
}

// ---- lines

fn word_of(yes: bool) -> &'static str {
    if yes { "yes" } else { "no" }
}

fn put_tag_session<const N: usize>(line: &mut Line<N>, session: TagSession, form: Form) {
    let inner_count = counted(form.in_bits, form.inner, session.inner.taken);
    put_session(line, session.inner, inner_count, form.all);
    let outer_count = counted(form.in_bits, form.outer, session.outer.taken);
    put_session(line, session.outer, outer_count, form.all);
}

fn print_refused(rt: &HostRuntime, refusal: Refusal) {
    let mut line = Line::<32>::new();
    line.text(b"refused ")
        .decimal(refusal.number() as u64)
        .text(b"\n");
    let _ = host::print(rt, line.bytes());
}

// The tag, and what checks of it and of another say.
fn print_tag(rt: &HostRuntime, tag: &[u8], right: bool, other: bool) {
    let mut line = Line::<160>::new();
    line.hex(tag).text(b" ").text(word_of(right).as_bytes());
    line.text(b" ").text(word_of(other).as_bytes()).text(b"\n");
    let _ = host::print(rt, line.bytes());
}

fn print_answer(rt: &HostRuntime, answer: Result<TagSession, RefusedTag>, form: Form) {
    let (number, session) = number_and_session(answer);
    let mut line = Line::<2048>::new();
    line.decimal(number as u64);
    put_tag_session(&mut line, session, form);
    line.text(b"\n");
    let _ = host::print(rt, line.bytes());
}

// The answer, and the room that was lent.
fn print_with_room(
    rt: &HostRuntime,
    answer: Result<TagSession, RefusedTag>,
    room: &[u8],
    form: Form,
) {
    let (number, session) = number_and_session(answer);
    let mut line = Line::<2560>::new();
    line.decimal(number as u64);
    put_tag_session(&mut line, session, form);
    line.text(b" ").hex(room).text(b"\n");
    let _ = host::print(rt, line.bytes());
}

fn print_check(rt: &HostRuntime, answer: Result<Checked, RefusedTag>, form: Form) {
    let (number, checked) = number_and_check(answer);
    let mut line = Line::<2048>::new();
    line.decimal(number as u64).text(b" ");
    line.text(word_of(checked.yes).as_bytes());
    put_tag_session(&mut line, checked.session, form);
    line.text(b"\n");
    let _ = host::print(rt, line.bytes());
}

fn print_whether(rt: &HostRuntime, yes: bool) {
    let mut line = Line::<4>::new();
    line.text(word_of(yes).as_bytes()).text(b"\n");
    let _ = host::print(rt, line.bytes());
}

// ---- whole messages

// The bytes with the lowest bit of one changed.
fn changed(bytes: [u8; 64], at: usize) -> [u8; 64]
    requires { at < 64 }
{
    let mut other = bytes;
    other[at] = other[at] ^ 1;
    other
}

// The place of the tag's last byte, or the room's where there is no such tag.
fn last_place(bits: u64) -> usize
    ensures { result < 64 }
{
    match bits / 8 {
        n @ 1..=64 => (n - 1) as usize,
        _ => 63,
    }
}

// Makes and checks at once.
fn at_once(
    rt: &HostRuntime,
    head: &Head,
    salt: &[u8],
    key: &[u8],
    message: &[u8],
) -> Result<(), Refusal> {
    let mut tag = [0u8; 64];
    hmac::make_tag(head.bits, salt, key, message, &mut tag)?;
    let n = last_place(head.bits);
    let other = changed(tag, n);
    let right = hmac::check_tag(head.bits, salt, key, message, &tag[0..n + 1])?;
    let wrong = hmac::check_tag(head.bits, salt, key, message, &other[0..n + 1])?;
    print_tag(rt, &tag[0..n + 1], right, wrong);
    Ok(())
}

// Adds the message in pieces of k bytes, and reads and checks after each: neither changes anything.
fn in_pieces(
    opened: TagSession,
    message: &[u8],
    k: usize,
    tag: &mut [u8],
) -> Result<TagSession, RefusedTag>
    requires { 0 < k }
{
    let mut session = opened;
    for piece in message.chunks(k) {
        let read = session.add(piece)?.read(tag)?;
        session = read.check(tag)?.session;
    }
    session.read(tag)
}

// Makes and checks over a session.
fn over_a_session(
    rt: &HostRuntime,
    head: &Head,
    salt: &[u8],
    key: &[u8],
    message: &[u8],
) -> Result<(), Refusal>
    requires { 0 < head.now.k }
{
    let opened = TagSession::open(head.bits, salt, key)?;
    let mut tag = [0u8; 64];
    let session = in_pieces(opened, message, head.k, &mut tag)?;
    let n = last_place(head.bits);
    let other = changed(tag, n);
    let right = session.check(&tag[0..n + 1])?;
    let wrong = session.check(&other[0..n + 1])?;
    print_tag(rt, &tag[0..n + 1], right.yes, wrong.yes);
    Ok(())
}

fn whole(rt: &HostRuntime, head: &Head, salt: &[u8], key: &[u8], message: &[u8]) {
    let made = if head.k == 0 {
        at_once(rt, head, salt, key, message)
    } else {
        over_a_session(rt, head, salt, key, message)
    };
    if let Err(refusal) = made {
        print_refused(rt, refusal);
    }
}

// Tasks 1 and 2, which begin with a key.
fn with_key(rt: &HostRuntime, head: &Head, salt: &[u8]) {
    if 1024 < head.key_length || 1024 < head.message_length {
        return;
    }
    let mut key = [0u8; 1024];
    fill(&mut key, head.key_seed);
    let mut message = [0u8; 1024];
    fill(&mut message, head.message_seed);
    let key = &key[..head.key_length];
    if head.task == 1 {
        whole(rt, head, salt, key, &message[..head.message_length]);
        return;
    }
    let form = Form {
        all: false,
        in_bits: false,
        inner: 0,
        outer: 0,
    };
    print_answer(rt, TagSession::open(head.bits, salt, key), form);
}

// ---- tag sessions

// Lends the first n bytes of a room, and prints what is in them afterwards.
fn read_into(rt: &HostRuntime, session: TagSession, room: [u8; 255], n: usize, form: Form)
    requires { n ≤ 255 }
{
    let mut own = room;
    let lent = &mut own[..n];
    let answer = session.read(lent);
    print_with_room(rt, answer, lent, form);
}

// Tasks from 3 on, on a record that is handed over.
fn with_session(rt: &HostRuntime, head: &Head, body: &Body) {
    let form = Form {
        all: 6 < head.task,
        in_bits: 9 < head.task,
        inner: body.inner.count,
        outer: body.outer.count,
    };
    let session = TagSession {
        inner: body.inner.session,
        outer: body.outer.session,
    };
    let n = head.n as usize;
    let piece = &body.room[..n];
    match head.task {
        3 | 7 | 10 => print_answer(rt, session.add(piece), form),
        4 | 8 | 11 => read_into(rt, session, body.room, n, form),
        5 | 12 => print_whether(rt, session.is_session()),
        _ => print_check(rt, session.check(piece), form),
    }
}

// The next case; none where the input ends.
fn next(rt: &HostRuntime, input: &mut Source) -> Option<()> {
    let mut bytes = [0u8; 40];
    if host::read_full(input, &mut bytes) < 40 {
        return None;
    }
    let head = head_of(&bytes)?;
    if head.task < 3 {
        if let Some(salt) = head.salt {
            with_key(rt, &head, salt);
        }
        return Some(());
    }
    let mut behind = [0u8; 1025];
    if host::read_full(input, &mut behind) < 1025 {
        return None;
    }
    with_session(rt, &head, &body_of(&behind, 9 < head.task)?);
    Some(())
}

// A proved loop has to end, and nothing says that the input does: there are more turns than any run uses up.
fn main(rt: HostRuntime) {
    let mut input = host::standard_input(&rt);
    for _ in 0..u64::MAX {
        if next(&rt, &mut input).is_none() {
            return;
        }
    }
}
