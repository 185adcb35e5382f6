#![tactic(auto)]
// Adds to and reads the sessions of standard input's cases, which need not come from an opening nor be sessions at all, and prints
// everything that is handed back.
//
// A case is 642 bytes: the task, the length of the piece, of the output room or of the salt, then the session: the digest length in bits (eight
// bytes), the message bytes so far (eight), the salt (16), the chaining value's room (128), the waiting block's (224) and the mode (0 double-pipe,
// 1 single-pipe); then the room of the piece or the output (255). From task 8 on it has the message bits so far in the place of the bytes, and
// eight bytes more, the bit count of the piece. Numbers have their least significant byte first.
//
// The tasks are 1 add, 2 read, 3 ask whether it is a session, 4 open; 5 add, 6 read, 7 open, which print all of the session that is handed
// back, where 1, 2 and 4 leave the mode and the waiting block's last 32 bytes out; and 8 add so many bits, 9 read, 10 ask, 11 add bytes, which
// print all, and bits for bytes.
ghost use Rattle.std.specs.Prelude.{◌≤◌};

use cases_in::{Fields, Given, counted, given_session, put_session};
use echo::{Refused, Session};
use host::Source;
use lines::Line;

#[derive(Drop)]
struct Case {
    task: u8,
    given: Given,
    // the room of the piece or the output, and how much of it is lent; of the salt, for an opening
    room: [u8; 255],
    n: u8,
}

fn case_of(bytes: &[u8; 642]) -> Option<Case> {
    let mut fields = Fields::new(bytes);
    let [task, n] = fields.array::<2>()?;
    let session = fields.array()?;
    Some(Case {
        task,
        given: given_session(&session, 8 <= task),
        room: fields.array()?,
        n,
    })
}

// How a session is printed: all of it or what it had before it had a mode, by its bits or its bytes, and the count that it was handed over with.
#[derive(Clone, Copy)]
struct Form {
    all: bool,
    in_bits: bool,
    given: u64,
}

// The refusal's number, or 0 where there is none, and the session that is handed back in either case.
fn number_and_session(answer: Result<Session, Refused>) -> (u8, Session) {
    match answer {
        Ok(session) => (0, session),
        Err(refused) => (refused.refusal.number(), refused.session),
    }
}

fn put_answer<const N: usize>(line: &mut Line<N>, answer: Result<Session, Refused>, form: Form) {
    let (number, session) = number_and_session(answer);
    let count = counted(form.in_bits, form.given, session.taken);
    line.decimal(number as u64);
    put_session(line, session, count, form.all);
}

fn print_answer(rt: &HostRuntime, answer: Result<Session, Refused>, form: Form) {
    let mut line = Line::<1024>::new();
    put_answer(&mut line, answer, form);
    line.text(b"\n");
    let _ = host::print(rt, line.bytes());
}

// The answer, and the room that was lent.
fn print_with_room(rt: &HostRuntime, answer: Result<Session, Refused>, room: &[u8], form: Form) {
    let mut line = Line::<2048>::new();
    put_answer(&mut line, answer, form);
    line.text(b" ").hex(room).text(b"\n");
    let _ = host::print(rt, line.bytes());
}

// Lends the first n bytes of a room, and prints what is in them afterwards.
fn read_into(rt: &HostRuntime, session: Session, room: [u8; 255], n: usize, form: Form)
    requires { n ≤ 255 }
{
    let mut own = room;
    let lent = &mut own[..n];
    let answer = session.read(lent);
    print_with_room(rt, answer, lent, form);
}

fn tell(rt: &HostRuntime, session: Session) {
    let told: &[u8] = if session.is_session() {
        b"yes\n"
    } else {
        b"no\n"
    };
    let _ = host::print(rt, told);
}

// Opens with the first n bytes of the record's salt, at most all of them.
fn open(rt: &HostRuntime, record: Session, n: usize, all: bool) {
    let form = Form {
        all,
        in_bits: false,
        given: 0,
    };
    let answer = Session::open(record.mode, record.bits, &record.salt[..n.min(16)]);
    print_answer(rt, answer, form);
}

// Tasks 1 to 7.
fn by_bytes(rt: &HostRuntime, case: &Case) {
    let session = case.given.session;
    let n = case.n as usize;
    let form = Form {
        all: 4 < case.task,
        in_bits: false,
        given: case.given.count,
    };
    match case.task {
        1 | 5 => print_answer(rt, session.add(&case.room[..n]), form),
        2 | 6 => read_into(rt, session, case.room, n, form),
        3 => tell(rt, session),
        _ => open(rt, session, n, form.all),
    }
}

// Tasks from 8 on, with the bit count of the piece.
fn by_bits(rt: &HostRuntime, case: &Case, count: u64) {
    let session = case.given.session;
    let n = case.n as usize;
    let form = Form {
        all: true,
        in_bits: true,
        given: 0,
    };
    let piece = &case.room[..n];
    match case.task {
        8 => print_answer(rt, session.add_bits(piece, count), form),
        9 => read_into(rt, session, case.room, n, form),
        10 => tell(rt, session),
        _ => print_answer(rt, session.add(piece), form),
    }
}

// The next case, with what stands behind it from task 8 on; none where the input ends.
fn next(rt: &HostRuntime, input: &mut Source) -> Option<()> {
    let mut bytes = [0u8; 642];
    if host::read_full(input, &mut bytes) < 642 {
        return None;
    }
    let case = case_of(&bytes)?;
    if case.task < 8 {
        by_bytes(rt, &case);
        return Some(());
    }
    let mut count = [0u8; 8];
    if host::read_full(input, &mut count) < 8 {
        return None;
    }
    by_bits(rt, &case, u64::from_le_bytes(count));
    Some(())
}

// A proved loop has to end, and nothing says that the input does: there are more turns than any run uses up.
fn main(rt: HostRuntime) {
    let mut input = host::standard_input(&rt);
    for _ in 0..u64::MAX {
        if next(&rt, &mut input).is_none() {
            return;
        }
    }
}
