#![tactic(auto)]
// Runs the nine full rounds of FIPS 197, Appendix B. Standard input has the word that starts round 1 and then the nine keys, a line
// of 32 hex digits each. The program prints the result of each round, and then what the way back makes of it, from the last round to
// the first.
ghost use Rattle.std.specs.Prelude.{◌<◌};

use lines::Line;

// The number that a hex digit stands for.
fn value(digit: u8) -> u8
    ensures { result < 16 }
{
    if b'a' <= digit {
        (digit - b'a' + 10) % 16
    } else {
        digit % 16
    }
}

// Line n of the input as sixteen bytes.
fn line(text: &[u8; 330], n: usize) -> [u8; 16]
    requires { n < 10 }
{
    let mut word = [0u8; 16];
    for (i, byte) in word.iter_mut().enumerate() {
        let at = 33 * n + 2 * i;
        *byte = 16 * value(text[at]) + value(text[at + 1]);
    }
    word
}

fn print(rt: &HostRuntime, word: [u8; 16]) {
    let mut line = Line::<33>::new();
    line.hex(&word).text(b"\n");
    let _ = host::print(rt, line.bytes());
}

fn run(rt: &HostRuntime, text: &[u8; 330]) {
    let mut word = line(text, 0);
    for n in 1..10 {
        let after = aes_round::round(word, line(text, n));
        print(rt, after);
        word = after;
    }
    for n in (1..10).rev() {
        let before = aes_round::round_back(word, line(text, n));
        print(rt, before);
        word = before;
    }
}

fn main(rt: HostRuntime) {
    let mut text = [0u8; 330];
    let n = host::read_full(&mut host::standard_input(&rt), &mut text);
    if n < 330 {
        let _ = host::print(&rt, b"short input\n");
        return;
    }
    run(&rt, &text);
}
