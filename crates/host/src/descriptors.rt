// Descriptors that the program was started with, by their numbers. std hands out none that it did not open itself, so Linux's files of them stand for them.
ghost use Rattle.std.specs.Prelude.{◌≡◌, ◌<ℤ◌, None, pos};

use super::reading::read_full;
use std::fs::File;

#[derive(Clone, Copy)]
pub(crate) struct Descriptor {
    // The file that opens the descriptor once more.
    pub path: &'static str,
    // The file that says how the descriptor is open.
    info: &'static str,
}

impl Descriptor {
    pub fn of(number: i32) -> Option<Descriptor>
        ensures low { number <ℤ pos 3 → result ≡ None }
        ensures high { pos 9 <ℤ number → result ≡ None }
    {
        let (path, info) = match number {
            3 => ("/dev/fd/3", "/proc/self/fdinfo/3"),
            4 => ("/dev/fd/4", "/proc/self/fdinfo/4"),
            5 => ("/dev/fd/5", "/proc/self/fdinfo/5"),
            6 => ("/dev/fd/6", "/proc/self/fdinfo/6"),
            7 => ("/dev/fd/7", "/proc/self/fdinfo/7"),
            8 => ("/dev/fd/8", "/proc/self/fdinfo/8"),
            9 => ("/dev/fd/9", "/proc/self/fdinfo/9"),
            _ => return None,
        };
        Some(Descriptor { path, info })
    }

    // Whether the descriptor is open for writing. What is open for reading alone could be opened once more for writing, and is not to be.
    pub fn is_for_writing(self, rt: &HostRuntime) -> bool {
        let Ok(mut file) = File::open(rt, self.info) else {
            return false;
        };
        let mut room = [0u8; 256];
        let n = read_full(&mut file, &mut room);
        allows_writing(&room[..n])
    }
}

// Whether the number in the line of flags, in octal digits, has one of its two lowest bits: the first is for writing alone, the second for reading and
// writing.
pub(crate) fn allows_writing(told: &[u8]) -> bool {
    told.split(|byte| *byte == b'\n')
        .find(|line| line.starts_with(b"flags:"))
        .is_some_and(|line| matches!(line.last(), Some(b'1' | b'2' | b'3' | b'5' | b'6' | b'7')))
}
