// Errors of the system, by the numbers that Linux has for them.
ghost use Rattle.std.specs.Prelude.{◌≡◌, IfSome};
ghost use Rattle.std.specs.IoError.{raw_os_error};

use std::io;

#[derive(Clone, Copy, PartialEq, Eq, Debug)]
pub struct Error {
    pub number: i32,
}

// There is no file of this name.
pub const NO_FILE: Error = Error { number: 2 };

// A number that no call of the system gave: std refused before it made one, as a name with a zero byte in it. The system's own answer to bad
// arguments.
pub(crate) const INVALID: Error = Error { number: 22 };

// Bytes that are no text, where text is asked for.
pub(crate) const NO_TEXT: Error = Error { number: 84 };

// Nothing was written, and there is no reason.
pub(crate) const NOT_WRITTEN: Error = Error { number: 5 };

// A descriptor that there is none of.
pub(crate) const NO_DESCRIPTOR: Error = Error { number: 9 };

impl From<io::Error> for Error {
    ghost from_gives = { λ from e. IfSome (raw_os_error from) (λ n. e ≡ record { number = n }) };

    fn from(error: io::Error) -> Error {
        error
            .raw_os_error()
            .map_or(INVALID, |number| Error { number })
    }
}
