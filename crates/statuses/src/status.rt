ghost use Rattle.std.specs.Prelude.{◌≡◌, Some};
ghost use Rattle.statuses.specs.Texts.{status_text};

use std::fmt;

/// What the program answers: its exit code, and where and why. `end` is the number of the end, from 0.
#[derive(Clone, Copy, Debug, PartialEq, Eq)]
pub struct Status {
    pub code: u8,
    pub end: u32,
    pub place: u64,
    pub cause: u32,
}

impl Status {
    /// A code alone.
    pub fn plain(code: u8) -> Status
        ensures { result ≡ record { code = code; end = 0; place = 0; cause = 0 } }
    {
        Status {
            code,
            end: 0,
            place: 0,
            cause: 0,
        }
    }

    /// Words or ends that don't fit: where, and whether it is the words (1) or the ends (2).
    pub fn usage(place: u64, cause: u32) -> Status
        ensures { result ≡ record { code = 2; end = 0; place = place; cause = cause } }
    {
        Status {
            code: 2,
            end: 0,
            place,
            cause,
        }
    }

    /// A start text that is wrong: the line, or 0 for the whole, and the number of the cause.
    pub fn wrong_start(line: u32, cause: u32) -> Status
        ensures { result ≡ record { code = 8; end = 0; place = line; cause = cause } }
    {
        Status {
            code: 8,
            end: 0,
            place: line as u64,
            cause,
        }
    }
}

impl fmt::Display for Status {
    ghost output = { λ s. Some (status_text s) };

    fn fmt<W: fmt::Write>(&self, f: &mut fmt::Formatter<W>) -> fmt::Result {
        write!(
            f,
            "status {} end {} place {} cause {}",
            self.code, self.end, self.place, self.cause
        )
    }
}
