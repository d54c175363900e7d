ghost use Rattle.std.specs.Prelude.{◌<◌, ◌≤◌, MatchOption};

use crate::causes::{frame_cause, sheet_cause, start_cause};
use crate::status::Status;
use command_line::Command;
use std::fmt;

/// What is said where memory was wanting, or where a class file would take more than it may.
pub const NO_MEMORY: &str = "more memory is needed than there is or is allowed";

/// Where and why the run of a command ended as its status says, in words.
#[derive(Clone, Copy, Debug)]
pub struct Reason<'a> {
    command: Command<'a>,
    status: Status,
}

/// What is said of a status in words; None where the line of the status is all, since nothing failed or was wrong but the
/// words.
pub fn reason_of<'a>(command: &Command<'a>, status: &Status) -> Option<Reason<'a>>
    ensures said { MatchOption result (status.now.code < 3) (λ _. 3 ≤ status.now.code) }
{
    if status.code < 3 {
        return None;
    }
    Some(Reason {
        command: *command,
        status: *status,
    })
}

/// What a client sends, or what it is sent, with the number of its end where that isn't the first.
#[derive(Clone, Copy, Debug)]
struct Stream {
    name: &'static str,
    end: u32,
}

impl fmt::Display for Stream {
    fn fmt<W: fmt::Write>(&self, f: &mut fmt::Formatter<W>) -> fmt::Result {
        f.write_str(self.name)?;
        if self.end == 0 {
            return Ok(());
        }
        write!(f, " of end {}", self.end)
    }
}

/// A line of a text, or the text as a whole where the line is 0.
#[derive(Clone, Copy, Debug)]
struct Line {
    text: &'static str,
    line: u64,
}

impl fmt::Display for Line {
    fn fmt<W: fmt::Write>(&self, f: &mut fmt::Formatter<W>) -> fmt::Result {
        if self.line == 0 {
            return f.write_str(self.text);
        }
        write!(f, "line {} of {}", self.line, self.text)
    }
}

impl Reason<'_> {
    /// The messages of the client whose session ended so.
    fn messages(&self) -> Stream {
        Stream {
            name: "the messages",
            end: self.status.end,
        }
    }

    /// A line of a text, by the status's place.
    fn line_of(&self, text: &'static str) -> Line {
        Line {
            text,
            line: self.status.place,
        }
    }

    /// What couldn't be read.
    fn unread(&self) -> Stream {
        let name = match self.command {
            Command::List => "the sheet",
            Command::Upgrade => "the sheet",
            Command::Count { start: _ } => "the start text or one of its files",
            Command::Serve {
                start: Some(_),
                pairs: _,
                ahead: _,
            } if self.status.end == 0 => "the messages, the start text or one of its files",
            _ => "the messages",
        };
        Stream {
            name,
            end: self.status.end,
        }
    }

    /// What couldn't be written.
    fn unwritten(&self) -> Stream {
        let name = match self.command {
            Command::List => "the list",
            Command::Upgrade => "the upgraded sheet",
            Command::Count { start: _ } => "the counts",
            Command::Sample { number: _ } => "the lines of the sample",
            Command::Serve {
                start: _,
                pairs: _,
                ahead: _,
            } => "the replies",
        };
        Stream {
            name,
            end: self.status.end,
        }
    }

    /// What is wrong with the input: the sheet of `list` or `upgrade`, or the messages.
    fn write_wrong_input<W: fmt::Write>(&self, f: &mut fmt::Formatter<W>) -> fmt::Result {
        let cause = self.status.cause;
        if matches!(self.command, Command::List | Command::Upgrade) {
            return write!(f, "{}: {}", self.line_of("the sheet"), sheet_cause(cause));
        }
        let place = self.status.place;
        let messages = self.messages();
        if cause == 3 {
            return write!(
                f,
                "{messages}: one of {place} bytes is longer than 16,777,216"
            );
        }
        write!(f, "byte {place} of {messages}: {}", frame_cause(cause))
    }
}

impl fmt::Display for Reason<'_> {
    fn fmt<W: fmt::Write>(&self, f: &mut fmt::Formatter<W>) -> fmt::Result {
        match self.status.code {
            3 => self.write_wrong_input(f),
            4 => write!(f, "{} can't be read", self.unread()),
            5 => write!(f, "{} can't be written", self.unwritten()),
            6 => f.write_str(NO_MEMORY),
            7 => write!(
                f,
                "{} need more than 1,099,511,627,776 bytes",
                self.messages()
            ),
            _ => write!(
                f,
                "{}: {}",
                self.line_of("the start text"),
                start_cause(self.status.cause)
            ),
        }
    }
}
