ghost use Rattle.std.specs.Prelude.{◌≡◌};
ghost use Rattle.command_line.specs.Words.{ends_of};

use thiserror::Error;

/// What the words of the command line ask for.
#[derive(Clone, Copy, Debug, PartialEq, Eq)]
pub enum Command<'a> {
    /// List a sheet.
    List,
    /// Write a sheet anew.
    Upgrade,
    /// Serve editors: from the class files that a start text names, where one is given, over so many pairs of files
    /// beside standard input and output, and with so many workers that lengthen lists ahead, where some are asked for.
    Serve {
        start: Option<&'a str>,
        pairs: u32,
        ahead: Option<u32>,
    },
    /// Count the uses in the class files that a start text names.
    Count {
        start: &'a str,
    },
    /// Tell the sample of a number.
    Sample {
        number: u32,
    },
}

impl Command<'_> {
    /// How many ends it needs.
    pub fn ends(&self) -> usize
        ensures { result ≡ ends_of self.now }
    {
        match self {
            Command::List => 1,
            Command::Upgrade => 1,
            Command::Serve {
                start: _,
                pairs,
                ahead: _,
            } => *pairs as usize + 1,
            Command::Count { start: _ } => 1,
            Command::Sample { number: _ } => 1,
        }
    }
}

/// What words ask for that don't ask for a server.
#[derive(Clone, Copy, Debug, PartialEq, Eq)]
pub enum Plain<'a> {
    /// List a sheet.
    List,
    /// Write a sheet anew.
    Upgrade,
    /// Count the uses in the class files that a start text names.
    Count { start: &'a str },
    /// Tell the sample of a number.
    Sample { number: u32 },
}

/// Words that are no command: the number of the first word that can't stand there, or their count where one is
/// missing. Words are counted from 0.
#[derive(Clone, Copy, Debug, PartialEq, Eq, Error)]
#[error("word {word} can't stand there")]
pub struct UsageFault {
    pub word: u32,
}
