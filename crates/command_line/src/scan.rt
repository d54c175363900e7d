ghost use Rattle.std.specs.Prelude.{◌≡◌, ◌≢◌, ◌∷◌, ◌++◌, ◌+◌, ◌<◌, ◌^◌, ◌↔◌, List, [], ℕ, codes, MatchOption, IsTrue};
ghost use Rattle.command_line.specs.Words.{IsFileName, IsPair, Pair};
ghost use Rattle.command_line.specs.Scanned.{Scanned, Takes, Reads};
ghost use Rattle.command_line.specs.declared.scan.Next.TheVariants as next;

use crate::command::UsageFault;
use crate::number::worker_count;

/// The most pairs of files that a server has.
const MOST_PAIRS: u32 = 63;

/// What comes next among the words after `serve`.
#[derive(Clone, Copy, Debug, PartialEq, Eq)]
pub enum Next {
    /// A pair of files or an option.
    Part,
    /// The name of the start text, after `--start`.
    Name,
    /// The number of workers, after `--ahead`.
    Number,
}

/// What was read of the words after `serve`: the start text, the number of workers, that of pairs and that of words, and
/// what comes next.
#[derive(Clone, Copy, Debug)]
pub struct Scan<'a> {
    pub start: Option<&'a str>,
    pub ahead: Option<u32>,
    pub pairs: u32,
    pub words: u32,
    pub next: Next,
}

/// A word that was read: what was read by then, and the names of the pair where it is one.
#[derive(Clone, Copy, Debug)]
pub struct Taken<'a> {
    pub scan: Scan<'a>,
    pub pair: Option<(&'a str, &'a str)>,
}

/// Whether a word is the name of a file: not empty, and no option.
pub(crate) fn is_file_name(word: &str) -> bool
    ensures { IsTrue result ↔ IsFileName word.now }
{
    !word.is_empty() && !word.starts_with('-')
}

/// The names of a pair, where the word is one. It is split at the first `=`.
fn pair_of(word: &str) -> Option<(&str, &str)>
    ensures { MatchOption result ((names : Pair) → IsPair names → word.now ≢ names.0 ++ 61 ∷ names.1) (λ x. IsPair (x.0.now, x.1.now) × (word.now ≡ x.0.now ++ 61 ∷ x.1.now)) }
{
    let Some((input, output)) = word.split_once('=') else {
        return None;
    };
    if !is_file_name(input) {
        return None;
    }
    if output.is_empty() {
        return None;
    }
    Some((input, output))
}

impl<'a> Scan<'a> {
    /// Nothing was read yet.
    pub(crate) fn new() -> Scan<'a>
        ensures { Scanned [] result [] }
    {
        Scan {
            start: None,
            ahead: None,
            pairs: 0,
            words: 0,
            next: Next::Part,
        }
    }

    /// Reads one word more. None: it can't stand there.
    pub(crate) fn take(&self, word: &'a str) -> Option<Taken<'a>>
        requires room { self.now.words < 2 ^ 31 }
        ensures { Takes self.now word.now result }
    {
        match self.next {
            Next::Part => self.take_part(word),
            Next::Name => self.take_name(word),
            Next::Number => self.take_number(word),
        }
    }

    /// Reads an option or a pair of files.
    fn take_part(&self, word: &'a str) -> Option<Taken<'a>>
        requires room { self.now.words < 2 ^ 31 }
        requires plain { self.now.next ≡ next.Part }
        ensures { Takes self.now word.now result }
    {
        if word == "--start" {
            return self.take_start();
        }
        if word == "--ahead" {
            return self.take_ahead();
        }
        match word.strip_prefix("--start=") {
            Some(file) => self.take_joined(file),
            None => self.take_pair(word),
        }
    }

    /// Reads the name of the start text.
    fn take_name(&self, file: &'a str) -> Option<Taken<'a>>
        requires room { self.now.words < 2 ^ 31 }
        requires naming { self.now.next ≡ next.Name }
        ensures { Takes self.now file.now result }
    {
        if !is_file_name(file) {
            return None;
        }
        Some(Taken {
            scan: Scan {
                start: Some(file),
                words: self.words + 1,
                next: Next::Part,
                ..*self
            },
            pair: None,
        })
    }

    /// Reads the number of workers.
    fn take_number(&self, word: &'a str) -> Option<Taken<'a>>
        requires room { self.now.words < 2 ^ 31 }
        requires counting { self.now.next ≡ next.Number }
        ensures { Takes self.now word.now result }
    {
        let Some(count) = worker_count(word) else {
            return None;
        };
        Some(Taken {
            scan: Scan {
                ahead: Some(count),
                words: self.words + 1,
                next: Next::Part,
                ..*self
            },
            pair: None,
        })
    }

    /// Reads `--start`.
    fn take_start(&self) -> Option<Taken<'a>>
        requires room { self.now.words < 2 ^ 31 }
        requires plain { self.now.next ≡ next.Part }
        ensures { Takes self.now (codes "--start") result }
    {
        if self.start.is_some() {
            return None;
        }
        Some(Taken {
            scan: Scan {
                words: self.words + 1,
                next: Next::Name,
                ..*self
            },
            pair: None,
        })
    }

    /// Reads `--ahead`.
    fn take_ahead(&self) -> Option<Taken<'a>>
        requires room { self.now.words < 2 ^ 31 }
        requires plain { self.now.next ≡ next.Part }
        ensures { Takes self.now (codes "--ahead") result }
    {
        if self.ahead.is_some() {
            return None;
        }
        Some(Taken {
            scan: Scan {
                words: self.words + 1,
                next: Next::Number,
                ..*self
            },
            pair: None,
        })
    }

    /// Reads `--start=` with the name of the start text.
    fn take_joined(&self, file: &'a str) -> Option<Taken<'a>>
        requires room { self.now.words < 2 ^ 31 }
        requires plain { self.now.next ≡ next.Part }
        ensures { Takes self.now (codes "--start=" ++ file.now) result }
    {
        if self.start.is_some() {
            return None;
        }
        if !is_file_name(file) {
            return None;
        }
        Some(Taken {
            scan: Scan {
                start: Some(file),
                words: self.words + 1,
                ..*self
            },
            pair: None,
        })
    }

    /// Reads a pair of files.
    fn take_pair(&self, word: &'a str) -> Option<Taken<'a>>
        requires room { self.now.words < 2 ^ 31 }
        requires plain { self.now.next ≡ next.Part }
        requires other { (word.now ≢ codes "--start") × (word.now ≢ codes "--ahead") × ((file : List ℕ) → word.now ≢ codes "--start=" ++ file) }
        ensures { Takes self.now word.now result }
    {
        if self.pairs >= MOST_PAIRS {
            return None;
        }
        let Some((input, output)) = pair_of(word) else {
            return None;
        };
        Some(Taken {
            scan: Scan {
                pairs: self.pairs + 1,
                words: self.words + 1,
                ..*self
            },
            pair: Some((input, output)),
        })
    }

    /// The fault of the next word, which can't stand there or is missing. The word `serve` is the first one.
    pub(crate) fn fault(&self) -> UsageFault
        requires room { self.now.words < 2 ^ 31 }
        ensures { result.word ≡ self.now.words + 1 }
    {
        UsageFault {
            word: self.words + 1,
        }
    }

    /// Ends the words, where no name and no number is missing.
    pub(crate) fn end(&self) -> Result<(), UsageFault>
        requires room { self.now.words < 2 ^ 31 }
        ensures { Reads self.now result }
    {
        match self.next {
            Next::Part => Ok(()),
            Next::Name => Err(self.fault()),
            Next::Number => Err(self.fault()),
        }
    }
}
