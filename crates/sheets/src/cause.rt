ghost use Rattle.std.specs.Prelude.{◌≡◌};
ghost use Rattle.sheets.specs.Causes.{cause_number};

use crate::reading::SheetFault;

/// Why a line can't stand in a sheet, or why the whole is none. Users see the number.
#[derive(Clone, Copy, Debug, PartialEq, Eq)]
pub enum SheetCause {
    NotUtf8,
    FirstLine,
    NoSuchLine,
    NoNumber,
    UnknownType,
    TypeTwice,
    LineTwice,
    NoGoal,
    TooLong,
    /// Faults of the environment that the lines say.
    TypeRange,
    PairRange,
    PairTwice,
    Weight,
    Limit,
    NotTransitive,
    Depth,
    Form,
    Step,
}

impl SheetCause {
    /// The number that users see.
    pub fn number(self) -> u32
        ensures value { result ≡ cause_number self }
    {
        match self {
            SheetCause::NotUtf8 => 1,
            SheetCause::FirstLine => 2,
            SheetCause::NoSuchLine => 3,
            SheetCause::NoNumber => 4,
            SheetCause::UnknownType => 5,
            SheetCause::TypeTwice => 6,
            SheetCause::LineTwice => 7,
            SheetCause::NoGoal => 8,
            SheetCause::TooLong => 9,
            SheetCause::TypeRange => 11,
            SheetCause::PairRange => 12,
            SheetCause::PairTwice => 13,
            SheetCause::Weight => 14,
            SheetCause::Limit => 15,
            SheetCause::NotTransitive => 16,
            SheetCause::Depth => 17,
            SheetCause::Form => 18,
            SheetCause::Step => 19,
        }
    }

    /// The fault of this cause at a line.
    pub fn at(self, line: u32) -> SheetFault
        ensures { result ≡ SheetFault.At line (cause_number self) }
    {
        SheetFault::At(line, self.number())
    }
}
