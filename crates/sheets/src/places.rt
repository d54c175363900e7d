ghost use Rattle.std.specs.Prelude.{◌≡◌};
ghost use Rattle.sheets.specs.Sheets.{nth, step_word, line_with};
ghost use Rattle.sheets.specs.Standing.{fault_by, Refuses};

use crate::cause::SheetCause;
use crate::kind::NumberWord;
use crate::number_lines::{NumberLine, line_with, step_word};
use crate::reading::SheetFault;
use lists::Items;
use terms::EnvFault;

/// On which lines of a sheet the pairs and the declarations stand, its lines with a number, and the number of the
/// line after the last.
#[derive(Drop)]
pub struct Places {
    pub pairs: Items<u32>,
    pub decls: Items<u32>,
    pub numbers: Items<NumberLine>,
    pub after: u32,
}

/// The n-th of some lines, from 0.
fn nth(lines: &[u32], number: u32) -> u32
    ensures { result ≡ nth lines.now number }
{
    match lines.get(number as usize) {
        Some(line) => *line,
        None => 0,
    }
}

impl Places {
    /// The line of a pair.
    fn pair(&self, number: u32) -> u32
        ensures { result ≡ nth self.now.pairs number }
    {
        nth(self.pairs.as_slice(), number)
    }

    /// The line of a declaration.
    fn decl(&self, number: u32) -> u32
        ensures { result ≡ nth self.now.decls number }
    {
        nth(self.decls.as_slice(), number)
    }

    /// The line with a number.
    fn number(&self, word: NumberWord) -> u32
        ensures { result ≡ line_with word self.now.numbers }
    {
        line_with(self.numbers.as_slice(), word)
    }

    /// Where and what a fault of the environment is in the sheet.
    #[tactic(auto, unfolding(crate::specs::Standing::fault_by))]
    pub fn fault(&self, fault: EnvFault) -> SheetFault
        ensures { Refuses (fault_by self.now fault) result }
    {
        match fault {
            EnvFault::TypeRange(number) => SheetCause::TypeRange.at(self.decl(number)),
            EnvFault::PairRange(number) => SheetCause::PairRange.at(self.pair(number)),
            EnvFault::PairTwice(number) => SheetCause::PairTwice.at(self.pair(number)),
            EnvFault::Weight(number) => SheetCause::Weight.at(self.decl(number)),
            EnvFault::Limit(_) => SheetCause::Limit.at(self.number(NumberWord::Limit)),
            EnvFault::NotTransitive(_, _, _) => SheetCause::NotTransitive.at(self.after),
            EnvFault::Depth(_) => SheetCause::Depth.at(self.number(NumberWord::Depth)),
            EnvFault::Form(number) => SheetCause::Form.at(self.decl(number)),
            EnvFault::Step(number) => SheetCause::Step.at(self.number(step_word(number))),
            EnvFault::OutOfMemory => SheetFault::OutOfMemory,
        }
    }
}
