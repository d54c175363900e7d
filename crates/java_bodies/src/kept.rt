ghost use Rattle.std.specs.Prelude.{◌≡◌, ◌<◌, ◌==◌, IfOk};
ghost use Rattle.java_units.specs.Signs.{seen};
ghost use Rattle.java_bodies.specs.Kept.{closed_before, kept_marks};

use crate::mark::{Brackets, Mark, mark_of};
use java_units::forms::Lexeme;
use std::alloc::{AllocError, Global};

/// How many brackets are closed from a lexeme on that were open before it, where so many are from behind it.
fn closed_before(brackets: Brackets, mark: Mark, closed: usize) -> usize
    requires { closed < 18446744073709551615 }
    ensures { result ≡ closed_before brackets mark closed }
{
    match (brackets, mark) {
        (Brackets::Blocks, Mark::OpensBlock) => closed.saturating_sub(1),
        (Brackets::Blocks, Mark::ClosesBlock) => closed + 1,
        (Brackets::Blocks, _) => closed,
        (Brackets::Rounds, Mark::OpensBlock | Mark::ClosesBlock) => 0,
        (Brackets::Rounds, Mark::OpensRound) => closed.saturating_sub(1),
        (Brackets::Rounds, Mark::ClosesRound) => closed + 1,
        (Brackets::Rounds, Mark::Plain) => closed,
    }
}

/// For each place, whether what follows it closes no bracket that was open there.
#[tactic(auto, using(crate::proofs::Lengths::lengths))]
pub fn kept_marks(
    alloc: Global,
    brackets: Brackets,
    lexemes: &[Lexeme<'_>],
) -> Result<Vec<bool>, AllocError>
    ensures { IfOk result (λ marks. marks.items ≡ kept_marks brackets (seen lexemes.now)) }
{
    let mut marks = Vec::new(alloc);
    let mut closed: usize = 0;
    let mut left = lexemes.len();
    while left > 0 {
        left -= 1;
        closed = closed_before(brackets, mark_of(&lexemes[left]), closed);
        marks.push(closed == 0)?;
    }
    marks.reverse();
    Ok(marks)
}
