ghost use Rattle.std.specs.Prelude.{◌≡◌};
ghost use Rattle.java_units.specs.Signs.{sign};
ghost use Rattle.java_bodies.specs.Marks.{mark_of};

use java_units::forms::{Lexeme, is};

/// What a lexeme is among brackets.
#[derive(Clone, Copy, Debug, PartialEq, Eq)]
pub enum Mark {
    OpensBlock,
    ClosesBlock,
    OpensRound,
    ClosesRound,
    Plain,
}

/// Which brackets are counted.
#[derive(Clone, Copy, Debug, PartialEq, Eq)]
pub enum Brackets {
    /// Braces.
    Blocks,
    /// Round brackets, up to the next brace.
    Rounds,
}

/// What the lexeme is among brackets.
#[tactic(auto, unfolding(crate::specs::Marks::mark_of))]
pub fn mark_of(lexeme: &Lexeme<'_>) -> Mark
    ensures { result ≡ mark_of (sign lexeme.now) }
{
    if is("{", lexeme) {
        return Mark::OpensBlock;
    }
    if is("}", lexeme) {
        return Mark::ClosesBlock;
    }
    if is("(", lexeme) {
        return Mark::OpensRound;
    }
    if is(")", lexeme) {
        return Mark::ClosesRound;
    }
    Mark::Plain
}
