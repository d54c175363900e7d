ghost use Rattle.std.specs.Prelude.{◌≡◌, ◌≤◌, ◌<◌, false, length};
ghost use Rattle.java_units.specs.Signs.{sign, seen};
ghost use Rattle.java_units.specs.Pieces.{ends, sets, head_len, head, end, end_len, piece_len, held, bare};

use crate::entries::{deeper, stops};
use crate::forms::leads_len;
use crate::lexemes::{Lexeme, is, prefix, tail};

/// Whether the lexeme ends the head of a piece.
#[tactic(auto, unfolding(crate::specs::Pieces::ends))]
fn ends(depth: usize, set: bool, lexeme: &Lexeme<'_>) -> bool
    ensures { result ≡ ends depth set (sign lexeme.now) }
{
    stops(";", depth, lexeme) || (stops("{", depth, lexeme) && !set)
}

/// Whether a `=` has stood outside brackets.
#[tactic(auto, unfolding(crate::specs::Pieces::sets))]
fn sets(depth: usize, set: bool, lexeme: &Lexeme<'_>) -> bool
    ensures { result ≡ sets depth set (sign lexeme.now) }
{
    set || stops("=", depth, lexeme)
}

/// How many lexemes come before the end of a piece.
#[tactic(auto, using(crate::proofs::Walks::walks))]
fn head_len(lexemes: &[Lexeme<'_>]) -> usize
    ensures value { result ≡ head_len 0 false (seen lexemes.now) }
    ensures within { result ≤ length (seen lexemes.now) }
{
    let mut depth: usize = 0;
    let mut set = false;
    for i in 0..lexemes.len() {
        if ends(depth, set, &lexemes[i]) {
            return i;
        }
        set = sets(depth, set, &lexemes[i]);
        depth = deeper(depth, &lexemes[i]);
    }
    lexemes.len()
}

/// What comes before the end of a piece.
#[tactic(auto, unfolding(crate::specs::Pieces::head))]
pub fn head<'a, 'b>(lexemes: &'b [Lexeme<'a>]) -> &'b [Lexeme<'a>]
    ensures { seen result.now ≡ head (seen lexemes.now) }
{
    prefix(lexemes, head_len(lexemes))
}

/// The end of a piece and what follows.
#[tactic(auto, unfolding(crate::specs::Pieces::end))]
pub fn end<'a, 'b>(lexemes: &'b [Lexeme<'a>]) -> &'b [Lexeme<'a>]
    ensures { seen result.now ≡ end (seen lexemes.now) }
{
    tail(lexemes, head_len(lexemes))
}

/// How many lexemes the end of a piece takes.
fn end_len(lexemes: &[Lexeme<'_>]) -> usize
    ensures value { result ≡ end_len (seen lexemes.now) }
    ensures within { result ≤ length (seen lexemes.now) }
{
    if lexemes.is_empty() {
        return 0;
    }
    if !is("{", &lexemes[0]) {
        return 1;
    }
    let holds = lexemes[0].holds;
    if holds < lexemes.len() - 1 {
        return holds + 2;
    }
    lexemes.len()
}

/// How many lexemes a piece takes.
#[tactic(auto, using(crate::proofs::Walks::walks), unfolding(crate::specs::Pieces::piece_len, crate::specs::Pieces::end))]
pub fn piece_len(lexemes: &[Lexeme<'_>]) -> usize
    ensures value { result ≡ piece_len (seen lexemes.now) }
    ensures within { result ≤ length (seen lexemes.now) }
{
    let n = head_len(lexemes);
    n + end_len(tail(lexemes, n))
}

/// What the block at the end of a piece holds.
pub fn held<'a, 'b>(lexemes: &'b [Lexeme<'a>]) -> &'b [Lexeme<'a>]
    ensures { seen result.now ≡ held (seen lexemes.now) }
{
    if lexemes.is_empty() {
        return &[];
    }
    prefix(tail(lexemes, 1), lexemes[0].holds)
}

/// The head without its annotations and modifiers.
#[tactic(auto, unfolding(crate::specs::Pieces::bare))]
pub fn bare<'a, 'b>(lexemes: &'b [Lexeme<'a>]) -> &'b [Lexeme<'a>]
    ensures { seen result.now ≡ bare (seen lexemes.now) }
{
    let all = head(lexemes);
    tail(all, leads_len(all))
}

/// What a piece is.
#[derive(Clone, Copy, Debug, PartialEq, Eq)]
pub enum Form {
    Package,
    Import,
    Class,
    Constructor,
    Method,
    Field,
    Nothing,
}
