ghost use Rattle.std.specs.Prelude.{◌≡◌, IfOk, OnOk, reverse};
ghost use Rattle.java_units.specs.Signs.{seen};
ghost use Rattle.java_bodies.specs.Openers.{outside, past_round, open_after, innermost, openers};

use crate::mark::{Mark, mark_of};
use java_units::forms::Lexeme;
use std::alloc::{AllocError, Global};

/// Leaves the innermost block, with the round brackets that are open in it.
fn leave_block(inner: &mut Vec<Option<usize>>)
    ensures { reverse inner.new.items ≡ outside (reverse inner.old.items) }
{
    while let Some(bracket) = inner.pop() {
        if bracket.is_none() {
            return;
        }
    }
}

/// The place of the innermost bracket, where it is round.
fn innermost(inner: &[Option<usize>]) -> Option<usize>
    ensures { result ≡ innermost (reverse inner.now) }
{
    match inner.last() {
        Some(bracket) => *bracket,
        None => None,
    }
}

/// Closes the innermost bracket, where it is round.
fn close_round(inner: &mut Vec<Option<usize>>)
    ensures { reverse inner.new.items ≡ past_round (reverse inner.old.items) }
{
    if innermost(inner).is_some() {
        inner.pop();
    }
}

/// The brackets that are open behind a lexeme at a place.
fn pass(inner: &mut Vec<Option<usize>>, mark: Mark, place: usize) -> Result<(), AllocError>
    ensures { OnOk result (reverse inner.new.items ≡ open_after mark place (reverse inner.old.items)) }
{
    match mark {
        Mark::OpensBlock => {
            inner.push(None)?;
            Ok(())
        }
        Mark::ClosesBlock => {
            leave_block(inner);
            Ok(())
        }
        Mark::OpensRound => {
            inner.push(Some(place))?;
            Ok(())
        }
        Mark::ClosesRound => {
            close_round(inner);
            Ok(())
        }
        Mark::Plain => Ok(()),
    }
}

/// For each place, the `(` that a `)` there closes.
pub fn openers(alloc: Global, lexemes: &[Lexeme<'_>]) -> Result<Vec<Option<usize>>, AllocError>
    ensures { IfOk result (λ all. all.items ≡ openers (seen lexemes.now)) }
{
    let mut all = Vec::new(alloc);
    let mut inner = Vec::new(alloc);
    for i in 0..lexemes.len() {
        all.push(innermost(&inner))?;
        pass(&mut inner, mark_of(&lexemes[i]), i)?;
    }
    Ok(all)
}
