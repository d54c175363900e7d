ghost use Rattle.std.specs.Prelude.{◌≡◌, ◌≤◌, length, IfOk};
ghost use Rattle.java_units.specs.Signs.{seen, seens};
ghost use Rattle.java_units.specs.Forms.{starts, entries};
ghost use Rattle.java_units.specs.Pieces.{run_len};

use crate::entries::{Entry, clause_len, entry_len, next_len};
use crate::forms::lead_len;
use crate::lexemes::{Lexeme, tail};
use crate::pieces::piece_len;
use std::alloc::{AllocError, Global};

/// A form that is read one after the other.
#[derive(Clone, Copy, Debug)]
pub enum Run {
    /// The pieces of a body.
    Pieces,
    /// The lists of types in the head of a class.
    Clauses,
    /// Annotations and modifiers.
    Leads,
    /// Commas, each with an entry.
    Nexts(Entry),
}

/// How many lexemes the form at the front takes.
fn run_len(run: Run, lexemes: &[Lexeme<'_>]) -> usize
    ensures value { result ≡ run_len run (seen lexemes.now) }
    ensures within { result ≤ length (seen lexemes.now) }
{
    match run {
        Run::Pieces => piece_len(lexemes),
        Run::Clauses => clause_len(lexemes),
        Run::Leads => lead_len(lexemes),
        Run::Nexts(entry) => next_len(entry, lexemes),
    }
}

/// The places at which one after the other begins, each with what follows it.
pub fn starts<'a, 'b>(
    alloc: Global,
    run: Run,
    lexemes: &'b [Lexeme<'a>],
) -> Result<Vec<&'b [Lexeme<'a>]>, AllocError>
    ensures { IfOk result (λ all. seens all.items ≡ starts (run_len run) 0 (seen lexemes.now)) }
{
    let mut all = Vec::new(alloc);
    let mut rest = lexemes;
    loop {
        let n = run_len(run, rest);
        if n == 0 {
            return Ok(all);
        }
        all.push(rest)?;
        rest = tail(rest, n);
    }
}

/// The places at which the entries of a list begin.
pub fn entries<'a, 'b>(
    alloc: Global,
    entry: Entry,
    lexemes: &'b [Lexeme<'a>],
) -> Result<Vec<&'b [Lexeme<'a>]>, AllocError>
    ensures exact { IfOk result (λ all. seens all.items ≡ entries entry (seen lexemes.now)) }
{
    let mut all = Vec::new(alloc);
    let n = entry_len(entry, lexemes);
    if n == 0 {
        return Ok(all);
    }
    all.push(lexemes)?;
    let nexts = starts(alloc, Run::Nexts(entry), tail(lexemes, n))?;
    let places = nexts.as_slice();
    for i in 0..places.len() {
        all.push(tail(places[i], 1))?;
    }
    Ok(all)
}
