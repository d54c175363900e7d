// Terms from fronts: a front is read from its end, over a stack of the terms that were read.

ghost use Rattle.std.specs.Prelude.{◌≡◌, ◌<◌, ◌≤◌, length, vec_len, map, All, IfOk, OnOk};
ghost use Rattle.terms.specs.Expr.{Args};
ghost use Rattle.terms.specs.View.{expr, arg, args_view};
ghost use Rattle.terms.specs.Typing.{placed};
ghost use Rattle.partial_terms.specs.Built.{stacked, args_with, left_over, wanted_by, applied, takes, IsEnded, IsTermOf, AreTermsOf};
ghost use Rattle.reconstruction.specs.Levelled.{AreComplete};
ghost use Rattle.reconstruction.specs.Tabled.{front_of};

use crate::item::Arena;
use crate::tables::Tables;
use lists::Items;
use std::alloc::{AllocError, Global};
use terms::{Arg, Parts, Term, TermArg};

/// A term as an argument: under a lambda where one is wanted.
fn place(wanted: &Arg, term: Term) -> TermArg
    ensures placed { (rest : Args) → arg result rest ≡ placed wanted.now (expr term) rest }
{
    match wanted {
        Arg::Plain(_) => TermArg::Plain(term),
        Arg::Fun(_, _) => TermArg::Lam(term),
    }
}

/// The arguments at these places, taken from the stack: the first one is on top.
fn take_args(
    alloc: Global,
    wanted: &[Arg],
    stack: &mut Vec<Term>,
) -> Result<Items<TermArg>, AllocError>
    requires enough { length wanted.now ≤ vec_len stack.old }
    ensures args { IfOk result (λ args. args_view args ≡ args_with wanted.now (stacked stack.old.items)) }
    ensures rest { OnOk result (stacked stack.new.items ≡ left_over wanted.now (stacked stack.old.items)) }
{
    let mut args = Items::new(alloc);
    for wish in wanted {
        let term = match stack.pop() {
            Some(term) => term,
            None => unreachable!(),
        };
        args.push(place(wish, term))?;
    }
    Ok(args)
}

/// What a declaration wants.
pub fn wanted_by(parts: &Parts, decl: u32) -> &[Arg]
    ensures value { result.now ≡ wanted_by parts.now decl }
{
    match parts.decls.get(decl as usize) {
        Some(decl) => decl.args.as_slice(),
        None => &[],
    }
}

/// Puts the head of a number over the terms on the stack that it takes.
fn apply(alloc: Global, parts: &Parts, number: u32, stack: &mut Vec<Term>) -> Result<(), AllocError>
    requires enough { takes parts.now number ≤ vec_len stack.old }
    ensures applied { OnOk result (stacked stack.new.items ≡ applied parts.now number (stacked stack.old.items)) }
{
    let half = number / 2;
    if number % 2 == 0 {
        stack.push(Term::Var(half))?;
        return Ok(());
    }
    let wanted = wanted_by(parts, half);
    let args = take_args(alloc, wanted, stack)?;
    stack.push(Term::Head(half, args))?;
    Ok(())
}

/// The term of a whole front.
fn term_of(alloc: Global, tables: &Tables, arena: &Arena, front: u32) -> Result<Term, AllocError>
    requires complete { AreComplete tables.now }
    requires front { front < length arena.now.fronts }
    requires ended { IsEnded tables.now.env (front_of arena.now front) }
    ensures term { IfOk result (λ term. IsTermOf tables.now.env (front_of arena.now front) (expr term)) }
{
    let parts = tables.env.parts();
    let mut stack = Vec::new(alloc);
    let mut at = front;
    while let Some((number, rest)) = arena.fronts.first(at) {
        apply(alloc, parts, number, &mut stack)?;
        at = rest;
    }
    match stack.pop() {
        Some(term) => Ok(term),
        None => unreachable!(),
    }
}

/// The terms of whole fronts, in their order.
pub fn terms_of(
    alloc: Global,
    tables: &Tables,
    arena: &Arena,
    found: &[u32],
) -> Result<Items<Term>, AllocError>
    requires complete { AreComplete tables.now }
    requires inside { All (λ i. i < length arena.now.fronts) found.now }
    requires ended { All (IsEnded tables.now.env) (map (front_of arena.now) found.now) }
    ensures terms { IfOk result (λ terms. AreTermsOf tables.now.env (map (front_of arena.now) found.now) (map expr terms)) }
{
    let mut terms = Items::new(alloc);
    for number in 0..found.len() {
        let front = found[number];
        terms.push(term_of(alloc, tables, arena, front)?)?;
    }
    Ok(terms)
}
