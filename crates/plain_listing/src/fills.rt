ghost use Rattle.std.specs.Prelude.{◌≡◌, ◌++◌, ◌∷◌, [], ◌<◌, ◌^◌, List, map, IfOk, OnOk};
ghost use Rattle.terms.specs.Expr.{Args};
ghost use Rattle.terms.specs.View.{expr, arg, args_view};
ghost use Rattle.terms.specs.Typing.{placed};
ghost use Rattle.terms.specs.declared.parts.Parts.{Parts};
ghost use Rattle.plain_listing.specs.Generate.{Table, Inner, candidates, firsts, fills};
ghost use Rattle.plain_listing.specs.Reads.{here, deeper};

use crate::plain_place::PlainPlace;
use lists::Items;
use std::alloc::{AllocError, Global};
use terms::{Arg, Term, TermArg};

/// A copy of the term as the argument that is wanted.
fn placed(alloc: Global, wanted: &Arg, term: &Term) -> Result<TermArg, AllocError>
    ensures { IfOk result (λ made. (rest : Args) → arg made rest ≡ placed wanted.now (expr term.now) rest) }
{
    match wanted {
        Arg::Plain(_) => Ok(TermArg::Plain(term.copy(alloc)?)),
        Arg::Fun(_, _) => Ok(TermArg::Lam(term.copy(alloc)?)),
    }
}

fn copy_arg(alloc: Global, term: &TermArg) -> Result<TermArg, AllocError>
    ensures { IfOk result (λ copy. copy ≡ term.now) }
{
    match term {
        TermArg::Plain(term) => Ok(TermArg::Plain(term.copy(alloc)?)),
        TermArg::Lam(body) => Ok(TermArg::Lam(body.copy(alloc)?)),
    }
}

/// The term as the first argument, before copies of the rest.
fn with_first(
    alloc: Global,
    wanted: &Arg,
    first: &Term,
    rest: &Items<TermArg>,
) -> Result<Items<TermArg>, AllocError>
    ensures { IfOk result (λ all. args_view all ≡ placed wanted.now (expr first.now) (args_view rest.now)) }
{
    let mut all = Items::new(alloc);
    all.push(placed(alloc, wanted, first)?)?;
    for term in rest.as_slice() {
        all.push(copy_arg(alloc, term)?)?;
    }
    Ok(all)
}

/// Adds the term before each of the lists.
fn push_first(
    alloc: Global,
    all: &mut Vec<Items<TermArg>>,
    wanted: &Arg,
    first: &Term,
    more: &[Items<TermArg>],
) -> Result<(), AllocError>
    ensures { OnOk result (map args_view all.new.items ≡ map args_view all.old.items ++ map (placed wanted.now (expr first.now)) (map args_view more.now)) }
{
    for rest in more {
        all.push(with_first(alloc, wanted, first, rest)?)?;
    }
    Ok(())
}

/// Adds each of the terms before each of the lists.
fn push_firsts(
    alloc: Global,
    all: &mut Vec<Items<TermArg>>,
    wanted: &Arg,
    terms: &[Term],
    more: &[Items<TermArg>],
) -> Result<(), AllocError>
    ensures { OnOk result (map args_view all.new.items ≡ map args_view all.old.items ++ firsts wanted.now (map expr terms.now) (map args_view more.now)) }
{
    for first in terms {
        push_first(alloc, all, wanted, first, more)?;
    }
    Ok(())
}

/// No arguments, where nothing is left of the weight.
#[tactic(auto, using(crate::proofs::Making::making))]
fn none_left(alloc: Global, weight: usize) -> Result<Vec<Items<TermArg>>, AllocError>
    ensures { IfOk result (λ all. (g : Parts) (f : Table) (u : Inner) → map args_view all.items ≡ fills g f u [] weight) }
{
    let mut all = Vec::new(alloc);
    if weight == 0 {
        all.push(Items::new(alloc))?;
        return Ok(all);
    }
    Ok(all)
}

/// All lists of arguments for these places that weigh exactly `weight` together.
#[cycle(fills)]
#[tactic(auto, using(crate::proofs::Making::making))]
pub fn fills(
    alloc: Global,
    place: &PlainPlace<'_>,
    wanted: &[Arg],
    weight: usize,
) -> Result<Vec<Items<TermArg>>, AllocError>
    requires { weight < 2 ^ 32 }
    ensures { IfOk result (λ all. map args_view all.items ≡ fills place.now.env.now (here place.now) (deeper place.now) wanted.now weight) }
{
    match wanted.split_first() {
        None => none_left(alloc, weight),
        Some((first, more)) => fills_from(alloc, place, first, more, weight),
    }
}

/// The same, for the first of the places and the others.
#[cycle(fills)]
#[tactic(auto, using(crate::proofs::Making::making))]
fn fills_from(
    alloc: Global,
    place: &PlainPlace<'_>,
    first: &Arg,
    more: &[Arg],
    weight: usize,
) -> Result<Vec<Items<TermArg>>, AllocError>
    requires { weight < 2 ^ 32 }
    ensures { IfOk result (λ all. map args_view all.items ≡ fills place.now.env.now (here place.now) (deeper place.now) (first.now ∷ more.now) weight) }
{
    let mut all = Vec::new(alloc);
    for k in 0..weight + 1 {
        push_split(alloc, &mut all, place, first, more, k, weight - k)?;
    }
    Ok(all)
}

/// Adds those whose first argument weighs `k`, and the others `left`.
#[cycle(fills)]
fn push_split(
    alloc: Global,
    all: &mut Vec<Items<TermArg>>,
    place: &PlainPlace<'_>,
    first: &Arg,
    more: &[Arg],
    k: usize,
    left: usize,
) -> Result<(), AllocError>
    requires { left < 2 ^ 32 }
    ensures { OnOk result (map args_view all.new.items ≡ map args_view all.old.items ++ firsts first.now (candidates place.now.env.now (here place.now) (deeper place.now) first.now k) (fills place.now.env.now (here place.now) (deeper place.now) more.now left)) }
{
    let terms = place.candidates(first, k);
    if terms.is_empty() {
        return Ok(());
    }
    let rest = fills(alloc, place, more, left)?;
    push_firsts(alloc, all, first, terms, rest.as_slice())?;
    Ok(())
}
