ghost use Rattle.std.specs.Prelude.{◌≡◌, ◌++◌, ◌<◌, ◌^◌, Some, length, map, slice_get, IfOk, OnOk};
ghost use Rattle.terms.specs.View.{expr};
ghost use Rattle.plain_listing.specs.Generate.{cost, headed, heads, variable, variables, made};
ghost use Rattle.plain_listing.specs.Reads.{here, deeper};

use crate::fills::fills;
use crate::plain_place::PlainPlace;
use lists::{Items, at};
use std::alloc::{AllocError, Global};
use terms::{Decl, Env, Term};

/// Adds the variable, where its type stands for the wanted one and it weighs just `weight` there.
fn push_typed(
    all: &mut Items<Term>,
    place: &PlainPlace<'_>,
    weight: usize,
    wanted: u32,
    n: u32,
    of: u32,
) -> Result<(), AllocError>
    ensures { OnOk result (map expr all.new ≡ map expr all.old ++ variable place.now.env.now weight wanted n (Some of)) }
{
    if !place.env.is_below(of, wanted) {
        return Ok(());
    }
    let weighs = place.env.variable_weight() as usize + place.env.step(of, wanted) as usize;
    if weighs != weight {
        return Ok(());
    }
    all.push(Term::Var(n))?;
    Ok(())
}

/// Adds variable `n`, where there is one that fits.
fn push_variable(
    all: &mut Items<Term>,
    place: &PlainPlace<'_>,
    weight: usize,
    wanted: u32,
    n: u32,
) -> Result<(), AllocError>
    ensures { OnOk result (map expr all.new ≡ map expr all.old ++ variable place.now.env.now weight wanted n (slice_get place.now.variables.now n)) }
{
    match at(place.variables, n as usize) {
        Some(of) => push_typed(all, place, weight, wanted, n, *of),
        None => Ok(()),
    }
}

/// Adds the variables that stand for the wanted type and weigh `weight` there.
#[tactic(auto, using(crate::proofs::Making::making))]
fn push_variables(
    all: &mut Items<Term>,
    place: &PlainPlace<'_>,
    weight: usize,
    wanted: u32,
) -> Result<(), AllocError>
    requires { length place.now.variables.now < 2 ^ 32 }
    ensures { OnOk result (map expr all.new ≡ map expr all.old ++ variables place.now.env.now place.now.variables.now weight wanted) }
{
    for n in 0..place.variables.len() {
        push_variable(all, place, weight, wanted, n as u32)?;
    }
    Ok(())
}

/// What the declaration costs at the place, with the coercion.
fn cost(env: &Env, decl: &Decl, wanted: u32) -> usize
    ensures { result ≡ cost env.now decl.now wanted }
{
    decl.weight as usize + env.step(decl.result, wanted) as usize
}

/// Adds the terms that the declaration heads.
fn push_declared(
    alloc: Global,
    all: &mut Items<Term>,
    place: &PlainPlace<'_>,
    weight: usize,
    wanted: u32,
    n: u32,
    decl: &Decl,
) -> Result<(), AllocError>
    requires { weight < 2 ^ 32 }
    ensures { OnOk result (map expr all.new ≡ map expr all.old ++ headed place.now.env.now (here place.now) (deeper place.now) weight wanted n (Some decl.now)) }
{
    let cost = cost(place.env, decl, wanted);
    if !place.env.is_below(decl.result, wanted) || cost > weight {
        return Ok(());
    }
    let lists = fills(alloc, place, decl.args.as_slice(), weight - cost)?;
    for args in lists {
        all.push(Term::Head(n, args))?;
    }
    Ok(())
}

/// Adds the terms that declaration `n` heads, where there is one.
fn push_headed(
    alloc: Global,
    all: &mut Items<Term>,
    place: &PlainPlace<'_>,
    weight: usize,
    wanted: u32,
    n: u32,
) -> Result<(), AllocError>
    requires { weight < 2 ^ 32 }
    ensures { OnOk result (map expr all.new ≡ map expr all.old ++ headed place.now.env.now (here place.now) (deeper place.now) weight wanted n (slice_get place.now.env.now.decls n)) }
{
    match place.env.parts().decls.get(n as usize) {
        Some(decl) => push_declared(alloc, all, place, weight, wanted, n, decl),
        None => Ok(()),
    }
}

/// Adds the terms that a declaration heads.
#[tactic(auto, using(crate::proofs::Making::making))]
fn push_heads(
    alloc: Global,
    all: &mut Items<Term>,
    place: &PlainPlace<'_>,
    weight: usize,
    wanted: u32,
) -> Result<(), AllocError>
    requires { weight < 2 ^ 32 }
    ensures { OnOk result (map expr all.new ≡ map expr all.old ++ heads place.now.env.now (here place.now) (deeper place.now) weight wanted) }
{
    let count = place.env.parts().decls.len();
    for n in 0..count {
        push_headed(alloc, all, place, weight, wanted, n as u32)?;
    }
    Ok(())
}

/// All terms for the wanted type that weigh exactly `weight`.
pub fn made(
    alloc: Global,
    place: &PlainPlace<'_>,
    weight: usize,
    wanted: u32,
) -> Result<Items<Term>, AllocError>
    requires variables { length place.now.variables.now < 2 ^ 32 }
    requires weight { weight < 2 ^ 32 }
    ensures { IfOk result (λ terms. map expr terms ≡ made place.now.env.now place.now.variables.now (here place.now) (deeper place.now) weight wanted) }
{
    let mut all = Items::new(alloc);
    push_variables(&mut all, place, weight, wanted)?;
    push_heads(alloc, &mut all, place, weight, wanted)?;
    Ok(all)
}
