ghost use Rattle.std.specs.Prelude.{◌≤◌};

use lists::{Items, Text};
use patterns::Patterns;
use std::alloc::{AllocError, Global};
use succinct::Compressed;
use terms::{Arg, Decl, Env, EnvFault, Form, Parts, Steps};

const INT: u32 = 0;

const I: u32 = 1;

const J: u32 = 2;

const BOOL: u32 = 3;

const TYPES: [&str; 4] = ["int", "I", "J", "bool"];

fn types(alloc: Global) -> Result<Items<Text>, AllocError> {
    let mut types = Items::new(alloc);
    for name in TYPES {
        types.push(Text::from_str(alloc, name)?)?;
    }
    Ok(types)
}

fn decl(form: Form, weight: u32, args: Items<Arg>, gives: u32) -> Decl {
    Decl {
        args,
        result: gives,
        weight,
        crowded: false,
        form,
    }
}

/// A lambda with one parameter as the only want.
fn lambda(alloc: Global, param: u32, body: u32) -> Result<Items<Arg>, AllocError> {
    let params = Items::from_slice(alloc, &[param])?;
    let mut args = Items::new(alloc);
    args.push(Arg::Fun(params, body))?;
    Ok(args)
}

fn name(alloc: Global) -> Result<Decl, AllocError> {
    let form = Form::Name(Text::from_str(alloc, "x")?);
    Ok(decl(form, 5, Items::new(alloc), INT))
}

/// A declaration made from a lambda with one parameter.
fn from_lambda(alloc: Global, param: u32, body: u32, gives: u32) -> Result<Decl, AllocError> {
    let form = Form::Lambda(Text::from_str(alloc, "I")?);
    let args = lambda(alloc, param, body)?;
    Ok(decl(form, 10, args, gives))
}

fn decl_of(alloc: Global, number: u32) -> Result<Decl, AllocError> {
    match number {
        0 => name(alloc),
        1 => from_lambda(alloc, INT, INT, I),
        _ => from_lambda(alloc, BOOL, I, J),
    }
}

/// `x` of int, `I` made from a lambda from int to int, and `J` from one from bool to `I`.
fn decls(alloc: Global) -> Result<Items<Decl>, AllocError> {
    let mut decls = Items::new(alloc);
    for number in 0..3 {
        decls.push(decl_of(alloc, number)?)?;
    }
    Ok(decls)
}

fn parts(alloc: Global) -> Result<Parts, AllocError> {
    let binder = Text::from_str(alloc, "p")?;
    let types = types(alloc)?;
    let decls = decls(alloc)?;
    Ok(Parts {
        types,
        pairs: Items::new(alloc),
        decls,
        goal: J,
        limit: 20,
        depth: 1,
        binder,
        steps: Steps::usual(),
    })
}

fn checked(alloc: Global) -> Result<Env, EnvFault> {
    let parts = parts(alloc)?;
    if !parts.has_lengths() {
        return Err(EnvFault::OutOfMemory);
    }
    Env::checked(alloc, parts)
}

fn compressed(alloc: Global) -> Result<Compressed, EnvFault> {
    let env = checked(alloc)?;
    Ok(Compressed::new(alloc, &env)?)
}

/// The patterns at a goal where so many lambdas may nest.
fn patterns_at(alloc: Global, goal: u32, depth: u32) -> Result<Patterns, EnvFault>
    requires { depth ≤ 3 }
{
    let compressed = compressed(alloc)?;
    Ok(Patterns::derive(alloc, &compressed, goal, depth)?)
}

/// Whether these are the kinds of the goal's state.
fn has_kinds(patterns: &Patterns, kinds: &[u32]) -> bool {
    if patterns.states().is_empty() {
        return false;
    }
    patterns.patterns_of(0) == kinds
}

/// Whether these are the kinds of the goal's state, where so many lambdas may nest.
fn goal_has(alloc: Global, goal: u32, depth: u32, kinds: &[u32]) -> Result<bool, EnvFault>
    requires { depth ≤ 3 }
{
    let patterns = patterns_at(alloc, goal, depth)?;
    Ok(has_kinds(&patterns, kinds))
}

/// Whether a set has these types and so many lambdas left.
fn is_set(patterns: &Patterns, set: u32, types: &[u32], left: u32) -> bool {
    patterns.types_of(set) == types && patterns.left_of(set) == left
}

/// The set of a state.
fn set_of(patterns: &Patterns, state: u32) -> Option<u32> {
    match patterns.states().get(state as usize) {
        Some(state) => Some(state.set),
        None => None,
    }
}

/// The set in which the body of the lambda of `I` is sought under that of `J`, where the goal is `J`.
fn innermost(patterns: &Patterns) -> Option<u32> {
    let outer = patterns.need_state(0, 1)?;
    let inner = patterns.need_state(outer, 0)?;
    set_of(patterns, inner)
}

#[test]
fn a_lambda_is_met_where_the_depth_allows_it(rt: HostRuntime) -> Result<(), EnvFault> {
    assert!(rt; goal_has(rt.alloc(), I, 0, &[])?);
    assert!(rt; goal_has(rt.alloc(), I, 1, &[1])?);
    Ok(())
}

#[test]
fn lambdas_are_met_as_deep_as_they_may_nest(rt: HostRuntime) -> Result<(), EnvFault> {
    assert!(rt; goal_has(rt.alloc(), J, 1, &[])?);
    assert!(rt; goal_has(rt.alloc(), J, 2, &[2])?);
    assert!(rt; goal_has(rt.alloc(), J, 3, &[2])?);
    Ok(())
}

#[test]
fn a_type_that_nothing_gives_has_no_kind(rt: HostRuntime) -> Result<(), EnvFault> {
    assert!(rt; goal_has(rt.alloc(), BOOL, 1, &[])?);
    Ok(())
}

#[test]
fn a_lambda_binds_the_set_of_its_parameters(rt: HostRuntime) -> Result<(), EnvFault> {
    let patterns = patterns_at(rt.alloc(), I, 1)?;
    let body = patterns.need_state(0, 0).unwrap_or(0);
    let set = set_of(&patterns, body).unwrap_or(0);
    assert!(rt; is_set(&patterns, set, &[INT], 0));
    Ok(())
}

#[test]
fn an_inner_lambda_is_sought_with_what_both_bind(rt: HostRuntime) -> Result<(), EnvFault> {
    let patterns = patterns_at(rt.alloc(), J, 3)?;
    let set = innermost(&patterns).unwrap_or(0);
    assert!(rt; is_set(&patterns, set, &[INT, BOOL], 1));
    Ok(())
}

#[test]
fn no_lambda_is_sought_under_the_last_one(rt: HostRuntime) -> Result<(), EnvFault> {
    let patterns = patterns_at(rt.alloc(), J, 1)?;
    let body = patterns.need_state(0, 1).unwrap_or(0);
    assert_eq!(rt; set_of(&patterns, body).is_some(), true);
    assert_eq!(rt; patterns.need_state(body, 0), None);
    Ok(())
}
