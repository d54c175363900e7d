ghost use Rattle.std.specs.Prelude.{◌≡◌, ℕ, ◌≤◌, length, IfOk};
ghost use Rattle.succinct.specs.Compression.{IsCompression};
ghost use Rattle.patterns.specs.Patterned.{ArePatterns};

use crate::Least;
use edges::Edges;
use lists::{Items, Text};
use patterns::Patterns;
use std::alloc::{AllocError, Global};
use succinct::Compressed;
use terms::{Arg, Decl, Env, EnvFault, Form, Parts, Steps};

const INT: u32 = 0;

const T: u32 = 1;

const TYPES: [&str; 2] = ["int", "T"];

/// A declaration without lambdas: the types that it wants, the type that it gives, and its weight.
#[derive(Clone, Copy)]
struct Given {
    wants: &'static [u32],
    gives: u32,
    weight: u32,
}

/// `x` of int, and `f` from `T` to int.
const NAME_AND_CALL: [Given; 2] = [
    Given {
        wants: &[],
        gives: 0,
        weight: 5,
    },
    Given {
        wants: &[1],
        gives: 0,
        weight: 20,
    },
];

/// `x` of int, and `g` from int and int to `T`.
const NAME_AND_PAIR: [Given; 2] = [
    Given {
        wants: &[],
        gives: 0,
        weight: 5,
    },
    Given {
        wants: &[0, 0],
        gives: 1,
        weight: 20,
    },
];

/// `x` of int, and `f` and `g` from int, and from int and int, to int.
const ALL_OF_INT: [Given; 3] = [
    Given {
        wants: &[],
        gives: 0,
        weight: 5,
    },
    Given {
        wants: &[0],
        gives: 0,
        weight: 20,
    },
    Given {
        wants: &[0, 0],
        gives: 0,
        weight: 20,
    },
];

fn decl(form: Form, weight: u32, args: Items<Arg>, gives: u32) -> Decl {
    Decl {
        args,
        result: gives,
        weight,
        crowded: false,
        form,
    }
}

fn plain_args(alloc: Global, wants: &[u32]) -> Result<Items<Arg>, AllocError> {
    let mut args = Items::new(alloc);
    for want in wants {
        args.push(Arg::Plain(*want))?;
    }
    Ok(args)
}

fn plain(alloc: Global, from: &Given) -> Result<Decl, AllocError> {
    let form = Form::Call(Text::from_str(alloc, "f")?);
    let args = plain_args(alloc, from.wants)?;
    Ok(decl(form, from.weight, args, from.gives))
}

fn all_plain(alloc: Global, from: &[Given]) -> Result<Items<Decl>, AllocError> {
    let mut decls = Items::new(alloc);
    for one in from {
        decls.push(plain(alloc, one)?)?;
    }
    Ok(decls)
}

/// A lambda from int to int as the only want.
fn lambda_args(alloc: Global) -> Result<Items<Arg>, AllocError> {
    let params = Items::from_slice(alloc, &[INT])?;
    let mut args = Items::new(alloc);
    args.push(Arg::Fun(params, INT))?;
    Ok(args)
}

fn from_lambda(alloc: Global) -> Result<Decl, AllocError> {
    let form = Form::Lambda(Text::from_str(alloc, "I")?);
    let args = lambda_args(alloc)?;
    Ok(decl(form, 10, args, T))
}

/// `x` of int, and the lambda from int to int as a value of `T`.
fn name_and_lambda(alloc: Global) -> Result<Items<Decl>, AllocError> {
    let mut decls = all_plain(alloc, &NAME_AND_CALL[..1])?;
    decls.push(from_lambda(alloc)?)?;
    Ok(decls)
}

fn types(alloc: Global) -> Result<Items<Text>, AllocError> {
    let mut types = Items::new(alloc);
    for name in TYPES {
        types.push(Text::from_str(alloc, name)?)?;
    }
    Ok(types)
}

/// Two types, of which int may be below `T`, with no declarations.
fn no_decls(alloc: Global, pairs: &[(u32, u32)], goal: u32) -> Result<Parts, AllocError> {
    let binder = Text::from_str(alloc, "p")?;
    let pairs = Items::from_slice(alloc, pairs)?;
    let types = types(alloc)?;
    Ok(Parts {
        types,
        pairs,
        decls: Items::new(alloc),
        goal,
        limit: 75,
        depth: 0,
        binder,
        steps: Steps::usual(),
    })
}

fn checked(alloc: Global, parts: Parts) -> Result<Env, EnvFault> {
    if !parts.has_lengths() {
        return Err(EnvFault::OutOfMemory);
    }
    Env::checked(alloc, parts)
}

/// The least weights of these patterns of an environment.
fn least_of(
    alloc: Global,
    env: &Env,
    compressed: &Compressed,
    patterns: &Patterns,
) -> Result<Least, AllocError>
    requires compressed { IsCompression env.now compressed.now }
    requires patterns { (goal : ℕ) × ArePatterns compressed.now goal env.now.depth patterns.now }
    ensures as_many { IfOk result (λ least. length least ≡ length patterns.now.states) }
{
    let edges = Edges::derive(alloc, env, compressed, patterns)?;
    let limit = env.parts().limit;
    Least::derive(alloc, env, compressed, patterns, &edges, limit)
}

/// The least weight of the state of this set and goal, none also where it isn't listed.
fn least_at(patterns: &Patterns, least: &Least, set: u32, goal: u32) -> Option<u32>
    requires as_many { length least.now ≡ length patterns.now.states }
{
    let states = patterns.states();
    for i in 0..states.len() {
        let state = states[i];
        if i < 4294967296 && state.set == set && state.goal == goal {
            return least.least(i as u32);
        }
    }
    None
}

/// The least weight at a set and a goal, at the goal of an environment.
fn least_in(alloc: Global, env: &Env, set: u32, goal: u32) -> Result<Option<u32>, AllocError> {
    let shown = env.parts();
    let compressed = Compressed::new(alloc, env)?;
    let patterns = Patterns::derive(alloc, &compressed, shown.goal, shown.depth)?;
    let least = least_of(alloc, env, &compressed, &patterns)?;
    Ok(least_at(&patterns, &least, set, goal))
}

fn least(alloc: Global, parts: Parts, set: u32, goal: u32) -> Result<Option<u32>, EnvFault> {
    let env = checked(alloc, parts)?;
    Ok(least_in(alloc, &env, set, goal)?)
}

/// `x` of int and `f`, where int is below `T`, which is asked for.
fn coerced(alloc: Global, limit: u32) -> Result<Parts, AllocError> {
    let decls = all_plain(alloc, &NAME_AND_CALL)?;
    let none = no_decls(alloc, &[(INT, T)], T)?;
    Ok(Parts {
        decls,
        limit,
        ..none
    })
}

/// Declarations without lambdas, where no type is below another.
fn apart(alloc: Global, from: &[Given], goal: u32, limit: u32) -> Result<Parts, AllocError> {
    let decls = all_plain(alloc, from)?;
    let none = no_decls(alloc, &[], goal)?;
    Ok(Parts {
        decls,
        limit,
        ..none
    })
}

fn with_lambda(alloc: Global, depth: u32) -> Result<Parts, AllocError> {
    let decls = name_and_lambda(alloc)?;
    let none = no_decls(alloc, &[], T)?;
    Ok(Parts {
        decls,
        limit: 20,
        depth,
        ..none
    })
}

#[test]
fn a_coercion_at_the_goal_is_weighed(rt: HostRuntime) -> Result<(), EnvFault> {
    assert_eq!(rt;
        least(rt.alloc(), coerced(rt.alloc(), 75)?, 0, T)?,
        Some(15)
    );
    assert_eq!(rt;
        least(rt.alloc(), coerced(rt.alloc(), 75)?, 0, INT)?,
        Some(5)
    );
    Ok(())
}

#[test]
fn a_limit_cuts(rt: HostRuntime) -> Result<(), EnvFault> {
    assert_eq!(rt; least(rt.alloc(), coerced(rt.alloc(), 14)?, 0, T)?, None);
    assert_eq!(rt;
        least(rt.alloc(), coerced(rt.alloc(), 14)?, 0, INT)?,
        Some(5)
    );
    Ok(())
}

#[test]
fn a_type_without_a_term_has_none(rt: HostRuntime) -> Result<(), EnvFault> {
    let parts = apart(rt.alloc(), &NAME_AND_CALL, T, 75)?;
    assert_eq!(rt; least(rt.alloc(), parts, 0, T)?, None);
    Ok(())
}

#[test]
fn a_repeated_want_is_weighed_each_time(rt: HostRuntime) -> Result<(), EnvFault> {
    let parts = apart(rt.alloc(), &NAME_AND_PAIR, T, 75)?;
    assert_eq!(rt; least(rt.alloc(), parts, 0, T)?, Some(30));
    Ok(())
}

#[test]
fn the_least_of_several_declarations_counts(rt: HostRuntime) -> Result<(), EnvFault> {
    let parts = apart(rt.alloc(), &ALL_OF_INT, INT, 50)?;
    assert_eq!(rt; least(rt.alloc(), parts, 0, INT)?, Some(5));
    Ok(())
}

#[test]
fn a_binder_is_weighed_and_may_be_used(rt: HostRuntime) -> Result<(), EnvFault> {
    assert_eq!(rt;
        least(rt.alloc(), with_lambda(rt.alloc(), 1)?, 0, T)?,
        Some(12)
    );
    assert_eq!(rt;
        least(rt.alloc(), with_lambda(rt.alloc(), 1)?, 1, INT)?,
        Some(1)
    );
    Ok(())
}

#[test]
fn no_lambda_stands_at_depth_0(rt: HostRuntime) -> Result<(), EnvFault> {
    let parts = with_lambda(rt.alloc(), 0)?;
    assert_eq!(rt; least(rt.alloc(), parts, 0, T)?, None);
    Ok(())
}
