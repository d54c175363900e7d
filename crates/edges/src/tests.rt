use crate::Edges;
use lists::{Items, Text};
use patterns::Patterns;
use std::alloc::{AllocError, Global};
use succinct::Compressed;
use terms::{Arg, Decl, Env, EnvFault, Form, Parts, Steps};

const TYPES: [&str; 2] = ["int", "T"];

/// A declaration without lambdas: the types that it wants, the type that it gives, and its weight.
#[derive(Clone, Copy)]
struct Given {
    wants: &'static [u32],
    gives: u32,
    weight: u32,
}

/// What is expected of the edge of a number.
#[derive(Clone, Copy)]
struct Row {
    state: u32,
    source: Option<u32>,
    weight: u32,
    tails: &'static [u32],
}

/// `f` of `T` from `T` and then int, and `x` of int.
const CALL_AND_NAME: [Given; 2] = [
    Given {
        wants: &[1, 0],
        gives: 1,
        weight: 20,
    },
    Given {
        wants: &[],
        gives: 0,
        weight: 5,
    },
];

/// The edges of these at the goal `T`, which is state 0; int is state 1, and the pair is source 2.
const ALL_ROWS: [Row; 3] = [
    Row {
        state: 0,
        source: Some(0),
        weight: 20,
        tails: &[0, 1],
    },
    Row {
        state: 0,
        source: Some(2),
        weight: 10,
        tails: &[1],
    },
    Row {
        state: 1,
        source: Some(1),
        weight: 5,
        tails: &[],
    },
];

/// `x` of int, and a lambda from two of int to one as a value of `T`: state 1 is int under the lambda, where the
/// variables come first, and state 2 int outside of it.
const LAMBDA_ROWS: [Row; 5] = [
    Row {
        state: 0,
        source: Some(1),
        weight: 12,
        tails: &[1],
    },
    Row {
        state: 0,
        source: Some(2),
        weight: 10,
        tails: &[2],
    },
    Row {
        state: 1,
        source: None,
        weight: 1,
        tails: &[],
    },
    Row {
        state: 1,
        source: Some(0),
        weight: 5,
        tails: &[],
    },
    Row {
        state: 2,
        source: Some(0),
        weight: 5,
        tails: &[],
    },
];

fn decl(form: Form, weight: u32, args: Items<Arg>, gives: u32) -> Decl {
    Decl {
        args,
        result: gives,
        weight,
        crowded: false,
        form,
    }
}

fn plain_args(alloc: Global, wants: &[u32]) -> Result<Items<Arg>, AllocError> {
    let mut args = Items::new(alloc);
    for want in wants {
        args.push(Arg::Plain(*want))?;
    }
    Ok(args)
}

fn plain(alloc: Global, from: &Given) -> Result<Decl, AllocError> {
    let form = Form::Call(Text::from_str(alloc, "f")?);
    let args = plain_args(alloc, from.wants)?;
    Ok(decl(form, from.weight, args, from.gives))
}

fn all_plain(alloc: Global, from: &[Given]) -> Result<Items<Decl>, AllocError> {
    let mut decls = Items::new(alloc);
    for one in from {
        decls.push(plain(alloc, one)?)?;
    }
    Ok(decls)
}

/// A lambda from two of int to int as the only want.
fn lambda_args(alloc: Global) -> Result<Items<Arg>, AllocError> {
    let params = Items::from_slice(alloc, &[0, 0])?;
    let mut args = Items::new(alloc);
    args.push(Arg::Fun(params, 0))?;
    Ok(args)
}

fn from_lambda(alloc: Global) -> Result<Decl, AllocError> {
    let form = Form::Lambda(Text::from_str(alloc, "I")?);
    let args = lambda_args(alloc)?;
    Ok(decl(form, 10, args, 1))
}

/// The lambda after `x`.
fn name_and_lambda(alloc: Global) -> Result<Items<Decl>, AllocError> {
    let mut decls = all_plain(alloc, &CALL_AND_NAME[1..])?;
    decls.push(from_lambda(alloc)?)?;
    Ok(decls)
}

fn types(alloc: Global) -> Result<Items<Text>, AllocError> {
    let mut types = Items::new(alloc);
    for name in TYPES {
        types.push(Text::from_str(alloc, name)?)?;
    }
    Ok(types)
}

/// No declaration; int is below `T`, which is asked for.
fn no_decls(alloc: Global, limit: u32, depth: u32) -> Result<Parts, AllocError> {
    let binder = Text::from_str(alloc, "p")?;
    let pairs = Items::from_slice(alloc, &[(0, 1)])?;
    let types = types(alloc)?;
    Ok(Parts {
        types,
        pairs,
        decls: Items::new(alloc),
        goal: 1,
        limit,
        depth,
        binder,
        steps: Steps::usual(),
    })
}

fn checked(alloc: Global, parts: Parts) -> Result<Env, EnvFault> {
    if !parts.has_lengths() {
        return Err(EnvFault::OutOfMemory);
    }
    Env::checked(alloc, parts)
}

fn edges_of(alloc: Global, env: &Env) -> Result<Edges, AllocError> {
    let shown = env.parts();
    let compressed = Compressed::new(alloc, env)?;
    let patterns = Patterns::derive(alloc, &compressed, shown.goal, shown.depth)?;
    Edges::derive(alloc, env, &compressed, &patterns)
}

/// Whether the edge of a number is as expected, and stands in the run of its state.
fn is_row(edges: &Edges, edge: u32, row: Row) -> bool {
    if edge >= edges.len() {
        return false;
    }
    let run = edges.of_state(row.state);
    if edge < run.start || edge >= run.end {
        return false;
    }
    edges.state(edge) == row.state
        && edges.source(edge) == row.source
        && edges.weight(edge) == row.weight
        && edges.tails(edge) == row.tails
}

/// Whether the edges are these.
fn are_rows(edges: &Edges, rows: &[Row]) -> bool {
    if edges.len() as usize != rows.len() {
        return false;
    }
    for edge in 0..edges.len() {
        if !is_row(edges, edge, rows[edge as usize]) {
            return false;
        }
    }
    true
}

fn env_has(alloc: Global, parts: Parts, rows: &[Row]) -> Result<bool, EnvFault> {
    let env = checked(alloc, parts)?;
    let edges = edges_of(alloc, &env)?;
    Ok(are_rows(&edges, rows))
}

/// Whether the edges of these declarations are these.
fn has(
    alloc: Global,
    decls: Items<Decl>,
    limit: u32,
    depth: u32,
    rows: &[Row],
) -> Result<bool, EnvFault> {
    let none = no_decls(alloc, limit, depth)?;
    env_has(alloc, Parts { decls, ..none }, rows)
}

#[test]
fn sources_rise_at_each_state_and_wants_keep_their_order(rt: HostRuntime) -> Result<(), EnvFault> {
    let decls = all_plain(rt.alloc(), &CALL_AND_NAME)?;
    assert!(rt; has(rt.alloc(), decls, 75, 0, &ALL_ROWS)?);
    Ok(())
}

#[test]
fn a_head_above_the_limit_has_no_edge(rt: HostRuntime) -> Result<(), EnvFault> {
    let decls = all_plain(rt.alloc(), &CALL_AND_NAME)?;
    assert!(rt; has(rt.alloc(), decls, 19, 0, &ALL_ROWS[1..])?);
    Ok(())
}

#[test]
fn binders_are_weighed_and_variables_have_an_edge(rt: HostRuntime) -> Result<(), EnvFault> {
    let decls = name_and_lambda(rt.alloc())?;
    assert!(rt; has(rt.alloc(), decls, 75, 1, &LAMBDA_ROWS)?);
    Ok(())
}
