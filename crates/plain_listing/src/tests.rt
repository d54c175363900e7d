ghost use Rattle.std.specs.Prelude.{◌<◌};

use crate::Plain;
use crate::contexts::contexts_of;
use crate::plain_place::in_context;
use crate::rows::row;
use lists::{Items, Text};
use std::alloc::{AllocError, Global};
use terms::{Arg, Decl, Env, EnvFault, Form, Level, Levels, Parts, Steps, Term, TermArg};

/// A declaration: what it wants, and where that is a lambda the types of its parameters.
#[derive(Clone, Copy)]
struct Line<'a> {
    weight: u32,
    result: u32,
    wants: &'a [u32],
    params: Option<&'a [u32]>,
}

/// An environment, and the terms of its levels as prefix codes.
#[derive(Clone, Copy)]
struct Case<'a> {
    types: u32,
    pairs: &'a [(u32, u32)],
    lines: &'a [Line<'a>],
    goal: u32,
    limit: u32,
    depth: u32,
    levels: &'a [(u32, &'a [&'a [u64]])],
}

fn wanted(alloc: Global, line: &Line<'_>) -> Result<Items<Arg>, AllocError> {
    let mut args = Items::new(alloc);
    for place in line.wants {
        args.push(match line.params {
            Some(params) => Arg::Fun(Items::from_slice(alloc, params)?, *place),
            None => Arg::Plain(*place),
        })?;
    }
    Ok(args)
}

fn form(alloc: Global, line: &Line<'_>) -> Result<Form, AllocError> {
    let text = Text::from_str(alloc, "n")?;
    if line.params.is_some() {
        return Ok(Form::Lambda(text));
    }
    if line.wants.is_empty() {
        return Ok(Form::Name(text));
    }
    Ok(Form::Call(text))
}

fn decls(alloc: Global, lines: &[Line<'_>]) -> Result<Items<Decl>, AllocError> {
    let mut decls = Items::new(alloc);
    for line in lines {
        decls.push(Decl {
            args: wanted(alloc, line)?,
            result: line.result,
            weight: line.weight,
            crowded: false,
            form: form(alloc, line)?,
        })?;
    }
    Ok(decls)
}

fn types(alloc: Global, count: u32) -> Result<Items<Text>, AllocError> {
    let mut types = Items::new(alloc);
    for _ in 0..count {
        types.push(Text::from_str(alloc, "T")?)?;
    }
    Ok(types)
}

fn env(alloc: Global, case: &Case<'_>) -> Result<Env, EnvFault> {
    let types = types(alloc, case.types)?;
    let pairs = Items::from_slice(alloc, case.pairs)?;
    let decls = decls(alloc, case.lines)?;
    if types.len() > 10 || pairs.len() > 10 || decls.len() > 10 {
        return Err(EnvFault::OutOfMemory);
    }
    let parts = Parts {
        types,
        pairs,
        decls,
        goal: case.goal,
        limit: case.limit,
        depth: case.depth,
        binder: Text::from_str(alloc, "p")?,
        steps: Steps::usual(),
    };
    Env::checked(alloc, parts)
}

fn step(code: &[u64], at: usize, number: u64) -> Option<usize> {
    if at < code.len() && code[at] == number {
        Some(at + 1)
    } else {
        None
    }
}

/// The place in the code after the term, where the code goes on with it.
fn after(term: &Term, code: &[u64], at: usize) -> Option<usize> {
    match term {
        Term::Var(n) => step(code, at, 2 * u64::from(*n)),
        Term::Head(d, args) => {
            let mut at = step(code, at, 2 * u64::from(*d) + 1)?;
            for arg in args.as_slice() {
                at = match arg {
                    TermArg::Plain(term) => after(term, code, at)?,
                    TermArg::Lam(body) => after(body, code, at)?,
                };
            }
            Some(at)
        }
    }
}

fn has(terms: &[Term], code: &[u64]) -> bool {
    for term in terms {
        if after(term, code, 0) == Some(code.len()) {
            return true;
        }
    }
    false
}

/// Whether these are the terms, in some order.
fn are(terms: &[Term], codes: &[&[u64]]) -> bool {
    for code in codes {
        if !has(terms, code) {
            return false;
        }
    }
    terms.len() == codes.len()
}

fn is_level(level: &Level, weight: u32, codes: &[&[u64]]) -> bool {
    level.weight == weight && are(level.terms.as_slice(), codes)
}

/// The next level, asked for twice where there was no memory at first.
fn next(alloc: Global, plain: &mut Plain) -> Result<Option<Level>, AllocError> {
    match plain.next_level(alloc) {
        Ok(level) => Ok(level),
        Err(_) => plain.next_level(alloc),
    }
}

fn has_levels(alloc: Global, case: &Case<'_>) -> Result<bool, EnvFault> {
    let mut plain = Plain::over(alloc, env(alloc, case)?)?;
    for (weight, codes) in case.levels {
        let is_next = match next(alloc, &mut plain)? {
            Some(level) => is_level(&level, *weight, codes),
            None => false,
        };
        if !is_next {
            return Ok(false);
        }
    }
    let end = next(alloc, &mut plain)?.is_none();
    Ok(end && plain.env().parts().goal == case.goal && plain.pops() == 0)
}

/// A declaration without arguments.
fn name<'a>(weight: u32, gives: u32) -> Line<'a> {
    Line {
        weight,
        result: gives,
        wants: &[],
        params: None,
    }
}

/// A declaration with these arguments.
fn call(weight: u32, gives: u32, wants: &[u32]) -> Line<'_> {
    Line {
        weight,
        result: gives,
        wants,
        params: None,
    }
}

#[test]
fn each_coercion_weighs_ten(rt: HostRuntime) -> Result<(), EnvFault> {
    let case = Case {
        types: 2,
        pairs: &[(0, 1)],
        lines: &[name(5, 0), call(20, 0, &[1])],
        goal: 1,
        limit: 75,
        depth: 1,
        levels: &[(15, &[&[1]]), (45, &[&[3, 1]]), (75, &[&[3, 3, 1]])],
    };
    assert!(rt; has_levels(rt.alloc(), &case)?);
    Ok(())
}

#[test]
fn a_binder_and_its_use_weigh_one(rt: HostRuntime) -> Result<(), EnvFault> {
    let lambda = Line {
        weight: 10,
        result: 1,
        wants: &[0],
        params: Some(&[0]),
    };
    let case = Case {
        types: 2,
        pairs: &[],
        lines: &[name(5, 0), lambda],
        goal: 1,
        limit: 20,
        depth: 1,
        levels: &[(12, &[&[3, 0]]), (16, &[&[3, 1]])],
    };
    assert!(rt; has_levels(rt.alloc(), &case)?);
    let flat = Case {
        depth: 0,
        levels: &[],
        ..case
    };
    assert!(rt; has_levels(rt.alloc(), &flat)?);
    Ok(())
}

#[test]
fn levels_come_whole_and_in_order(rt: HostRuntime) -> Result<(), EnvFault> {
    let no_term = Case {
        types: 2,
        pairs: &[],
        lines: &[name(5, 0)],
        goal: 1,
        limit: 4000,
        depth: 1,
        levels: &[],
    };
    let two_names = Case {
        types: 1,
        pairs: &[],
        lines: &[name(5, 0), name(5, 0)],
        goal: 0,
        limit: 4000,
        depth: 1,
        levels: &[(5, &[&[1], &[3]])],
    };
    let one_call = Case {
        types: 1,
        pairs: &[],
        lines: &[name(5, 0), call(20, 0, &[0])],
        goal: 0,
        limit: 50,
        depth: 1,
        levels: &[(5, &[&[1]]), (25, &[&[3, 1]]), (45, &[&[3, 3, 1]])],
    };
    let two_calls = Case {
        types: 1,
        pairs: &[],
        lines: &[name(5, 0), call(20, 0, &[0]), call(20, 0, &[0, 0])],
        goal: 0,
        limit: 50,
        depth: 1,
        levels: &[
            (5, &[&[1]]),
            (25, &[&[3, 1]]),
            (30, &[&[5, 1, 1]]),
            (45, &[&[3, 3, 1]]),
            (50, &[&[3, 5, 1, 1], &[5, 3, 1, 1], &[5, 1, 3, 1]]),
        ],
    };
    for case in [no_term, two_names, one_call, two_calls] {
        assert!(rt; has_levels(rt.alloc(), &case)?);
    }
    Ok(())
}

/// Adds the row of one more weight, of at most a hundred.
fn add_row(
    alloc: Global,
    env: &Env,
    depth: u32,
    contexts: &[Items<Items<u32>>],
    rows: &mut Vec<Items<Items<Items<Term>>>>,
) -> Result<(), AllocError> {
    if rows.len() > 100 {
        return Err(AllocError);
    }
    let made = row(alloc, env, depth, contexts, rows.as_slice())?;
    rows.push(made)?;
    Ok(())
}

/// Whether the terms of this weight are these, where lambdas nest deeper than an environment admits.
fn has_deep(
    alloc: Global,
    case: &Case<'_>,
    depth: u32,
    weight: u32,
    codes: &[&[u64]],
) -> Result<bool, EnvFault>
    requires { weight < 100 }
{
    let env = env(alloc, case)?;
    let contexts = contexts_of(alloc, &env, depth)?;
    let mut rows = Vec::new(alloc);
    for _ in 0..weight + 1 {
        add_row(alloc, &env, depth, contexts.as_slice(), &mut rows)?;
    }
    match rows.last() {
        Some(last) => Ok(are(in_context(last, 0, case.goal), codes)),
        None => Ok(false),
    }
}

/// Three types made from lambdas, `I` of int -> int, `J` of int -> I and `K` of int -> J, each of weight 10.
const NESTED: [Line<'static>; 3] = [
    Line {
        weight: 10,
        result: 1,
        wants: &[0],
        params: Some(&[0]),
    },
    Line {
        weight: 10,
        result: 2,
        wants: &[1],
        params: Some(&[0]),
    },
    Line {
        weight: 10,
        result: 3,
        wants: &[2],
        params: Some(&[0]),
    },
];

#[test]
fn lambdas_nest_as_deep_as_they_may(rt: HostRuntime) -> Result<(), EnvFault> {
    let two = Case {
        types: 4,
        pairs: &[],
        lines: &NESTED,
        goal: 2,
        limit: 40,
        depth: 1,
        levels: &[],
    };
    let three = Case { goal: 3, ..two };
    assert!(rt; has_deep(rt.alloc(), &two, 1, 23, &[])?);
    assert!(rt; has_deep(rt.alloc(), &two, 2, 23, &[&[3, 1, 0], &[3, 1, 2]])?);
    assert!(rt; has_deep(rt.alloc(), &three, 2, 34, &[])?);
    assert!(rt;
        has_deep(
            rt.alloc(),
            &three,
            3,
            34,
            &[&[5, 3, 1, 0], &[5, 3, 1, 2], &[5, 3, 1, 4]]
        )?
    );
    Ok(())
}
