use lists::{Items, Text};
use reconstruction::Rebuild;
use std::alloc::{AllocError, Global};
use terms::{Arg, Decl, Env, EnvFault, Form, Level, Levels, Parts, Steps, Term, TermArg};

/// A declaration: what it wants, and where that is a lambda the types of its parameters.
#[derive(Clone, Copy)]
struct Line<'a> {
    weight: u32,
    result: u32,
    wants: &'a [u32],
    params: Option<&'a [u32]>,
}

/// An environment, the terms of its levels as prefix codes, and the greatest number of pops.
#[derive(Clone, Copy)]
struct Case<'a> {
    types: u32,
    pairs: &'a [(u32, u32)],
    lines: &'a [Line<'a>],
    goal: u32,
    limit: u32,
    depth: u32,
    levels: &'a [(u32, &'a [&'a [u64]])],
    pops: u64,
}

fn wanted(alloc: Global, line: &Line<'_>) -> Result<Items<Arg>, AllocError> {
    let mut args = Items::new(alloc);
    for place in line.wants {
        args.push(match line.params {
            Some(params) => Arg::Fun(Items::from_slice(alloc, params)?, *place),
            None => Arg::Plain(*place),
        })?;
    }
    Ok(args)
}

fn form(alloc: Global, line: &Line<'_>) -> Result<Form, AllocError> {
    let text = Text::from_str(alloc, "n")?;
    if line.params.is_some() {
        return Ok(Form::Lambda(text));
    }
    if line.wants.is_empty() {
        return Ok(Form::Name(text));
    }
    Ok(Form::Call(text))
}

fn decls(alloc: Global, lines: &[Line<'_>]) -> Result<Items<Decl>, AllocError> {
    let mut decls = Items::new(alloc);
    for line in lines {
        decls.push(Decl {
            args: wanted(alloc, line)?,
            result: line.result,
            weight: line.weight,
            crowded: false,
            form: form(alloc, line)?,
        })?;
    }
    Ok(decls)
}

fn types(alloc: Global, count: u32) -> Result<Items<Text>, AllocError> {
    let mut types = Items::new(alloc);
    for _ in 0..count {
        types.push(Text::from_str(alloc, "T")?)?;
    }
    Ok(types)
}

fn env(alloc: Global, case: &Case<'_>) -> Result<Env, EnvFault> {
    let types = types(alloc, case.types)?;
    let pairs = Items::from_slice(alloc, case.pairs)?;
    let decls = decls(alloc, case.lines)?;
    if types.len() > 10 || pairs.len() > 10 || decls.len() > 10 {
        return Err(EnvFault::OutOfMemory);
    }
    let parts = Parts {
        types,
        pairs,
        decls,
        goal: case.goal,
        limit: case.limit,
        depth: case.depth,
        binder: Text::from_str(alloc, "p")?,
        steps: Steps::usual(),
    };
    Env::checked(alloc, parts)
}

fn step(code: &[u64], at: usize, number: u64) -> Option<usize> {
    if at < code.len() && code[at] == number {
        Some(at + 1)
    } else {
        None
    }
}

/// The place in the code after the term, where the code goes on with it.
fn after(term: &Term, code: &[u64], at: usize) -> Option<usize> {
    match term {
        Term::Var(n) => step(code, at, 2 * u64::from(*n)),
        Term::Head(d, args) => {
            let mut at = step(code, at, 2 * u64::from(*d) + 1)?;
            for arg in args.as_slice() {
                at = match arg {
                    TermArg::Plain(term) => after(term, code, at)?,
                    TermArg::Lam(body) => after(body, code, at)?,
                };
            }
            Some(at)
        }
    }
}

fn has(level: &Level, code: &[u64]) -> bool {
    for term in level.terms.as_slice() {
        if after(term, code, 0) == Some(code.len()) {
            return true;
        }
    }
    false
}

fn is_level(level: &Level, weight: u32, codes: &[&[u64]]) -> bool {
    for code in codes {
        if !has(level, code) {
            return false;
        }
    }
    level.weight == weight && level.terms.len() == codes.len()
}

/// Whether the next level has this weight and these terms.
fn gives<L: Levels>(
    alloc: Global,
    search: &mut L,
    weight: u32,
    codes: &[&[u64]],
) -> Result<bool, AllocError> {
    match search.next_level(alloc)? {
        Some(level) => Ok(is_level(&level, weight, codes)),
        None => Ok(false),
    }
}

fn is_at_end<L: Levels>(alloc: Global, search: &mut L) -> Result<bool, AllocError> {
    Ok(search.next_level(alloc)?.is_none())
}

/// Whether these levels come next, and then no other.
fn gives_all<L: Levels>(
    alloc: Global,
    search: &mut L,
    levels: &[(u32, &[&[u64]])],
) -> Result<bool, AllocError> {
    for (weight, codes) in levels {
        if !gives(alloc, search, *weight, codes)? {
            return Ok(false);
        }
    }
    is_at_end(alloc, search)
}

/// How many terms these levels have.
fn terms_in(levels: &[(u32, &[&[u64]])]) -> u64 {
    let mut terms: u64 = 0;
    for (_, codes) in levels {
        terms = terms.saturating_add(codes.len() as u64);
    }
    terms
}

/// Whether the search has popped its number of items, and none is left.
fn is_spent(search: &Rebuild, case: &Case<'_>) -> bool {
    search.pops() <= case.pops
        && search.pops() >= terms_in(case.levels)
        && search.queued_items() == 0
}

/// Whether the search gives just these levels, and has popped no more than it may.
fn rebuilt_levels(alloc: Global, case: &Case<'_>) -> Result<bool, EnvFault> {
    let mut search = Rebuild::over(alloc, env(alloc, case)?)?;
    let all = gives_all(alloc, &mut search, case.levels)?;
    Ok(all && is_spent(&search, case) && search.env().parts().goal == case.goal)
}

/// A declaration without arguments.
fn name<'a>(weight: u32, gives: u32) -> Line<'a> {
    Line {
        weight,
        result: gives,
        wants: &[],
        params: None,
    }
}

/// A declaration with these arguments.
fn call(weight: u32, gives: u32, wants: &[u32]) -> Line<'_> {
    Line {
        weight,
        result: gives,
        wants,
        params: None,
    }
}

#[test]
fn each_coercion_weighs_ten(rt: HostRuntime) -> Result<(), EnvFault> {
    let case = Case {
        types: 2,
        pairs: &[(0, 1)],
        lines: &[name(5, 0), call(20, 0, &[1])],
        goal: 1,
        limit: 75,
        depth: 1,
        levels: &[(15, &[&[1]]), (45, &[&[3, 1]]), (75, &[&[3, 3, 1]])],
        pops: 10,
    };
    assert!(rt; rebuilt_levels(rt.alloc(), &case)?);
    let short = Case {
        limit: 74,
        levels: &[(15, &[&[1]]), (45, &[&[3, 1]])],
        pops: 6,
        ..case
    };
    assert!(rt; rebuilt_levels(rt.alloc(), &short)?);
    Ok(())
}

#[test]
fn a_binder_and_its_use_weigh_one(rt: HostRuntime) -> Result<(), EnvFault> {
    let lambda = Line {
        weight: 10,
        result: 1,
        wants: &[0],
        params: Some(&[0]),
    };
    let case = Case {
        types: 2,
        pairs: &[],
        lines: &[name(5, 0), lambda],
        goal: 1,
        limit: 20,
        depth: 1,
        levels: &[(12, &[&[3, 0]]), (16, &[&[3, 1]])],
        pops: 7,
    };
    assert!(rt; rebuilt_levels(rt.alloc(), &case)?);
    let flat = Case {
        depth: 0,
        levels: &[],
        pops: 1,
        ..case
    };
    assert!(rt; rebuilt_levels(rt.alloc(), &flat)?);
    Ok(())
}

#[test]
fn levels_come_whole_and_in_order(rt: HostRuntime) -> Result<(), EnvFault> {
    let no_term = Case {
        types: 2,
        pairs: &[],
        lines: &[name(5, 0)],
        goal: 1,
        limit: 4000,
        depth: 1,
        levels: &[],
        pops: 1,
    };
    let two_names = Case {
        types: 1,
        pairs: &[],
        lines: &[name(5, 0), name(5, 0)],
        goal: 0,
        limit: 4000,
        depth: 1,
        levels: &[(5, &[&[1], &[3]])],
        pops: 5,
    };
    let no_end = Case {
        types: 2,
        pairs: &[],
        lines: &[call(5, 0, &[0, 1]), name(5, 1)],
        goal: 0,
        limit: 4000,
        depth: 1,
        levels: &[],
        pops: 1,
    };
    for case in [no_term, two_names, no_end] {
        assert!(rt; rebuilt_levels(rt.alloc(), &case)?);
    }
    Ok(())
}

#[test]
fn seven_terms_of_two_calls(rt: HostRuntime) -> Result<(), EnvFault> {
    let case = Case {
        types: 1,
        pairs: &[],
        lines: &[name(5, 0), call(20, 0, &[0]), call(20, 0, &[0, 0])],
        goal: 0,
        limit: 50,
        depth: 1,
        levels: &[
            (5, &[&[1]]),
            (25, &[&[3, 1]]),
            (30, &[&[5, 1, 1]]),
            (45, &[&[3, 3, 1]]),
            (50, &[&[3, 5, 1, 1], &[5, 3, 1, 1], &[5, 1, 3, 1]]),
        ],
        pops: 29,
    };
    assert!(rt; rebuilt_levels(rt.alloc(), &case)?);
    Ok(())
}

#[test]
fn what_leads_nowhere_is_not_popped(rt: HostRuntime) -> Result<(), EnvFault> {
    let case = Case {
        types: 3,
        pairs: &[],
        lines: &[
            name(5, 0),
            name(5, 1),
            call(5, 1, &[1, 1]),
            call(5, 0, &[1, 2]),
        ],
        goal: 0,
        limit: 1000,
        depth: 1,
        levels: &[(5, &[&[1]])],
        pops: 3,
    };
    assert!(rt; rebuilt_levels(rt.alloc(), &case)?);
    Ok(())
}
