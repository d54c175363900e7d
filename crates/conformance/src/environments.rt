use lists::{Items, Text};
use std::alloc::{AllocError, Global};
use terms::{Arg, Decl, Env, EnvFault, Form, Parts, Steps};

/// A declaration: what it wants, and where that is a lambda the types of its parameters.
#[derive(Clone, Copy)]
pub struct Line<'a> {
    pub weight: u32,
    pub result: u32,
    pub wants: &'a [u32],
    pub params: Option<&'a [u32]>,
    pub name: &'a str,
}

/// An environment.
#[derive(Clone, Copy)]
pub struct Shown<'a> {
    pub types: u32,
    pub pairs: &'a [(u32, u32)],
    pub lines: &'a [Line<'a>],
    pub goal: u32,
    pub limit: u32,
    pub depth: u32,
}

fn wanted(alloc: Global, line: &Line<'_>) -> Result<Items<Arg>, AllocError> {
    let mut args = Items::new(alloc);
    for place in line.wants {
        args.push(match line.params {
            Some(params) => Arg::Fun(Items::from_slice(alloc, params)?, *place),
            None => Arg::Plain(*place),
        })?;
    }
    Ok(args)
}

fn form(alloc: Global, line: &Line<'_>) -> Result<Form, AllocError> {
    let text = Text::from_str(alloc, line.name)?;
    if line.params.is_some() {
        return Ok(Form::Lambda(text));
    }
    if line.wants.is_empty() {
        return Ok(Form::Name(text));
    }
    Ok(Form::Call(text))
}

fn decls(alloc: Global, lines: &[Line<'_>]) -> Result<Items<Decl>, AllocError> {
    let mut decls = Items::new(alloc);
    for line in lines {
        decls.push(Decl {
            args: wanted(alloc, line)?,
            result: line.result,
            weight: line.weight,
            crowded: false,
            form: form(alloc, line)?,
        })?;
    }
    Ok(decls)
}

fn types(alloc: Global, count: u32) -> Result<Items<Text>, AllocError> {
    let mut types = Items::new(alloc);
    for _ in 0..count {
        types.push(Text::from_str(alloc, "T")?)?;
    }
    Ok(types)
}

/// The environment that is shown, with the usual steps.
pub fn env(alloc: Global, shown: &Shown<'_>) -> Result<Env, EnvFault> {
    stepped(alloc, shown, Steps::usual())
}

/// The environment that is shown, with these steps.
pub fn stepped(alloc: Global, shown: &Shown<'_>, steps: Steps) -> Result<Env, EnvFault> {
    let parts = Parts {
        types: types(alloc, shown.types)?,
        pairs: Items::from_slice(alloc, shown.pairs)?,
        decls: decls(alloc, shown.lines)?,
        goal: shown.goal,
        limit: shown.limit,
        depth: shown.depth,
        binder: Text::from_str(alloc, "p")?,
        steps,
    };
    if !parts.has_lengths() {
        return Err(EnvFault::OutOfMemory);
    }
    Env::checked(alloc, parts)
}

/// A declaration without arguments.
pub const fn name<'a>(name: &'a str, weight: u32, gives: u32) -> Line<'a> {
    Line {
        weight,
        result: gives,
        wants: &[],
        params: None,
        name,
    }
}

/// A declaration with these arguments.
pub const fn call<'a>(name: &'a str, weight: u32, gives: u32, wants: &'a [u32]) -> Line<'a> {
    Line {
        weight,
        result: gives,
        wants,
        params: None,
        name,
    }
}

/// A declaration with one argument, a lambda of these parameters.
pub const fn lambda<'a>(
    name: &'a str,
    weight: u32,
    gives: u32,
    body: &'a [u32],
    params: &'a [u32],
) -> Line<'a> {
    Line {
        weight,
        result: gives,
        wants: body,
        params: Some(params),
        name,
    }
}
