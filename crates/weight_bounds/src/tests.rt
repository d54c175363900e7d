use crate::WeightBounds;
use lists::{Items, Text};
use std::alloc::{AllocError, Global};
use terms::{Arg, Decl, Env, EnvFault, Form, Parts, Steps};

/// `T` can't be reached.
const TYPES: [&str; 6] = ["int", "String", "Object", "Function", "Pair", "T"];

const INT: u32 = 0;

const STRING: u32 = 1;

const OBJECT: u32 = 2;

const FUNCTION: u32 = 3;

const PAIR: u32 = 4;

/// A declaration without lambdas: the types that it wants, the type that it gives, and its weight.
#[derive(Clone, Copy)]
struct Given {
    wants: &'static [u32],
    gives: u32,
    weight: u32,
}

/// `x` of int; texts of an int, the lighter one last but one; and pairs of texts.
const PLAIN: [Given; 5] = [
    Given {
        wants: &[],
        gives: INT,
        weight: 5,
    },
    Given {
        wants: &[INT, INT],
        gives: STRING,
        weight: 19,
    },
    Given {
        wants: &[INT],
        gives: STRING,
        weight: 20,
    },
    Given {
        wants: &[INT],
        gives: STRING,
        weight: 21,
    },
    Given {
        wants: &[STRING, STRING],
        gives: PAIR,
        weight: 7,
    },
];

fn decl(form: Form, weight: u32, args: Items<Arg>, gives: u32) -> Decl {
    Decl {
        args,
        result: gives,
        weight,
        crowded: false,
        form,
    }
}

fn plain_args(alloc: Global, wants: &[u32]) -> Result<Items<Arg>, AllocError> {
    let mut args = Items::new(alloc);
    for want in wants {
        args.push(Arg::Plain(*want))?;
    }
    Ok(args)
}

fn plain(alloc: Global, from: &Given) -> Result<Decl, AllocError> {
    let form = Form::Call(Text::from_str(alloc, "f")?);
    let args = plain_args(alloc, from.wants)?;
    Ok(decl(form, from.weight, args, from.gives))
}

/// A function as a value of its interface: a lambda from two texts to an int.
fn function(alloc: Global) -> Result<Decl, AllocError> {
    let form = Form::Lambda(Text::from_str(alloc, "Function")?);
    let params = Items::from_slice(alloc, &[STRING, STRING])?;
    let mut args = Items::new(alloc);
    args.push(Arg::Fun(params, INT))?;
    Ok(decl(form, 10, args, FUNCTION))
}

fn decls(alloc: Global) -> Result<Items<Decl>, AllocError> {
    let mut decls = Items::new(alloc);
    for one in PLAIN.as_slice() {
        decls.push(plain(alloc, one)?)?;
    }
    decls.push(function(alloc)?)?;
    Ok(decls)
}

fn types(alloc: Global) -> Result<Items<Text>, AllocError> {
    let mut types = Items::new(alloc);
    for name in TYPES {
        types.push(Text::from_str(alloc, name)?)?;
    }
    Ok(types)
}

/// The declarations above, where a text is an object.
fn parts(alloc: Global, limit: u32, depth: u32) -> Result<Parts, AllocError> {
    let binder = Text::from_str(alloc, "p")?;
    let pairs = Items::from_slice(alloc, &[(STRING, OBJECT)])?;
    let types = types(alloc)?;
    let decls = decls(alloc)?;
    Ok(Parts {
        types,
        pairs,
        decls,
        goal: OBJECT,
        limit,
        depth,
        binder,
        steps: Steps {
            bound: 2,
            binder: 3,
            step: 10,
        },
    })
}

fn bounds(alloc: Global, limit: u32, depth: u32) -> Result<WeightBounds, EnvFault> {
    let parts = parts(alloc, limit, depth)?;
    if !parts.has_lengths() {
        return Err(EnvFault::OutOfMemory);
    }
    let env = Env::checked(alloc, parts)?;
    Ok(WeightBounds::derive(alloc, &env)?)
}

/// The bounds of all types, where so many lambdas are left.
fn row(bounds: &WeightBounds, left: u32) -> [Option<u32>; 6] {
    [
        bounds.bound(left, INT),
        bounds.bound(left, STRING),
        bounds.bound(left, OBJECT),
        bounds.bound(left, FUNCTION),
        bounds.bound(left, PAIR),
        bounds.bound(left, 5),
    ]
}

/// Where no lambda is around: no variable, and the least of three texts.
const OUTSIDE: [Option<u32>; 6] = [Some(5), Some(25), Some(35), Some(21), Some(57), None];

/// Where no lambda may nest: variables of the types that the lambda binds, and no function.
const INNERMOST: [Option<u32>; 6] = [Some(5), Some(2), Some(12), None, Some(11), None];

/// Between other lambdas.
const BETWEEN: [Option<u32>; 6] = [Some(5), Some(2), Some(12), Some(21), Some(11), None];

#[test]
fn bounds_go_by_lambdas_left(rt: HostRuntime) -> Result<(), EnvFault> {
    let one = bounds(rt.alloc(), 100, 1)?;
    assert_eq!(rt; row(&one, 1), OUTSIDE);
    assert_eq!(rt; row(&one, 0), INNERMOST);
    let three = bounds(rt.alloc(), 100, 3)?;
    assert_eq!(rt; row(&three, 3), OUTSIDE);
    assert_eq!(rt; row(&three, 2), BETWEEN);
    assert_eq!(rt; row(&three, 1), BETWEEN);
    assert_eq!(rt; row(&three, 0), INNERMOST);
    Ok(())
}

#[test]
fn without_lambdas_there_is_no_variable(rt: HostRuntime) -> Result<(), EnvFault> {
    let none = bounds(rt.alloc(), 100, 0)?;
    assert_eq!(rt;
        row(&none, 0),
        [Some(5), Some(25), Some(35), None, Some(57), None]
    );
    Ok(())
}

#[test]
fn a_limit_cuts(rt: HostRuntime) -> Result<(), EnvFault> {
    let at = bounds(rt.alloc(), 35, 1)?;
    assert_eq!(rt;
        row(&at, 1),
        [Some(5), Some(25), Some(35), Some(21), None, None]
    );
    let below = bounds(rt.alloc(), 34, 1)?;
    assert_eq!(rt;
        row(&below, 1),
        [Some(5), Some(25), None, Some(21), None, None]
    );
    Ok(())
}

#[test]
fn what_is_not_there_has_no_bound(rt: HostRuntime) -> Result<(), EnvFault> {
    let one = bounds(rt.alloc(), 100, 1)?;
    assert_eq!(rt; one.bound(0, 6), None);
    assert_eq!(rt; one.bound(0, 4294967295), None);
    assert_eq!(rt; one.bound(2, INT), None);
    assert_eq!(rt; one.bound(4294967295, INT), None);
    Ok(())
}
