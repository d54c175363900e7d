use crate::{Compressed, Rows};
use lists::{Items, Text};
use std::alloc::{AllocError, Global};
use terms::{Arg, Decl, Env, EnvFault, Form, Parts, Steps};

/// A name where nothing is wanted, and else a call.
fn form(alloc: Global, plain: bool) -> Result<Form, AllocError> {
    if plain {
        return Ok(Form::Name(Text::from_str(alloc, "x")?));
    }
    Ok(Form::Call(Text::from_str(alloc, "f")?))
}

/// A name of weight 5, or a call of weight 20, that gives an int.
fn decl(alloc: Global, wanted: &[u32]) -> Result<Decl, AllocError> {
    let mut args = Items::new(alloc);
    for one in wanted {
        args.push(Arg::Plain(*one))?;
    }
    let plain = wanted.is_empty();
    let form = form(alloc, plain)?;
    Ok(Decl {
        args,
        result: 0,
        weight: if plain { 5 } else { 20 },
        crowded: false,
        form,
    })
}

/// Declarations of int, each with the types that it wants; the types are int and long.
fn parts(
    alloc: Global,
    wanted: &[&[u32]],
    pairs: &[(u32, u32)],
    goal: u32,
    limit: u32,
) -> Result<Parts, AllocError> {
    let mut types = Items::new(alloc);
    types.push(Text::from_str(alloc, "int")?)?;
    types.push(Text::from_str(alloc, "long")?)?;
    let mut decls = Items::new(alloc);
    for one in wanted {
        decls.push(decl(alloc, one)?)?;
    }
    Ok(Parts {
        types,
        pairs: Items::from_slice(alloc, pairs)?,
        decls,
        goal,
        limit,
        depth: 0,
        binder: Text::from_str(alloc, "p")?,
        steps: Steps::usual(),
    })
}

fn compressed(alloc: Global, parts: Parts) -> Result<Compressed, EnvFault> {
    if !parts.has_lengths() {
        return Err(EnvFault::OutOfMemory);
    }
    let env = Env::checked(alloc, parts)?;
    Ok(Compressed::new(alloc, &env)?)
}

/// What a kind selects, nothing where there is no such kind.
fn selected(compressed: &Compressed, kind: u32) -> &[u32] {
    if (kind as usize) < compressed.kinds().len() {
        compressed.select(kind)
    } else {
        &[]
    }
}

/// Whether a kind has so many needs and ends in a type.
fn is_kind(compressed: &Compressed, kind: usize, needs: usize, gives: u32) -> bool {
    match compressed.kinds().get(kind) {
        Some(found) => found.needs.len() == needs && found.result == gives,
        None => false,
    }
}

// No need to int; long to int; int to long.
#[test]
fn a_name_a_call_and_a_pair_have_three_kinds(rt: HostRuntime) -> Result<(), EnvFault> {
    let parts = parts(rt.alloc(), &[&[], &[1]], &[(0, 1)], 1, 75)?;
    let found = compressed(rt.alloc(), parts)?;
    assert_eq!(rt; found.needs().len(), 2);
    assert_eq!(rt; found.kinds().len(), 3);
    assert!(rt; is_kind(&found, 0, 0, 0) && is_kind(&found, 1, 1, 0) && is_kind(&found, 2, 1, 1));
    assert_eq!(rt; selected(&found, 1), &[1u32][..]);
    Ok(())
}

#[test]
fn equal_wants_are_one_need(rt: HostRuntime) -> Result<(), EnvFault> {
    let parts = parts(rt.alloc(), &[&[], &[0], &[0, 0]], &[], 0, 50)?;
    let found = compressed(rt.alloc(), parts)?;
    assert_eq!(rt; found.needs().len(), 1);
    assert_eq!(rt; found.kinds().len(), 2);
    assert!(rt; is_kind(&found, 0, 0, 0) && is_kind(&found, 1, 1, 0));
    assert_eq!(rt; selected(&found, 1), &[1u32, 2][..]);
    Ok(())
}

// long, int and long again are wanted; long is need 0 and int is need 1. The pair wants its lower type.
#[test]
fn needs_are_told_in_the_order_of_the_arguments(rt: HostRuntime) -> Result<(), EnvFault> {
    let parts = parts(rt.alloc(), &[&[1, 0, 1], &[]], &[(0, 1)], 0, 75)?;
    let found = compressed(rt.alloc(), parts)?;
    assert_eq!(rt; found.wanted(0), &[0u32, 1, 0][..]);
    assert_eq!(rt; found.wanted(1), &[][..]);
    assert_eq!(rt; found.wanted(2), &[1u32][..]);
    assert_eq!(rt; found.wanted(3), &[][..]);
    Ok(())
}

#[test]
fn rows_lie_one_after_the_other(rt: HostRuntime) -> Result<(), std::alloc::AllocError> {
    let mut rows = Rows::new(rt.alloc());
    rows.push(&[7, 5])?;
    rows.push(&[])?;
    rows.push(&[7])?;
    assert_eq!(rt; rows.len(), 3);
    assert_eq!(rt; rows.row(0), &[7u32, 5][..]);
    assert_eq!(rt; rows.row(1), &[][..]);
    assert_eq!(rt; rows.row(2), &[7u32][..]);
    assert_eq!(rt; rows.row(3), &[][..]);
    Ok(())
}
