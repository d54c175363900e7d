ghost use Rattle.std.specs.Prelude.{◌≡◌, ◌++◌, ◌∷◌, [], ◌<◌, ℕ, length, IfOk, OnOk};
ghost use Rattle.terms.specs.declared.parts.Arg.TheVariants.{Fun};
ghost use Rattle.plain_listing.specs.Contexts.{Keeps, IsMet, AreMet, AreAllMet, AreShallow, AreContexts};

use crate::plain_place::number_of;
use lists::Items;
use std::alloc::{AllocError, Global};
use terms::{Arg, Decl, Env};

/// Copies of the rows.
fn copy_rows(alloc: Global, rows: &[Items<u32>]) -> Result<Items<Items<u32>>, AllocError>
    ensures equal { IfOk result (λ copies. copies ≡ rows.now) }
{
    let mut copies = Items::new(alloc);
    for row in rows {
        copies.push(Items::from_slice(alloc, row.as_slice())?)?;
    }
    Ok(copies)
}

/// The context with one row more.
fn extended(
    alloc: Global,
    outer: &[Items<u32>],
    params: &[u32],
) -> Result<Items<Items<u32>>, AllocError>
    ensures value { IfOk result (λ context. context ≡ outer.now ++ params.now ∷ []) }
{
    let mut context = copy_rows(alloc, outer)?;
    context.push(Items::from_slice(alloc, params)?)?;
    Ok(context)
}

/// Adds the context with these parameters as one row more, unless it is there or they alone pass the limit.
fn add_params(
    alloc: Global,
    contexts: &mut Items<Items<Items<u32>>>,
    outer: &[Items<u32>],
    params: &[u32],
    env: &Env,
) -> Result<(), AllocError>
    ensures keeps { OnOk result (Keeps contexts.old contexts.new) }
    ensures shallow { OnOk result ((depth : ℕ) → length outer.now < depth → AreShallow depth contexts.old → AreShallow depth contexts.new) }
    ensures met { OnOk result ((of : ℕ) → IsMet env.now contexts.new outer.now (Fun params.now of)) }
{
    if env.binders_weight(params.len()) > env.parts().limit as u128 {
        return Ok(());
    }
    match number_of(contexts.as_slice(), outer, params) {
        Some(_) => Ok(()),
        None => {
            contexts.push(extended(alloc, outer, params)?)?;
            Ok(())
        }
    }
}

/// Adds the context of a lambda at the argument.
fn add_arg(
    alloc: Global,
    contexts: &mut Items<Items<Items<u32>>>,
    outer: &[Items<u32>],
    wanted: &Arg,
    env: &Env,
) -> Result<(), AllocError>
    ensures keeps { OnOk result (Keeps contexts.old contexts.new) }
    ensures shallow { OnOk result ((depth : ℕ) → length outer.now < depth → AreShallow depth contexts.old → AreShallow depth contexts.new) }
    ensures met { OnOk result (IsMet env.now contexts.new outer.now wanted.now) }
{
    match wanted {
        Arg::Plain(_) => Ok(()),
        Arg::Fun(params, _) => {
            add_params(alloc, contexts, outer, params.as_slice(), env)?;
            Ok(())
        }
    }
}

/// Adds the contexts of lambdas at the arguments.
fn add_args(
    alloc: Global,
    contexts: &mut Items<Items<Items<u32>>>,
    outer: &[Items<u32>],
    wanted: &[Arg],
    env: &Env,
) -> Result<(), AllocError>
    ensures keeps { OnOk result (Keeps contexts.old contexts.new) }
    ensures shallow { OnOk result ((depth : ℕ) → length outer.now < depth → AreShallow depth contexts.old → AreShallow depth contexts.new) }
    ensures met { OnOk result (AreMet env.now contexts.new outer.now wanted.now (length wanted.now)) }
{
    for i in 0..wanted.len() {
        add_arg(alloc, contexts, outer, &wanted[i], env)?;
    }
    Ok(())
}

/// Adds the contexts of lambdas at the declarations' arguments.
fn add_decls(
    alloc: Global,
    contexts: &mut Items<Items<Items<u32>>>,
    outer: &[Items<u32>],
    decls: &[Decl],
    env: &Env,
) -> Result<(), AllocError>
    ensures keeps { OnOk result (Keeps contexts.old contexts.new) }
    ensures shallow { OnOk result ((depth : ℕ) → length outer.now < depth → AreShallow depth contexts.old → AreShallow depth contexts.new) }
    ensures met { OnOk result (AreAllMet env.now contexts.new outer.now decls.now (length decls.now)) }
{
    for n in 0..decls.len() {
        let decl = &decls[n];
        add_args(alloc, contexts, outer, decl.args.as_slice(), env)?;
    }
    Ok(())
}

/// Adds the contexts of lambdas in a context, where they may stand there.
fn add_inner(
    alloc: Global,
    contexts: &mut Items<Items<Items<u32>>>,
    outer: &[Items<u32>],
    env: &Env,
    depth: u32,
) -> Result<(), AllocError>
    ensures keeps { OnOk result (Keeps contexts.old contexts.new) }
    ensures shallow { OnOk result (AreShallow depth contexts.old → AreShallow depth contexts.new) }
    ensures met { OnOk result (length outer.now < depth → AreAllMet env.now contexts.new outer.now env.now.decls (length env.now.decls)) }
{
    if outer.len() >= depth as usize {
        return Ok(());
    }
    add_decls(alloc, contexts, outer, env.parts().decls.as_slice(), env)?;
    Ok(())
}

/// The contexts of an environment where lambdas nest to this depth, numbered as they are met from the empty one on. Want of memory is also
/// answered where they would be 2^32 or more.
pub fn contexts_of(
    alloc: Global,
    env: &Env,
    depth: u32,
) -> Result<Items<Items<Items<u32>>>, AllocError>
    ensures { IfOk result (λ contexts. AreContexts env.now depth contexts) }
{
    let mut contexts = Items::new(alloc);
    contexts.push(Items::new(alloc))?;
    for n in 0..4294967296usize {
        if n >= contexts.len() {
            return Ok(contexts);
        }
        let outer = copy_rows(alloc, contexts.as_slice()[n].as_slice())?;
        add_inner(alloc, &mut contexts, outer.as_slice(), env, depth)?;
    }
    Err(AllocError)
}
