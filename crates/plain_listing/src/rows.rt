ghost use Rattle.std.specs.Prelude.{◌≡◌, ◌<◌, ◌^◌, ◌++◌, ℕ, length, slice_get, IfOk, OnOk};
ghost use Rattle.terms.specs.Typing.{joined};
ghost use Rattle.plain_listing.specs.Generate.{made};
ghost use Rattle.plain_listing.specs.Tables.{listed, IsColumn, IsRow};
ghost use Rattle.plain_listing.specs.Reads.{here, deeper};

use crate::heads::made;
use crate::plain_place::PlainPlace;
use lists::Items;
use std::alloc::{AllocError, Global};
use terms::{Env, Term};

/// The terms of one weight in one context, for each type.
fn column(
    alloc: Global,
    place: &PlainPlace<'_>,
    weight: usize,
) -> Result<Items<Items<Term>>, AllocError>
    requires variables { length place.now.variables.now < 2 ^ 32 }
    requires weight { weight < 2 ^ 32 }
    ensures each { IfOk result (λ column. (b : ℕ) → b < length place.now.env.now.types →
        listed (slice_get column b) ≡ made place.now.env.now place.now.variables.now (here place.now) (deeper place.now) weight b) }
{
    let mut all = Items::new(alloc);
    let types = place.env.parts().types.len() as u32;
    for wanted in 0..types {
        all.push(made(alloc, place, weight, wanted)?)?;
    }
    Ok(all)
}

/// Adds these types.
fn push_types(all: &mut Items<u32>, types: &[u32]) -> Result<(), AllocError>
    ensures { OnOk result (all.new ≡ all.old ++ types.now) }
{
    for of in types {
        all.push(*of)?;
    }
    Ok(())
}

/// The types of the variables of a context.
fn variables_of(alloc: Global, context: &[Items<u32>]) -> Result<Items<u32>, AllocError>
    ensures { IfOk result (λ types. types ≡ joined context.now) }
{
    let mut all = Items::new(alloc);
    for i in 0..context.len() {
        push_types(&mut all, context[i].as_slice())?;
    }
    Ok(all)
}

/// The terms of the next weight in the context of this number, for each type. Want of memory is also answered
/// where the context has 2^32 variables.
fn column_in(
    alloc: Global,
    env: &Env,
    depth: u32,
    contexts: &[Items<Items<u32>>],
    rows: &[Items<Items<Items<Term>>>],
    number: usize,
    context: &[Items<u32>],
) -> Result<Items<Items<Term>>, AllocError>
    requires { length rows.now < 2 ^ 32 }
    ensures { IfOk result (λ column. IsColumn env.now depth contexts.now rows.now column number context.now) }
{
    let variables = variables_of(alloc, context)?;
    if variables.len() >= 4_294_967_296 {
        return Err(AllocError);
    }
    let place = PlainPlace {
        env,
        depth,
        rows,
        number,
        context,
        variables: variables.as_slice(),
        contexts,
    };
    column(alloc, &place, rows.len())
}

/// The terms of the next weight: for each context, for each type.
pub fn row(
    alloc: Global,
    env: &Env,
    depth: u32,
    contexts: &[Items<Items<u32>>],
    rows: &[Items<Items<Items<Term>>>],
) -> Result<Items<Items<Items<Term>>>, AllocError>
    requires rows { length rows.now < 2 ^ 32 }
    ensures { IfOk result (λ row. IsRow env.now depth contexts.now rows.now row (length contexts.now)) }
{
    let mut all = Items::new(alloc);
    for n in 0..contexts.len() {
        let context = contexts[n].as_slice();
        all.push(column_in(alloc, env, depth, contexts, rows, n, context)?)?;
    }
    Ok(all)
}
