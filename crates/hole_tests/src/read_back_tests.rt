// The texts of all items at a hole resolve to the terms that they stand for.
ghost use Rattle.std.specs.Prelude.{◌+◌, ◌≤◌, length};

use crate::holes::published;
use crate::item_tests::{OVERLOADS, OVERRIDING, READERS, Row, TWO_PROMISES, env_of};
use java_resolve::{may_resolve, resolve};
use listing::{Item, Listing, Page};
use reconstruction::Rebuild;
use std::alloc::{AllocError, Global};
use std::test::Fail;
use terms::{Env, Term, TermArg};

/// Whether two terms are the same.
#[cycle(comparing)]
fn is_same(one: &Term, other: &Term) -> bool {
    match (one, other) {
        (Term::Var(one), Term::Var(other)) => *one == *other,
        (Term::Head(one, args), Term::Head(other, others)) => {
            *one == *other && are_same(args.as_slice(), others.as_slice())
        }
        _ => false,
    }
}

/// Whether arguments are the same.
#[cycle(comparing)]
fn are_same(args: &[TermArg], others: &[TermArg]) -> bool {
    if args.len() != others.len() {
        return false;
    }
    for i in 0..args.len() {
        if !is_same_arg(&args[i], &others[i]) {
            return false;
        }
    }
    true
}

/// Whether two arguments are the same.
#[cycle(comparing)]
fn is_same_arg(arg: &TermArg, other: &TermArg) -> bool {
    match (arg, other) {
        (TermArg::Plain(one), TermArg::Plain(other)) => is_same(one, other),
        (TermArg::Lam(one), TermArg::Lam(other)) => is_same(one, other),
        _ => false,
    }
}

/// Whether the text of an item resolves to its term.
fn is_read_back(alloc: Global, env: &Env, item: &Item) -> Result<bool, AllocError> {
    if !may_resolve(alloc, env)? {
        return Ok(false);
    }
    match resolve(alloc, env, item.text.as_str()) {
        Ok(found) => Ok(is_same(&found, &item.term)),
        Err(_) => Ok(false),
    }
}

/// How many of these items there are up to the first whose text doesn't resolve to its term.
fn count_read(alloc: Global, env: &Env, items: &[Item]) -> Result<usize, AllocError> {
    let mut count: usize = 0;
    for item in items {
        if !is_read_back(alloc, env, item)? {
            return Ok(count);
        }
        count = count.saturating_add(1);
    }
    Ok(count)
}

/// The same of the items of a page.
fn count_in(
    alloc: Global,
    env: &Env,
    listing: &Listing<Rebuild>,
    page: &Page,
) -> Result<usize, AllocError>
    requires within { page.now.first + page.now.len ≤ length listing.now.found }
{
    count_read(alloc, env, listing.items(page))
}

/// How many items of the list of the second environment are read back in the first, which is equal.
fn count_of(alloc: Global, env: &Env, same: Env) -> Result<usize, AllocError> {
    let mut listing: Listing<Rebuild> = Listing::new(alloc, same)?;
    let page = listing.page(alloc, 0, 1000)?;
    count_in(alloc, env, &listing, &page)
}

/// Whether all items of a row's list are read back.
pub fn are_read_back(alloc: Global, row: &Row<'_>) -> Result<bool, Fail> {
    let index = published(alloc, row.library)?;
    let env = env_of(alloc, &index, row)?;
    let same = env_of(alloc, &index, row)?;
    Ok(count_of(alloc, &env, same)? == row.items.len())
}

#[test]
fn casts_tell_the_items_of_overloads_apart(rt: HostRuntime) -> Result<(), Fail> {
    assert!(rt; are_read_back(rt.alloc(), &OVERLOADS)?);
    Ok(())
}

#[test]
fn receivers_are_read_back(rt: HostRuntime) -> Result<(), Fail> {
    assert!(rt; are_read_back(rt.alloc(), &OVERRIDING)?);
    assert!(rt; are_read_back(rt.alloc(), &TWO_PROMISES)?);
    Ok(())
}

#[test]
fn chains_of_readers_are_read_back(rt: HostRuntime) -> Result<(), Fail> {
    assert!(rt; are_read_back(rt.alloc(), &READERS)?);
    Ok(())
}
