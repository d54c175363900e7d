ghost use Rattle.std.specs.Prelude.{◌+◌, ◌<◌, ◌≤◌, ◌^◌, length};

use crate::environments::{Shown, call, env, name};
use listing::{Listing, Page};
use plain_listing::Plain;
use reconstruction::Rebuild;
use std::alloc::Global;
use terms::{Env, EnvFault, Levels};

/// `x` of type 0 and `f` from type 1 to type 0, with type 0 below type 1 and a third type that nothing gives.
fn env_of(alloc: Global, goal: u32) -> Result<Env, EnvFault> {
    let shown = Shown {
        types: 3,
        pairs: &[(0, 1)],
        lines: &[name("x", 5, 0), call("f", 20, 0, &[1])],
        goal,
        limit: 75,
        depth: 0,
    };
    env(alloc, &shown)
}

fn page(first: u64, len: u64, last: bool, grown: u64) -> Page {
    Page {
        first,
        len,
        last,
        grown,
    }
}

fn is_page(page: &Page, wanted: &Page) -> bool {
    page.first == wanted.first
        && page.len == wanted.len
        && page.last == wanted.last
        && page.grown == wanted.grown
}

/// Whether a new listing answers this page.
fn gives<E: Levels + Drop>(
    alloc: Global,
    goal: u32,
    from: u64,
    count: u64,
    wanted: &Page,
) -> Result<bool, EnvFault>
    requires from { from < 2 ^ 62 }
    requires count { (1 ≤ count) × (count ≤ 1000) }
{
    let mut listing: Listing<E> = Listing::new(alloc, env_of(alloc, goal)?)?;
    let found = listing.page(alloc, from, count)?;
    Ok(is_page(&found, wanted))
}

fn pages_are_right<E: Levels + Drop>(alloc: Global) -> Result<bool, EnvFault> {
    Ok(
        gives::<E>(alloc, 1, 0, 2, &page(0, 2, false, 3))?
            && gives::<E>(alloc, 1, 1, 2, &page(1, 2, true, 3))?
            && gives::<E>(alloc, 1, 9, 1, &page(3, 0, true, 3))?
            && gives::<E>(alloc, 2, 0, 1, &page(0, 0, true, 0))?,
    )
}

#[test]
fn pages_of_new_listings(rt: HostRuntime) -> Result<(), EnvFault> {
    assert!(rt; pages_are_right::<Plain>(rt.alloc())?);
    assert!(rt; pages_are_right::<Rebuild>(rt.alloc())?);
    Ok(())
}

/// Whether the items of the page are these terms.
fn has_texts<E: Levels>(listing: &Listing<E>, page: &Page, texts: &[&str]) -> bool
    requires within { page.now.first + page.now.len ≤ length listing.now.found }
{
    let items = listing.items(page);
    if items.len() != texts.len() {
        return false;
    }
    for (item, wanted) in items.iter().zip(texts) {
        if item.text.as_str() != *wanted {
            return false;
        }
    }
    true
}

/// Whether the items of a page, and those of the next page of the same listing, have their texts.
fn goes_on<E: Levels + Drop>(alloc: Global) -> Result<bool, EnvFault> {
    let mut listing: Listing<E> = Listing::new(alloc, env_of(alloc, 1)?)?;
    let first = listing.page(alloc, 0, 2)?;
    if !has_texts(&listing, &first, &["x", "f(x)"]) {
        return Ok(false);
    }
    let second = listing.page(alloc, 2, 2)?;
    Ok(has_texts(&listing, &second, &["f(f(x))"]) && is_page(&second, &page(2, 1, true, 0)))
}

#[test]
fn a_second_page_goes_on(rt: HostRuntime) -> Result<(), EnvFault> {
    assert!(rt; goes_on::<Plain>(rt.alloc())?);
    assert!(rt; goes_on::<Rebuild>(rt.alloc())?);
    Ok(())
}

/// The first page, asked for once more where there was no memory for it.
fn page_at_last<E: Levels>(alloc: Global, listing: &mut Listing<E>) -> Result<Page, EnvFault> {
    match listing.page(alloc, 0, 2) {
        Ok(page) => Ok(page),
        Err(_) => Ok(listing.page(alloc, 0, 2)?),
    }
}

/// Whether the page is right, and with it the listing, after one call that may have found no memory.
fn recovers<E: Levels + Drop>(alloc: Global) -> Result<bool, EnvFault> {
    let mut listing: Listing<E> = Listing::new(alloc, env_of(alloc, 1)?)?;
    let found = page_at_last(alloc, &mut listing)?;
    let right = is_page(&found, &page(0, 2, false, found.grown));
    Ok(right && listing.page(alloc, 1, 2)?.last)
}

#[test]
fn want_of_memory_loses_nothing(rt: HostRuntime) -> Result<(), EnvFault> {
    assert!(rt; recovers::<Plain>(rt.alloc()).unwrap_or(true));
    assert!(rt; recovers::<Rebuild>(rt.alloc()).unwrap_or(true));
    Ok(())
}

/// Whether a listing knows its own environment, and no other, and counts no step before the first page.
fn is_told_apart<E: Levels + Drop>(alloc: Global) -> Result<bool, EnvFault> {
    let listing: Listing<E> = Listing::new(alloc, env_of(alloc, 1)?)?;
    let same = listing.same_env(&env_of(alloc, 1)?);
    let other = listing.same_env(&env_of(alloc, 2)?);
    Ok(same && !other && listing.pops() == 0)
}

#[test]
fn environments_are_told_apart(rt: HostRuntime) -> Result<(), EnvFault> {
    assert!(rt; is_told_apart::<Plain>(rt.alloc())?);
    assert!(rt; is_told_apart::<Rebuild>(rt.alloc())?);
    Ok(())
}
