ghost use Rattle.std.specs.Prelude.{◌≡◌, ◌<◌, ◌≤◌, ◌+◌, ◌^◌, IfOk, IfSome, length};
ghost use Rattle.answers.specs.Cursors.{IsPageOf};

use answers::Page;
use listing::{Item, Listing};
use lists::Items;
use shared_shelf::{Shared, SharedShelf};
use std::alloc::{AllocError, Global};
use std::sync::{Arc, Mutex, Wait};
use terms::{Env, Levels};

/// Copies of the items, in order.
fn copies(alloc: Global, items: &[Item]) -> Result<Items<Item>, AllocError>
    ensures { IfOk result (λ copies. copies ≡ items.now) }
{
    let mut copies = Items::new(alloc);
    for item in items {
        copies.push(item.copy(alloc)?)?;
    }
    Ok(copies)
}

/// The page of a listing, with items in memory of their own.
fn page_of<E: Levels + Drop>(
    alloc: Global,
    listing: &mut Listing<E>,
    from: u64,
    count: u64,
) -> Result<Page, AllocError>
    requires from { from < 2 ^ 62 }
    requires count { (1 ≤ count) × (count ≤ 1000) }
    ensures page { IfOk result (λ page. IsPageOf listing.old.parts from count page) }
    ensures small { IfOk result (λ page. from + length page.items < 2 ^ 62) }
{
    let page = listing.page(alloc, from, count)?;
    let items = copies(alloc, listing.items(&page))?;
    Ok(Page {
        items,
        last: page.last,
        grown: page.grown,
    })
}

/// The page of a listing that is kept, where it is that of this environment. It holds the listing's lock while the
/// list is searched for and the items are copied.
fn kept_page<E: Levels + Drop, R: Wait>(
    rt: &R,
    alloc: Global,
    slot: &Mutex<Listing<E>>,
    env: &Env,
    from: u64,
    count: u64,
) -> Result<Option<Page>, AllocError>
    requires from { from < 2 ^ 62 }
    requires count { (1 ≤ count) × (count ≤ 1000) }
    ensures page { IfOk result (λ found. IfSome found (λ page. IsPageOf env.now from count page)) }
    ensures small { IfOk result (λ found. IfSome found (λ page. from + length page.items < 2 ^ 62)) }
{
    let mut listing = slot.lock(rt);
    if !listing.same_env(env) {
        return Ok(None);
    }
    Ok(Some(page_of(alloc, &mut *listing, from, count)?))
}

/// A new listing of the environment.
fn fresh_listing<E: Levels + Drop>(alloc: Global, env: &Env) -> Result<Listing<E>, AllocError>
    ensures parts { IfOk result (λ listing. listing.parts ≡ env.now) }
{
    let copy = env.copy(alloc)?;
    Listing::new(alloc, copy)
}

/// The page of a listing of its own, which isn't kept.
fn own_page<E: Levels + Drop>(
    alloc: Global,
    env: &Env,
    from: u64,
    count: u64,
) -> Result<Page, AllocError>
    requires from { from < 2 ^ 62 }
    requires count { (1 ≤ count) × (count ≤ 1000) }
    ensures page { IfOk result (λ page. IsPageOf env.now from count page) }
    ensures small { IfOk result (λ page. from + length page.items < 2 ^ 62) }
{
    let mut own: Listing<E> = fresh_listing(alloc, env)?;
    page_of(alloc, &mut own, from, count)
}

/// The listing that is kept under the fingerprint; where there is none, a new one of the environment is kept.
fn kept_listing<E: Levels + Drop, R: Wait>(
    rt: &R,
    alloc: Global,
    shelf: &SharedShelf<Listing<E>>,
    print: u64,
    env: &Env,
) -> Result<Arc<Mutex<Listing<E>>, Global>, AllocError> {
    if let Some(slot) = shelf.find(rt, print)? {
        return Ok(slot);
    }
    let fresh: Listing<E> = fresh_listing(alloc, env)?;
    let Shared { slot, fresh: _ } = shelf.share(rt, alloc, print, fresh)?;
    Ok(slot)
}

/// The page of at most `count` items of the environment's list, from the item `from` on, counted from 0, by the listing
/// that is kept under the fingerprint where that is of this environment, and else by one of its own. With it comes the
/// slot of the kept listing, where that one was used. It may wait for another client's search on the same listing, or for
/// a worker's, and holds no other lock meanwhile. After want of memory the kept listing has what it had found, or more.
pub fn shared_page<E: Levels + Drop, R: Wait>(
    rt: &R,
    alloc: Global,
    shelf: &SharedShelf<Listing<E>>,
    print: u64,
    env: &Env,
    from: u64,
    count: u64,
) -> Result<(Page, Option<Arc<Mutex<Listing<E>>, Global>>), AllocError>
    requires from { from < 2 ^ 62 }
    requires count { (1 ≤ count) × (count ≤ 1000) }
    ensures page { IfOk result (λ found. IsPageOf env.now from count found.0) }
    ensures small { IfOk result (λ found. from + length found.0.items < 2 ^ 62) }
{
    let slot = kept_listing(rt, alloc, shelf, print, env)?;
    match kept_page(rt, alloc, &slot, env, from, count)? {
        Some(page) => Ok((page, Some(slot))),
        None => Ok((own_page::<E>(alloc, env, from, count)?, None)),
    }
}
