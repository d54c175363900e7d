// How far a list is found when it is lengthened ahead, and how much its next page grows.
ghost use Rattle.std.specs.Prelude.{◌≤◌, ◌^◌};

use listing::{Listing, Page};
use plain_listing::Plain;
use prefetch::lengthen;
use reconstruction::Rebuild;
use sheets::read_sheet;
use std::alloc::{AllocError, Global};
use std::test::Fail;
use terms::{Env, Levels};

/// Its list is `x`, `f(x)` and `f(f(x))`, each of a weight of its own.
const SHEET: &str = "insynth sheet 1
type int
type long
sub int long
decl 5 int name x
decl 20 int call f long
goal long
limit 75
";

/// The environment of the sheet.
fn environment(alloc: Global) -> Result<Env, AllocError> {
    read_sheet(alloc, SHEET.as_bytes()).map_err(|_| AllocError)
}

/// The first page of two items of a new listing, after it was lengthened to so many items.
fn page_after<E: Levels + Drop>(alloc: Global, upto: u64) -> Result<Page, AllocError>
    requires upto { (2 ≤ upto) × (upto ≤ 2 ^ 62) }
{
    let mut listing: Listing<E> = Listing::new(alloc, environment(alloc)?)?;
    lengthen(alloc, &mut listing, upto)?;
    listing.page(alloc, 0, 2)
}

/// Whether the page holds two items, and so many were found for it.
fn has_grown(page: &Page, grown: u64) -> bool {
    page.first == 0 && page.len == 2 && !page.last && page.grown == grown
}

/// The page needs three items: one more is found for it after two were found ahead, and none after more were, or all.
fn grows_less<E: Levels + Drop>(alloc: Global) -> Result<bool, AllocError> {
    Ok(
        has_grown(&page_after::<E>(alloc, 2)?, 1)
            && has_grown(&page_after::<E>(alloc, 3)?, 0)
            && has_grown(&page_after::<E>(alloc, 4)?, 0)
            && has_grown(&page_after::<E>(alloc, 1 << 62)?, 0),
    )
}

#[test]
fn a_page_grows_less_after_its_list_was_lengthened(rt: HostRuntime) -> Result<(), Fail> {
    assert!(rt; grows_less::<Plain>(rt.alloc())?);
    assert!(rt; grows_less::<Rebuild>(rt.alloc())?);
    Ok(())
}

/// Lengthens a listing, once more where there was no memory for it.
fn lengthen_at_last<E: Levels>(
    alloc: Global,
    listing: &mut Listing<E>,
    upto: u64,
) -> Result<(), AllocError>
    requires upto { (2 ≤ upto) × (upto ≤ 2 ^ 62) }
{
    match lengthen(alloc, listing, upto) {
        Ok(()) => Ok(()),
        Err(_) => lengthen(alloc, listing, upto),
    }
}

/// What was found is neither lost nor found again, whether it was asked for ahead or by a page.
fn goes_on<E: Levels + Drop>(alloc: Global) -> Result<bool, AllocError> {
    let mut listing: Listing<E> = Listing::new(alloc, environment(alloc)?)?;
    lengthen_at_last(alloc, &mut listing, 2)?;
    lengthen_at_last(alloc, &mut listing, 2)?;
    let first = listing.page(alloc, 0, 1)?;
    lengthen_at_last(alloc, &mut listing, 3)?;
    let second = listing.page(alloc, 1, 2)?;
    Ok(first.len == 1 && first.grown == 0 && second.len == 2 && second.grown == 0 && second.last)
}

#[test]
fn a_list_is_found_once(rt: HostRuntime) -> Result<(), Fail> {
    assert!(rt; goes_on::<Plain>(rt.alloc())?);
    assert!(rt; goes_on::<Rebuild>(rt.alloc())?);
    Ok(())
}
