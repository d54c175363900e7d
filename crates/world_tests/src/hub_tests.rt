ghost use Rattle.std.specs.Prelude.{◌≡◌, ◌<◌, ◌≤◌};
ghost use Rattle.version_board.specs.Versions.{IsVersion};

use crate::shared_page_tests::{calls, names, pops};
use answers::Page;
use fingerprint::{Fingerprinted, print_of};
use listing::Listing;
use lists::Items;
use outside::SteadyShelf;
use reconstruction::Rebuild;
use sessions::{Hub, RunningWorld, World, shared_page};
use shared_shelf::SharedShelf;
use std::alloc::{AllocError, Global};
use std::marker::Brand;
use std::process::Abort;
use std::sync::Wait;
use std::test::Fail;
use std::thread;
use std::thread::Threads;
use terms::{Env, EnvFault};
use version_board::{Naming, Opened, Pass, Snapshot, start_board};

/// Whether these are the texts of a page, in order.
fn has_texts(page: &Page, texts: &[&str]) -> bool {
    let items = page.items.as_slice();
    if items.len() != texts.len() {
        return false;
    }
    for i in 0..texts.len() {
        if items[i].text.as_str() != texts[i] {
            return false;
        }
    }
    true
}

/// The lists of four environments.
const LISTS: [&[&str]; 4] = [
    &["x", "f(x)", "f(f(x))"],
    &["x", "f(x)"],
    &["x"],
    &["a", "b"],
];

/// One of the four environments.
fn env_of(alloc: Global, number: usize) -> Result<Env, EnvFault> {
    match number {
        0 => calls(alloc, "long", 1, 75),
        1 => calls(alloc, "long", 1, 74),
        2 => calls(alloc, "long", 0, 34),
        _ => names(alloc),
    }
}

/// Whether each of so many pages of an environment, taken from a shelf that others use as well, is its whole list. All
/// environments stand under one fingerprint, or each under its own.
fn gets_its_list<R: Wait>(
    rt: &R,
    alloc: Global,
    shelf: &SharedShelf<Listing<Rebuild>>,
    number: usize,
    texts: &[&str],
    is_one_print: bool,
) -> Result<bool, EnvFault> {
    let env = env_of(alloc, number)?;
    let print = if is_one_print { 7 } else { print_of(&env) };
    for _ in 0..50 {
        let (page, _) = shared_page(rt, alloc, shelf, print, &env, 0, 9)?;
        if !has_texts(&page, texts) {
            return Ok(false);
        }
    }
    Ok(true)
}

/// Four threads at once, each with an environment of its own, on a shelf of two places.
fn all_get_their_lists<R: Threads + Wait + Sync>(
    rt: &R,
    alloc: Global,
    is_one_print: bool,
) -> Result<bool, AllocError> {
    let shelf: SharedShelf<Listing<Rebuild>> = SharedShelf::new(alloc, 2);
    let right = thread::map_indices(
        rt,
        alloc,
        4,
        &|number: usize| -> bool {
            match LISTS.get(number) {
                Some(texts) => {
                    gets_its_list(rt, alloc, &shelf, number, texts, is_one_print).unwrap_or(false)
                }
                None => false,
            }
        },
    )?;
    Ok(right.iter().all(|is_right| *is_right))
}

#[test]
fn each_thread_gets_the_list_of_its_environment(rt: HostRuntime) -> Result<(), Fail> {
    assert!(rt; all_get_their_lists(&rt, rt.alloc(), false)?);
    assert!(rt; all_get_their_lists(&rt, rt.alloc(), true)?);
    Ok(())
}

/// A world of one client that takes so many pages of one item.
fn take_pages<J: Naming, R: Wait + Drop>(
    rt: &R,
    alloc: Global,
    hub: &Hub<J, R>,
    pass: Pass<J>,
    env: &Fingerprinted,
) -> Result<bool, AllocError> {
    let mut world = RunningWorld {
        rt,
        hub,
        pass,
        shelf: SteadyShelf {
            files: Items::new(alloc),
        },
        ahead: None,
    };
    let first = world.page(alloc, env, 0, 1)?;
    let second = world.page(alloc, env, 1, 2)?;
    let last = world.page(alloc, env, 3, 1)?;
    let version = world.read()?;
    Ok(
        has_texts(&first, &["x"])
            && has_texts(&second, &["f(x)", "f(f(x))"])
            && last.last
            && version.number == 0,
    )
}

/// The steps of the search after each of so many clients took all pages at one hole.
fn pops_of_clients<J: Naming, R: Wait + Abort + Copy + Drop>(
    rt: R,
    alloc: Global,
    opened: Opened,
    first: Snapshot,
    env: &Fingerprinted,
    count: usize,
) -> Result<u64, AllocError>
    requires book { opened.seen.book ≡ J.book }
    requires first { IsVersion J.first first }
    requires count { (0 < count) × (count ≤ 64) }
{
    let (publisher, passes) = start_board::<J, R>(rt, alloc, opened, first, count)?;
    let hub = Hub::new(alloc, publisher);
    for pass in passes {
        assert!(rt; take_pages(&rt, alloc, &hub, pass, env)?);
    }
    pops(&rt, &hub.shelf, env.print())
}

/// The same of a new board.
fn pops_at_one_hole<R: Wait + Abort + Copy + Drop>(
    rt: R,
    alloc: Global,
    count: usize,
) -> Result<u64, EnvFault>
    requires count { (0 < count) × (count ≤ 64) }
{
    let first = Snapshot::empty(alloc)?;
    let env = Fingerprinted::new(calls(alloc, "long", 1, 75)?);
    Ok(pops_of_clients::<Brand, R>(rt, alloc, Opened::new(), first, &env, count)?)
}

#[test]
fn clients_at_one_hole_search_once(rt: HostRuntime) -> Result<(), Fail> {
    let one = pops_at_one_hole(&rt, rt.alloc(), 1)?;
    assert!(rt; one > 0);
    assert_eq!(rt; pops_at_one_hole(&rt, rt.alloc(), 2)?, one);
    assert_eq!(rt; pops_at_one_hole(&rt, rt.alloc(), 64)?, one);
    Ok(())
}

/// How many items a client's world finds for the first page at a hole, once it took first pages at so many holes, that
/// one before all others.
fn found_after<J: Naming, R: Wait + Drop>(
    rt: &R,
    alloc: Global,
    hub: &Hub<J, R>,
    pass: Pass<J>,
    holes: u32,
) -> Result<u64, EnvFault> {
    let mut world = RunningWorld {
        rt,
        hub,
        pass,
        shelf: SteadyShelf {
            files: Items::new(alloc),
        },
        ahead: None,
    };
    for hole in 0..holes {
        let env = Fingerprinted::new(calls(alloc, "long", 1, hole.saturating_add(75))?);
        let _page = world.page(alloc, &env, 0, 1)?;
    }
    let env = Fingerprinted::new(calls(alloc, "long", 1, 75)?);
    let page = world.page(alloc, &env, 0, 1)?;
    Ok(page.grown)
}

/// The same by a client of a board.
fn found_by_client<J: Naming, R: Wait + Copy + Drop>(
    rt: R,
    alloc: Global,
    opened: Opened,
    first: Snapshot,
    holes: u32,
) -> Result<u64, EnvFault>
    requires book { opened.seen.book ≡ J.book }
    requires first { IsVersion J.first first }
{
    let (publisher, mut passes) = start_board::<J, R>(rt, alloc, opened, first, 1)?;
    let hub = Hub::new(alloc, publisher);
    let pass = passes.pop().unwrap();
    found_after(&rt, alloc, &hub, pass, holes)
}

/// The same of a new board.
fn found_again<R: Wait + Copy + Drop>(rt: R, alloc: Global, holes: u32) -> Result<u64, EnvFault> {
    let first = Snapshot::empty(alloc)?;
    found_by_client::<Brand, R>(rt, alloc, Opened::new(), first, holes)
}

/// The hub keeps 256 listings; one more drops the first, whose items are found once more.
#[test]
fn the_257th_listing_drops_the_first(rt: HostRuntime) -> Result<(), Fail> {
    assert_eq!(rt; found_again(&rt, rt.alloc(), 256)?, 0);
    assert_eq!(rt; found_again(&rt, rt.alloc(), 257)?, 2);
    Ok(())
}
