use crate::level_tests::environment;
use fingerprint::print_of;
use listing::{Item, Listing};
use reconstruction::Rebuild;
use sessions::shared_page;
use shared_shelf::SharedShelf;
use std::alloc::{AllocError, Global};
use std::sync::Wait;
use std::test::Fail;
use terms::{Env, Levels};

/// A name and two calls, up to the weight 50, and the same up to 45.
const SHEETS: [&str; 2] = [
    "insynth sheet 1\ntype int\ndecl 5 int name x\ndecl 20 int call f int\ndecl 20 int call g int int\ngoal int\nlimit 50\n",
    "insynth sheet 1\ntype int\ndecl 5 int name x\ndecl 20 int call f int\ndecl 20 int call g int int\ngoal int\nlimit 45\n",
];

/// The list of the first sheet. That of the second is its first four items.
const LIST: [(u32, &str); 7] = [
    (5, "x"),
    (25, "f(x)"),
    (30, "g(x, x)"),
    (45, "f(f(x))"),
    (50, "f(g(x, x))"),
    (50, "g(f(x), x)"),
    (50, "g(x, f(x))"),
];

/// A page: how many items its list has, its place and count.
#[derive(Clone, Copy)]
struct Asked {
    whole: usize,
    from: u64,
    count: u64,
}

/// Whether these are the items of the page that is asked for.
fn are_items(items: &[Item], asked: Asked) -> bool {
    let whole = &LIST[..asked.whole.min(LIST.len())];
    let rest = &whole[(asked.from as usize).min(whole.len())..];
    let wanted = &rest[..(asked.count as usize).min(rest.len())];
    if items.len() != wanted.len() {
        return false;
    }
    for i in 0..wanted.len() {
        if items[i].weight != wanted[i].0 || items[i].text.as_str() != wanted[i].1 {
            return false;
        }
    }
    true
}

/// Whether a page of a listing is the one that is asked for, and is told to be the last where it is.
fn has_page<E: Levels>(
    alloc: Global,
    listing: &mut Listing<E>,
    asked: Asked,
) -> Result<bool, AllocError> {
    if asked.from > 1000 || asked.count == 0 || asked.count > 1000 {
        return Ok(false);
    }
    let page = listing.page(alloc, asked.from, asked.count)?;
    let is_last = asked.from + asked.count >= asked.whole as u64;
    Ok(are_items(listing.items(&page), asked) && page.last == is_last)
}

/// The same, asked again where memory was wanting; what was found by then is a prefix of the list.
fn has_page_again<E: Levels>(
    alloc: Global,
    listing: &mut Listing<E>,
    asked: Asked,
) -> Result<bool, AllocError> {
    match has_page(alloc, listing, asked) {
        Ok(is_right) => Ok(is_right),
        Err(_) => has_page(alloc, listing, asked),
    }
}

/// The pages of the list, of two items each and then of all.
fn has_pages<E: Levels>(alloc: Global, listing: &mut Listing<E>) -> Result<bool, AllocError> {
    for (from, count) in [(0, 2), (2, 2), (4, 2), (6, 2), (8, 2), (0, 9)] {
        let asked = Asked {
            whole: 7,
            from,
            count,
        };
        if !has_page_again(alloc, listing, asked)? {
            return Ok(false);
        }
    }
    Ok(true)
}

#[test]
fn a_listing_goes_on(rt: HostRuntime) -> Result<(), Fail> {
    let env = environment(rt.alloc(), SHEETS[0])?;
    let mut listing: Listing<Rebuild> = Listing::new(rt.alloc(), env)?;
    assert!(rt; has_pages(rt.alloc(), &mut listing)?);
    Ok(())
}

/// Whether a page of a shelf's listing is the one that is asked for, and is told to be the last where it is.
fn shares_page<E: Levels + Drop, R: Wait>(
    rt: &R,
    alloc: Global,
    shelf: &SharedShelf<Listing<E>>,
    print: u64,
    env: &Env,
    asked: Asked,
) -> Result<bool, AllocError> {
    if asked.from > 1000 || asked.count == 0 || asked.count > 1000 {
        return Ok(false);
    }
    let (page, _) = shared_page(rt, alloc, shelf, print, env, asked.from, asked.count)?;
    let is_last = asked.from + asked.count >= asked.whole as u64;
    Ok(are_items(page.items.as_slice(), asked) && page.last == is_last)
}

/// The same, asked again where memory was wanting.
fn shares_page_again<E: Levels + Drop, R: Wait>(
    rt: &R,
    alloc: Global,
    shelf: &SharedShelf<Listing<E>>,
    print: u64,
    env: &Env,
    asked: Asked,
) -> Result<bool, AllocError> {
    match shares_page(rt, alloc, shelf, print, env, asked) {
        Ok(is_right) => Ok(is_right),
        Err(_) => shares_page(rt, alloc, shelf, print, env, asked),
    }
}

/// Two environments and the fingerprints that they are asked for under.
#[derive(Clone, Copy)]
struct Pair<'a> {
    env: &'a Env,
    print: u64,
    other: &'a Env,
    other_print: u64,
}

/// Whether both get the pages of their own lists, in turn.
fn both_share<E: Levels + Drop, R: Wait>(
    rt: &R,
    alloc: Global,
    shelf: &SharedShelf<Listing<E>>,
    pair: Pair<'_>,
) -> Result<bool, AllocError> {
    for (from, count) in [(0, 1), (0, 2), (2, 2), (6, 9)] {
        let (whole, fewer) = (
            Asked {
                whole: 7,
                from,
                count,
            },
            Asked {
                whole: 4,
                from,
                count,
            },
        );
        let is_right = shares_page_again(rt, alloc, shelf, pair.print, pair.env, whole)?
            && shares_page_again(rt, alloc, shelf, pair.other_print, pair.other, fewer)?;
        if !is_right {
            return Ok(false);
        }
    }
    Ok(true)
}

fn new_shelf(alloc: Global) -> SharedShelf<Listing<Rebuild>> {
    SharedShelf::new(alloc, 1)
}

/// Whether the two environments get their lists from one shelf, under one fingerprint or each under its own.
fn get_their_lists<R: Wait>(
    rt: &R,
    alloc: Global,
    has_one_print: bool,
) -> Result<bool, AllocError> {
    let (env, other) = (
        environment(alloc, SHEETS[0])?,
        environment(alloc, SHEETS[1])?,
    );
    let print = print_of(&env);
    let pair = Pair {
        env: &env,
        print,
        other: &other,
        other_print: if has_one_print {
            print
        } else {
            print_of(&other)
        },
    };
    both_share(rt, alloc, &new_shelf(alloc), pair)
}

#[test]
fn environments_under_one_fingerprint_get_their_lists(rt: HostRuntime) -> Result<(), Fail> {
    assert!(rt; get_their_lists(&rt, rt.alloc(), true)?);
    Ok(())
}

#[test]
fn listings_that_are_dropped_are_made_again(rt: HostRuntime) -> Result<(), Fail> {
    assert!(rt; get_their_lists(&rt, rt.alloc(), false)?);
    Ok(())
}
