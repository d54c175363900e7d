ghost use Rattle.std.specs.Prelude.{◌<◌, ◌≤◌};

use answers::Page;
use fingerprint::print_of;
use listing::Listing;
use lists::{Items, Text};
use reconstruction::Rebuild;
use sessions::shared_page;
use shared_shelf::SharedShelf;
use std::alloc::{AllocError, Global};
use std::sync::Wait;
use terms::{Arg, Decl, Env, EnvFault, Form, Levels, Parts, Steps};

/// What a page is to be: its place and count, how many items are found for it, whether it is the last, and its texts.
#[derive(Clone, Copy)]
struct Wanted<'a> {
    from: u64,
    count: u64,
    grown: u64,
    last: bool,
    texts: &'a [&'a str],
}

fn name(alloc: Global, text: &str) -> Result<Decl, AllocError> {
    Ok(Decl {
        args: Items::new(alloc),
        result: 0,
        weight: 5,
        crowded: false,
        form: Form::Name(Text::from_str(alloc, text)?),
    })
}

/// A call `f` that wants the second type and gives the first.
fn call(alloc: Global) -> Result<Decl, AllocError> {
    let mut args = Items::new(alloc);
    args.push(Arg::Plain(1))?;
    Ok(Decl {
        args,
        result: 0,
        weight: 20,
        crowded: false,
        form: Form::Call(Text::from_str(alloc, "f")?),
    })
}

fn name_and_call(alloc: Global) -> Result<Items<Decl>, AllocError> {
    let mut decls = Items::new(alloc);
    decls.push(name(alloc, "x")?)?;
    decls.push(call(alloc)?)?;
    Ok(decls)
}

fn two_names(alloc: Global) -> Result<Items<Decl>, AllocError> {
    let mut decls = Items::new(alloc);
    decls.push(name(alloc, "b")?)?;
    decls.push(name(alloc, "a")?)?;
    Ok(decls)
}

fn two_types(alloc: Global, second: &str) -> Result<Items<Text>, AllocError> {
    let mut types = Items::new(alloc);
    types.push(Text::from_str(alloc, "int")?)?;
    types.push(Text::from_str(alloc, second)?)?;
    Ok(types)
}

/// An environment of two types, the first below the second.
fn env(
    alloc: Global,
    types: Items<Text>,
    decls: Items<Decl>,
    goal: u32,
    limit: u32,
) -> Result<Env, EnvFault> {
    let parts = Parts {
        types,
        pairs: Items::from_slice(alloc, &[(0, 1)])?,
        decls,
        goal,
        limit,
        depth: 1,
        binder: Text::new(alloc),
        steps: Steps::usual(),
    };
    if !parts.has_lengths() {
        return Err(EnvFault::OutOfMemory);
    }
    Env::checked(alloc, parts)
}

pub(crate) fn calls(alloc: Global, second: &str, goal: u32, limit: u32) -> Result<Env, EnvFault> {
    let types = two_types(alloc, second)?;
    let decls = name_and_call(alloc)?;
    env(alloc, types, decls, goal, limit)
}

pub(crate) fn names(alloc: Global) -> Result<Env, EnvFault> {
    let types = two_types(alloc, "long")?;
    let decls = two_names(alloc)?;
    env(alloc, types, decls, 0, 4000)
}

fn is_wanted(page: &Page, wanted: &Wanted<'_>) -> bool {
    let items = page.items.as_slice();
    let texts = wanted.texts;
    if items.len() != texts.len() {
        return false;
    }
    for i in 0..texts.len() {
        if items[i].text.as_str() != texts[i] {
            return false;
        }
    }
    page.grown == wanted.grown && page.last == wanted.last
}

/// Whether the page under a fingerprint is the one that is wanted.
fn gives<E: Levels + Drop, R: Wait>(
    rt: &R,
    alloc: Global,
    shelf: &SharedShelf<Listing<E>>,
    print: u64,
    env: &Env,
    wanted: &Wanted<'_>,
) -> Result<bool, AllocError> {
    if wanted.from > 1000 || wanted.count == 0 || wanted.count > 1000 {
        return Ok(false);
    }
    let (page, _) = shared_page(rt, alloc, shelf, print, env, wanted.from, wanted.count)?;
    Ok(is_wanted(&page, wanted))
}

/// The whole list of calls and of names as one page, where so many items are found for it.
fn whole_page<'a>(texts: &'a [&'a str], grown: u64) -> Wanted<'a> {
    Wanted {
        from: 0,
        count: 9,
        grown,
        last: true,
        texts,
    }
}

/// Whether two environments that take turns under one fingerprint get their own lists. The first one's listing is kept.
fn takes_turns<E: Levels + Drop, R: Wait>(
    rt: &R,
    alloc: Global,
    shelf: &SharedShelf<Listing<E>>,
) -> Result<bool, EnvFault> {
    let (calls, names) = (calls(alloc, "long", 1, 75)?, names(alloc)?);
    let texts = ["x", "f(x)", "f(f(x))"];
    Ok(
        gives(rt, alloc, shelf, 7, &calls, &whole_page(&texts, 3))?
            && gives(rt, alloc, shelf, 7, &names, &whole_page(&["a", "b"], 2))?
            && gives(rt, alloc, shelf, 7, &calls, &whole_page(&texts, 0))?
            && gives(rt, alloc, shelf, 7, &names, &whole_page(&["a", "b"], 2))?,
    )
}

fn tells_apart<E: Levels + Drop, R: Wait>(rt: &R, alloc: Global) -> Result<bool, EnvFault> {
    let shelf: SharedShelf<Listing<E>> = SharedShelf::new(alloc, 1);
    takes_turns(rt, alloc, &shelf)
}

#[test]
fn environments_under_one_fingerprint_are_told_apart(rt: HostRuntime) -> Result<(), EnvFault> {
    assert!(rt; tells_apart::<Rebuild, HostRuntime>(&rt, rt.alloc())?);
    Ok(())
}

/// Pages of one list. One item more than the page is looked for.
const PAGES: [Wanted<'static>; 5] = [
    Wanted {
        from: 0,
        count: 1,
        grown: 2,
        last: false,
        texts: &["x"],
    },
    Wanted {
        from: 0,
        count: 1,
        grown: 0,
        last: false,
        texts: &["x"],
    },
    Wanted {
        from: 1,
        count: 1,
        grown: 1,
        last: false,
        texts: &["f(x)"],
    },
    Wanted {
        from: 2,
        count: 1,
        grown: 0,
        last: true,
        texts: &["f(f(x))"],
    },
    Wanted {
        from: 9,
        count: 1,
        grown: 0,
        last: true,
        texts: &[],
    },
];

fn gives_all<E: Levels + Drop, R: Wait>(
    rt: &R,
    alloc: Global,
    shelf: &SharedShelf<Listing<E>>,
    env: &Env,
) -> Result<bool, AllocError> {
    for wanted in &PAGES {
        if !gives(rt, alloc, shelf, print_of(env), env, wanted)? {
            return Ok(false);
        }
    }
    Ok(true)
}

fn goes_on<E: Levels + Drop, R: Wait>(rt: &R, alloc: Global) -> Result<bool, EnvFault> {
    let shelf: SharedShelf<Listing<E>> = SharedShelf::new(alloc, 2);
    let env = calls(alloc, "long", 1, 75)?;
    Ok(gives_all(rt, alloc, &shelf, &env)?)
}

/// A page behind the end as the first question on a shelf: all three items are found for it.
fn begins_far<E: Levels + Drop, R: Wait>(rt: &R, alloc: Global) -> Result<bool, EnvFault> {
    let shelf: SharedShelf<Listing<E>> = SharedShelf::new(alloc, 2);
    let env = calls(alloc, "long", 1, 75)?;
    let wanted = Wanted {
        from: 1000,
        count: 9,
        grown: 3,
        last: true,
        texts: &[],
    };
    Ok(gives(rt, alloc, &shelf, 1, &env, &wanted)?)
}

#[test]
fn a_far_page_may_come_first(rt: HostRuntime) -> Result<(), EnvFault> {
    assert!(rt; begins_far::<Rebuild, HostRuntime>(&rt, rt.alloc())?);
    Ok(())
}

#[test]
fn pages_go_on_where_others_stopped(rt: HostRuntime) -> Result<(), EnvFault> {
    assert!(rt; goes_on::<Rebuild, HostRuntime>(&rt, rt.alloc())?);
    Ok(())
}

/// How many steps the search of the kept listing has taken; 0 where none is kept.
pub(crate) fn pops<E: Levels + Drop, R: Wait>(
    rt: &R,
    shelf: &SharedShelf<Listing<E>>,
    print: u64,
) -> Result<u64, AllocError> {
    match shelf.find(rt, print)? {
        Some(slot) => Ok(slot.lock(rt).pops()),
        None => Ok(0),
    }
}

/// The steps of the search after the first four pages of one item, each taken so many times.
fn pops_of_all<E: Levels + Drop, R: Wait>(
    rt: &R,
    alloc: Global,
    env: &Env,
    times: u32,
) -> Result<u64, AllocError> {
    let shelf: SharedShelf<Listing<E>> = SharedShelf::new(alloc, 1);
    for from in 0..4u64 {
        for _ in 0..times {
            let _page = shared_page(rt, alloc, &shelf, 1, env, from, 1)?;
        }
    }
    pops(rt, &shelf, 1)
}

fn searches_once<E: Levels + Drop, R: Wait>(rt: &R, alloc: Global) -> Result<bool, EnvFault> {
    let env = calls(alloc, "long", 1, 75)?;
    let one = pops_of_all::<E, R>(rt, alloc, &env, 1)?;
    Ok(one > 0 && pops_of_all::<E, R>(rt, alloc, &env, 2)? == one)
}

#[test]
fn a_list_is_searched_for_once(rt: HostRuntime) -> Result<(), EnvFault> {
    assert!(rt; searches_once::<Rebuild, HostRuntime>(&rt, rt.alloc())?);
    Ok(())
}
