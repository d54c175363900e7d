ghost use Rattle.std.specs.Prelude.{◌+◌, ◌≤◌, length};

use crate::resolve_tests::{environment, write_term};
use java_resolve::{may_resolve, resolve};
use listing::{Item, Listing, Page};
use reconstruction::Rebuild;
use std::alloc::{AllocError, Global};
use terms::Env;

/// Whether the text of an item resolves to its term.
fn is_read_back(alloc: Global, env: &Env, item: &Item) -> Result<bool, AllocError> {
    if !may_resolve(alloc, env)? {
        return Ok(false);
    }
    let Ok(found) = resolve(alloc, env, item.text.as_str()) else {
        return Ok(false);
    };
    let mut read = String::new(alloc);
    let mut given = String::new(alloc);
    write_term(alloc, &found, &mut read)?;
    write_term(alloc, &item.term, &mut given)?;
    Ok(read.as_str() == given.as_str())
}

/// How many of these items there are up to the first whose text doesn't resolve to its term.
fn count_read(alloc: Global, env: &Env, items: &[Item]) -> Result<usize, AllocError> {
    let mut count: usize = 0;
    for item in items {
        if !is_read_back(alloc, env, item)? {
            return Ok(count);
        }
        count = count.saturating_add(1);
    }
    Ok(count)
}

/// The same of the items of a page.
fn count_in(
    alloc: Global,
    env: &Env,
    listing: &Listing<Rebuild>,
    page: &Page,
) -> Result<usize, AllocError>
    requires within { page.now.first + page.now.len ≤ length listing.now.found }
{
    count_read(alloc, env, listing.items(page))
}

/// How many of the first 1,000 items of a sheet's list are read back.
fn count_back(alloc: Global, sheet: &str) -> Result<usize, AllocError> {
    let env = environment(alloc, sheet)?;
    let mut listing: Listing<Rebuild> = Listing::new(alloc, environment(alloc, sheet)?)?;
    let page = listing.page(alloc, 0, 1000)?;
    count_in(alloc, &env, &listing, &page)
}

/// Whether the lists of these sheets are read back, each with so many items.
fn are_read_back(alloc: Global, rows: &[(&str, usize)]) -> Result<bool, AllocError> {
    for row in rows {
        if count_back(alloc, row.0)? != row.1 {
            return Ok(false);
        }
    }
    Ok(true)
}

// Each list's length is that of the lists that are written out in the tests of `list`.
#[test]
fn lists_are_read_back(rt: HostRuntime) -> Result<(), AllocError> {
    let rows = [
        (
            "insynth sheet 1\ntype int\ntype long\nsub int long\ndecl 5 int name x\ndecl 20 int call f long\ngoal long\nlimit 75\n",
            3,
        ),
        (
            "insynth sheet 1\ntype int\ntype long\nsub int long\ndecl 5 int name x\ndecl 20 int call f long\ngoal long\nlimit 74\n",
            2,
        ),
        (
            "insynth sheet 1\ntype int\ntype A\ndecl 5 int name x\ngoal A\n",
            0,
        ),
        (
            "insynth sheet 1\ntype int\ndecl 5 int name b\ndecl 5 int name a\ngoal int\n",
            2,
        ),
        (
            "insynth sheet 1\ntype int\ntype I\ndecl 5 int name x\ndecl 10 I lambda I int -> int\ngoal I\nlimit 20\ndepth 1\n",
            2,
        ),
        (
            "insynth sheet 1\ntype int\ntype I\ndecl 5 int name x\ndecl 10 I lambda I int -> int\ngoal I\nlimit 20\ndepth 0\n",
            0,
        ),
    ];
    assert!(rt; are_read_back(rt.alloc(), &rows)?);
    Ok(())
}

// Overloads that casts tell apart, an overridden method, a method of two interfaces, fields behind `this`, and calls of
// several arguments.
#[test]
fn lists_of_members_are_read_back(rt: HostRuntime) -> Result<(), AllocError> {
    let rows = [
        (
            "insynth sheet 1\ntype int\ntype Object\ntype String\nsub String Object\ndecl 5 String name s\ncrowded 25 int call T.m Object\ncrowded 25 int call T.m String\ngoal int\nlimit 45\n",
            2,
        ),
        (
            "insynth sheet 1\ntype int\ntype A\ntype B\nsub B A\ndecl 5 B name b\ndecl 25 int method m A\ngoal int\nlimit 45\n",
            1,
        ),
        (
            "insynth sheet 1\ntype int\ntype I\ntype J\ntype B\nsub B I\nsub B J\ndecl 5 B name b\ncrowded 25 int method m I\ncrowded 25 int method m J\ngoal int\nlimit 45\n",
            2,
        ),
        (
            "insynth sheet 1\ntype A\ntype B\nsub B A\ndecl 5 B name b\ncrowded 25 A method m A\ngoal A\nlimit 70\n",
            3,
        ),
        (
            "insynth sheet 1\ntype int\ntype P\ndecl 5 P this\ndecl 20 int field k P\ndecl 20 int hidden-field j P\ngoal int\n",
            2,
        ),
        (
            "insynth sheet 1\ntype int\ndecl 5 int name x\ndecl 20 int call f int\ndecl 20 int call g int int\ngoal int\nlimit 50\n",
            7,
        ),
    ];
    assert!(rt; are_read_back(rt.alloc(), &rows)?);
    Ok(())
}
