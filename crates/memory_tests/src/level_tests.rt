use reconstruction::Rebuild;
use sheets::read_sheet;
use std::alloc::{AllocError, Global};
use std::test::Fail;
use terms::{Env, Level, Levels, Term, TermArg};

/// A name and two calls.
const SHEET: &str =
    "insynth sheet 1\ntype int\ndecl 5 int name x\ndecl 20 int call f int\ndecl 20 int call g int int\ngoal int\nlimit 50\n";

/// The levels of the sheet's list: the weight, how many terms it has, and the sum of what they spell.
const LEVELS: [(u32, usize, u64); 5] = [
    (5, 1, 1),
    (25, 1, 21),
    (30, 1, 311),
    (45, 1, 221),
    (50, 3, 8643),
];

/// The environment of a sheet, read again where memory was wanting.
pub(crate) fn environment(alloc: Global, sheet: &str) -> Result<Env, AllocError> {
    if let Ok(env) = read_sheet(alloc, sheet.as_bytes()) {
        return Ok(env);
    }
    match read_sheet(alloc, sheet.as_bytes()) {
        Ok(env) => Ok(env),
        Err(_) => Err(AllocError),
    }
}

/// The digits behind these that a term spells: for each declaration a digit, its number and 1, and then its arguments.
fn spell(term: &Term, before: u64) -> u64 {
    match term {
        Term::Var(_) => before,
        Term::Head(decl, args) => {
            let digit = u64::from(*decl).saturating_add(1);
            let mut code = before.saturating_mul(10).saturating_add(digit);
            for arg in args.as_slice() {
                code = match arg {
                    TermArg::Plain(term) => spell(term, code),
                    TermArg::Lam(body) => spell(body, code),
                };
            }
            code
        }
    }
}

/// Whether the level has this weight, and so many terms that spell numbers of this sum.
fn is_level(level: &Level, wanted: (u32, usize, u64)) -> bool {
    let mut sum: u64 = 0;
    for term in level.terms.as_slice() {
        sum = sum.saturating_add(spell(term, 0));
    }
    (level.weight, level.terms.len(), sum) == wanted
}

fn begun<E: Levels>(alloc: Global) -> Result<E, AllocError> {
    E::over(alloc, environment(alloc, SHEET)?)
}

/// A search of the sheet, begun anew where memory was wanting.
fn search<E: Levels>(alloc: Global) -> Result<E, AllocError> {
    match begun(alloc) {
        Ok(search) => Ok(search),
        Err(_) => begun(alloc),
    }
}

/// The next level, asked for again where memory was wanting.
fn next_level<E: Levels>(alloc: Global, search: &mut E) -> Result<Option<Level>, AllocError> {
    match search.next_level(alloc) {
        Ok(found) => Ok(found),
        Err(_) => search.next_level(alloc),
    }
}

/// Whether the search gives the levels of the sheet and no more.
fn gives_all<E: Levels>(alloc: Global, search: &mut E) -> Result<bool, AllocError> {
    for wanted in &LEVELS {
        let Some(level) = next_level(alloc, search)? else {
            return Ok(false);
        };
        if !is_level(&level, *wanted) {
            return Ok(false);
        }
    }
    Ok(next_level(alloc, search)?.is_none())
}

#[test]
fn a_search_gives_the_same_levels(rt: HostRuntime) -> Result<(), Fail> {
    let mut search: Rebuild = search(rt.alloc())?;
    assert!(rt; gives_all(rt.alloc(), &mut search)?);
    Ok(())
}
