// Floors at the least weights of states: the goal's first, and then those of the states that a told floor rests on.

ghost use Rattle.std.specs.Prelude.{◌≡◌, ◌<◌, ℕ, List, true, length, map, IfOk};
ghost use Rattle.terms.specs.Expr.{Expr};
ghost use Rattle.terms.specs.Listing.{IsWhole};
ghost use Rattle.succinct.specs.Sets.{has};
ghost use Rattle.checker.specs.Floors.{FloorsHold};
ghost use Rattle.certificates.specs.Floors.{floor_at, first_total};
ghost use Rattle.certificates.specs.Tables.{AreTables};
ghost use Rattle.certificates.specs.Told.{AreAllTold};

use crate::tables::{Tables, tables_of};
use crate::told::Told;
use checker::Floor;
use lists::Items;
use std::alloc::{AllocError, Global};
use terms::Env;

/// The floor of a state.
fn floor_at(alloc: Global, env: &Env, tables: &Tables, state: u32) -> Result<Floor, AllocError>
    requires tables { AreTables env.now tables.now }
    requires in_range { state < length tables.now.patterns.states }
    ensures value { IfOk result (λ f. f ≡ floor_at env.now tables.now.patterns tables.now.least state) }
{
    let at = tables.patterns.states()[state as usize];
    let left = tables.patterns.left_of(at.set);
    let floor = tables.number_of(env, state);
    let set = Items::from_slice(alloc, tables.patterns.types_of(at.set))?;
    Ok(Floor {
        set,
        left,
        goal: at.goal,
        floor,
    })
}

/// The floors of some states.
fn floors_at(
    alloc: Global,
    env: &Env,
    tables: &Tables,
    states: &[u32],
) -> Result<Items<Floor>, AllocError>
    requires tables { AreTables env.now tables.now }
    requires in_range { (state : ℕ) → has state states.now ≡ true → state < length tables.now.patterns.states }
    ensures value { IfOk result (λ list. list ≡ map (floor_at env.now tables.now.patterns tables.now.least) states.now) }
{
    let mut floors = Items::new(alloc);
    for state in states {
        floors.push(floor_at(alloc, env, tables, *state)?)?;
    }
    Ok(floors)
}

/// The states that are told: the goal's, and those that a told floor rests on.
fn told_states(alloc: Global, env: &Env, tables: &Tables) -> Result<Told, AllocError>
    requires tables { AreTables env.now tables.now }
    ensures all { IfOk result (λ told. AreAllTold env.now tables.now.compressed tables.now.patterns tables.now.least told.states) }
{
    let count = tables.patterns.states().len();
    let mut told = Told::of(alloc, count, 0)?;
    tables.tell_all(env, &mut told)?;
    let _states = told.as_slice();
    Ok(told)
}

/// The floors by these tables.
fn floors_by(alloc: Global, env: &Env, tables: &Tables) -> Result<Items<Floor>, AllocError>
    requires tables { AreTables env.now tables.now }
    ensures hold { IfOk result (λ list. (w : ℕ) × FloorsHold env.now list w) }
    ensures first { IfOk result (λ list. (w : ℕ) (es : List Expr) → FloorsHold env.now list w → IsWhole env.now es → w ≡ first_total env.now es) }
{
    let _parts = env.parts();
    let told = told_states(alloc, env, tables)?;
    let list = floors_at(alloc, env, tables, told.as_slice())?;
    Ok(list)
}

/// Floors that hold, the first being the total of the list's first item, the limit and 1 where there is none. Beside the
/// goal's state those are told that a told floor rests on: at a state with a floor a declaration that weighs as much with
/// its binders and its coercion asks for no state of its arguments, and each other one for those of its arguments in
/// order until the sum reaches the floor. Want of memory is also answered where there would be 2^32 states.
pub fn floors(alloc: Global, env: &Env) -> Result<Items<Floor>, AllocError>
    ensures hold { IfOk result (λ list. (w : ℕ) × FloorsHold env.now list w) }
    ensures first { IfOk result (λ list. (w : ℕ) (es : List Expr) → FloorsHold env.now list w → IsWhole env.now es → w ≡ first_total env.now es) }
{
    let tables = tables_of(alloc, env)?;
    floors_by(alloc, env, &tables)
}
