// Whether what may stand at a state reaches its floor.

ghost use Rattle.std.specs.Prelude.{◌≡◌, ◌≤◌, ℕ, true, false, slice_get, IfOk};
ghost use Rattle.std.specs.List.Sorted.{IsStrictlyIncreasing};
ghost use Rattle.checker.specs.Floors.{top, IsFloor};
ghost use Rattle.checker.specs.Checks.{head_reaches, found_reaches, places_reach, variable_reaches, variables_reach};
ghost use Rattle.checker.specs.Heads.{AreHeads, TypeReaches, PairReaches, LowersReach};

use crate::floor::Floor;
use crate::floor_table::FloorTable;
use crate::heads::Heads;
use crate::rest::rest_of;
use number_places::list_at;
use std::alloc::{AllocError, Global};
use terms::{Decl, Env};

/// Whether a head reaches the floor.
#[tactic(auto, unfolding(crate::specs::Checks::head_reaches))]
fn head_reaches(
    alloc: Global,
    env: &Env,
    floors: &FloorTable,
    floor: &Floor,
    decl: &Decl,
) -> Result<bool, AllocError>
    requires low { floor.now.floor ≤ top env.now }
    ensures { IfOk result (λ r. r ≡ head_reaches env.now floors.now floor.now decl.now) }
{
    let step = u64::from(env.step(decl.result, floor.goal));
    let most = u64::from(floor.floor)
        .saturating_sub(u64::from(decl.weight))
        .saturating_sub(step);
    let rest = rest_of(
        alloc,
        env,
        floors,
        floor.set.as_slice(),
        floor.left,
        decl.args.as_slice(),
        most,
    )?;
    Ok(rest == 0)
}

/// Whether the declaration with a number does.
fn found_reaches(
    alloc: Global,
    env: &Env,
    floors: &FloorTable,
    floor: &Floor,
    number: u32,
) -> Result<bool, AllocError>
    requires low { floor.now.floor ≤ top env.now }
    ensures { IfOk result (λ r. r ≡ found_reaches env.now floors.now floor.now (slice_get env.now.decls number)) }
{
    match env.parts().decls.get(number as usize) {
        Some(decl) => head_reaches(alloc, env, floors, floor, decl),
        None => Ok(true),
    }
}

/// Whether the declarations with these numbers do.
#[tactic(auto, using(crate::proofs::Walks::numbers))]
fn places_reach(
    alloc: Global,
    env: &Env,
    floors: &FloorTable,
    floor: &Floor,
    numbers: &[u32],
) -> Result<bool, AllocError>
    requires low { floor.now.floor ≤ top env.now }
    ensures { IfOk result (λ r. r ≡ places_reach env.now floors.now floor.now numbers.now) }
{
    let mut i = 0;
    while i < numbers.len() {
        if !found_reaches(alloc, env, floors, floor, numbers[i])? {
            return Ok(false);
        }
        i += 1;
    }
    Ok(true)
}

/// Whether all declarations that give a type do.
fn type_reaches(
    alloc: Global,
    env: &Env,
    heads: &Heads,
    floors: &FloorTable,
    floor: &Floor,
    lower: u32,
) -> Result<bool, AllocError>
    requires heads { AreHeads env.now heads.now }
    requires low { floor.now.floor ≤ top env.now }
    ensures yes { IfOk result (λ r. r ≡ true → TypeReaches env.now floors.now floor.now lower) }
    ensures no { IfOk result (λ r. r ≡ false → TypeReaches env.now floors.now floor.now lower → ⊥) }
{
    let _parts = env.parts();
    let numbers = list_at(&heads.by_result, lower as usize);
    let reaches = places_reach(alloc, env, floors, floor, numbers)?;
    Ok(reaches)
}

/// Whether all declarations that give the lower type of the pair with a number do.
fn pair_reaches(
    alloc: Global,
    env: &Env,
    heads: &Heads,
    floors: &FloorTable,
    floor: &Floor,
    number: u32,
) -> Result<bool, AllocError>
    requires heads { AreHeads env.now heads.now }
    requires low { floor.now.floor ≤ top env.now }
    ensures yes { IfOk result (λ r. r ≡ true → PairReaches env.now floors.now floor.now number) }
    ensures no { IfOk result (λ r. r ≡ false → PairReaches env.now floors.now floor.now number → ⊥) }
{
    match env.parts().pairs.get(number as usize) {
        Some(pair) => type_reaches(alloc, env, heads, floors, floor, pair.0),
        None => Ok(true),
    }
}

/// Whether all declarations that give a type strictly below the goal do.
fn lowers_reach(
    alloc: Global,
    env: &Env,
    heads: &Heads,
    floors: &FloorTable,
    floor: &Floor,
) -> Result<bool, AllocError>
    requires heads { AreHeads env.now heads.now }
    requires low { floor.now.floor ≤ top env.now }
    ensures yes { IfOk result (λ r. r ≡ true → LowersReach env.now floors.now floor.now) }
    ensures no { IfOk result (λ r. r ≡ false → LowersReach env.now floors.now floor.now → ⊥) }
{
    let _parts = env.parts();
    let numbers = list_at(&heads.by_upper, floor.goal as usize);
    let mut i = 0;
    while i < numbers.len() {
        if !pair_reaches(alloc, env, heads, floors, floor, numbers[i])? {
            return Ok(false);
        }
        i += 1;
    }
    Ok(true)
}

/// Whether a variable of this type reaches the floor, where it may stand there.
#[tactic(auto, unfolding(crate::specs::Checks::variable_reaches))]
fn variable_reaches(env: &Env, floor: &Floor, a: u32) -> bool
    ensures { result ≡ variable_reaches env.now floor.now a }
{
    if !env.is_below(a, floor.goal) {
        return true;
    }
    let step = u64::from(env.step(a, floor.goal));
    u64::from(floor.floor).saturating_sub(u64::from(env.variable_weight()) + step) == 0
}

/// Whether all variables do.
#[tactic(auto, using(crate::proofs::Walks::variables))]
fn variables_reach(env: &Env, floor: &Floor, set: &[u32]) -> bool
    ensures { result ≡ variables_reach env.now floor.now set.now }
{
    let mut i = 0;
    while i < set.len() {
        if !variable_reaches(env, floor, set[i]) {
            return false;
        }
        i += 1;
    }
    true
}

/// Whether the numbers rise.
fn rises(set: &[u32]) -> bool
    ensures yes { result ≡ true → IsStrictlyIncreasing set.now }
    ensures no { result ≡ false → IsStrictlyIncreasing set.now → ⊥ }
{
    let mut i = 1;
    while i < set.len() {
        if set[i] <= set[i - 1] {
            return false;
        }
        i += 1;
    }
    true
}

/// Whether a listed floor holds.
#[tactic(auto, using(crate::proofs::Meets::meets))]
pub(crate) fn holds(
    alloc: Global,
    env: &Env,
    heads: &Heads,
    floors: &FloorTable,
    floor: &Floor,
) -> Result<bool, AllocError>
    requires heads { AreHeads env.now heads.now }
    ensures yes { IfOk result (λ r. r ≡ true → IsFloor env.now floors.now floor.now) }
    ensures no { IfOk result (λ r. r ≡ false → IsFloor env.now floors.now floor.now → ⊥) }
{
    if u64::from(floor.floor) > u64::from(env.parts().limit) + 1 {
        return Ok(false);
    }
    if !rises(floor.set.as_slice()) {
        return Ok(false);
    }
    if !variables_reach(env, floor, floor.set.as_slice()) {
        return Ok(false);
    }
    if !type_reaches(alloc, env, heads, floors, floor, floor.goal)? {
        return Ok(false);
    }
    lowers_reach(alloc, env, heads, floors, floor)
}
