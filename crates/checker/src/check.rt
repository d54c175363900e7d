ghost use Rattle.std.specs.Prelude.{◌≡◌, ℕ, [], true, false, slice_get, Some, None, IfOk, IfSome, IfNone};
ghost use Rattle.checker.specs.declared.floor.Floor.{Floor};
ghost use Rattle.checker.specs.Heads.{AreHeads};
ghost use Rattle.checker.specs.Floors.{IsFloor, FloorsHold};

use crate::floor::Floor;
use crate::floor_table::FloorTable;
use crate::heads::{Heads, heads_of};
use crate::reaches::holds;
use std::alloc::{AllocError, Global};
use terms::Env;

/// Whether each floor holds.
fn each_holds(
    alloc: Global,
    env: &Env,
    heads: &Heads,
    table: &FloorTable,
) -> Result<bool, AllocError>
    requires heads { AreHeads env.now heads.now }
    ensures yes { IfOk result (λ r. r ≡ true → (k : ℕ) (f : Floor) → slice_get table.now k ≡ Some f → IsFloor env.now table.now f) }
    ensures no { IfOk result (λ r. r ≡ false → ((k : ℕ) (f : Floor) → slice_get table.now k ≡ Some f → IsFloor env.now table.now f) → ⊥) }
{
    let floors = table.floors();
    let mut i = 0;
    while i < floors.len() {
        if !holds(alloc, env, heads, table, &floors[i])? {
            return Ok(false);
        }
        i += 1;
    }
    Ok(true)
}

/// Whether the first floor is that of the goal's state.
#[tactic(auto, using(crate::proofs::Aparts::firsts))]
fn is_first(env: &Env, floor: &Floor) -> bool
    ensures yes { result ≡ true → (floor.now.set ≡ []) × (floor.now.left ≡ env.now.depth) × (floor.now.goal ≡ env.now.goal) }
    ensures no { result ≡ false → (floor.now.set ≡ []) × (floor.now.left ≡ env.now.depth) × (floor.now.goal ≡ env.now.goal) → ⊥ }
{
    floor.set.as_slice().is_empty()
        && floor.left == env.parts().depth
        && floor.goal == env.parts().goal
}

/// The first floor, where the floors hold: each of them is at most the limit and 1, and no variable of its set and no
/// head weighs less there, by the floors of its arguments. Then no inhabitant weighs less than the answer.
#[tactic(auto, using(crate::proofs::Aparts::checks))]
pub fn check_floors(alloc: Global, env: &Env, floors: &[Floor]) -> Result<Option<u32>, AllocError>
    ensures hold { IfOk result (λ o. IfSome o (λ w. FloorsHold env.now floors.now w)) }
    ensures fail { IfOk result (λ o. IfNone o ((w : ℕ) → FloorsHold env.now floors.now w → ⊥)) }
{
    if floors.is_empty() {
        return Ok(None);
    }
    let first = &floors[0];
    if !is_first(env, first) {
        return Ok(None);
    }
    let table = match FloorTable::new(alloc, floors)? {
        Some(table) => table,
        None => return Ok(None),
    };
    let heads = heads_of(alloc, env)?;
    if !each_holds(alloc, env, &heads, &table)? {
        return Ok(None);
    }
    Ok(Some(first.floor))
}
