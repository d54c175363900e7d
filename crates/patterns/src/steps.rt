// The sets that lambdas bind, from the empty one on, and the set in which each lambda's body is sought.

ghost use Rattle.std.specs.Prelude.{◌≡◌, ◌⊎◌, ◌<◌, ◌≤◌, [], ℕ, true, length, slice_get, Some, IfOk, OnOk};
ghost use Rattle.patterns.specs.States.{bound_in, step_at, AreBound, AreSteps, IsBinding, ArePlaced};
ghost use Rattle.patterns.specs.declared.bound_set.BoundSet.{BoundSet};
ghost use Rattle.succinct.specs.Numbering.{IsGrown};
ghost use Rattle.succinct.specs.Sets.{IsRising, joined_with};
ghost use Rattle.succinct.specs.declared.need.Need.{Need};

use crate::bound_set::BoundSet;
use indexmap::IndexSet;
use lists::Items;
use std::alloc::{AllocError, Global};
use succinct::{Need, number_of, set_of};

/// The types with more types.
fn joined(alloc: Global, types: &[u32], more: &[u32]) -> Result<Items<u32>, AllocError>
    requires rising { IsRising types.now }
    ensures value { IfOk result (λ all. all ≡ joined_with types.now more.now) }
{
    let mut all = Vec::new(alloc);
    all.extend_from_slice(types)?;
    all.extend_from_slice(more)?;
    Ok(set_of(all))
}

/// The number of the set with what a lambda binds in the outer one.
fn add_set(
    alloc: Global,
    bound: &mut IndexSet<BoundSet>,
    outer: &BoundSet,
    need: &Need,
) -> Result<u32, AllocError>
    requires rising { IsRising outer.now.types }
    ensures numbered { IfOk result (λ to. slice_get bound.new.keys to ≡ Some (bound_in outer.now need.now)) }
    ensures grown { IsGrown bound.old.keys bound.new.keys }
    ensures only { OnOk result ((k : ℕ) (set : BoundSet) → slice_get bound.new.keys k ≡ Some set → (slice_get bound.old.keys k ≡ Some set) ⊎ ((length bound.old.keys ≤ k) × (set ≡ bound_in outer.now need.now))) }
{
    let types = joined(alloc, outer.types.as_slice(), need.params.as_slice())?;
    let left = outer.left.saturating_sub(1);
    let number = number_of(bound, BoundSet { types, left })?;
    Ok(number)
}

/// The number of the set in which the body of a lambda is sought, and 0 where the need is no lambda's.
fn step_of(
    alloc: Global,
    bound: &mut IndexSet<BoundSet>,
    outer: &BoundSet,
    need: &Need,
) -> Result<u32, AllocError>
    requires rising { IsRising outer.now.types }
    ensures numbered { IfOk result (λ to. need.now.lambda ≡ true → slice_get bound.new.keys to ≡ Some (bound_in outer.now need.now)) }
    ensures grown { IsGrown bound.old.keys bound.new.keys }
    ensures only { OnOk result ((k : ℕ) (set : BoundSet) → slice_get bound.new.keys k ≡ Some set → (slice_get bound.old.keys k ≡ Some set) ⊎ ((length bound.old.keys ≤ k) × (need.now.lambda ≡ true) × (set ≡ bound_in outer.now need.now))) }
{
    if !need.lambda {
        return Ok(0);
    }
    let number = add_set(alloc, bound, outer, need)?;
    Ok(number)
}

/// For each need the set in which it is sought from the outer set, where it is a lambda's.
fn row_of(
    alloc: Global,
    bound: &mut IndexSet<BoundSet>,
    outer: &BoundSet,
    needs: &[Need],
) -> Result<Items<u32>, AllocError>
    requires rising { IsRising outer.now.types }
    ensures placed { IfOk result (λ row. ArePlaced needs.now outer.now bound.new.keys row (length needs.now)) }
    ensures grown { IsGrown bound.old.keys bound.new.keys }
    ensures only { OnOk result ((k : ℕ) (set : BoundSet) → slice_get bound.new.keys k ≡ Some set → (slice_get bound.old.keys k ≡ Some set) ⊎ ((length bound.old.keys ≤ k) × IsBinding needs.now outer.now set)) }
{
    let mut row = Items::new(alloc);
    for n in 0..needs.len() {
        row.push(step_of(alloc, bound, outer, &needs[n])?)?;
    }
    Ok(row)
}

/// The row of a set: none where no lambda is left.
fn row_in(
    alloc: Global,
    bound: &mut IndexSet<BoundSet>,
    outer: &BoundSet,
    needs: &[Need],
) -> Result<Items<u32>, AllocError>
    requires rising { IsRising outer.now.types }
    ensures placed { IfOk result (λ row. 0 < outer.now.left → ArePlaced needs.now outer.now bound.new.keys row (length needs.now)) }
    ensures grown { IsGrown bound.old.keys bound.new.keys }
    ensures only { OnOk result ((k : ℕ) (set : BoundSet) → slice_get bound.new.keys k ≡ Some set → (slice_get bound.old.keys k ≡ Some set) ⊎ ((0 < outer.now.left) × (length bound.old.keys ≤ k) × IsBinding needs.now outer.now set)) }
{
    if outer.left == 0 {
        return Ok(Items::new(alloc));
    }
    let row = row_of(alloc, bound, outer, needs)?;
    Ok(row)
}

/// A copy of a set.
fn copy_set(alloc: Global, set: &BoundSet) -> Result<BoundSet, AllocError>
    ensures equal { IfOk result (λ copy. copy ≡ set.now) }
{
    Ok(BoundSet {
        types: Items::from_slice(alloc, set.types.as_slice())?,
        left: set.left,
    })
}

/// The empty set alone, with all lambdas left.
fn first_set(alloc: Global, depth: u32) -> Result<IndexSet<BoundSet>, AllocError>
    ensures first { IfOk result (λ bound. slice_get bound.keys 0 ≡ Some (record { types = []; left = depth })) }
    ensures only { IfOk result (λ bound. (k : ℕ) (set : BoundSet) → slice_get bound.keys k ≡ Some set → (k ≡ 0) × (set ≡ record { types = []; left = depth })) }
{
    let mut bound = IndexSet::new(alloc);
    let types = Items::new(alloc);
    number_of(&mut bound, BoundSet { types, left: depth })?;
    Ok(bound)
}

/// The sets, and for each of them its row.
#[derive(Drop)]
pub struct Steps {
    pub bound: IndexSet<BoundSet>,
    pub rows: Vec<Items<u32>>,
}

/// All sets that lambdas bind from the empty one on, as deep as they may nest, with their rows. Want of memory is
/// also answered where they would be 2^32 or more.
pub fn all_steps(alloc: Global, needs: &[Need], depth: u32) -> Result<Steps, AllocError>
    ensures first { IfOk result (λ steps. slice_get steps.bound.keys 0 ≡ Some (record { types = []; left = depth })) }
    ensures bound { IfOk result (λ steps. AreBound depth needs.now steps.bound.keys) }
    ensures steps { IfOk result (λ steps. AreSteps needs.now steps.bound.keys steps.rows.items (length steps.bound.keys)) }
{
    let mut bound = first_set(alloc, depth)?;
    let mut rows = Vec::new(alloc);
    for k in 0..4294967296usize {
        if k >= bound.len() {
            return Ok(Steps { bound, rows });
        }
        let outer = copy_set(alloc, &bound.as_slice()[k])?;
        rows.push(row_in(alloc, &mut bound, &outer, needs)?)?;
    }
    Err(AllocError)
}
