// Sets of types as rising lists.

ghost use Rattle.std.specs.Prelude.{◌≡◌, OnOk, IfOk};
ghost use Rattle.checker.specs.Floors.{with_type, with_types};
ghost use Rattle.checker.specs.Places.{IsPlace};

use std::alloc::{AllocError, Global};

/// Where a type stands in a rising set, or would stand.
#[tactic(auto, using(crate::proofs::Walks::places))]
fn place_of(set: &[u32], a: u32) -> usize
    ensures { IsPlace set.now a result }
{
    let mut i = 0;
    while i < set.len() {
        if a <= set[i] {
            return i;
        }
        i += 1;
    }
    i
}

/// Adds a type.
#[tactic(auto, using(crate::proofs::Walks::adds))]
fn add_type(set: &mut Vec<u32>, a: u32) -> Result<(), AllocError>
    ensures added { OnOk result (set.new.items ≡ with_type a set.old.items) }
{
    let at = place_of(set, a);
    if at < set.len() && set[at] == a {
        return Ok(());
    }
    set.insert(at, a)?;
    Ok(())
}

/// The set with more types.
#[tactic(auto, using(crate::proofs::Walks::types))]
pub(crate) fn with_types(alloc: Global, set: &[u32], more: &[u32]) -> Result<Vec<u32>, AllocError>
    ensures { IfOk result (λ all. all.items ≡ with_types more.now set.now) }
{
    let mut all = Vec::new(alloc);
    all.extend_from_slice(set)?;
    let mut i = 0;
    while i < more.len() {
        add_type(&mut all, more[i])?;
        i += 1;
    }
    Ok(all)
}
