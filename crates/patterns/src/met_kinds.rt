// The kinds that are met at each state.

ghost use Rattle.std.specs.Prelude.{◌≡◌, ◌<◌, ℕ, false, length, map, slice_get, slice_index_or, Some, IfOk};
ghost use Rattle.patterns.specs.States.{AreLists};

use crate::kinds_by_result::KindsByResult;
use crate::marks::kinds_met;
use crate::sets::Sets;
use crate::states::States;
use std::alloc::{AllocError, Global};

/// No mark for any state.
pub fn no_marks(alloc: Global, count: usize) -> Result<Vec<bool>, AllocError>
    ensures as_many { IfOk result (λ marks. length marks.items ≡ count) }
    ensures none { IfOk result (λ marks. (i : ℕ) → slice_index_or marks.items i false ≡ false) }
{
    let mut marks = Vec::new(alloc);
    for _ in 0..count {
        marks.push(false)?;
    }
    Ok(marks)
}

/// For each state the kinds that end in its goal and are met there.
pub fn all_met(
    alloc: Global,
    sets: &Sets,
    kinds: &KindsByResult<'_>,
    states: &States,
    marks: &[bool],
) -> Result<Vec<Vec<u32>>, AllocError>
    ensures as_many { IfOk result (λ lists. length lists.items ≡ length states.now.keys) }
    ensures each { IfOk result (λ lists. AreLists sets.now kinds.now.all.now states.now.keys marks.now states.now.keys (map (λ l. l.items) lists.items)) }
{
    let mut lists = Vec::new(alloc);
    for from in states.as_slice() {
        lists.push(kinds_met(
            alloc,
            sets,
            kinds.all,
            states,
            marks,
            *from,
            kinds.ends.at(from.goal),
        )?)?;
    }
    Ok(lists)
}
