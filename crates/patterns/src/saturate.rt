// The marks of the states that are inhabited.

ghost use Rattle.std.specs.Prelude.{◌≡◌, ◌<◌, ◌≤◌, ◌++◌, ◌∷◌, [], ◌+◌, ℕ, List, true, length, map, slice_get, slice_set, slice_index_or, Some, OnOk};
ghost use Rattle.patterns.specs.Met.{AreSound};
ghost use Rattle.patterns.specs.States.{is_seen, IsSettled};
ghost use Rattle.patterns.specs.Worklist.{AreTargets, AreUses, IsQuiet};
ghost use Rattle.patterns.specs.declared.watchers.Use.{Use};
ghost use Rattle.number_places.specs.Places.{places_of};
ghost use Rattle.succinct.specs.Sets.{has};

use crate::kinds_by_result::{KindsByResult, list_at};
use crate::marks::{is_marked, kind_ends_met, some_kind_is_met};
use crate::sets::Sets;
use crate::state::State;
use crate::states::States;
use crate::watchers::{Use, all_uses, targets_of};
use number_places::places_by_number;
use std::alloc::{AllocError, Global};
use succinct::Succinct;

/// Whether a type is in a set.
fn has(types: &[u32], goal: u32) -> bool
    ensures value { result ≡ has goal types.now }
{
    for one in types {
        if goal == *one {
            return true;
        }
    }
    false
}

/// Whether a state is seen to be inhabited.
fn is_seen(
    sets: &Sets,
    kinds: &KindsByResult<'_>,
    states: &States,
    marks: &[bool],
    from: State,
) -> bool
    ensures value { result ≡ is_seen sets.now kinds.now.all.now states.now.keys marks.now from }
{
    if has(sets.types(from.set), from.goal) {
        return true;
    }
    some_kind_is_met(
        sets,
        kinds.all,
        states,
        marks,
        from,
        kinds.ends.at(from.goal),
    )
}

/// Marks a state, which then is to be looked at.
fn mark(marks: &mut Vec<bool>, worklist: &mut Vec<usize>, place: usize) -> Result<(), AllocError>
    requires in_range { place < length marks.old.items }
    ensures marked { OnOk result (marks.new.items ≡ slice_set marks.old.items place true) }
    ensures listed { OnOk result (worklist.new.items ≡ worklist.old.items ++ place ∷ []) }
{
    worklist.push(place)?;
    marks[place] = true;
    Ok(())
}

/// Marks the state at a place where it is seen to be inhabited.
fn mark_seen(
    sets: &Sets,
    kinds: &KindsByResult<'_>,
    states: &States,
    marks: &mut Vec<bool>,
    worklist: &mut Vec<usize>,
    place: usize,
) -> Result<(), AllocError>
    requires in_range { place < length states.now.keys }
    requires as_many { length marks.old.items ≡ length states.now.keys }
    ensures as_many { OnOk result (length marks.new.items ≡ length states.now.keys) }
    ensures sound { OnOk result (AreSound sets.now kinds.now.all.now states.now.keys marks.old.items → AreSound sets.now kinds.now.all.now states.now.keys marks.new.items) }
    ensures quiet { OnOk result ((uses : List Use) → IsQuiet sets.now kinds.now.all.now states.now.keys uses marks.old.items worklist.old.items 0 [] place → IsQuiet sets.now kinds.now.all.now states.now.keys uses marks.new.items worklist.new.items 0 [] (place + 1)) }
{
    let from = states.as_slice()[place];
    if !is_seen(sets, kinds, states, marks.as_slice(), from) {
        return Ok(());
    }
    mark(marks, worklist, place)?;
    Ok(())
}

/// Goes once through all states, and marks those that are seen to be inhabited.
fn first_round(
    sets: &Sets,
    kinds: &KindsByResult<'_>,
    states: &States,
    marks: &mut Vec<bool>,
    worklist: &mut Vec<usize>,
) -> Result<(), AllocError>
    requires as_many { length marks.old.items ≡ length states.now.keys }
    ensures as_many { OnOk result (length marks.new.items ≡ length states.now.keys) }
    ensures sound { OnOk result (AreSound sets.now kinds.now.all.now states.now.keys marks.old.items → AreSound sets.now kinds.now.all.now states.now.keys marks.new.items) }
    ensures quiet { OnOk result ((uses : List Use) → IsQuiet sets.now kinds.now.all.now states.now.keys uses marks.new.items worklist.new.items 0 [] (length states.now.keys)) }
{
    for place in 0..states.len() {
        mark_seen(sets, kinds, states, marks, worklist, place)?;
    }
    Ok(())
}

/// Marks a state whose kind wants something, where all that the kind wants is marked now.
fn try_use(
    sets: &Sets,
    kinds: &[Succinct],
    states: &States,
    marks: &mut Vec<bool>,
    worklist: &mut Vec<usize>,
    one: Use,
) -> Result<(), AllocError>
    requires as_many { length marks.old.items ≡ length states.now.keys }
    ensures as_many { OnOk result (length marks.new.items ≡ length states.now.keys) }
    ensures longer { OnOk result (length worklist.old.items ≤ length worklist.new.items) }
    ensures sound { OnOk result (AreSound sets.now kinds.now states.now.keys marks.old.items → AreSound sets.now kinds.now states.now.keys marks.new.items) }
    ensures quiet { OnOk result ((uses : List Use) (number i count : ℕ) (rest : List ℕ) → slice_get uses number ≡ Some one → i ≤ length worklist.old.items → IsQuiet sets.now kinds.now states.now.keys uses marks.old.items worklist.old.items i (number ∷ rest) count → IsQuiet sets.now kinds.now states.now.keys uses marks.new.items worklist.new.items i rest count) }
{
    let place = one.place;
    if place >= states.len() {
        return Ok(());
    }
    if is_marked(marks.as_slice(), place) {
        return Ok(());
    }
    let from = states.as_slice()[place];
    if !kind_ends_met(sets, kinds, states, marks.as_slice(), from, one.kind) {
        return Ok(());
    }
    mark(marks, worklist, place)?;
    Ok(())
}

/// The use of a number.
fn use_at(uses: &[Use], number: u32) -> Option<Use>
    ensures value { result ≡ slice_get uses.now number }
{
    uses.get(number as usize).copied()
}

/// Tries the use of a number.
fn try_numbered(
    sets: &Sets,
    kinds: &[Succinct],
    states: &States,
    marks: &mut Vec<bool>,
    worklist: &mut Vec<usize>,
    uses: &[Use],
    number: u32,
) -> Result<(), AllocError>
    requires as_many { length marks.old.items ≡ length states.now.keys }
    ensures as_many { OnOk result (length marks.new.items ≡ length states.now.keys) }
    ensures longer { OnOk result (length worklist.old.items ≤ length worklist.new.items) }
    ensures sound { OnOk result (AreSound sets.now kinds.now states.now.keys marks.old.items → AreSound sets.now kinds.now states.now.keys marks.new.items) }
    ensures quiet { OnOk result ((i count : ℕ) (rest : List ℕ) → i ≤ length worklist.old.items → IsQuiet sets.now kinds.now states.now.keys uses.now marks.old.items worklist.old.items i (number ∷ rest) count → IsQuiet sets.now kinds.now states.now.keys uses.now marks.new.items worklist.new.items i rest count) }
{
    match use_at(uses, number) {
        Some(one) => try_use(sets, kinds, states, marks, worklist, one),
        None => Ok(()),
    }
}

/// Tries the uses of some numbers.
fn wake(
    sets: &Sets,
    kinds: &[Succinct],
    states: &States,
    marks: &mut Vec<bool>,
    worklist: &mut Vec<usize>,
    uses: &[Use],
    numbers: &[u32],
) -> Result<(), AllocError>
    requires as_many { length marks.old.items ≡ length states.now.keys }
    ensures as_many { OnOk result (length marks.new.items ≡ length states.now.keys) }
    ensures sound { OnOk result (AreSound sets.now kinds.now states.now.keys marks.old.items → AreSound sets.now kinds.now states.now.keys marks.new.items) }
    ensures quiet { OnOk result ((i count : ℕ) → i ≤ length worklist.old.items → IsQuiet sets.now kinds.now states.now.keys uses.now marks.old.items worklist.old.items i numbers.now count → IsQuiet sets.now kinds.now states.now.keys uses.now marks.new.items worklist.new.items i [] count) }
{
    for number in numbers {
        try_numbered(sets, kinds, states, marks, worklist, uses, *number)?;
    }
    Ok(())
}

/// Looks at each marked state once, also at those that are marked meanwhile.
fn look(
    sets: &Sets,
    kinds: &[Succinct],
    states: &States,
    marks: &mut Vec<bool>,
    worklist: &mut Vec<usize>,
    uses: &[Use],
    groups: &Vec<Vec<u32>>,
) -> Result<(), AllocError>
    requires as_many { length marks.old.items ≡ length states.now.keys }
    requires used { AreUses sets.now kinds.now states.now.keys uses.now }
    requires targets { AreTargets (length states.now.keys) uses.now }
    requires grouped { (j : ℕ) → j < length states.now.keys → slice_get (map (λ l. l.items) groups.now.items) j ≡ Some (places_of j (map (λ u. u.target) uses.now)) }
    requires quiet { IsQuiet sets.now kinds.now states.now.keys uses.now marks.old.items worklist.old.items 0 [] (length states.now.keys) }
    ensures sound { OnOk result (AreSound sets.now kinds.now states.now.keys marks.old.items → AreSound sets.now kinds.now states.now.keys marks.new.items) }
    ensures settled { OnOk result (IsSettled sets.now kinds.now states.now.keys marks.new.items) }
{
    for i in 0..4294967296usize {
        if i >= worklist.len() {
            return Ok(());
        }
        let place = worklist[i];
        wake(
            sets,
            kinds,
            states,
            marks,
            worklist,
            uses,
            list_at(groups, place),
        )?;
    }
    Err(AllocError)
}

/// Marks until nothing more can be marked. Want of memory is also answered where there are 2^32 uses.
pub fn settle(
    alloc: Global,
    sets: &Sets,
    kinds: &KindsByResult<'_>,
    states: &States,
    marks: &mut Vec<bool>,
) -> Result<(), AllocError>
    requires small { length states.now.keys < 4294967296 }
    requires as_many { length marks.old.items ≡ length states.now.keys }
    ensures sound { OnOk result (AreSound sets.now kinds.now.all.now states.now.keys marks.old.items → AreSound sets.now kinds.now.all.now states.now.keys marks.new.items) }
    ensures settled { OnOk result (IsSettled sets.now kinds.now.all.now states.now.keys marks.new.items) }
{
    let uses = all_uses(alloc, sets, kinds, states)?;
    let targets = targets_of(alloc, uses.as_slice())?;
    let groups = places_by_number(alloc, states.len(), targets.as_slice())?;
    let mut worklist = Vec::new(alloc);
    first_round(sets, kinds, states, marks, &mut worklist)?;
    look(
        sets,
        kinds.all,
        states,
        marks,
        &mut worklist,
        uses.as_slice(),
        &groups,
    )?;
    Ok(())
}
