// Which kinds are met at a state, by the states that are marked so far.

ghost use Rattle.std.specs.Prelude.{◌≡◌, ◌<◌, filter, IfOk, IfSome, length, slice_index_or, slice_get, Some, false};
ghost use Rattle.std.specs.List.{list_all, list_any};
ghost use Rattle.patterns.specs.States.{marked_at, need_marked, kind_marked, place_sought};
ghost use Rattle.patterns.specs.Worklist.{ends_marked};

use crate::sets::Sets;
use crate::state::State;
use crate::states::States;
use std::alloc::{AllocError, Global};
use succinct::Succinct;

/// Whether a place is marked.
pub fn is_marked(marks: &[bool], place: usize) -> bool
    ensures value { result ≡ slice_index_or marks.now place false }
{
    match marks.get(place) {
        Some(mark) => *mark,
        None => false,
    }
}

/// The place of the state in which a need is sought.
pub fn need_place(sets: &Sets, states: &States, from: State, need: u32) -> Option<usize>
    ensures value { result ≡ place_sought sets.now states.now.keys from (slice_get sets.now.wanted need) }
    ensures within { IfSome result (λ place. place < length states.now.keys) }
{
    let wanted = match sets.wanted(need) {
        Some(wanted) => wanted,
        None => return None,
    };
    let set = match sets.set_sought(from.set, wanted) {
        Some(set) => set,
        None => return None,
    };
    let goal = wanted.goal;
    states.get_index_of(State { set, goal })
}

/// Whether a need is met.
fn need_is_met(sets: &Sets, states: &States, marks: &[bool], from: State, need: u32) -> bool
    ensures value { result ≡ need_marked sets.now states.now.keys marks.now from need }
{
    match need_place(sets, states, from, need) {
        Some(place) => is_marked(marks, place),
        None => false,
    }
}

/// Whether all of some needs are met.
fn needs_are_met(sets: &Sets, states: &States, marks: &[bool], from: State, needs: &[u32]) -> bool
    ensures value { result ≡ list_all (λ n. need_marked sets.now states.now.keys marks.now from n) needs.now }
{
    for need in needs {
        if !need_is_met(sets, states, marks, from, *need) {
            return false;
        }
    }
    true
}

/// Whether all needs of a kind are met.
fn kind_is_met(
    sets: &Sets,
    kinds: &[Succinct],
    states: &States,
    marks: &[bool],
    from: State,
    kind: u32,
) -> bool
    ensures value { result ≡ kind_marked sets.now kinds.now states.now.keys marks.now from kind }
{
    match kinds.get(kind as usize) {
        Some(found) => needs_are_met(sets, states, marks, from, found.needs.as_slice()),
        None => false,
    }
}

/// Whether a kind ends in the goal of a state and is met there.
pub fn kind_ends_met(
    sets: &Sets,
    kinds: &[Succinct],
    states: &States,
    marks: &[bool],
    from: State,
    kind: u32,
) -> bool
    ensures value { result ≡ ends_marked sets.now kinds.now states.now.keys marks.now from kind }
{
    match kinds.get(kind as usize) {
        Some(found) => {
            found.result == from.goal
                && needs_are_met(sets, states, marks, from, found.needs.as_slice())
        }
        None => false,
    }
}

/// Whether some kind is met.
pub fn some_kind_is_met(
    sets: &Sets,
    kinds: &[Succinct],
    states: &States,
    marks: &[bool],
    from: State,
    ending: &[u32],
) -> bool
    ensures value { result ≡ list_any (λ k. kind_marked sets.now kinds.now states.now.keys marks.now from k) ending.now }
{
    for kind in ending {
        if kind_is_met(sets, kinds, states, marks, from, *kind) {
            return true;
        }
    }
    false
}

/// The kinds that are met, in the order given.
pub fn kinds_met(
    alloc: Global,
    sets: &Sets,
    kinds: &[Succinct],
    states: &States,
    marks: &[bool],
    from: State,
    ending: &[u32],
) -> Result<Vec<u32>, AllocError>
    ensures value { IfOk result (λ met. met.items ≡ filter (λ k. kind_marked sets.now kinds.now states.now.keys marks.now from k) ending.now) }
{
    let mut met = Vec::new(alloc);
    for kind in ending {
        if kind_is_met(sets, kinds, states, marks, from, *kind) {
            met.push(*kind)?;
        }
    }
    Ok(met)
}
