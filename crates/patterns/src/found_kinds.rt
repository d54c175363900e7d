// The states and their lists.

ghost use Rattle.std.specs.Prelude.{◌≡◌, ◌<◌, ℕ, List, length, map, slice_get, Some, IfOk, OnOk};
ghost use Rattle.patterns.specs.Patterned.{AreFound, IsListOf};
ghost use Rattle.patterns.specs.States.{AreInRange, AreSetsInRange, IsListed, IsOpenState, kinds_of};
ghost use Rattle.patterns.specs.declared.state.State.{State};
ghost use Rattle.succinct.specs.Compression.{AreDistinct};

use crate::kinds_by_result::KindsByResult;
use crate::met_kinds::{all_met, no_marks};
use crate::reachable::explore;
use crate::saturate::settle;
use crate::sets::Sets;
use crate::state::State;
use crate::states::States;
use std::alloc::{AllocError, Global};

/// The states, and for each the kinds that are met there.
#[derive(Drop)]
pub struct Found {
    pub states: States,
    pub lists: Vec<Vec<u32>>,
}

/// The lists of all states.
fn lists_of(
    alloc: Global,
    sets: &Sets,
    kinds: &KindsByResult<'_>,
    states: &States,
) -> Result<Vec<Vec<u32>>, AllocError>
    requires closed { (s : State) → IsListed states.now.keys s → IsOpenState sets.now kinds.now.all.now states.now.keys s (kinds_of kinds.now.all.now s.goal) }
    requires small { length states.now.keys < 4294967296 }
    ensures distinct { OnOk result (AreDistinct states.now.keys) }
    ensures as_many { IfOk result (λ lists. length lists.items ≡ length states.now.keys) }
    ensures each { IfOk result (λ lists. (i : ℕ) (s : State) (list : List ℕ) → slice_get states.now.keys i ≡ Some s → slice_get (map (λ l. l.items) lists.items) i ≡ Some list → IsListOf sets.now kinds.now.all.now s list) }
{
    let mut marks = no_marks(alloc, states.len())?;
    settle(alloc, sets, kinds, states, &mut marks)?;
    let lists = all_met(alloc, sets, kinds, states, marks.as_slice())?;
    Ok(lists)
}

/// By how much the guesses of one set stand apart from those of the next: an odd number above all goals that are
/// sought, but for the greatest numbers of 32 bits, with which guesses share their places.
fn width_of(sets: &Sets, goal: u32) -> u32 {
    let mut most = goal;
    for wanted in sets.wanted.as_slice() {
        if wanted.goal > most {
            most = wanted.goal;
        }
    }
    most.wrapping_add(1) | 1
}

/// The first state alone.
fn first_state(alloc: Global, sets: &Sets, goal: u32) -> Result<States, AllocError>
    ensures first { IfOk result (λ states. slice_get states.keys 0 ≡ Some (record { set = 0; goal = goal })) }
    ensures only { IfOk result (λ states. (s : State) → IsListed states.keys s → s ≡ record { set = 0; goal = goal }) }
{
    let mut states = States::new(alloc, width_of(sets, goal));
    states.list(State { set: 0, goal })?;
    Ok(states)
}

/// All states that the goal leads to, with their lists. Want of memory is also answered where the states
/// would be 2^32 or more.
pub fn find(
    alloc: Global,
    sets: &Sets,
    kinds: &KindsByResult<'_>,
    goal: u32,
) -> Result<Found, AllocError>
    ensures found { IfOk result (λ f. AreFound sets.now kinds.now.all.now goal f.states.keys (map (λ l. l.items) f.lists.items)) }
    ensures in_range { IfOk result (λ f. 0 < length sets.now.bound → AreSetsInRange sets.now → AreInRange sets.now f.states.keys) }
    ensures small { IfOk result (λ f. length f.states.keys < 4294967296) }
{
    let mut states = first_state(alloc, sets, goal)?;
    explore(sets, kinds, &mut states)?;
    let lists = lists_of(alloc, sets, kinds, &states)?;
    Ok(Found { states, lists })
}
