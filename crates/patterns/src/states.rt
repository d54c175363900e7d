// The listed states, with notes of where each of them stands.

ghost use Rattle.std.specs.Prelude.{◌≡◌, ◌⊎◌, ◌<◌, [], length, slice_get, Some, IfOk, IfSome, OnOk};
ghost use Rattle.patterns.specs.States.{IsListed, state_place};
ghost use Rattle.patterns.specs.declared.state.State.{State};
ghost use Rattle.succinct.specs.Compression.{AreDistinct};
ghost use Rattle.succinct.specs.Numbering.{IsGrown};

use crate::lookup_cache::Notes;
use crate::state::State;
use indexmap::IndexSet;
use std::alloc::{AllocError, Global};
use std::marker::Model;
use succinct::number_of;

/// The states, each once. A note is a guess of a state's place, which is compared before it is believed, so that most
/// look-ups need no hash.
#[derive(Drop)]
pub struct States {
    listed: IndexSet<State>,
    /// How far the notes of a set are from those of the next one.
    width: u32,
    notes: Notes,
}

impl Model for States {
    ghost use Rattle.patterns.specs.States.{StateTable};

    ghost Value = { StateTable };

    ghost view = { λ s. record { keys = s.listed.keys } };
}

/// The number of a state's note: goals that follow each other have numbers that follow each other.
fn number_for(width: u32, state: State) -> u32 {
    state.set.wrapping_mul(width).wrapping_add(state.goal)
}

/// Lists a state, and answers its number.
fn list_state(states: &mut IndexSet<State>, state: State) -> Result<u32, AllocError>
    ensures listed { OnOk result (IsListed states.new.keys state) }
    ensures grown { IsGrown states.old.keys states.new.keys }
    ensures only { OnOk result ((s : State) → IsListed states.new.keys s → IsListed states.old.keys s ⊎ (s ≡ state)) }
{
    let place = number_of(states, state)?;
    Ok(place)
}

/// Notes the places of these states.
fn note_all(notes: &mut Notes, width: u32, states: &[State]) {
    let mut place = 0u32;
    for state in states {
        notes.note(number_for(width, *state), place);
        place = place.wrapping_add(1);
    }
}

/// Notes the place of the state that was listed last, with at least four notes for each state.
fn keep_note(
    notes: &mut Notes,
    width: u32,
    states: &[State],
    state: State,
    place: u32,
) -> Result<(), AllocError> {
    if states.len() > notes.len() / 4 {
        notes.widen()?;
        note_all(notes, width, states);
    }
    notes.note(number_for(width, state), place);
    Ok(())
}

impl States {
    /// No states. The width is best above all goals and odd; any other costs time alone.
    pub fn new(alloc: Global, width: u32) -> States
        ensures empty { result.keys ≡ [] }
    {
        States {
            listed: IndexSet::new(alloc),
            width,
            notes: Notes::new(alloc),
        }
    }

    /// The number of states.
    pub fn len(&self) -> usize
        ensures len { result ≡ length self.now.keys }
        ensures distinct { AreDistinct self.now.keys }
    {
        self.listed.len()
    }

    /// The states, in their order.
    pub fn as_slice(&self) -> &[State]
        ensures keys { result.now ≡ self.now.keys }
    {
        self.listed.as_slice()
    }

    /// The place of a state, if its note is right.
    fn noted_at(&self, state: State) -> Option<usize>
        ensures is { IfSome result (λ i. slice_get self.now.keys i ≡ Some state) }
    {
        let states = self.listed.as_slice();
        let place = self.notes.at(number_for(self.width, state));
        match states.get(place) {
            Some(found) if *found == state => Some(place),
            _ => None,
        }
    }

    /// The place of a state.
    pub fn get_index_of(&self, state: State) -> Option<usize>
        ensures index { result ≡ state_place self.now.keys state }
        ensures within { IfSome result (λ i. i < length self.now.keys) }
    {
        let _ = self.len();
        match self.noted_at(state) {
            Some(place) => Some(place),
            None => self.listed.get_index_of(&state),
        }
    }

    /// Lists a state.
    pub fn list(&mut self, state: State) -> Result<(), AllocError>
        ensures listed { OnOk result (IsListed self.new.keys state) }
        ensures grown { IsGrown self.old.keys self.new.keys }
        ensures only { OnOk result ((s : State) → IsListed self.new.keys s → IsListed self.old.keys s ⊎ (s ≡ state)) }
    {
        if self.noted_at(state).is_some() {
            return Ok(());
        }
        let place = list_state(&mut self.listed, state)?;
        let states = self.listed.as_slice();
        keep_note(&mut self.notes, self.width, states, state, place)?;
        Ok(())
    }
}
