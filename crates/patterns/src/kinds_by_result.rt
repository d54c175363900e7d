// The kinds by the types in which they end.

ghost use Rattle.std.specs.Prelude.{◌≡◌, ◌==◌, [], map, position, slice_get, slice_index_or, Some, IfOk, IfSome};
ghost use Rattle.patterns.specs.States.{EndTable, AreEnds, ending};

use crate::lookup_cache::Notes;
use indexmap::IndexSet;
use number_places::places_by_number;
use std::alloc::{AllocError, Global};
use std::marker::Model;
use succinct::{Succinct, number_of};

/// For each type the kinds that end in it, rising.
#[derive(Drop)]
pub struct Ends {
    goals: IndexSet<u32>,
    notes: Notes,
    lists: Vec<Vec<u32>>,
}

impl Model for Ends {
    ghost use Rattle.std.specs.Prelude.{map};
    ghost use Rattle.patterns.specs.States.{EndTable};

    ghost Value = { EndTable };

    ghost view = { λ e. record { goals = e.goals.keys; lists = map (λ l. l.items) e.lists.items } };
}

impl Ends {
    /// The kinds of a list by the types in which they end.
    pub fn of(alloc: Global, kinds: &[Succinct]) -> Result<Ends, AllocError>
        ensures ends { IfOk result (λ ends. AreEnds kinds.now ends) }
    {
        let mut goals = IndexSet::new(alloc);
        let numbers = goal_numbers(alloc, &mut goals, kinds)?;
        let lists = places_by_number(alloc, goals.len(), numbers.as_slice())?;
        let notes = notes_of(alloc, goals.as_slice())?;
        Ok(Ends {
            goals,
            notes,
            lists,
        })
    }

    /// The place of a type, if its note is right.
    fn noted_at(&self, goal: u32) -> Option<usize>
        ensures is { IfSome result (λ i. slice_get self.now.goals i ≡ Some goal) }
    {
        let goals = self.goals.as_slice();
        let place = self.notes.at(goal);
        match goals.get(place) {
            Some(found) if *found == goal => Some(place),
            _ => None,
        }
    }

    /// The place of a type.
    fn place_of(&self, goal: u32) -> Option<usize>
        ensures value { result ≡ position (λ x. goal == x) self.now.goals }
    {
        let _ = self.goals.len();
        match self.noted_at(goal) {
            Some(place) => Some(place),
            None => self.goals.get_index_of(&goal),
        }
    }

    /// The kinds that end in a type.
    pub fn at(&self, goal: u32) -> &[u32]
        ensures value { result.now ≡ ending self.now goal }
    {
        match self.place_of(goal) {
            Some(place) => list_at(&self.lists, place),
            None => &[],
        }
    }
}

/// Kinds, with a table of the types in which they end.
#[derive(Drop)]
pub struct KindsByResult<'a> {
    pub all: &'a [Succinct],
    pub ends: Ends,
    ghost right: { AreEnds all.now ends },
}

/// At least two notes for each type.
fn room_for(alloc: Global, goals: &[u32]) -> Result<Notes, AllocError> {
    let mut notes = Notes::new(alloc);
    for _ in 0..32 {
        if goals.len() <= notes.len() / 2 {
            return Ok(notes);
        }
        notes.widen()?;
    }
    Ok(notes)
}

/// Notes of the places of these types.
fn notes_of(alloc: Global, goals: &[u32]) -> Result<Notes, AllocError> {
    let mut notes = room_for(alloc, goals)?;
    let mut place = 0u32;
    for goal in goals {
        notes.note(*goal, place);
        place = place.wrapping_add(1);
    }
    Ok(notes)
}

/// The list at a place, or the empty one.
pub fn list_at(lists: &Vec<Vec<u32>>, place: usize) -> &[u32]
    ensures value { result.now ≡ slice_index_or (map (λ l. l.items) lists.now.items) place [] }
{
    match lists.get(place) {
        Some(list) => list.as_slice(),
        None => &[],
    }
}

/// The numbers of the types in which the kinds end.
pub fn goal_numbers(
    alloc: Global,
    goals: &mut IndexSet<u32>,
    kinds: &[Succinct],
) -> Result<Vec<u32>, AllocError>
    ensures numbered { IfOk result (λ numbers. map (λ i. slice_get goals.new.keys i) numbers.items ≡ map (λ k. Some k.result) kinds.now) }
{
    let mut numbers = Vec::new(alloc);
    for kind in kinds {
        numbers.push(number_of(goals, kind.result)?)?;
    }
    Ok(numbers)
}
