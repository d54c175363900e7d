// The patterns of a compressed environment.

ghost use Rattle.std.specs.Prelude.{◌≡◌, ◌<◌, ◌≤◌, suc, [], length, slice_get, slice_index_or, IfOk};
ghost use Rattle.patterns.specs.Patterned.{Patterned, ArePatterns, Agrees, AreSought, state_sought};
ghost use Rattle.patterns.specs.States.{types_at, left_at, set_sought, state_place};
ghost use Rattle.succinct.specs.Compression.{IsCompression};
ghost use Rattle.terms.specs.Faults.{IsValid};
ghost use Rattle.terms.specs.Typing.{most_rows};
ghost use Rattle.terms.specs.declared.parts.Parts.{Parts};

use crate::found_kinds::{Found, find};
use crate::kinds_by_result::{Ends, KindsByResult};
use crate::sets::Sets;
use crate::state::State;
use crate::states::States;
use crate::steps::{Steps, all_steps};
use crate::wanted::{Wanted, all_wanted};
use std::alloc::{AllocError, Global};
use std::marker::Model;
use succinct::Compressed;

/// Which states a goal leads to, and which kinds are inhabited at each. It owns its tables.
#[derive(Drop)]
pub struct Patterns {
    sets: Sets,
    states: States,
    lists: Vec<Vec<u32>>,
}

impl Model for Patterns {
    ghost use Rattle.std.specs.Prelude.{map, length, ◌<◌};
    ghost use Rattle.patterns.specs.Patterned.{Patterned};

    ghost Value = { Patterned };

    ghost view = { λ p. record { space = p.sets; states = p.states.keys; lists = map (λ l. l.items) p.lists.items } };

    ghost invariant = { λ p. length p.states.keys < 4294967296 };
}

impl Patterns {
    /// The patterns at a goal, with so many lambdas that may nest. Want of memory is also answered where there
    /// would be 2^32 sets or states, the empty set counted.
    pub fn derive(
        alloc: Global,
        compressed: &Compressed,
        goal: u32,
        depth: u32,
    ) -> Result<Patterns, AllocError>
        requires in_range { depth ≤ most_rows }
        ensures patterns { IfOk result (λ d. ArePatterns compressed.now goal depth d) }
        ensures agrees { IfOk result (λ d. (g : Parts) → IsValid g → IsCompression g compressed.now → Agrees g compressed.now d) }
        ensures sought { IfOk result (λ d. (g : Parts) → IsCompression g compressed.now → AreSought compressed.now d) }
        ensures small { IfOk result (λ d. (length d.space.bound < 4294967296) × (length d.states < 4294967296)) }
    {
        let wanted = all_wanted(alloc, compressed.needs())?;
        let Steps { bound, rows } = all_steps(alloc, compressed.needs(), depth)?;
        if bound.len() > 4294967295 {
            return Err(AllocError);
        }
        let sets = Sets {
            depth,
            bound,
            rows,
            wanted,
        };
        let all = compressed.kinds();
        let ends = Ends::of(alloc, all)?;
        let kinds = KindsByResult { all, ends };
        let Found { states, lists } = find(alloc, &sets, &kinds, goal)?;
        Ok(Patterns {
            sets,
            states,
            lists,
        })
    }

    /// The states, each once; state 0 is the goal's.
    pub fn states(&self) -> &[State]
        ensures value { result.now ≡ self.now.states }
    {
        self.states.as_slice()
    }

    /// The state of a number.
    fn state_at(&self, state: u32) -> Option<State>
        ensures value { result ≡ slice_get self.now.states state }
    {
        self.states.as_slice().get(state as usize).copied()
    }

    /// The kinds that end in the goal of a state and whose needs are all inhabited there.
    pub fn patterns_of(&self, state: u32) -> &[u32]
        requires in_range { state < length self.now.states }
        ensures value { result.now ≡ slice_index_or self.now.lists state [] }
    {
        match self.lists.get(state as usize) {
            Some(list) => list.as_slice(),
            None => &[],
        }
    }

    /// The types of a set: rising at the set of each state, and none where there is no such set.
    pub fn types_of(&self, set: u32) -> &[u32]
        ensures value { result.now ≡ types_at self.now.space set }
    {
        self.sets.types(set)
    }

    /// How many more lambdas may nest in a set.
    pub fn left_of(&self, set: u32) -> u32
        ensures value { result ≡ left_at self.now.space set }
    {
        self.sets.left(set)
    }

    /// The state in which a need is sought from a state. None comes exactly where a lambda is wanted and none
    /// is left, where that state isn't listed, and where there is no such state or need.
    pub fn need_state(&self, state: u32, need: u32) -> Option<u32>
        ensures value { result ≡ state_sought self.now state need }
    {
        let from = match self.state_at(state) {
            Some(from) => from,
            None => return None,
        };
        let wanted = match self.wanted_at(need) {
            Some(wanted) => wanted,
            None => return None,
        };
        let set = match self.set_from(from.set, wanted) {
            Some(set) => set,
            None => return None,
        };
        let goal = wanted.goal;
        self.state_place(State { set, goal })
    }

    /// Where a need is sought.
    fn wanted_at(&self, need: u32) -> Option<Wanted>
        ensures value { result ≡ slice_get self.now.space.wanted need }
    {
        self.sets.wanted(need)
    }

    /// The set in which a want is sought from a set.
    fn set_from(&self, set: u32, wanted: Wanted) -> Option<u32>
        ensures value { result ≡ set_sought self.now.space set wanted }
    {
        self.sets.set_sought(set, wanted)
    }

    /// The number of a state.
    fn state_place(&self, state: State) -> Option<u32>
        ensures value { result ≡ state_place self.now.states state }
    {
        match self.states.get_index_of(state) {
            Some(place) => Some(place as u32),
            None => None,
        }
    }
}
