// Floors by their states.

ghost use Rattle.std.specs.Prelude.{◌≡◌, ◌∷◌, List, true, false, not, IfOk, IfSome, IfNone};
ghost use Rattle.checker.specs.Floors.{floor_of, is_among, are_apart};
ghost use Rattle.checker.specs.States.{IsTable};
ghost use Rattle.checker.specs.declared.floor.Floor.{Floor};

use crate::floor::Floor;
use crate::state::State;
use lists::Items;
use std::alloc::{AllocError, Global};
use std::collections::HashMap;
use std::marker::Model;

/// The floor of a state that isn't listed: it bounds nothing.
const UNLISTED: u32 = 0;

/// A list of floors, no two of one state, with a map from states to their floors. Contracts see the list.
#[derive(Drop)]
pub(crate) struct FloorTable<'a> {
    listed: &'a [Floor],
    by_state: HashMap<State, u32>,
}

impl<'a> Model for FloorTable<'a> {
    ghost use Rattle.std.specs.Prelude.{List};
    ghost use Rattle.checker.specs.declared.floor.Floor.{Floor};
    ghost use Rattle.checker.specs.States.{IsTable};

    ghost Value = { List Floor };

    ghost view = { λ t. t.listed.now };

    ghost invariant = { λ t. IsTable t.listed.now t.by_state };
}

/// The state with a copy of the set.
fn state_of(alloc: Global, set: &[u32], left: u32, goal: u32) -> Result<State, AllocError>
    ensures value { IfOk result (λ state. state ≡ record { set = set.now; left = left; goal = goal }) }
{
    Ok(State {
        set: Items::from_slice(alloc, set)?,
        left,
        goal,
    })
}

/// Puts a floor into the map, and says whether none was there for its state.
#[tactic(auto, using(crate::proofs::Tables::added))]
fn add(alloc: Global, map: &mut HashMap<State, u32>, floor: &Floor) -> Result<bool, AllocError>
    ensures table { IfOk result (λ fresh. (fs : List Floor) → IsTable fs map.old → IsTable (floor.now ∷ fs) map.new) }
    ensures fresh { IfOk result (λ fresh. (fs : List Floor) → IsTable fs map.old → fresh ≡ not (is_among floor.now fs)) }
{
    let state = state_of(alloc, floor.set.as_slice(), floor.left, floor.goal)?;
    let before = map.insert(state, floor.floor)?;
    Ok(before.is_none())
}

/// The map of the floors, where no two are of one state.
fn map_of(alloc: Global, floors: &[Floor]) -> Result<Option<HashMap<State, u32>>, AllocError>
    ensures apart { IfOk result (λ o. IfSome o (λ _. are_apart floors.now ≡ true)) }
    ensures table { IfOk result (λ o. IfSome o (λ map. IsTable floors.now map)) }
    ensures repeated { IfOk result (λ o. IfNone o (are_apart floors.now ≡ false)) }
{
    let mut map = HashMap::new(alloc);
    let mut i = floors.len();
    while i > 0 {
        i -= 1;
        if !add(alloc, &mut map, &floors[i])? {
            return Ok(None);
        }
    }
    Ok(Some(map))
}

impl<'a> FloorTable<'a> {
    /// The table of the floors, where no two are of one state.
    pub(crate) fn new(
        alloc: Global,
        floors: &'a [Floor],
    ) -> Result<Option<FloorTable<'a>>, AllocError>
        ensures same { IfOk result (λ o. IfSome o (λ table. table ≡ floors.now)) }
        ensures apart { IfOk result (λ o. IfSome o (λ _. are_apart floors.now ≡ true)) }
        ensures repeated { IfOk result (λ o. IfNone o (are_apart floors.now ≡ false)) }
    {
        match map_of(alloc, floors)? {
            Some(by_state) => Ok(Some(FloorTable {
                listed: floors,
                by_state,
            })),
            None => Ok(None),
        }
    }

    /// The list.
    pub(crate) fn floors(&self) -> &'a [Floor]
        ensures same { result.now ≡ self.now }
    {
        self.listed
    }

    /// The floor of a state, 0 where none is listed.
    pub(crate) fn floor_of(
        &self,
        alloc: Global,
        set: &[u32],
        left: u32,
        goal: u32,
    ) -> Result<u32, AllocError>
        ensures value { IfOk result (λ floor. floor ≡ floor_of self.now set.now left goal) }
    {
        let state = state_of(alloc, set, left, goal)?;
        Ok(self.by_state.get(&state).copied().unwrap_or(UNLISTED))
    }
}
