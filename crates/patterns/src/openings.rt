// The states that a state leads to.

ghost use Rattle.std.specs.Prelude.{◌≡◌, ◌⊎◌, ◌<◌, OnOk, length, slice_get, Some};
ghost use Rattle.succinct.specs.Numbering.{IsGrown};
ghost use Rattle.succinct.specs.declared.kind.Succinct.{Succinct};
ghost use Rattle.patterns.specs.States.{AreInRange, AreSetsInRange, IsListed, IsOpenNeed, IsOpenKind, IsOpenState};
ghost use Rattle.patterns.specs.declared.state.State.{State};

use crate::sets::Sets;
use crate::state::State;
use crate::states::States;
use std::alloc::AllocError;
use succinct::Succinct;

/// Lists a state.
pub fn list_state(states: &mut States, state: State) -> Result<(), AllocError>
    ensures listed { OnOk result (IsListed states.new.keys state) }
    ensures grown { IsGrown states.old.keys states.new.keys }
    ensures only { OnOk result ((s : State) → IsListed states.new.keys s → IsListed states.old.keys s ⊎ (s ≡ state)) }
{
    states.list(state)
}

/// Lists the state in which a need is sought.
pub fn open_need(sets: &Sets, states: &mut States, from: State, need: u32) -> Result<(), AllocError>
    ensures open { OnOk result (IsOpenNeed sets.now states.new.keys from need) }
    ensures grown { IsGrown states.old.keys states.new.keys }
    ensures in_range { OnOk result (AreSetsInRange sets.now → from.set < length sets.now.bound → AreInRange sets.now states.old.keys → AreInRange sets.now states.new.keys) }
{
    let wanted = match sets.wanted(need) {
        Some(wanted) => wanted,
        None => return Ok(()),
    };
    match sets.set_sought(from.set, wanted) {
        Some(set) => list_state(
            states,
            State {
                set,
                goal: wanted.goal,
            },
        ),
        None => Ok(()),
    }
}

/// Lists the states in which the needs of a kind are sought.
pub fn open_kind(
    sets: &Sets,
    states: &mut States,
    from: State,
    needs: &[u32],
) -> Result<(), AllocError>
    ensures open { OnOk result (IsOpenKind sets.now states.new.keys from needs.now) }
    ensures grown { IsGrown states.old.keys states.new.keys }
    ensures in_range { OnOk result (AreSetsInRange sets.now → from.set < length sets.now.bound → AreInRange sets.now states.old.keys → AreInRange sets.now states.new.keys) }
{
    for need in needs {
        open_need(sets, states, from, *need)?;
    }
    Ok(())
}

/// Lists the states in which the needs of a kind are sought, by the kind's number.
fn open_numbered(
    sets: &Sets,
    states: &mut States,
    from: State,
    kinds: &[Succinct],
    kind: u32,
) -> Result<(), AllocError>
    ensures open { OnOk result ((found : Succinct) → slice_get kinds.now kind ≡ Some found → IsOpenKind sets.now states.new.keys from found.needs) }
    ensures grown { IsGrown states.old.keys states.new.keys }
    ensures in_range { OnOk result (AreSetsInRange sets.now → from.set < length sets.now.bound → AreInRange sets.now states.old.keys → AreInRange sets.now states.new.keys) }
{
    match kinds.get(kind as usize) {
        Some(found) => {
            open_kind(sets, states, from, found.needs.as_slice())?;
            Ok(())
        }
        None => Ok(()),
    }
}

/// Lists the states in which the needs of kinds are sought.
pub fn open_state(
    sets: &Sets,
    states: &mut States,
    from: State,
    kinds: &[Succinct],
    ending: &[u32],
) -> Result<(), AllocError>
    ensures open { OnOk result (IsOpenState sets.now kinds.now states.new.keys from ending.now) }
    ensures grown { IsGrown states.old.keys states.new.keys }
    ensures in_range { OnOk result (AreSetsInRange sets.now → from.set < length sets.now.bound → AreInRange sets.now states.old.keys → AreInRange sets.now states.new.keys) }
{
    for kind in ending {
        open_numbered(sets, states, from, kinds, *kind)?;
    }
    Ok(())
}
