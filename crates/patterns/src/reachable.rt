// All states that the first one leads to.

ghost use Rattle.std.specs.Prelude.{◌≡◌, ◌<◌, OnOk, length};
ghost use Rattle.patterns.specs.States.{AreInRange, AreSetsInRange, IsListed, IsOpenState, kinds_of};
ghost use Rattle.patterns.specs.declared.state.State.{State};
ghost use Rattle.succinct.specs.Numbering.{IsGrown};

use crate::kinds_by_result::KindsByResult;
use crate::openings::open_state;
use crate::sets::Sets;
use crate::states::States;
use std::alloc::AllocError;

/// Lists the states that the listed ones lead to, until all of them are listed. Want of memory is also
/// answered where they would be 2^32 or more.
pub fn explore(
    sets: &Sets,
    kinds: &KindsByResult<'_>,
    states: &mut States,
) -> Result<(), AllocError>
    ensures open { OnOk result ((s : State) → IsListed states.new.keys s → IsOpenState sets.now kinds.now.all.now states.new.keys s (kinds_of kinds.now.all.now s.goal)) }
    ensures grown { IsGrown states.old.keys states.new.keys }
    ensures in_range { OnOk result (AreSetsInRange sets.now → AreInRange sets.now states.old.keys → AreInRange sets.now states.new.keys) }
    ensures small { OnOk result (length states.new.keys < 4294967296) }
{
    for i in 0..4294967296usize {
        if i >= states.len() {
            return Ok(());
        }
        let from = states.as_slice()[i];
        open_state(sets, states, from, kinds.all, kinds.ends.at(from.goal))?;
    }
    Err(AllocError)
}
