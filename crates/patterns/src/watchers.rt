// Who wants something at each state.

ghost use Rattle.std.specs.Prelude.{◌≡◌, ◌<◌, ℕ, true, length, map, slice_get, Some, IfOk, OnOk};
ghost use Rattle.patterns.specs.States.{place_sought};
ghost use Rattle.patterns.specs.Worklist.{AreTargets, AreUsedBy, AreUses, IsAmong, needs_of};
ghost use Rattle.succinct.specs.Numbering.{IsGrown};
ghost use Rattle.succinct.specs.Sets.{has};
ghost use Rattle.succinct.specs.declared.kind.Succinct.{Succinct};

use crate::kinds_by_result::KindsByResult;
use crate::marks::need_place;
use crate::sets::Sets;
use crate::state::State;
use crate::states::States;
use std::alloc::{AllocError, Global};
use succinct::Succinct;

/// A use of a state: its place, and who wants it, a state by its place and a kind that ends in its goal.
#[derive(Clone, Copy, Debug)]
pub struct Use {
    pub target: u32,
    pub place: usize,
    pub kind: u32,
}

/// Notes the use of the state in which a need is sought.
fn add_use(
    sets: &Sets,
    states: &States,
    uses: &mut Vec<Use>,
    from: State,
    place: usize,
    kind: u32,
    need: u32,
) -> Result<(), AllocError>
    requires small { length states.now.keys < 4294967296 }
    ensures used { OnOk result ((j : ℕ) → place_sought sets.now states.now.keys from (slice_get sets.now.wanted need) ≡ Some j → IsAmong uses.new.items (record { target = j; place = place; kind = kind })) }
    ensures grown { OnOk result (IsGrown uses.old.items uses.new.items) }
    ensures in_range { OnOk result (AreTargets (length states.now.keys) uses.old.items → AreTargets (length states.now.keys) uses.new.items) }
{
    match need_place(sets, states, from, need) {
        Some(target) => {
            let target = target as u32;
            uses.push(Use {
                target,
                place,
                kind,
            })?;
            Ok(())
        }
        None => Ok(()),
    }
}

/// Notes the uses by some needs of a kind.
fn add_kind_uses(
    sets: &Sets,
    states: &States,
    uses: &mut Vec<Use>,
    from: State,
    place: usize,
    kind: u32,
    needs: &[u32],
) -> Result<(), AllocError>
    requires small { length states.now.keys < 4294967296 }
    ensures used { OnOk result (AreUsedBy sets.now states.now.keys uses.new.items from place kind needs.now) }
    ensures grown { OnOk result (IsGrown uses.old.items uses.new.items) }
    ensures in_range { OnOk result (AreTargets (length states.now.keys) uses.old.items → AreTargets (length states.now.keys) uses.new.items) }
{
    for need in needs {
        add_use(sets, states, uses, from, place, kind, *need)?;
    }
    Ok(())
}

/// The needs of a kind, none where there is no such kind.
fn needs_of(kinds: &[Succinct], kind: u32) -> &[u32]
    ensures value { result.now ≡ needs_of (slice_get kinds.now kind) }
{
    match kinds.get(kind as usize) {
        Some(found) => found.needs.as_slice(),
        None => &[],
    }
}

/// Notes the uses by the kinds that end in the goal of a state.
fn add_state_uses(
    sets: &Sets,
    kinds: &[Succinct],
    states: &States,
    uses: &mut Vec<Use>,
    from: State,
    place: usize,
    ending: &[u32],
) -> Result<(), AllocError>
    requires small { length states.now.keys < 4294967296 }
    ensures used { OnOk result ((k : ℕ) (found : Succinct) → has k ending.now ≡ true → slice_get kinds.now k ≡ Some found → AreUsedBy sets.now states.now.keys uses.new.items from place k found.needs) }
    ensures grown { OnOk result (IsGrown uses.old.items uses.new.items) }
    ensures in_range { OnOk result (AreTargets (length states.now.keys) uses.old.items → AreTargets (length states.now.keys) uses.new.items) }
{
    for kind in ending {
        let needs = needs_of(kinds, *kind);
        add_kind_uses(sets, states, uses, from, place, *kind, needs)?;
    }
    Ok(())
}

/// The uses of all states by the kinds of all states.
pub fn all_uses(
    alloc: Global,
    sets: &Sets,
    kinds: &KindsByResult<'_>,
    states: &States,
) -> Result<Vec<Use>, AllocError>
    requires small { length states.now.keys < 4294967296 }
    ensures used { IfOk result (λ uses. AreUses sets.now kinds.now.all.now states.now.keys uses.items) }
    ensures in_range { IfOk result (λ uses. AreTargets (length states.now.keys) uses.items) }
{
    let mut uses = Vec::new(alloc);
    for place in 0..states.len() {
        let from = states.as_slice()[place];
        add_state_uses(
            sets,
            kinds.all,
            states,
            &mut uses,
            from,
            place,
            kinds.ends.at(from.goal),
        )?;
    }
    Ok(uses)
}

/// The states that are used, in the order of the uses.
pub fn targets_of(alloc: Global, uses: &[Use]) -> Result<Vec<u32>, AllocError>
    ensures value { IfOk result (λ targets. targets.items ≡ map (λ u. u.target) uses.now) }
{
    let mut targets = Vec::new(alloc);
    for one in uses {
        targets.push(one.target)?;
    }
    Ok(targets)
}
