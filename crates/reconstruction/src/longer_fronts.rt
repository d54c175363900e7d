// One partial term more: a front with one number more, and the places that it opens.

ghost use Rattle.std.specs.Prelude.{◌≡◌, ◌<◌, ◌≤◌, ◌++◌, [], length, get_or, IfOk, OnOk};
ghost use Rattle.partial_terms.specs.Chained.{IsGrown};
ghost use Rattle.reconstruction.specs.Tabled.{numbered_under, place_by_numbers, front_of, IsParent, IsTurn, AreGrown, Pushes};

use crate::item::{Arena, Head, Item, Parent};
use crate::numbered_place::{Lambdas, NumberedPlace};
use crate::tables::Tables;
use partial_terms::Chains;
use std::alloc::AllocError;

/// Keeps the numbered places of these states under the same lambdas before a list of such places.
fn keep_places(
    stacks: &mut Chains<NumberedPlace>,
    lambdas: Lambdas,
    states: &[u32],
    rest: u32,
) -> Result<u32, AllocError>
    requires rest { rest < length stacks.old }
    ensures kept { IfOk result (λ i. get_or stacks.new i [] ≡ numbered_under lambdas states.now ++ get_or stacks.old rest []) }
    ensures within { IfOk result (λ i. i < length stacks.new) }
    ensures grown { IsGrown stacks.old stacks.new }
{
    let mut at = rest;
    let mut i = states.len();
    while i > 0 {
        i -= 1;
        let state = states[i];
        at = stacks.cons(NumberedPlace { lambdas, state }, at)?;
    }
    Ok(at)
}

/// Adds the front with the number of a head, which opens these states, if a term within the limit may come of it.
pub fn grow_by(
    tables: &Tables,
    arena: &mut Arena,
    children: &mut Vec<(u32, Item)>,
    parent: Parent,
    head: Head,
    states: &[u32],
) -> Result<(), AllocError>
    requires parent { IsParent tables.now arena.old parent }
    requires head { IsTurn tables.now (place_by_numbers tables.now parent.place) head.number head.total (numbered_under head.lambdas states.now) }
    ensures pushes { OnOk result (Pushes tables.now arena.new (front_of arena.old parent.front) head.number children.old.items children.new.items) }
    ensures grown { AreGrown arena.old arena.new }
{
    let limit = tables.env.parts().limit;
    if parent.base > limit {
        return Ok(());
    }
    if head.total > limit - parent.base {
        return Ok(());
    }
    let key = parent.base + head.total;
    let stack = keep_places(&mut arena.stacks, head.lambdas, states, parent.rest)?;
    let front = arena.fronts.cons(head.number, parent.front)?;
    children.push((key, Item { front, stack }))?;
    Ok(())
}
