// The edges of each state that can be used, the lightest first.

ghost use Rattle.std.specs.Prelude.{◌≡◌, ◌+◌, ◌<◌, ◌≤◌, ◌++◌, ◌∷◌, [], ℕ, cond, nat_le, length, slice_get, slice_index_or, Some, IfOk, OnOk, IsPermutation};
ghost use Rattle.std.specs.List.Sorted.{IsNonDecreasingBy};
ghost use Rattle.edges.specs.Edges.{Edge};
ghost use Rattle.reconstruction.specs.Totals.{lower_in, AreLightest};
ghost use Rattle.reconstruction.specs.Usable.{usable_below, AreFloors, IsUsable, AreUsable, IsWithin};

use crate::totals::{lighter, number_at};
use edges::Edges;
use lists::Items;
use std::alloc::{AllocError, Global};
use succinct::Rows;
use terms::{Env, Parts};

/// The state of the lower type, where a source is a pair.
pub fn lower(parts: &Parts, source: Option<u32>, tails: &[u32]) -> Option<u32>
    ensures value { result ≡ lower_in parts.now source tails.now }
{
    let number = match source {
        Some(number) => number,
        None => return None,
    };
    if (number as usize) < parts.decls.len() {
        return None;
    }
    if tails.is_empty() {
        return None;
    }
    Some(tails[0])
}

/// What an edge totals at least under a coercion of this weight, where it is one.
fn lower_floor(
    parts: &Parts,
    coercion: u32,
    lightest: &[u32],
    source: Option<u32>,
    tails: &[u32],
) -> u32
    ensures under { (i : ℕ) → lower_in parts.now source tails.now ≡ Some i → result ≤ slice_index_or lightest.now i 0 + coercion }
{
    match lower(parts, source, tails) {
        Some(state) => number_at(lightest, state).saturating_add(coercion),
        None => u32::MAX,
    }
}

/// The floors of all edges, where no declaration's edge is below the lightest of its state.
pub fn all_floors(
    alloc: Global,
    env: &Env,
    edges: &Edges,
    totals: &[u32],
    lightest: &[u32],
) -> Result<Items<u32>, AllocError>
    requires light { AreLightest env.now edges.now totals.now lightest.now }
    ensures floors { IfOk result (λ floors. AreFloors env.now edges.now totals.now floors) }
{
    let parts = env.parts();
    let coercion = env.coercion_weight();
    let mut floors = Items::new(alloc);
    for edge in 0..edges.len() {
        let source = edges.source(edge);
        let under = lower_floor(parts, coercion, lightest, source, edges.tails(edge));
        floors.push(lighter(parts, under, source, number_at(totals, edge)))?;
    }
    Ok(floors)
}

/// Adds the number of an edge whose floor is within the limit.
fn add_within(limit: u32, floors: &[u32], edge: u32, row: &mut Vec<u32>) -> Result<(), AllocError>
    ensures added { OnOk result (row.new.items ≡ row.old.items ++ cond (nat_le (slice_index_or floors.now edge 0) limit) (edge ∷ []) []) }
{
    if number_at(floors, edge) > limit {
        return Ok(());
    }
    row.push(edge)?;
    Ok(())
}

/// Writes the numbers of a state's edges whose floors are within the limit, in the place of what is given.
fn gather(
    limit: u32,
    edges: &Edges,
    floors: &[u32],
    state: u32,
    row: &mut Vec<u32>,
) -> Result<(), AllocError>
    ensures gathered { OnOk result (row.new.items ≡ usable_below limit floors.now edges.now state (length edges.now)) }
{
    row.clear();
    let run = edges.of_state(state);
    for edge in run.start..run.end {
        add_within(limit, floors, edge, row)?;
    }
    Ok(())
}

/// Puts edges into the order of their floors.
fn sort_by_floor(floors: &[u32], row: &mut Vec<u32>)
    ensures same { IsPermutation row.old.items row.new.items }
    ensures rising { IsNonDecreasingBy (λ m. slice_index_or floors.now m 0) row.new.items }
{
    row.sort_unstable_by_key(|edge| number_at(floors, *edge));
}

/// Writes the usable edges of a state in the place of what is given.
fn write_usable(
    limit: u32,
    edges: &Edges,
    floors: &[u32],
    state: u32,
    row: &mut Vec<u32>,
) -> Result<(), AllocError>
    ensures usable { OnOk result (IsUsable limit floors.now edges.now state row.new.items) }
{
    gather(limit, edges, floors, state, row)?;
    sort_by_floor(floors, row);
    Ok(())
}

/// The usable edges of all states. Takes time about linear in the edges, but for the sorting of those that can
/// be used.
pub fn all_usable(
    alloc: Global,
    limit: u32,
    edges: &Edges,
    floors: &[u32],
    states: usize,
) -> Result<Rows, AllocError>
    requires in_range { (m : ℕ) (e : Edge) → slice_get edges.now m ≡ Some e → e.state < states }
    requires few { states < 4294967296 }
    ensures usable { IfOk result (λ rows. AreUsable limit floors.now edges.now rows) }
{
    let mut rows = Rows::new(alloc);
    let mut row = Vec::new(alloc);
    for state in 0..states {
        write_usable(limit, edges, floors, state as u32, &mut row)?;
        rows.push(row.as_slice())?;
    }
    Ok(rows)
}

/// The first edges of a row by rising floors, up to the last within a room.
pub fn within<'a>(floors: &[u32], row: &'a [u32], room: u32) -> &'a [u32]
    requires rising { IsNonDecreasingBy (λ m. slice_index_or floors.now m 0) row.now }
    ensures within { IsWithin floors.now room row.now result.now }
{
    let many = row.partition_point(|edge| number_at(floors, *edge) <= room);
    &row[..many]
}
