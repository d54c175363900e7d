// One step for an edge: the number of its state falls where the edge gives less.

ghost use Rattle.std.specs.Prelude.{◌≡◌, ◌<◌, ◌≤◌, ◌∷◌, ℕ, length, slice_get, slice_set, Some, OnOk, IsPermutation};
ghost use Rattle.least_weights.specs.Numbers.{IsStep, IsSettled};
ghost use Rattle.least_weights.specs.Users.{Leads};
ghost use Rattle.least_weights.specs.declared.users.Link.{Link};
ghost use Rattle.edges.specs.Edges.{Edge};

use crate::costs::{cost_of, number_at};
use crate::limit::Limit;
use crate::users::Link;
use edges::Edges;
use std::alloc::AllocError;
use weight_queue::WeightQueue;

/// Lets the number of a state fall, and puts the state in the queue under it.
fn lower(
    numbers: &mut Vec<u32>,
    queue: &mut WeightQueue<u32>,
    state: u32,
    number: u32,
) -> Result<(), AllocError>
    requires in_range { state < length numbers.old.items }
    ensures set { OnOk result (numbers.new.items ≡ slice_set numbers.old.items state number) }
    ensures queued { OnOk result (IsPermutation ((number, state) ∷ queue.old.items) queue.new.items) }
    ensures as_many { length numbers.new.items ≡ length numbers.old.items }
{
    queue.reserve(1)?;
    numbers[state as usize] = number;
    queue.push(number, state);
    Ok(())
}

/// Lets the number of an edge's state fall to what the edge gives, where that is less.
fn relax(
    limit: Limit,
    edges: &Edges,
    edge: u32,
    numbers: &mut Vec<u32>,
    queue: &mut WeightQueue<u32>,
) -> Result<(), AllocError>
    requires in_range { edge < length edges.now }
    requires states { (m : ℕ) (e : Edge) → slice_get edges.now m ≡ Some e → e.state < length numbers.old.items }
    ensures step { OnOk result (IsStep limit.value edges.now numbers.old.items queue.old.items numbers.new.items queue.new.items) }
    ensures settled { OnOk result ((e : Edge) → slice_get edges.now edge ≡ Some e → IsSettled limit.value numbers.new.items queue.new.items e) }
    ensures as_many { length numbers.new.items ≡ length numbers.old.items }
{
    let state = edges.state(edge);
    let shown = numbers.as_slice();
    let before = number_at(limit, shown, state);
    let cost = match cost_of(limit, shown, edges.weight(edge), edges.tails(edge)) {
        Some(cost) => cost,
        None => return Ok(()),
    };
    if before <= cost {
        return Ok(());
    }
    lower(numbers, queue, state, cost)?;
    Ok(())
}

/// The step for the edge of a number, where there is one.
fn relax_numbered(
    limit: Limit,
    edges: &Edges,
    number: u32,
    numbers: &mut Vec<u32>,
    queue: &mut WeightQueue<u32>,
) -> Result<(), AllocError>
    requires states { (m : ℕ) (e : Edge) → slice_get edges.now m ≡ Some e → e.state < length numbers.old.items }
    ensures step { OnOk result (IsStep limit.value edges.now numbers.old.items queue.old.items numbers.new.items queue.new.items) }
    ensures settled { OnOk result ((e : Edge) → slice_get edges.now number ≡ Some e → IsSettled limit.value numbers.new.items queue.new.items e) }
    ensures as_many { length numbers.new.items ≡ length numbers.old.items }
{
    if number >= edges.len() {
        return Ok(());
    }
    relax(limit, edges, number, numbers, queue)
}

/// The steps for the edges of a chain.
pub fn relax_chain(
    limit: Limit,
    edges: &Edges,
    links: &[Link],
    first: u32,
    numbers: &mut Vec<u32>,
    queue: &mut WeightQueue<u32>,
) -> Result<(), AllocError>
    requires states { (m : ℕ) (e : Edge) → slice_get edges.now m ≡ Some e → e.state < length numbers.old.items }
    requires falling { (k : ℕ) (l : Link) → slice_get links.now k ≡ Some l → l.next ≤ k }
    requires within { first ≤ length links.now }
    ensures step { OnOk result (IsStep limit.value edges.now numbers.old.items queue.old.items numbers.new.items queue.new.items) }
    ensures settled { OnOk result ((m : ℕ) (e : Edge) → Leads links.now first m → slice_get edges.now m ≡ Some e → IsSettled limit.value numbers.new.items queue.new.items e) }
    ensures as_many { length numbers.new.items ≡ length numbers.old.items }
{
    let mut at = first;
    while at > 0 {
        let link = links[at as usize - 1];
        relax_numbered(limit, edges, link.edge, numbers, queue)?;
        at = link.next;
    }
    Ok(())
}

/// The steps for all edges.
pub fn relax_all(
    limit: Limit,
    edges: &Edges,
    numbers: &mut Vec<u32>,
    queue: &mut WeightQueue<u32>,
) -> Result<(), AllocError>
    requires states { (m : ℕ) (e : Edge) → slice_get edges.now m ≡ Some e → e.state < length numbers.old.items }
    ensures step { OnOk result (IsStep limit.value edges.now numbers.old.items queue.old.items numbers.new.items queue.new.items) }
    ensures settled { OnOk result ((m : ℕ) (e : Edge) → slice_get edges.now m ≡ Some e → IsSettled limit.value numbers.new.items queue.new.items e) }
    ensures as_many { length numbers.new.items ≡ length numbers.old.items }
{
    for edge in 0..edges.len() {
        relax(limit, edges, edge, numbers, queue)?;
    }
    Ok(())
}
