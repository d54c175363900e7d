// The numbers that solve the equations of the edges, found cheapest first.

ghost use Rattle.std.specs.Prelude.{◌≡◌, ◌<◌, ◌≤◌, ◌∷◌, ℕ, [], List, length, map, slice_get, slice_index_or, Some, IfOk, OnOk, IsPermutation};
ghost use Rattle.least_weights.specs.Numbers.{IsStep, IsSettled, IsSolution, AreSupported};
ghost use Rattle.least_weights.specs.Users.{AreChains, AreUsers};
ghost use Rattle.edges.specs.Edges.{Edge};

use crate::costs::number_at;
use crate::limit::Limit;
use crate::relaxation::{relax_all, relax_chain};
use crate::users::{Users, users_of};
use edges::Edges;
use std::alloc::{AllocError, Global};
use weight_queue::WeightQueue;

/// The first link of a state, 0 also where there is no such state.
fn first_of(firsts: &[u32], state: u32) -> u32
    ensures value { result ≡ slice_index_or firsts.now state 0 }
{
    match firsts.get(state as usize) {
        Some(first) => *first,
        None => 0,
    }
}

/// Goes on from a state that was taken from the queue, unless its number has fallen since.
fn go_on(
    limit: Limit,
    edges: &Edges,
    users: &Users,
    key: u32,
    state: u32,
    numbers: &mut Vec<u32>,
    queue: &mut WeightQueue<u32>,
) -> Result<(), AllocError>
    requires states { (m : ℕ) (e : Edge) → slice_get edges.now m ≡ Some e → e.state < length numbers.old.items }
    requires users { AreUsers edges.now users.now.firsts.items users.now.links.items }
    requires chains { AreChains users.now.firsts.items users.now.links.items }
    requires as_many { length users.now.firsts.items ≡ length numbers.old.items }
    ensures step { OnOk result (IsStep limit.value edges.now numbers.old.items queue.old.items numbers.new.items queue.new.items) }
    ensures settled { OnOk result ((before : List (ℕ × ℕ)) → IsPermutation before ((key, state) ∷ queue.old.items) → ((m : ℕ) (e : Edge) → slice_get edges.now m ≡ Some e → IsSettled limit.value numbers.old.items before e) → (m : ℕ) (e : Edge) → slice_get edges.now m ≡ Some e → IsSettled limit.value numbers.new.items queue.new.items e) }
    ensures as_many { length numbers.new.items ≡ length numbers.old.items }
{
    if key != number_at(limit, numbers.as_slice(), state) {
        return Ok(());
    }
    let first = first_of(users.firsts.as_slice(), state);
    relax_chain(limit, edges, users.links.as_slice(), first, numbers, queue)?;
    Ok(())
}

/// Takes states from the queue, the cheapest first, until it is empty.
fn empty_queue(
    limit: Limit,
    edges: &Edges,
    users: &Users,
    numbers: &mut Vec<u32>,
    queue: &mut WeightQueue<u32>,
) -> Result<(), AllocError>
    requires states { (m : ℕ) (e : Edge) → slice_get edges.now m ≡ Some e → e.state < length numbers.old.items }
    requires users { AreUsers edges.now users.now.firsts.items users.now.links.items }
    requires chains { AreChains users.now.firsts.items users.now.links.items }
    requires as_many { length users.now.firsts.items ≡ length numbers.old.items }
    requires settled { (m : ℕ) (e : Edge) → slice_get edges.now m ≡ Some e → IsSettled limit.value numbers.old.items queue.old.items e }
    requires supported { AreSupported limit.value edges.now numbers.old.items }
    ensures solution { OnOk result (IsSolution limit.value edges.now numbers.new.items) }
    ensures as_many { length numbers.new.items ≡ length numbers.old.items }
{
    while let Some((key, state)) = queue.pop() {
        go_on(limit, edges, users, key, state, numbers, queue)?;
    }
    Ok(())
}

/// The number of each state, above the limit where no edges lead to it within the limit. Each state goes on
/// once from its least number, so the time is about linear in the edges and their tails.
pub fn solve(
    alloc: Global,
    limit: Limit,
    count: usize,
    edges: &Edges,
) -> Result<Vec<u32>, AllocError>
    requires states { (m : ℕ) (e : Edge) → slice_get edges.now m ≡ Some e → e.state < count }
    ensures solution { IfOk result (λ numbers. IsSolution limit.value edges.now numbers.items) }
    ensures as_many { IfOk result (λ numbers. length numbers.items ≡ count) }
{
    let users = users_of(alloc, count, edges)?;
    let mut numbers = vec![in alloc; limit.value + 1; count]?;
    let mut queue = WeightQueue::new(alloc);
    relax_all(limit, edges, &mut numbers, &mut queue)?;
    empty_queue(limit, edges, &users, &mut numbers, &mut queue)?;
    Ok(numbers)
}
