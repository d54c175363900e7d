// The numbers that solve the equations of the rules, the least first.

ghost use Rattle.std.specs.Prelude.{◌≡◌, ◌<◌, ◌≤◌, ◌*◌, ◌/◌, ◌∷◌, [], ℕ, List, map, length, slice_index_or, IfOk, OnOk, IsPermutation};
ghost use Rattle.weight_bounds.specs.Relaxed.{parameters};
ghost use Rattle.weight_bounds.specs.Rules.{Rule, IsRule, sources};
ghost use Rattle.weight_bounds.specs.Numbers.{IsStep, IsSettled, IsSolution, AreSupported};
ghost use Rattle.weight_bounds.specs.Users.{AreUsers};

use crate::costs::{PLACES, number_at};
use crate::parameters::parameters;
use crate::relaxation::{relax_listed, relax_sources, relax_variables};
use crate::setting::Setting;
use crate::users::users_of;
use std::alloc::{AllocError, Global};
use weight_queue::WeightQueue;

/// The sources that want the type of a place.
fn users_at(users: &[Vec<u32>], place: usize) -> &[u32]
    ensures value { result.now ≡ slice_index_or (map (λ l. l.items) users.now) (place / 4) [] }
{
    match users.get(place / PLACES) {
        Some(listed) => listed.as_slice(),
        None => &[],
    }
}

/// Goes on from a place that was taken from the queue, unless its number has fallen since: by the sources that want
/// its type as a value, and by those that want it under one lambda more.
fn go_on(
    setting: &Setting,
    users: &[Vec<u32>],
    key: u32,
    place: usize,
    numbers: &mut [u32],
    queue: &mut WeightQueue<usize>,
) -> Result<(), AllocError>
    requires users { AreUsers (sources setting.now.parts.now) (map (λ l. l.items) users.now) }
    requires as_many { length users.now ≡ length setting.now.parts.now.types }
    requires places { length numbers.old ≡ 4 * length setting.now.parts.now.types }
    ensures step { OnOk result (IsStep setting.now.parts.now setting.now.limit.value numbers.old queue.old.items numbers.new queue.new.items) }
    ensures settled { OnOk result ((before : List (ℕ × ℕ)) → IsPermutation before ((key, place) ∷ queue.old.items) → ((r : Rule) → IsRule setting.now.parts.now r → IsSettled setting.now.parts.now setting.now.limit.value numbers.old before r) → (r : Rule) → IsRule setting.now.parts.now r → IsSettled setting.now.parts.now setting.now.limit.value numbers.new queue.new.items r) }
{
    if key != number_at(setting.limit, numbers, place) {
        return Ok(());
    }
    let left = (place % PLACES) as u32;
    let listed = users_at(users, place);
    relax_listed(setting, listed, left, numbers, queue)?;
    relax_listed(setting, listed, left + 1, numbers, queue)?;
    Ok(())
}

/// Takes places from the queue, the least number first, until it is empty.
fn empty_queue(
    setting: &Setting,
    users: &[Vec<u32>],
    numbers: &mut [u32],
    queue: &mut WeightQueue<usize>,
) -> Result<(), AllocError>
    requires users { AreUsers (sources setting.now.parts.now) (map (λ l. l.items) users.now) }
    requires as_many { length users.now ≡ length setting.now.parts.now.types }
    requires places { length numbers.old ≡ 4 * length setting.now.parts.now.types }
    requires settled { (r : Rule) → IsRule setting.now.parts.now r → IsSettled setting.now.parts.now setting.now.limit.value numbers.old queue.old.items r }
    requires supported { AreSupported setting.now.parts.now setting.now.limit.value numbers.old }
    ensures solution { OnOk result (IsSolution setting.now.parts.now setting.now.limit.value numbers.new) }
{
    while let Some((key, place)) = queue.pop() {
        go_on(setting, users, key, place, numbers, queue)?;
    }
    Ok(())
}

/// The steps for all rules.
fn relax_all(
    setting: &Setting,
    types: &[u32],
    numbers: &mut [u32],
    queue: &mut WeightQueue<usize>,
) -> Result<(), AllocError>
    requires types { types.now ≡ parameters setting.now.parts.now }
    requires places { length numbers.old ≡ 4 * length setting.now.parts.now.types }
    ensures step { OnOk result (IsStep setting.now.parts.now setting.now.limit.value numbers.old queue.old.items numbers.new queue.new.items) }
    ensures settled { OnOk result ((r : Rule) → IsRule setting.now.parts.now r → IsSettled setting.now.parts.now setting.now.limit.value numbers.new queue.new.items r) }
{
    relax_sources(setting, setting.parts.depth, numbers, queue)?;
    for left in 0..setting.parts.depth {
        relax_variables(setting, types, left, numbers, queue)?;
        relax_sources(setting, left, numbers, queue)?;
    }
    Ok(())
}

/// The number of each place, above the limit where no rules lead to it within the limit. Each place goes on once from
/// its least number, so the time is about linear in the sources times the counts of lambdas left, but for the
/// queue's logarithm and for sources that want many types.
pub(crate) fn solve(alloc: Global, setting: &Setting) -> Result<Vec<u32>, AllocError>
    ensures solution { IfOk result (λ numbers. IsSolution setting.now.parts.now setting.now.limit.value numbers.items) }
{
    let users = users_of(alloc, setting.parts)?;
    let types = parameters(alloc, setting.parts)?;
    let mut numbers = vec![in alloc; setting.limit.value + 1; PLACES * setting.parts.types.len()]?;
    let mut queue = WeightQueue::new(alloc);
    relax_all(
        setting,
        types.as_slice(),
        numbers.as_mut_slice(),
        &mut queue,
    )?;
    empty_queue(
        setting,
        users.as_slice(),
        numbers.as_mut_slice(),
        &mut queue,
    )?;
    Ok(numbers)
}
