ghost use Rattle.std.specs.Prelude.{◌≡◌, ◌≤◌, ◌^◌, ◌∷◌, [], IfSome};
ghost use Rattle.prefetch.specs.Starts.{AreAll};

use prefetch::{Sender, Settled, Worker, settle, start_ahead};
use std::alloc::{AllocError, Global};
use std::sync::{Arc, Mutex, Wait};
use std::test::Fail;
use std::thread;
use std::thread::{Threads, join_mut};

type Slot = Arc<Mutex<u64>, Global>;

/// The two elements of a list of two.
fn two_of<T: Drop>(list: Vec<T>) -> Option<(T, T)>
    ensures all { IfSome result (λ r. list.items ≡ r.0 ∷ r.1 ∷ []) }
{
    let mut list = list;
    let second = list.pop()?;
    let first = list.pop()?;
    if !list.is_empty() {
        return None;
    }
    Some((first, second))
}

/// Hands one task; a sender that has handed all that it may, or that has no part of the slot, does nothing.
fn hand_one<R: Wait>(rt: &R, sender: &mut Sender<u64>, upto: u64, slot: &Slot)
    requires upto { (2 ≤ upto) × (upto ≤ 2 ^ 62) }
    ensures same { sender.new ≡ record sender.old { handed = sender.new.handed } }
{
    if sender.handed() >= 1 << 56 {
        return;
    }
    let Ok(slot) = Arc::try_clone(slot) else {
        return;
    };
    let _ = sender.hand(rt, upto, slot);
}

/// Hands three tasks.
fn hand_three<R: Wait>(rt: &R, sender: &mut Sender<u64>, slot: &Slot)
    ensures same { sender.new ≡ record sender.old { handed = sender.new.handed } }
{
    hand_one(rt, sender, 2, slot);
    hand_one(rt, sender, 3, slot);
    hand_one(rt, sender, 4, slot);
}

/// Takes what it finds in some time, and adds what the tasks ask for to what their slots hold.
fn take_some<R: Wait>(rt: &R, worker: &mut Worker<u64>)
    ensures same { worker.new ≡ record worker.old { taken = worker.new.taken } }
{
    for _ in 0..1000 {
        if let Ok(Some(task)) = worker.take(rt) {
            let mut number = task.slot.lock(rt);
            *number = number.saturating_add(task.upto);
        }
        thread::yield_now();
    }
}

fn both_hand<R: Threads + Wait + Sync>(
    rt: &R,
    first: &mut Sender<u64>,
    second: &mut Sender<u64>,
    slot: &Slot,
)
    ensures first { first.new ≡ record first.old { handed = first.new.handed } }
    ensures second { second.new ≡ record second.old { handed = second.new.handed } }
{
    join_mut(
        rt,
        &mut || hand_three(rt, first, slot),
        &mut || hand_three(rt, second, slot),
    );
}

fn both_take<R: Threads + Wait + Sync>(rt: &R, first: &mut Worker<u64>, second: &mut Worker<u64>)
    ensures first { first.new ≡ record first.old { taken = first.new.taken } }
    ensures second { second.new ≡ record second.old { taken = second.new.taken } }
{
    join_mut(
        rt,
        &mut || take_some(rt, first),
        &mut || take_some(rt, second),
    );
}

/// All four at once, each in a thread.
fn all_at_once<R: Threads + Wait + Sync>(
    rt: &R,
    first: &mut Sender<u64>,
    second: &mut Sender<u64>,
    one: &mut Worker<u64>,
    other: &mut Worker<u64>,
    slot: &Slot,
)
    ensures first { first.new ≡ record first.old { handed = first.new.handed } }
    ensures second { second.new ≡ record second.old { handed = second.new.handed } }
    ensures one { one.new ≡ record one.old { taken = one.new.taken } }
    ensures other { other.new ≡ record other.old { taken = other.new.taken } }
{
    join_mut(
        rt,
        &mut || both_hand(rt, first, second, slot),
        &mut || both_take(rt, one, other),
    );
}

/// Two senders and two workers at once, and then what became of the tasks.
fn meet<R: Threads + Wait + Sync>(
    rt: &R,
    alloc: Global,
    senders: Vec<Sender<u64>>,
    workers: Vec<Worker<u64>>,
    slot: &Slot,
) -> Result<Option<Settled>, AllocError>
    requires all { AreAll senders.items workers.items }
{
    let Some((mut first, mut second)) = two_of(senders) else {
        return Ok(None);
    };
    let Some((mut one, mut other)) = two_of(workers) else {
        return Ok(None);
    };
    all_at_once(rt, &mut first, &mut second, &mut one, &mut other, slot);
    let senders = vec![in alloc; first, second]?;
    let workers = vec![in alloc; one, other]?;
    Ok(Some(settle(rt, alloc, senders, workers)?))
}

/// How often a task stands in the list.
fn times(list: &[(u32, u64)], task: (u32, u64)) -> usize {
    list.iter().filter(|other| **other == task).count()
}

/// Whether each of the first three tasks of two senders was taken once or is left, and no other was.
fn has_each_once(settled: &Settled) -> bool {
    let (taken, left) = (settled.taken.as_slice(), settled.left.as_slice());
    for sender in 0..2 {
        for number in 0..3 {
            let task = (sender, number);
            if (times(taken, task), times(left, task)) != (1, 0)
                && (times(taken, task), times(left, task)) != (0, 1)
            {
                return false;
            }
        }
    }
    settled.handed.as_slice() == [3, 3].as_slice() && taken.len().saturating_add(left.len()) == 6
}

#[test]
fn each_task_is_taken_once_or_left(rt: HostRuntime) -> Result<(), Fail> {
    let slot = Arc::new(rt.alloc(), Mutex::new(0)).map_err(|_| AllocError)?;
    let (senders, workers) = start_ahead(rt.alloc(), 2, 2, 8)?;
    match meet(&rt, rt.alloc(), senders, workers, &slot)? {
        Some(settled) => assert!(rt; has_each_once(&settled)),
        None => assert!(rt; false),
    }
    Ok(())
}
