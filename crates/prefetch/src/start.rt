ghost use Rattle.std.specs.Prelude.{◌≡◌, ◌≤◌, ◌<◌, ◌+◌, ◌-◌, IfOk};
ghost use Rattle.prefetch.specs.Rule.{fresh};
ghost use Rattle.prefetch.specs.Starts.{IsStart, new_senders, sharing_workers};

use crate::access::Access;
use crate::sender::Sender;
use crate::worker::Worker;
use std::alloc::{AllocError, Global};

/// So many senders, numbered from 0, and so many workers, over a new queue with room for `capacity` tasks.
pub fn start_ahead<V: Drop>(
    alloc: Global,
    senders: u32,
    workers: u32,
    capacity: u32,
) -> Result<(Vec<Sender<V>>, Vec<Worker<V>>), AllocError>
    requires senders { (1 ≤ senders) × (senders ≤ 64) }
    requires workers { (1 ≤ workers) × (workers ≤ 8) }
    requires capacity { (1 ≤ capacity) × (capacity ≤ 256) }
    ensures start { IfOk result (λ r. IsStart senders workers capacity r.0.items r.1.items) }
{
    let mut rest = Access::new(alloc, capacity as usize)?;
    let senders = make_senders(alloc, &mut rest, senders)?;
    let workers = make_workers(alloc, rest, workers)?;
    Ok((senders, workers))
}

/// So many senders, with one part of the rest each.
fn make_senders<V: Drop>(
    alloc: Global,
    rest: &mut Access<V>,
    count: u32,
) -> Result<Vec<Sender<V>>, AllocError>
    requires parts { (count ≤ 64) × (rest.old.knows ≡ fresh 72) }
    ensures senders { IfOk result (λ senders. senders.items ≡ new_senders rest.old.queue rest.old.capacity count) }
    ensures rest { IfOk result (λ senders. rest.new ≡ record rest.old { knows = fresh (72 - count) }) }
{
    let mut senders = Vec::new(alloc);
    for number in 0..count {
        senders.push(Sender::new(rest.cut()?, number))?;
    }
    Ok(senders)
}

/// So many workers, with one part of the rest each; the last one has all that remain.
fn make_workers<V: Drop>(
    alloc: Global,
    rest: Access<V>,
    count: u32,
) -> Result<Vec<Worker<V>>, AllocError>
    requires some { 1 ≤ count }
    requires parts { (count ≤ rest.knows.parts) × (rest.knows ≡ fresh rest.knows.parts) }
    ensures workers { IfOk result (λ workers. workers.items ≡ sharing_workers rest.queue rest.knows.parts count) }
{
    let mut rest = rest;
    let mut workers = Vec::new(alloc);
    for _ in 0..count - 1 {
        workers.push(Worker::new(alloc, rest.cut()?))?;
    }
    workers.push(Worker::new(alloc, rest))?;
    Ok(workers)
}
