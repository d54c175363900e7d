ghost use Rattle.std.specs.Prelude.{ℕ, ◌≡◌, ◌+◌, ◌++◌, ◌∷◌, [], map, flat_map, length, All, IfOk, OnOk};
ghost use Rattle.prefetch.specs.Tasks.{times};
ghost use Rattle.prefetch.specs.Starts.{AreAll, parts_of};
ghost use Rattle.prefetch.specs.Settling.{tasks_of, taken_by, handed_by, IsEachOnce};

use crate::access::Access;
use crate::sender::Sender;
use crate::worker::Worker;
use std::alloc::{AllocError, Global};
use std::sync::Wait;

/// For how many tasks a queue has room at most.
const MOST_LEFT: usize = 256;

/// What became of the tasks of one start.
#[derive(Drop)]
pub struct Settled {
    /// How many tasks each sender has handed.
    pub handed: Vec<u64>,
    /// The tasks that the workers took, by sender and number, one worker after the other.
    pub taken: Vec<(u32, u64)>,
    /// The tasks that nobody took.
    pub left: Vec<(u32, u64)>,
}

/// Ends a start: takes out what is left. Its memory is taken first.
pub fn settle<V: Drop, R: Wait>(
    rt: &R,
    alloc: Global,
    senders: Vec<Sender<V>>,
    workers: Vec<Worker<V>>,
) -> Result<Settled, AllocError>
    requires all { AreAll senders.items workers.items }
    ensures handed { IfOk result (λ s. s.handed.items ≡ map handed_by senders.items) }
    ensures taken { IfOk result (λ s. s.taken.items ≡ flat_map taken_by workers.items) }
    ensures each_once { IfOk result (λ s. IsEachOnce s.handed.items (s.taken.items ++ s.left.items)) }
{
    let handed = all_handed(alloc, &senders)?;
    let taken = all_taken(alloc, &workers)?;
    let mut left = Vec::with_capacity(alloc, MOST_LEFT)?;
    let all = gather(senders, workers);
    take_left(rt, all, &mut left)?;
    Ok(Settled {
        handed,
        taken,
        left,
    })
}

/// How many tasks each sender has handed.
fn all_handed<V: Drop>(alloc: Global, senders: &[Sender<V>]) -> Result<Vec<u64>, AllocError>
    ensures { IfOk result (λ v. v.items ≡ map handed_by senders.now) }
{
    let mut handed = Vec::new(alloc);
    for sender in senders {
        handed.push(sender.handed())?;
    }
    Ok(handed)
}

/// The tasks that the workers took.
fn all_taken<V: Drop>(alloc: Global, workers: &[Worker<V>]) -> Result<Vec<(u32, u64)>, AllocError>
    ensures { IfOk result (λ v. v.items ≡ flat_map taken_by workers.now) }
{
    let mut taken = Vec::new(alloc);
    for worker in workers {
        taken.extend_from_slice(worker.taken())?;
    }
    Ok(taken)
}

/// Brings all passes together.
fn gather<V: Drop>(senders: Vec<Sender<V>>, workers: Vec<Worker<V>>) -> Access<V>
    requires all { AreAll senders.items workers.items }
    ensures parts { result.knows.parts ≡ 72 }
    ensures sent { result.knows.sent ≡ flat_map tasks_of senders.items }
    ensures got { result.knows.got ≡ flat_map taken_by workers.items }
{
    let mut workers = workers;
    let first = workers.remove(0).into_access();
    gather_senders(gather_workers(first, workers), senders)
}

/// Brings the workers' passes to one.
#[tactic(auto, using(crate::proofs::Gathering::parts_snoc))]
fn gather_workers<V: Drop>(all: Access<V>, workers: Vec<Worker<V>>) -> Access<V>
    requires same { All (λ w. w.queue ≡ all.queue) workers.items }
    ensures queue { result.queue ≡ all.queue }
    ensures parts { result.knows.parts ≡ all.knows.parts + parts_of workers.items }
    ensures sent { result.knows.sent ≡ all.knows.sent }
    ensures got { result.knows.got ≡ all.knows.got ++ flat_map taken_by workers.items }
{
    let mut all = all;
    for worker in workers {
        all.join(worker.into_access());
    }
    all
}

/// Brings the senders' passes to one.
fn gather_senders<V: Drop>(all: Access<V>, senders: Vec<Sender<V>>) -> Access<V>
    requires same { All (λ s. s.queue ≡ all.queue) senders.items }
    ensures parts { result.knows.parts ≡ all.knows.parts + length senders.items }
    ensures sent { result.knows.sent ≡ all.knows.sent ++ flat_map tasks_of senders.items }
    ensures got { result.knows.got ≡ all.knows.got }
{
    let mut all = all;
    for sender in senders {
        all.join(sender.into_access());
    }
    all
}

/// Takes out what is left.
fn take_left<V: Drop, R: Wait>(
    rt: &R,
    all: Access<V>,
    left: &mut Vec<(u32, u64)>,
) -> Result<(), AllocError>
    requires parts { all.knows.parts ≡ 72 }
    requires none { left.old.items ≡ [] }
    ensures settled { OnOk result ((p : ℕ × ℕ) → times p all.knows.sent ≡ times p (all.knows.got ++ left.new.items)) }
{
    let mut all = all;
    for _ in rt.forever() {
        match all.pop(rt) {
            Some(task) => left.push((task.sender, task.number))?,
            None => return Ok(()),
        }
    }
    unreachable!()
}
