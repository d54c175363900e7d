ghost use Rattle.std.specs.Prelude.{◌≡◌, ◌+◌, ◌≤◌, length};
ghost use mathlib.Core.List.{IsPrefix};

use listing::Listing;
use prefetch::{Task, Worker, lengthen};
use reconstruction::Rebuild;
use std::alloc::Global;
use std::sync::Wait;
use std::sync::atomic::{AtomicBool, Ordering};
use std::thread;
use std::thread::{Parker, Threads};
use std::time::Duration;

/// How many milliseconds a worker rests at first, and at most, where no task waits.
const SHORTEST_REST: u64 = 1;

const LONGEST_REST: u64 = 32;

/// The rest after one of so many milliseconds, where still no task waits: twice as long.
fn longer_rest(millis: u64) -> u64
    ensures at_most { result ≤ 32 }
{
    if millis < LONGEST_REST / 2 {
        2 * millis
    } else {
        LONGEST_REST
    }
}

/// Lengthens the listing of a task under its lock. Where memory is wanting, the task is dropped.
fn lengthen_slot<R: Wait>(rt: &R, alloc: Global, task: &Task<Listing<Rebuild>>) {
    let mut listing = task.slot.lock(rt);
    let _wanting = lengthen(alloc, &mut *listing, task.upto);
}

/// Takes tasks and lengthens the listing of each, until the flag is set and no task waits then, or memory is wanting to take
/// one. Answers how many were taken. Where none waits it rests, at first for a millisecond and at last for 32. It may wait
/// for another call on the queue and, for each task, for the lock of its listing; it holds no lock while it takes a task.
pub fn work_ahead<R: Wait>(
    rt: &R,
    alloc: Global,
    worker: &mut Worker<Listing<Rebuild>>,
    done: &AtomicBool,
) -> u64
    ensures grown { length worker.new.taken ≡ length worker.old.taken + result }
    ensures kept { IsPrefix worker.old.taken worker.new.taken }
    ensures same { worker.new ≡ record worker.old { taken = worker.new.taken } }
{
    let before = worker.taken().len();
    let parker = Parker::new();
    let mut rest = SHORTEST_REST;
    for _ in rt.forever() {
        let is_done = done.load(Ordering::SeqCst);
        match worker.take(rt) {
            Ok(Some(task)) => {
                lengthen_slot(rt, alloc, &task);
                rest = SHORTEST_REST;
            }
            Ok(None) if !is_done => {
                parker.park_timeout(rt, Duration::from_millis(rest));
                rest = longer_rest(rest);
            }
            _ => break,
        }
    }
    (worker.taken().len() - before) as u64
}

/// Has all workers work ahead, each in a thread.
pub(crate) fn work_all<R: Threads + Wait + Sync>(
    rt: &R,
    alloc: Global,
    done: &AtomicBool,
    workers: Vec<Worker<Listing<Rebuild>>>,
) {
    let mut workers = workers;
    let threads = workers.len();
    if threads == 0 {
        return;
    }
    thread::for_each_mut(
        rt,
        workers.as_mut_slice(),
        threads,
        &|_: usize, worker: &mut Worker<Listing<Rebuild>>| {
            let _taken = work_ahead(rt, alloc, worker, done);
        },
    );
}
