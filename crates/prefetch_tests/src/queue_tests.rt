ghost use Rattle.std.specs.Prelude.{◌≡◌, ◌<◌, ◌^◌};

use prefetch::{HandFault, Sender, Task, Worker, start_ahead};
use std::alloc::{AllocError, Global};
use std::sync::{Arc, Mutex, Wait};
use std::test::Fail;

/// A slot with a number.
fn slot_of(alloc: Global, number: u64) -> Result<Arc<Mutex<u64>, Global>, AllocError> {
    Arc::new(alloc, Mutex::new(number)).map_err(|_| AllocError)
}

/// The number in the slot that was refused, where the queue was full.
fn refused<R: Wait>(rt: &R, answer: Result<(), HandFault<u64>>) -> Option<u64> {
    match answer {
        Err(HandFault::Full(slot)) => Some(*slot.lock(rt)),
        _ => None,
    }
}

/// What a task says, with the number in its slot, or the worker had no memory and took none.
fn taken<R: Wait>(rt: &R, worker: &mut Worker<u64>) -> Option<(Task<u64>, u64)> {
    let task = match worker.take(rt) {
        Ok(task) => task,
        Err(_) => worker.take(rt).unwrap_or(None),
    };
    let task = task?;
    let number = *task.slot.lock(rt);
    Some((task, number))
}

/// One place: the second hand is refused, and the task that is taken is the first one.
fn is_refused<R: Wait>(
    rt: &R,
    alloc: Global,
    sender: &mut Sender<u64>,
    worker: &mut Worker<u64>,
) -> Result<bool, AllocError>
    requires none { sender.old.handed ≡ 0 }
{
    if sender.hand(rt, 2, slot_of(alloc, 40)?).is_err() || sender.handed() != 1 {
        return Ok(false);
    }
    let second = sender.hand(rt, 3, slot_of(alloc, 50)?);
    if refused(rt, second) != Some(50) || sender.handed() != 1 {
        return Ok(false);
    }
    let Some((task, number)) = taken(rt, worker) else {
        return Ok(false);
    };
    let is_first = task.sender == 0 && task.number == 0 && task.upto == 2 && number == 40;
    Ok(is_first && worker.take(rt)?.is_none() && worker.taken() == [(0, 0)].as_slice())
}

#[test]
fn a_full_queue_takes_no_further_task(rt: HostRuntime) -> Result<(), Fail> {
    let (mut senders, mut workers) = start_ahead(rt.alloc(), 1, 1, 1)?;
    let (Some(mut sender), Some(mut worker)) = (senders.pop(), workers.pop()) else {
        assert!(rt; false);
        return Ok(());
    };
    assert!(rt; is_refused(&rt, rt.alloc(), &mut sender, &mut worker)?);
    Ok(())
}
