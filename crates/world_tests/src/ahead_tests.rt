ghost use Rattle.std.specs.Prelude.{◌≡◌};
ghost use Rattle.version_board.specs.Versions.{IsVersion};

use crate::shared_page_tests::{calls, names};
use fingerprint::Fingerprinted;
use listing::Listing;
use lists::Items;
use outside::SteadyShelf;
use prefetch::{Sender, Worker, start_ahead};
use reconstruction::Rebuild;
use sessions::{Hub, RunningWorld, World, shared_page};
use shared_shelf::SharedShelf;
use std::alloc::{AllocError, Global};
use std::marker::Brand;
use std::sync::Wait;
use std::test::Fail;
use terms::{Env, EnvFault};
use version_board::{Naming, Opened, Pass, Snapshot, start_board};

type Hands = Sender<Listing<Rebuild>>;

type Takes = Worker<Listing<Rebuild>>;

/// The sender and the worker of a new queue.
fn one_of_each(alloc: Global) -> Result<(Hands, Takes), AllocError> {
    let (mut senders, mut workers) = start_ahead(alloc, 1, 1, 8)?;
    match (senders.pop(), workers.pop()) {
        (Some(sender), Some(worker)) => Ok((sender, worker)),
        _ => Err(AllocError),
    }
}

/// Up to how many items the next task asks, and how many are found for the first page of two by its listing.
fn next_task<R: Wait>(
    rt: &R,
    alloc: Global,
    worker: &mut Takes,
) -> Result<Option<(u64, u64)>, AllocError> {
    match worker.take(rt)? {
        Some(task) => {
            let page = task.slot.lock(rt).page(alloc, 0, 2)?;
            Ok(Some((task.upto, page.grown)))
        }
        None => Ok(None),
    }
}

/// A world of one client that takes the first page of one item, and hands its listing: the task asks for two items more. The
/// item that the worker finds in it isn't found again. Far beyond the list a page hands it as long as two such pages end at
/// 2^62 at most.
fn hands_its_listings<J: Naming, R: Wait + Drop>(
    rt: &R,
    alloc: Global,
    hub: &Hub<J, R>,
    pass: Pass<J>,
    env: &Fingerprinted,
) -> Result<bool, AllocError> {
    let (sender, mut worker) = one_of_each(alloc)?;
    let mut world = RunningWorld {
        rt,
        hub,
        pass,
        shelf: SteadyShelf {
            files: Items::new(alloc),
        },
        ahead: Some(sender),
    };
    let first = world.page(alloc, env, 0, 1)?;
    let task = next_task(rt, alloc, &mut worker)?;
    let second = world.page(alloc, env, 1, 2)?;
    let next = next_task(rt, alloc, &mut worker)?;
    let _far = world.page(alloc, env, (1 << 62) - 2, 1)?;
    let far = next_task(rt, alloc, &mut worker)?;
    let _further = world.page(alloc, env, (1 << 62) - 1, 1)?;
    let none = next_task(rt, alloc, &mut worker)?;
    Ok(
        (first.grown, second.grown) == (2, 0)
            && (task, next) == (Some((3, 1)), Some((7, 0)))
            && (far, none) == (Some((1 << 62, 0)), None),
    )
}

/// The same by the client of a board.
fn client_hands_its_listings<J: Naming, R: Wait + Copy + Drop>(
    rt: R,
    alloc: Global,
    opened: Opened,
    first: Snapshot,
    env: &Fingerprinted,
) -> Result<bool, AllocError>
    requires book { opened.seen.book ≡ J.book }
    requires first { IsVersion J.first first }
{
    let (publisher, mut passes) = start_board::<J, R>(rt, alloc, opened, first, 1)?;
    let hub = Hub::new(alloc, publisher);
    let pass = passes.pop().unwrap();
    hands_its_listings(&rt, alloc, &hub, pass, env)
}

#[test]
fn the_listing_of_a_page_is_handed(rt: HostRuntime) -> Result<(), Fail> {
    let alloc = rt.alloc();
    let first = Snapshot::empty(alloc)?;
    let env = Fingerprinted::new(calls(alloc, "long", 1, 75)?);
    assert!(rt;
        client_hands_its_listings::<Brand, HostRuntime>(rt, alloc, Opened::new(), first, &env)?
    );
    Ok(())
}

/// Whether the first page of an environment under the fingerprint 7 comes with the slot of a listing.
fn has_slot<R: Wait>(
    rt: &R,
    alloc: Global,
    shelf: &SharedShelf<Listing<Rebuild>>,
    env: &Env,
) -> Result<bool, AllocError> {
    let (_, slot) = shared_page(rt, alloc, shelf, 7, env, 0, 1)?;
    Ok(slot.is_some())
}

/// Whether a page tells the slot of the kept listing, and none where it was taken from a listing of its own.
fn tells_kept_slots<R: Wait>(rt: &R, alloc: Global) -> Result<bool, EnvFault> {
    let shelf: SharedShelf<Listing<Rebuild>> = SharedShelf::new(alloc, 2);
    let (kept, other) = (calls(alloc, "long", 1, 75)?, names(alloc)?);
    Ok(
        has_slot(rt, alloc, &shelf, &kept)?
            && !has_slot(rt, alloc, &shelf, &other)?
            && has_slot(rt, alloc, &shelf, &kept)?,
    )
}

#[test]
fn a_listing_of_its_own_has_no_slot(rt: HostRuntime) -> Result<(), Fail> {
    assert!(rt; tells_kept_slots(&rt, rt.alloc())?);
    Ok(())
}
