ghost use Rattle.std.specs.Prelude.{◌≡◌, ◌≤◌, ◌^◌};
ghost use Rattle.version_board.specs.Versions.{IsVersion};

use crate::frame_tests::{
    AFTER_FIELD, CAPABILITIES, EXIT, FIELD_AND_PARAMETER, INITIALIZE_TO_30, PAGE, SHUTDOWN,
    STOPPED, framed,
};
use crate::gated_tests::started_shelf;
use crate::version_tests::{AFTER_READER, BY_THREE, DEMO, NEXT_THREE, OTHER_THREE, THREE};
use crate::words::words_of;
use json_rpc::Frames;
use listing::Listing;
use lists::Items;
use outside::{End, FaultPlan, MemShelf, MemSink, MemSource};
use prefetch::{Sender, Worker, start_ahead};
use reconstruction::Rebuild;
use serving::{read_sheet, run, work_ahead};
use sessions::{Client, Hub, Session, Slot, serve_client};
use std::alloc::{AllocError, Global};
use std::marker::Brand;
use std::sync::atomic::AtomicBool;
use std::sync::{Arc, Mutex, Wait};
use std::test::Fail;
use std::thread::Threads;
use version_board::{Naming, Opened, Snapshot, start_board};

/// A sheet whose list has three items, each of another weight.
const CALLS: &str =
    "insynth sheet 1\ntype int\ntype long\nsub int long\ndecl 5 int name x\ndecl 20 int call f long\ngoal long\nlimit 75";

/// A new listing of that sheet.
fn new_slot(alloc: Global) -> Result<Slot, AllocError> {
    let env = read_sheet(alloc, CALLS.as_bytes()).map_err(|_| AllocError)?;
    let listing: Listing<Rebuild> = Listing::new(alloc, env)?;
    Arc::new(alloc, Mutex::new(listing)).map_err(|_| AllocError)
}

/// The first page of two of the listing in a slot: how many items are found for it, and how many it has.
fn first_page<R: Wait>(rt: &R, alloc: Global, slot: &Slot) -> Result<(u64, u64), AllocError> {
    let page = slot.lock(rt).page(alloc, 0, 2)?;
    Ok((page.grown, page.len))
}

type MemEnd<'a> = End<MemSource<'a>, MemSink, MemShelf>;

/// An end that sends this.
fn end_of(input: &[u8], alloc: Global, shelf: MemShelf) -> MemEnd<'_> {
    End {
        source: MemSource::new(input, FaultPlan::none(alloc)),
        sink: MemSink::new(alloc, FaultPlan::none(alloc)),
        shelf,
    }
}

/// The one sender and the one worker of a new queue with room for so many tasks.
fn one_of_each(
    alloc: Global,
    capacity: u32,
) -> Result<(Sender<Listing<Rebuild>>, Worker<Listing<Rebuild>>), AllocError>
    requires capacity { (1 ≤ capacity) × (capacity ≤ 256) }
{
    let (mut senders, mut workers) = start_ahead(alloc, 1, 1, capacity)?;
    match (senders.pop(), workers.pop()) {
        (Some(sender), Some(worker)) => Ok((sender, worker)),
        _ => Err(AllocError),
    }
}

/// Hands a slot, to be lengthened to so many items; and whether it was taken.
fn is_handed<R: Wait>(
    rt: &R,
    sender: &mut Sender<Listing<Rebuild>>,
    upto: u64,
    slot: &Slot,
) -> Result<bool, AllocError>
    requires upto { (2 ≤ upto) × (upto ≤ 2 ^ 62) }
{
    if sender.handed() >= 1 << 56 {
        return Ok(false);
    }
    let slot = Arc::try_clone(slot)?;
    Ok(sender.hand(rt, upto, slot).is_ok())
}

#[test]
fn a_worker_lengthens_what_was_handed(rt: HostRuntime) -> Result<(), Fail> {
    let alloc = rt.alloc();
    let slot = new_slot(alloc)?;
    let (mut sender, mut worker) = one_of_each(alloc, 256)?;
    assert!(rt; is_handed(&rt, &mut sender, 2, &slot)?);
    assert_eq!(rt;
        work_ahead(&rt, alloc, &mut worker, &AtomicBool::new(true)),
        1
    );
    assert_eq!(rt; first_page(&rt, alloc, &slot)?, (1, 2));
    assert_eq!(rt;
        work_ahead(&rt, alloc, &mut worker, &AtomicBool::new(true)),
        0
    );
    Ok(())
}

/// Of two tasks the queue takes one, and the listing is lengthened for that one.
#[test]
fn a_queue_of_one_place_takes_one_task(rt: HostRuntime) -> Result<(), Fail> {
    let alloc = rt.alloc();
    let slot = new_slot(alloc)?;
    let (mut sender, mut worker) = one_of_each(alloc, 1)?;
    assert!(rt; is_handed(&rt, &mut sender, 2, &slot)?);
    assert!(rt; !is_handed(&rt, &mut sender, 3, &slot)?);
    assert_eq!(rt;
        work_ahead(&rt, alloc, &mut worker, &AtomicBool::new(true)),
        1
    );
    assert_eq!(rt; first_page(&rt, alloc, &slot)?, (1, 2));
    assert!(rt; is_handed(&rt, &mut sender, 3, &slot)?);
    Ok(())
}

/// How many of these senders hand a task, each with the same slot.
fn all_hand<R: Wait>(
    rt: &R,
    senders: &mut Vec<Sender<Listing<Rebuild>>>,
    slot: &Slot,
) -> Result<u32, AllocError> {
    let mut handed: u32 = 0;
    for sender in senders {
        if is_handed(rt, sender, 2, slot)? {
            handed = handed.saturating_add(1);
        }
    }
    Ok(handed)
}

/// Of 64 senders one hands its task, and again one once a worker has taken that.
#[test]
fn a_queue_of_one_place_refuses_many_tasks(rt: HostRuntime) -> Result<(), Fail> {
    let alloc = rt.alloc();
    let slot = new_slot(alloc)?;
    let (mut senders, mut workers) = start_ahead(alloc, 64, 8, 1)?;
    for _ in 0..3 {
        assert_eq!(rt; all_hand(&rt, &mut senders, &slot)?, 1);
        assert_eq!(rt; all_hand(&rt, &mut senders, &slot)?, 0);
        let mut taken: u64 = 0;
        for worker in &mut workers {
            let more = work_ahead(&rt, alloc, worker, &AtomicBool::new(true));
            taken = taken.saturating_add(more);
        }
        assert_eq!(rt; taken, 1);
    }
    assert_eq!(rt; first_page(&rt, alloc, &slot)?, (1, 2));
    Ok(())
}

/// Whichever allocation is refused, the worker ends, and the listing goes on.
#[test]
fn a_worker_that_lacks_memory_spoils_no_listing(rt: HostRuntime) -> Result<(), Fail> {
    let alloc = rt.alloc();
    let slot = new_slot(alloc)?;
    let (mut sender, mut worker) = one_of_each(alloc, 1)?;
    assert!(rt; is_handed(&rt, &mut sender, 2, &slot)?);
    assert!(rt; work_ahead(&rt, alloc, &mut worker, &AtomicBool::new(true)) <= 1);
    let (_, len) = match first_page(&rt, alloc, &slot) {
        Ok(page) => page,
        Err(_) => first_page(&rt, alloc, &slot)?,
    };
    assert_eq!(rt; len, 2);
    Ok(())
}

/// How many tasks the session of these bytes hands, over a board of its own and without files.
fn handed_from<J: Naming, R: Threads + Wait + Drop + Copy + Sync>(
    rt: R,
    alloc: Global,
    opened: Opened,
    first: Snapshot,
    sender: Sender<Listing<Rebuild>>,
    input: &[u8],
) -> Result<u64, AllocError>
    requires book { opened.seen.book ≡ J.book }
    requires first { IsVersion J.first first }
{
    let (publisher, mut passes) = start_board::<J, R>(rt, alloc, opened, first, 1)?;
    let hub = Hub::new(alloc, publisher);
    let client = Client {
        end: end_of(
            input,
            alloc,
            MemShelf::new(Items::new(alloc), FaultPlan::none(alloc)),
        ),
        session: Session::new(alloc),
        frames: Frames::new(alloc),
        pass: passes.pop().unwrap(),
        ahead: Some(sender),
    };
    let (client, _) = serve_client(&rt, alloc, &hub, client);
    let Client {
        end: _,
        session: _,
        frames: _,
        pass: _,
        ahead,
    } = client;
    match ahead {
        Some(sender) => Ok(sender.handed()),
        None => Ok(0),
    }
}

/// How many tasks a session hands that is answered a list and a page of it, where the queue has room for so many, and how
/// many a worker takes once the session has ended.
fn handed_and_taken<R: Threads + Wait + Sync>(
    rt: &R,
    alloc: Global,
    capacity: u32,
) -> Result<(u64, u64), AllocError>
    requires capacity { (1 ≤ capacity) × (capacity ≤ 256) }
{
    let (sender, mut worker) = one_of_each(alloc, capacity)?;
    let sent = [INITIALIZE_TO_30, FIELD_AND_PARAMETER, AFTER_FIELD, PAGE];
    let input = framed(alloc, &sent)?;
    let first = Snapshot::empty(alloc)?;
    let handed = handed_from::<Brand, &R>(
        rt,
        alloc,
        Opened::new(),
        first,
        sender,
        input.as_bytes(),
    )?;
    let taken = work_ahead(rt, alloc, &mut worker, &AtomicBool::new(true));
    Ok((handed, taken))
}

/// The tasks of a session that has ended wait for a worker. Where the queue is full, no task is handed.
#[test]
fn a_session_may_end_while_its_tasks_wait(rt: HostRuntime) -> Result<(), Fail> {
    assert_eq!(rt; handed_and_taken(&rt, rt.alloc(), 256)?, (2, 2));
    assert_eq!(rt; handed_and_taken(&rt, rt.alloc(), 1)?, (1, 1));
    Ok(())
}

/// What a client of the three readers sends: it asks for two pages of three.
fn two_pages(alloc: Global) -> Result<String, AllocError> {
    let sent = [BY_THREE, DEMO, AFTER_READER, NEXT_THREE, SHUTDOWN, EXIT];
    framed(alloc, &sent)
}

/// A reply in which so many items were found for its page, in place of what it says.
fn with_found(alloc: Global, reply: &str, said: &str, found: u32) -> Result<String, AllocError> {
    match reply.split_once(said) {
        Some((front, back)) => format!(in alloc; "{front}\"grown\":{found}{back}"),
        None => Ok(String::new(alloc)),
    }
}

/// What it is written, where so many items were found for the first page and for the second.
fn two_pages_told(alloc: Global, first: u32, second: u32) -> Result<String, AllocError> {
    let one = with_found(alloc, THREE.1, "\"grown\":4", first)?;
    let two = with_found(alloc, OTHER_THREE.1, "\"grown\":2", second)?;
    let told = [
        CAPABILITIES,
        (THREE.0, one.as_str()),
        (OTHER_THREE.0, two.as_str()),
        STOPPED,
    ];
    framed(alloc, &told)
}

/// Whether these are two pages of three: for the first so many items were found at least and four at most, and for the second
/// at most two.
fn are_two_pages(alloc: Global, output: &[u8], least: u32) -> Result<bool, AllocError> {
    for first in least..5 {
        for second in 0..3 {
            if output == two_pages_told(alloc, first, second)?.as_bytes() {
                return Ok(true);
            }
        }
    }
    Ok(false)
}

/// So many ends that send this, over the files of the three readers.
fn ends_of(alloc: Global, input: &[u8], count: u32) -> Result<Vec<MemEnd<'_>>, AllocError> {
    let mut ends = Vec::new(alloc);
    for _ in 0..count {
        ends.push(end_of(input, alloc, started_shelf(alloc)?))?;
    }
    Ok(ends)
}

#[test]
fn workers_change_no_page(rt: HostRuntime) -> Result<(), Fail> {
    let alloc = rt.alloc();
    let input = two_pages(alloc)?;
    let mut ends = ends_of(alloc, input.as_bytes(), 1)?;
    let words = words_of(alloc, &["serve", "--start=start", "--ahead", "2"])?;
    let status = run(&rt, alloc, words.as_slice(), &mut ends);
    assert_eq!(rt; status.code, 0);
    for end in &ends {
        assert!(rt; are_two_pages(alloc, end.sink.bytes.as_slice(), 4)?);
    }
    Ok(())
}

/// Three clients at one hole, and eight workers: an answer differs in the items that were found for it alone.
#[test]
fn workers_serve_several_ends(rt: HostRuntime) -> Result<(), Fail> {
    let alloc = rt.alloc();
    let input = two_pages(alloc)?;
    let mut ends = ends_of(alloc, input.as_bytes(), 3)?;
    let words = words_of(
        alloc,
        &["serve", "a=b", "--ahead", "8", "c=d", "--start=start"],
    )?;
    let status = run(&rt, alloc, words.as_slice(), &mut ends);
    assert_eq!(rt; status.code, 0);
    for end in &ends {
        assert!(rt; are_two_pages(alloc, end.sink.bytes.as_slice(), 0)?);
    }
    Ok(())
}
