ghost use Rattle.std.specs.Prelude.{◌≡◌, ◌≤◌, ◌<◌, ◌⊎◌, Option, Some, length, map, option_map, IfOk, IfErr, IfSome};
ghost use Rattle.command_line.specs.Words.{IsWorkerCount};
ghost use Rattle.start_text.specs.Faults.{IsOutside, LeavesShelf};
ghost use Rattle.version_board.specs.Versions.{IsVersion};
ghost use Rattle.serving.specs.Services.{view_of, IsFirst, IsStartFault, AreServed, ServesBy, HasNotBegun, AreUntouched, AllLast};

use crate::seats::{close_all, greatest, join_prefixes, open_all, room_for, serve_all};
use crate::status::Serving;
use core::mem::replace;
use listing::Listing;
use outside::{End, Shelf, Sink, Source};
use prefetch::{Sender, Worker, start_ahead};
use reconstruction::Rebuild;
use sessions::Hub;
use start_text::{StartFault, read_start};
use std::alloc::{AllocError, Global};
use std::marker::Brand;
use std::sync::Wait;
use std::thread::Threads;
use version_board::{Naming, Opened, Snapshot, start_board};

/// How many tasks the queue of the workers has room for.
const TASKS: u32 = 256;

/// A sender for each of so many ends, and so many workers. Without workers there are no senders.
fn ahead_of(
    alloc: Global,
    ends: u32,
    workers: Option<u32>,
) -> Result<(Vec<Sender<Listing<Rebuild>>>, Vec<Worker<Listing<Rebuild>>>), AllocError>
    requires ends { (1 ≤ ends) × (ends ≤ 64) }
    requires workers { IfSome workers IsWorkerCount }
{
    match workers {
        Some(workers) => start_ahead(alloc, ends, workers, TASKS),
        None => Ok((Vec::new(alloc), Vec::new(alloc))),
    }
}

/// The version of the start text of this name.
fn started_version<H: Shelf>(
    rt: &(impl Threads + Sync),
    alloc: Global,
    shelf: &mut H,
    name: &str,
) -> Result<Snapshot, StartFault>
    ensures first { IfOk result (λ version. IsFirst (Some name.now) (H.holds shelf.old) version) }
    ensures fault { IfErr result (λ fault. IsOutside fault ⊎ IsStartFault (Some name.now) (H.holds shelf.old) fault) }
    ensures shelf { LeavesShelf (H.holds shelf.old) (H.holds shelf.new) (H.faults shelf.old) (H.faults shelf.new) result }
{
    read_start(rt, alloc, shelf, name)
}

/// The version at which a server starts: that of the start text of this name, or the version 0 where none is named.
fn first_version<H: Shelf>(
    rt: &(impl Threads + Sync),
    alloc: Global,
    shelf: &mut H,
    name: Option<&str>,
) -> Result<Snapshot, StartFault>
    ensures first { IfOk result (λ version. IsFirst (option_map (λ n. n.now) name.entry) (H.holds shelf.old) version) }
    ensures fault { IfErr result (λ fault. IsOutside fault ⊎ IsStartFault (option_map (λ n. n.now) name.entry) (H.holds shelf.old) fault) }
    ensures shelf { LeavesShelf (H.holds shelf.old) (H.holds shelf.new) (H.faults shelf.old) (H.faults shelf.new) result }
{
    match name {
        Some(name) => started_version(rt, alloc, shelf, name),
        None => match Snapshot::empty(alloc) {
            Ok(version) => Ok(version),
            Err(_) => Err(StartFault::OutOfMemory),
        },
    }
}

/// The same from the shelf of an end; nothing is read from its source or written to its sink.
fn load_first<S: Source, K: Sink, H: Shelf>(
    rt: &(impl Threads + Sync),
    alloc: Global,
    end: &mut End<S, K, H>,
    name: Option<&str>,
) -> Result<Snapshot, StartFault>
    ensures first { IfOk result (λ version. IsFirst (option_map (λ n. n.now) name.entry) (H.holds end.old.shelf) version) }
    ensures fault { IfErr result (λ fault. IsOutside fault ⊎ IsStartFault (option_map (λ n. n.now) name.entry) (H.holds end.old.shelf) fault) }
    ensures shelf { LeavesShelf (H.holds end.old.shelf) (H.holds end.new.shelf) (H.faults end.old.shelf) (H.faults end.new.shelf) result }
    ensures untouched { (end.new.source ≡ end.old.source) × (end.new.sink ≡ end.old.sink) }
{
    first_version(rt, alloc, &mut end.shelf, name)
}

/// Serves new sessions at the ends over one board, each in a thread, and gives the ends back in their order: all from
/// this version on. Where there is no memory for the board or the seats, nothing is read or written.
fn serve_board<
    J: Naming + Send + Sync,
    S: Source + Drop + Send,
    K: Sink + Drop + Send,
    H: Shelf + Drop + Send,
    R: Threads + Wait + Drop + Copy + Send + Sync,
>(
    rt: R,
    alloc: Global,
    opened: Opened,
    first: Snapshot,
    ahead: Option<u32>,
    ends: &mut Vec<End<S, K, H>>,
) -> Serving
    requires ahead { IfSome ahead IsWorkerCount }
    requires book { opened.seen.book ≡ J.book }
    requires first { IsVersion J.first first }
    requires count { (0 < length ends.old.items) × (length ends.old.items ≤ 64) }
    ensures serves { let seen = view_of S.left K.written H.holds S.faults K.faults H.faults in AreServed result J.first (map seen ends.old.items) (map seen ends.new.items) }
    ensures untouched { HasNotBegun result → ends.new.items ≡ ends.old.items }
    ensures lasts { let seen = view_of S.left K.written H.holds S.faults K.faults H.faults in AllLast (map seen ends.old.items) (map seen ends.new.items) }
{
    let count = ends.len();
    let (publisher, passes) = match start_board::<J, R>(rt, alloc, opened, first, count) {
        Ok(board) => board,
        Err(_) => return Serving::OutOfMemory,
    };
    let hub = Hub::new(alloc, publisher);
    let Ok((senders, workers)) = ahead_of(alloc, count as u32, ahead) else {
        return Serving::OutOfMemory;
    };
    let Ok(mut seats) = room_for(alloc, count) else {
        return Serving::OutOfMemory;
    };
    let Ok(mut back) = room_for(alloc, count) else {
        return Serving::OutOfMemory;
    };
    open_all(&mut seats, replace(ends, Vec::new(alloc)), passes, senders);
    serve_all(&rt, alloc, &hub, &mut seats, workers);
    let answered = greatest(&seats);
    let _all = join_prefixes(seats[0].pass.prefix().again(), &seats);
    close_all(&mut back, seats);
    *ends = back;
    Serving::Sessions(answered.end, answered.ended)
}

/// Serves new sessions at the ends, from the class files of the start text of this name, where one is named: it is
/// loaded from the shelf of the first end. So many workers lengthen listings ahead. Where there is no version to start at,
/// nothing is read or written.
pub fn serve<
    S: Source + Drop + Send,
    K: Sink + Drop + Send,
    H: Shelf + Drop + Send,
    R: Threads + Wait + Sync,
>(
    rt: &R,
    alloc: Global,
    name: Option<&str>,
    ahead: Option<u32>,
    ends: &mut Vec<End<S, K, H>>,
) -> Serving
    requires ahead { IfSome ahead IsWorkerCount }
    requires count { (0 < length ends.old.items) × (length ends.old.items ≤ 64) }
    ensures serves { let seen = view_of S.left K.written H.holds S.faults K.faults H.faults in ServesBy result (option_map (λ n. n.now) name.entry) (map seen ends.old.items) (map seen ends.new.items) }
    ensures untouched { HasNotBegun result → AreUntouched ends.old.items ends.new.items }
    ensures lasts { let seen = view_of S.left K.written H.holds S.faults K.faults H.faults in AllLast (map seen ends.old.items) (map seen ends.new.items) }
{
    match load_first(rt, alloc, &mut ends[0], name) {
        Ok(first) => serve_board::<Brand, S, K, H, &R>(
            rt,
            alloc,
            Opened::new(),
            first,
            ahead,
            ends,
        ),
        Err(fault) => Serving::of_fault(&fault),
    }
}
