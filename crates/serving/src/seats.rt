ghost use Rattle.std.specs.Prelude.{◌≡◌, ◌≤◌, ◌<◌, ◌+◌, ◌++◌, ◌∷◌, [], All, List, map, length, vec_len, vec_capacity, IfOk};
ghost use mathlib.Core.List.{IsPrefix};
ghost use Rattle.version_board.specs.Views.{newcomer};
ghost use Rattle.sessions.specs.declared.ending.Ended.{Ended};
ghost use Rattle.serving.specs.Services.{view_of, IsGreatest};
ghost use Rattle.serving.specs.Seats.{IsSeatServed, EachBecomes, end_of, seat_view};

use crate::ahead::work_all;
use crate::sharing::{hands_are_sent, is_sent, is_shared, listings_are_shared};
use core::mem::{replace, replace_with};
use json_rpc::Frames;
use listing::Listing;
use outside::{End, Shelf, Sink, Source};
use prefetch::{Sender, Worker};
use reconstruction::Rebuild;
use sessions::{Client, Ended, Hub, Session, serve_client};
use std::alloc::{AllocError, Global};
use std::marker::PhantomData;
use std::sync::atomic::{AtomicBool, Ordering};
use std::sync::{Mutex, Wait};
use std::thread;
use std::thread::{Threads, join};
use version_board::{Naming, Pass, Prefix, Publisher};

/// The place of a client: its end, its pass of the board, who hands its listings to the workers, where there are any, and
/// how its session ended.
#[derive(Drop)]
pub struct Seat<J: Naming, S: Drop, K: Drop, H: Drop> {
    pub end: End<S, K, H>,
    pub pass: Pass<J>,
    pub ahead: Option<Sender<Listing<Rebuild>>>,
    pub ended: Ended,
}

/// How a session ended, and the number of its end.
#[derive(Clone, Copy, Debug)]
pub struct Answered {
    pub end: u32,
    pub ended: Ended,
}

/// What stands for the ending of a session that hasn't begun.
const NOT_ENDED: Ended = Ended {
    code: 0,
    place: 0,
    cause: 0,
};

/// An empty list with room for so many.
pub fn room_for<T: Drop>(alloc: Global, count: usize) -> Result<Vec<T>, AllocError>
    ensures empty { IfOk result (λ v. v.items ≡ []) }
    ensures room { IfOk result (λ v. count ≤ vec_capacity v) }
{
    let mut items = Vec::new(alloc);
    items.reserve(count)?;
    Ok(items)
}

/// The seat of an end, with one of the passes and of the senders, where there are any.
fn seat_with<J: Naming, S: Drop, K: Drop, H: Drop>(
    passes: &mut Vec<Pass<J>>,
    senders: &mut Vec<Sender<Listing<Rebuild>>>,
    end: End<S, K, H>,
) -> Seat<J, S, K, H>
    requires some { 0 < vec_len passes.old }
    requires newcomers { All (λ p. p ≡ newcomer J.first) passes.old.items }
    ensures end { result.end ≡ end }
    ensures pass { result.pass ≡ newcomer J.first }
    ensures newcomers { All (λ p. p ≡ newcomer J.first) passes.new.items }
    ensures one_less { vec_len passes.new + 1 ≡ vec_len passes.old }
{
    let pass = passes.pop().unwrap();
    Seat {
        end,
        pass,
        ahead: senders.pop(),
        ended: NOT_ENDED,
    }
}

/// Gives each end a seat with a pass and, where there are workers, a sender. There is room for the seats.
#[tactic(auto, using(crate::proofs::Seated::seated_more))]
pub fn open_all<J: Naming, S: Drop, K: Drop, H: Drop>(
    seats: &mut Vec<Seat<J, S, K, H>>,
    ends: Vec<End<S, K, H>>,
    passes: Vec<Pass<J>>,
    senders: Vec<Sender<Listing<Rebuild>>>,
)
    requires room { vec_len seats.old + vec_len ends ≤ vec_capacity seats.old }
    requires passes { vec_len ends ≤ vec_len passes }
    requires newcomers { All (λ p. p ≡ newcomer J.first) passes.items }
    requires newcomers_there { All (λ seat. seat.pass ≡ newcomer J.first) seats.old.items }
    ensures ends { map end_of seats.new.items ≡ map end_of seats.old.items ++ ends.items }
    ensures newcomers { All (λ seat. seat.pass ≡ newcomer J.first) seats.new.items }
{
    let mut passes = passes;
    let mut senders = senders;
    for end in ends {
        seats.push_reserved(seat_with(&mut passes, &mut senders, end));
    }
}

/// Gives the ends back in their order. There is room for them.
pub fn close_all<J: Naming, S: Drop, K: Drop, H: Drop>(
    ends: &mut Vec<End<S, K, H>>,
    seats: Vec<Seat<J, S, K, H>>,
)
    requires room { vec_len ends.old + vec_len seats ≤ vec_capacity ends.old }
    ensures ends { ends.new.items ≡ ends.old.items ++ map end_of seats.items }
{
    for seat in seats {
        let Seat {
            end,
            pass: _,
            ahead: _,
            ended: _,
        } = seat;
        ends.push_reserved(end);
    }
}

/// Serves a new session at a seat.
fn serve_seat<
    J: Naming,
    S: Source + Drop,
    K: Sink + Drop,
    H: Shelf + Drop,
    R: Threads + Wait + Drop + Sync,
>(rt: &R, alloc: Global, hub: &Hub<J, R>, seat: Seat<J, S, K, H>) -> Seat<J, S, K, H>
    ensures served { let seen = seat_view (view_of S.left K.written H.holds S.faults K.faults H.faults) in IsSeatServed (seen seat) (seen result) }
{
    let Seat {
        end,
        pass,
        ahead,
        ended: _,
    } = seat;
    let client = Client {
        end,
        session: Session::new(alloc),
        frames: Frames::new(alloc),
        pass,
        ahead,
    };
    let (client, ended) = serve_client(rt, alloc, hub, client);
    let Client {
        end,
        session: _,
        frames: _,
        pass,
        ahead,
    } = client;
    Seat {
        end,
        pass,
        ahead,
        ended,
    }
}

/// Serves a new session at a seat that stands in a list.
fn serve_place<
    J: Naming,
    S: Source + Drop,
    K: Sink + Drop,
    H: Shelf + Drop,
    R: Threads + Wait + Drop + Sync,
>(rt: &R, alloc: Global, hub: &Hub<J, R>, seat: &mut Seat<J, S, K, H>)
    ensures served { let seen = seat_view (view_of S.left K.written H.holds S.faults K.faults H.faults) in IsSeatServed (seen seat.old) (seen seat.new) }
{
    replace_with(seat, (rt, hub), |seat, (rt, hub)| {
        (serve_seat(rt, alloc, hub, seat), ())
    });
}

/// Serves new sessions at all seats, each in a thread.
fn serve_slice<
    J: Naming + Send + Sync,
    S: Source + Drop + Send,
    K: Sink + Drop + Send,
    H: Shelf + Drop + Send,
    R: Threads + Wait + Drop + Send + Sync,
>(rt: &R, alloc: Global, hub: &Hub<J, R>, seats: &mut [Seat<J, S, K, H>])
    ensures each { let seen = seat_view (view_of S.left K.written H.holds S.faults K.faults H.faults) in EachBecomes (λ c d. IsSeatServed (seen c) (seen d)) seats.old seats.new }
    ensures same { length seats.new ≡ length seats.old }
{
    let board: PhantomData<Mutex<Publisher<J, R>>> = PhantomData;
    is_shared(board);
    listings_are_shared();
    hands_are_sent();
    let whole: PhantomData<Hub<J, R>> = PhantomData;
    is_shared(whole);
    let threads = seats.len().max(1);
    thread::for_each_mut(
        rt,
        seats,
        threads,
        &|_: usize, seat: &mut Seat<J, S, K, H>|
            ensures { let seen = seat_view (view_of S.left K.written H.holds S.faults K.faults H.faults) in IsSeatServed (seen seat.old) (seen seat.new) }
        { serve_place(rt, alloc, hub, seat) },
    );
}

/// Serves new sessions at all seats, tells the workers that all have ended, and gives the seats back.
fn serve_and_tell<
    J: Naming + Send + Sync,
    S: Source + Drop + Send,
    K: Sink + Drop + Send,
    H: Shelf + Drop + Send,
    R: Threads + Wait + Drop + Send + Sync,
>(
    rt: &R,
    alloc: Global,
    hub: &Hub<J, R>,
    done: &AtomicBool,
    seats: Vec<Seat<J, S, K, H>>,
) -> Vec<Seat<J, S, K, H>>
    ensures each { let seen = seat_view (view_of S.left K.written H.holds S.faults K.faults H.faults) in EachBecomes (λ c d. IsSeatServed (seen c) (seen d)) seats.items result.items }
    ensures same { length result.items ≡ length seats.items }
{
    let mut seats = seats;
    serve_slice(rt, alloc, hub, seats.as_mut_slice());
    done.store(true, Ordering::SeqCst);
    seats
}

/// Serves new sessions at all seats of a list, each in a thread, and has the workers lengthen listings ahead meanwhile, each
/// in a thread as well. Where there is no thread for these, they take the tasks that are left once the sessions have ended.
pub fn serve_all<
    J: Naming + Send + Sync,
    S: Source + Drop + Send,
    K: Sink + Drop + Send,
    H: Shelf + Drop + Send,
    R: Threads + Wait + Drop + Send + Sync,
>(
    rt: &R,
    alloc: Global,
    hub: &Hub<J, R>,
    seats: &mut Vec<Seat<J, S, K, H>>,
    workers: Vec<Worker<Listing<Rebuild>>>,
)
    ensures each { let seen = seat_view (view_of S.left K.written H.holds S.faults K.faults H.faults) in EachBecomes (λ c d. IsSeatServed (seen c) (seen d)) seats.old.items seats.new.items }
    ensures same { length seats.new.items ≡ length seats.old.items }
{
    let board: PhantomData<Mutex<Publisher<J, R>>> = PhantomData;
    is_shared(board);
    listings_are_shared();
    hands_are_sent();
    let whole: PhantomData<Hub<J, R>> = PhantomData;
    is_shared(whole);
    let places: PhantomData<Vec<Seat<J, S, K, H>>> = PhantomData;
    is_sent(places);
    let flags: PhantomData<AtomicBool> = PhantomData;
    is_shared(flags);
    let done = AtomicBool::new(false);
    let flag = &done;
    let taken = replace(seats, Vec::new(alloc));
    let (_, served) = join(
        rt,
        move || work_all(rt, alloc, flag, workers),
        move || -> Vec<Seat<J, S, K, H>>
            ensures each { let seen = seat_view (view_of S.left K.written H.holds S.faults K.faults H.faults) in EachBecomes (λ c d. IsSeatServed (seen c) (seen d)) taken.items result.items }
            ensures same { length result.items ≡ length taken.items }
        { serve_and_tell(rt, alloc, hub, flag, taken) },
    );
    *seats = served;
}

/// The one list of changes that the passes of all seats have seen prefixes of. The board's log is one, so of two
/// prefixes the longer one has the other as a prefix.
pub fn join_prefixes<J: Naming, S: Drop, K: Drop, H: Drop>(
    first: Prefix<J>,
    seats: &[Seat<J, S, K, H>],
) -> Prefix<J>
    ensures longer { IsPrefix first result }
    ensures all { All (λ seat. IsPrefix seat.pass.seen (J.first ++ result)) seats.now }
{
    let mut longest = first;
    for seat in seats {
        longest = longest.longer(seat.pass.prefix());
    }
    longest
}

/// Of the greatest ending so far and that of the next end the greater one, the earlier one where their codes are equal.
fn greater(best: Answered, end: u32, ended: Ended) -> Answered
    ensures { (endings : List Ended) → length endings ≡ end → IsGreatest endings best.end best.ended → IsGreatest (endings ++ ended ∷ []) result.end result.ended }
{
    if ended.code > best.ended.code {
        Answered { end, ended }
    } else {
        best
    }
}

/// The ending with the greatest code, and its end; of several the first.
pub fn greatest<J: Naming, S: Drop, K: Drop, H: Drop>(seats: &[Seat<J, S, K, H>]) -> Answered
    requires some { 0 < length seats.now }
    requires few { length seats.now ≤ 64 }
    ensures greatest { IsGreatest (map (λ seat. seat.ended) seats.now) result.end result.ended }
{
    let mut best = Answered {
        end: 0,
        ended: seats[0].ended,
    };
    let mut end = 1;
    for seat in &seats[1..] {
        best = greater(best, end, seat.ended);
        end += 1;
    }
    best
}
