ghost use Rattle.std.specs.Thread.{IsSend, IsSync};
ghost use Rattle.serving.specs.Crossing.{sender_row, slots_row, workers_row};

use listing::Listing;
use prefetch::{Sender, Worker};
use reconstruction::Rebuild;
use shared_shelf::Slots;
use std::marker::PhantomData;
use std::sync::Mutex;

/// Tells that threads may share values of a type. A proof that they may share a large type is found from those of its
/// parts, where these are told before.
pub fn is_shared<T: Sync>(_of: PhantomData<T>)
    ensures shared { IsSync T.row }
{}

/// Tells that threads may share the listings of a hub.
pub fn listings_are_shared()
    ensures shared { IsSync slots_row }
{
    let slots: PhantomData<Mutex<Slots<Listing<Rebuild>>>> = PhantomData;
    is_shared(slots);
}

/// Tells that values of a type may go to a thread, as above.
pub fn is_sent<T: Send>(_of: PhantomData<T>)
    ensures sent { IsSend T.row }
{}

/// Tells that who hands listings and those who take them may go to threads.
pub fn hands_are_sent()
    ensures senders { IsSend sender_row }
    ensures workers { IsSend workers_row }
{
    let sender: PhantomData<Sender<Listing<Rebuild>>> = PhantomData;
    is_sent(sender);
    let worker: PhantomData<Worker<Listing<Rebuild>>> = PhantomData;
    is_sent(worker);
    let workers: PhantomData<Vec<Worker<Listing<Rebuild>>>> = PhantomData;
    is_sent(workers);
}
