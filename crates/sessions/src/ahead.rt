ghost use Rattle.std.specs.Prelude.{◌≡◌, ◌⊎◌, ◌≤◌, ◌+◌, Some, None, MatchOption};

use listing::Listing;
use prefetch::Sender;
use reconstruction::Rebuild;
use std::alloc::Global;
use std::sync::{Arc, Mutex, Wait};

/// A listing that clients share, behind its lock.
pub type Slot = Arc<Mutex<Listing<Rebuild>>, Global>;

/// Up to how many items a list is lengthened ahead.
const MOST_ITEMS: u64 = 1 << 62;

/// How many tasks a sender hands.
const MOST_TASKS: u64 = 1 << 56;

/// Hands a listing to the workers, to be lengthened until it has `upto` items. Where that is past the bound, the sender has
/// handed all that it may, or the queue is full, nothing is handed. It may wait for another call on the queue.
fn hand_slot<R: Wait>(rt: &R, sender: &mut Sender<Listing<Rebuild>>, upto: u64, slot: Slot)
    requires some { 2 ≤ upto }
    ensures at_most_one { (sender.new ≡ sender.old) ⊎ (sender.new ≡ record sender.old { handed = sender.old.handed + 1 }) }
{
    if upto > MOST_ITEMS || sender.handed() >= MOST_TASKS {
        return;
    }
    let _refused = sender.hand(rt, upto, slot);
}

/// The same where there are workers and a listing.
pub(crate) fn hand_ahead<R: Wait>(
    rt: &R,
    ahead: &mut Option<Sender<Listing<Rebuild>>>,
    upto: u64,
    slot: Option<Slot>,
)
    requires some { 2 ≤ upto }
    ensures at_most_one { MatchOption ahead.old (ahead.new ≡ None) (λ s. (ahead.new ≡ Some s) ⊎ (ahead.new ≡ Some (record s { handed = s.handed + 1 }))) }
    ensures no_listing { slot ≡ None → ahead.new ≡ ahead.old }
{
    let Some(slot) = slot else {
        return;
    };
    if let Some(sender) = ahead {
        hand_slot(rt, sender, upto, slot);
    }
}
