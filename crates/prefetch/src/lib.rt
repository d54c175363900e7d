// Tasks that senders hand to workers over one bounded queue, so that lists are lengthened ahead. The main definition
// is `IsEachOnce`: each task that was handed stands once in what was taken and what is left, and no other stands
// there. The rule behind it is `Kept`: whoever holds all parts of a start knows of each task. The queue stands on the
// kit's `crossbeam_queue` alone, and `lengthen` on `listing`.
#![tactic(auto)]

mod access;
mod known;
mod lengthening;
mod sender;
mod settled;
mod start;
mod task;
mod worker;

pub use known::Known;
pub use lengthening::lengthen;
pub use sender::{HandFault, Sender};
pub use settled::{Settled, settle};
pub use start::start_ahead;
pub use task::Task;
pub use worker::Worker;
