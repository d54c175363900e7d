// Versions of what is known of classes, and the board that shows them. The main definition is `IsVersion`: which
// changes a snapshot stands for. A snapshot keeps no change; it keeps their number, their withdrawals and the index
// after them, and what follows from a further change is said for every list of changes that it stands for. A board
// has one publisher, and passes that read; by its rule `AllBegin` what each pass has seen is a prefix of the one
// journal. It stands on `decl_index`, and on the kit's `left_right` and `logbook`.
#![tactic(auto)]

mod journal;
mod laws;
mod log;
mod pass;
mod publisher;
mod publishing;
mod receipt;
mod shown;
mod snapshot;
mod start;
mod view;
mod writing;

pub use journal::{Journal, Withdrawal};
pub use laws::version_laws;
pub use log::{Log, Naming, Opened, Prefix};
pub use pass::Pass;
pub use publisher::Publisher;
pub use publishing::publish_and_learn;
pub use receipt::{Receipt, Refusal};
pub use shown::Shown;
pub use snapshot::Snapshot;
pub use start::start_board;
