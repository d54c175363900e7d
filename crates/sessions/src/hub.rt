use decl_index::Change;
use left_right::Absorb;
use listing::Listing;
use reconstruction::Rebuild;
use shared_shelf::SharedShelf;
use std::alloc::Global;
use std::sync::{Mutex, Wait};
use version_board::{Naming, Publisher, Shown};

/// How many listings the clients share.
const LISTINGS: u32 = 256;

/// What the clients of a running program share: the publisher of the one board, and the listings that any of them
/// searched. A client holds at most one lock at a time: the publisher's, the shelf's or that of a listing.
#[derive(Drop)]
pub struct Hub<J: Naming, R: Wait + Drop>
where
    Shown<J>: Absorb<Shown<J>, State = [Change; 0]>,
{
    pub publisher: Mutex<Publisher<J, R>>,
    pub shelf: SharedShelf<Listing<Rebuild>>,
}

impl<J: Naming, R: Wait + Drop> Hub<J, R> {
    /// The hub of a board, with no listing yet. It takes no memory.
    pub fn new(alloc: Global, publisher: Publisher<J, R>) -> Hub<J, R> {
        Hub {
            publisher: Mutex::new(publisher),
            shelf: SharedShelf::new(alloc, LISTINGS),
        }
    }
}
