// One client's session: the body of a message in, its outcome out, and a client's frames from its source to its
// sink. The main definitions are `Meets`: the outcome and the session after it are the answer to the message, at what
// it met of the world; and `Serves`: what was written are the frames of the replies to the frames read. Pages come
// from listings that clients share. It stands on `answers`, which says what an answer is.
#![tactic(auto)]

mod ahead;
mod client;
mod cursors;
mod edits;
mod ending;
mod explanations;
mod failure;
mod forms;
mod hub;
mod loading;
mod mem_world;
mod notices;
mod open_documents;
mod outcome;
mod publications;
mod questions;
mod replies;
mod requests;
mod running_world;
mod serving;
mod session;
mod shared_pages;
mod sources;
mod world;

pub use ahead::Slot;
pub use client::{Client, serve_client};
pub use cursors::Cursors;
pub use ending::{Ended, Ending};
pub use failure::Failure;
pub use forms::{text_in, uri_in};
pub use hub::Hub;
pub use loading::Files;
pub use mem_world::MemWorld;
pub use open_documents::OpenDocuments;
pub use outcome::Outcome;
pub use replies::{failure_reply, null_reply, page_reply, result_reply};
pub use running_world::RunningWorld;
pub use serving::serve;
pub use session::Session;
pub use shared_pages::shared_page;
pub use world::World;
