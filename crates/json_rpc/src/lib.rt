// Frames and messages of JSON-RPC 2.0 over a stream, as the Language Server Protocol spells them. The
// main definitions are `AreFramesOf`, which says what bodies an input has and how it ends, and `heard`,
// which says what message the JSON value of a body is. It stands on `outside` and `serde_json`.
#![tactic(auto)]

mod fault;
mod frames;
mod header;
mod held;
mod laws;
mod message;
mod read;
mod whole;
mod write;

pub use fault::FrameFault;
pub use frames::Frames;
pub use laws::frame_laws;
pub use message::{Id, Message, Refused, RpcFault, RpcRefusal};
pub use read::read_message;
pub use whole::read_frames;
pub use write::{write_frame, write_no_memory};
