// How a session ends, by its input alone: an input is read in one way, and where memory isn't wanting and neither source nor sink
// fails, the status is that of the fault or the end of its frames, or of its `exit`. These are laws about the definitions of
// `sessions`; the main one is `FramesDecide`. It stands on `sessions`, `answers` and `json_rpc`.
#![tactic(auto)]

mod laws;

pub use laws::ending_laws;
