// What the program answers: its exit code, and where and why; and how a status is told in two lines. The main definition is
// `status_text`: the bytes of the first one. The second one says the same in words, and no clause speaks of it. It stands on
// `command_line`, since what is wrong at a place depends on what was asked for.
#![tactic(auto)]

mod causes;
mod reason;
mod status;

pub use reason::{NO_MEMORY, Reason, reason_of};
pub use status::Status;

#[cfg(test)]
mod tests;
