// The words of the command line: which of them ask for what, and the first that can't stand there. The main definition is
// `AskFor`: the words by what they ask for. It stands on `json_rpc` for a fault beside want of memory.
#![tactic(auto)]

mod command;
mod names;
mod number;
mod scan;
mod words;

pub use command::{Command, Plain, UsageFault};
pub use json_rpc::Refused;
pub use names::client_names;
pub use words::{plain_command, read_command};
