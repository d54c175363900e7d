// What `sample N` tells: the whole way from made class files to a list, in six lines that are the same on every
// machine. The main definition is `AreLinesOf`: the lines by the sample of a number, the version of its classes, the
// environment of its hole and the first page of the list. It stands on `workload`, on the readers of class files and
// texts, on `version_board`, `scopes`, and on `listing` over `reconstruction`.
#![tactic(auto)]

mod classes;
mod command;
mod goal;
mod hole;
mod laws;
mod page;
mod sample;
mod sampling;

pub use command::tell_sample;
pub use laws::one_text;
pub use sample::{sample_lines, write_sample};
pub use sampling::Sampling;

#[cfg(test)]
mod tests;
