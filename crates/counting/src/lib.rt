// The uses in the class files that a start text names, counted over one end. The main definition is `CountsBy`: what is written,
// by how a run ended; `IsCountOf` says how often the files of a text use each key, `IsFaultOf` what is wrong with them first.
// It stands on `start_text`, on `usage_counts`, and on `outside`.
#![tactic(auto)]

mod command;
mod counting;
mod fault;
mod files;
mod lines;

pub use command::count;
pub use counting::Counting;
pub use fault::CountFault;

#[cfg(test)]
mod tests;
