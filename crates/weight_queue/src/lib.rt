// A queue that gives the item of the least key, for a search that goes on in the order of weights. Its main
// definition is `Queued`: the items under their keys in any order, the room that is reserved, and the count
// of items taken out. It stands on std's binary heap alone.
#![tactic(auto)]

mod keyed;
mod queue;

pub use queue::WeightQueue;

#[cfg(test)]
mod tests;
