// The least weight of a term for each state of the patterns, coercions and binders included. Its main
// definition is `IsLeastWeight`: some term that fits weighs so much, and none weighs less. It stands on
// `terms`, `succinct`, `patterns`, `edges`, `lists` and `weight_queue`.
#![tactic(auto)]

mod costs;
mod fixpoint;
mod least;
mod limit;
mod relaxation;
mod users;

pub use least::Least;

#[cfg(test)]
mod tests;
