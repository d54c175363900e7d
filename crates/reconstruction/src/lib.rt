// The search that rebuilds the terms of a goal in the order of their weights. A partial term is a front of a
// prefix code; a queue holds each under the least total of its completions. The main definition is `IsSearch`
// of `partial_terms`: each term that is still to come completes exactly one front. It stands on `terms`,
// `partial_terms`, `succinct`, `patterns`, `edges`, `least_weights` and `weight_queue`.
#![tactic(auto)]

mod agenda;
mod built_terms;
mod heads;
mod item;
mod longer_fronts;
mod numbered_place;
mod rebuild;
mod start;
mod tables;
mod totals;
mod usable;
mod variables;

pub use rebuild::Rebuild;
