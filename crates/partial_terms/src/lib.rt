// Partial terms, by the prefix codes that begin them: what may complete one, at which least weight, and how a
// search that grows the lightest first divides all terms among them. The main definition is `IsSearch`: each term
// that is still to come completes exactly one partial term. It stands on `terms` alone, and holds the lists that
// share their ends, in which a search keeps its partial terms.
#![tactic(auto)]

mod chains;

pub use chains::{Chains, Link};

#[cfg(test)]
mod tests;
