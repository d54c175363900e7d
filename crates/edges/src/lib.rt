// The edges of all states of the patterns, each made once, in flat tables by number: the ways to a term of just
// a state's type, by a variable there, or by a declaration or a pair whose wants are met at other states. Its main
// definition is `AreEdges`: which edges there are, each once. It stands on `terms`, `succinct`, `patterns` and
// `lists`.
#![tactic(auto)]

mod edges;
mod head;
mod sources;
mod state_edges;
mod table;
mod tails;
mod weights;

pub use edges::Edges;

#[cfg(test)]
mod tests;
