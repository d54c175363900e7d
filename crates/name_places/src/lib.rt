// Names, each at a place of its own: a list of distinct names with an index by text. The main definition is
// `place_of`, the place of a name in a list. It stands on `lists`.
#![tactic(auto)]

mod names;

pub use names::Names;

#[cfg(test)]
mod tests;
