// The texts of the terms at a hole: that the environment of each hole has texts that can be read back and that tell its
// terms apart. So no two terms that a hole offers share a text, and each term's text resolves to the term itself. It
// stands on `scopes` and `java_resolve`; what is meant by the environment of a hole is `IsOfHole`.
#![tactic(auto)]

mod environments;
mod laws;
mod looks;

pub use environments::apart_environment;
pub use laws::{hole_texts, terms_apart};

#[cfg(test)]
mod tests;
