// How the program is called: the words of each command. It has no definition of its own, since no clause speaks of this
// text; a test pins it. It stands on `clap`.
#![tactic(auto)]

mod text;

pub use text::usage_text;

#[cfg(test)]
mod tests;
