// Holes in a source text: the places at which a value is asked for, as behind `return` or `Reader r =`.
// `hole_at` says for each place whether it is one and, where it is, which type is asked for and which
// variables are in scope. The main definition is `hole_of`, by five conditions on the place; which variables
// a hole sees is said of each place of the body, by what stands between it and the hole. It stands on
// `java_units`, `java_tokens` and `lists`.
#![tactic(auto)]

mod blocks;
mod body;
mod headers;
mod kept;
mod laws;
mod mark;
mod methods;
mod names;
mod openers;
mod places;
mod scope;
mod site;
mod statements;
mod variables;
mod wanted;

pub use laws::{names_stand_once, prefix_ends_at_place};
pub use site::{HoleSite, Local, hole_at};
