// The base of the meaning: types, declarations, terms and environments, and what it means that a term
// is an inhabitant of the goal. The main definitions are `IsInhabitant` and the whole list of an
// environment, `IsWhole`; typing, weights, Java text and order stand below them in `specs/`. The trait
// `Levels` is what a search owes to everything above it. It stands on `lists` alone.
#![tactic(auto)]

mod above;
mod context;
mod declarations;
mod depth;
mod env;
mod fault;
mod laws;
mod levels;
mod marks;
mod parts;
mod rating;
mod rows;
mod term;

pub use context::{Ctx, MOST_ROWS};
pub use env::Env;
pub use fault::EnvFault;
pub use laws::{list_laws, pair_laws, text_laws};
pub use levels::{Level, Levels};
pub use parts::{Arg, Decl, Form, GREATEST_DEPTH, Parts, Steps};
pub use term::{Term, TermArg};
