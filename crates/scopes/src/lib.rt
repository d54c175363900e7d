// The environment of a hole: what is offered there as types, subtype pairs and declarations. `environment` makes it
// exactly. The main definition is `environment_of`; each environment is proved valid, and six holes are worked out
// by hand. It stands on `offers` and `terms`.
#![tactic(auto)]

mod binder;
mod declarations;
mod forms;
mod hole;
mod kind_pairs;
mod laws;
mod numbers;
mod rows;
mod type_texts;
mod weighing;

pub use hole::environment;
pub use laws::{hole_sites, valid};
pub use rows::worked;
