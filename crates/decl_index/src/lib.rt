// The index of classes after a history of changes, and the weights that they set. The main definition is `IsState`:
// of all puts and removes of one name the last decides, and so does the last setting of weights. Each history has
// one state, and `Refuses` says which changes are refused. An index shares the classes that a change doesn't touch.
// It stands on `known_classes` and `graphs`.
#![tactic(auto)]

mod change;
mod class_names;
mod counts;
mod cycle_search;
mod index;
mod laws;
mod merge;
mod nesting;
mod refusals;
mod sorted_classes;
mod weights;

pub use change::{Change, ChangeFault};
pub use index::Index;
pub use laws::history_laws;
pub use weights::Weights;
