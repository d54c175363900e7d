// The types that are inhabited at a hole, by succinct types: the states that the goal leads to, each a set of
// bound types with a count of lambdas left and a type that is sought, and the kinds that are inhabited there.
// The main definition is `ArePatterns`; `Agrees` says that a state's list isn't empty, or its goal is bound,
// exactly where the goal is `IsDerivable` and where a term fits. It stands on `succinct`, `terms`, `lists` and
// the kit's `indexmap`.
#![tactic(auto)]

mod bound_set;
mod found_kinds;
mod kinds_by_result;
mod lookup_cache;
mod marks;
mod met_kinds;
mod openings;
mod patterns;
mod reachable;
mod saturate;
mod sets;
mod state;
mod states;
mod steps;
mod wanted;
mod watchers;

pub use patterns::Patterns;
pub use state::State;
