// For each type and each count of lambdas left a weight below which no term is, whatever variables are bound. Its
// main definition is `IsLeastRelaxed`: the least weight of a term for which, wherever a lambda is around, there is a
// variable of each type that any lambda binds. It stands on `terms`, `lists` and `weight_queue`.
#![tactic(auto)]

mod bounds;
mod costs;
mod limit;
mod lookups;
mod parameters;
mod relaxation;
mod setting;
mod solving;
mod users;

pub use bounds::WeightBounds;

#[cfg(test)]
mod tests;
