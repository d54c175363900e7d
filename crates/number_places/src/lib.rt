// The places at which each number of a list stands, for all numbers below a bound, in one pass. The main
// definition is `places_of`. It stands on nothing.
#![tactic(auto)]

mod places;

pub use places::{list_at, places_by_number};

#[cfg(test)]
mod tests;
