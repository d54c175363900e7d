// Values that several threads share under fingerprints, as many as a capacity says. The main definition is
// `added`: a fingerprint that isn't kept is added at the end, and the oldest one is dropped where the capacity
// would be passed. Nothing is said of a value that is found but its type: who takes it looks at it under its own
// lock. It stands on nothing.
#![tactic(auto)]

mod kept;
mod shelf;
mod slots;

pub use kept::Kept;
pub use shelf::SharedShelf;
pub use slots::{Shared, Slots};

#[cfg(test)]
mod tests;
