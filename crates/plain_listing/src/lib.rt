// All inhabitants of an environment, level by level, by direct generation from the typing rules. The
// main definition is `AreRight` of `specs/Tables.antt`: below a weight the tables list each term that
// may stand in a context for a type, once and at its weight. It is the yardstick for faster searches
// and meets the same trait, `Levels` of `terms`, on which it stands.
#![tactic(auto)]

mod contexts;
mod fills;
mod heads;
mod plain;
mod plain_place;
mod rows;
mod tables;

pub use plain::Plain;

#[cfg(test)]
mod tests;
