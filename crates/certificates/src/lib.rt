// The certificates that a checker apart accepts: the rows of an item, with the type and the weight of each of its parts,
// and floors, below which nothing weighs. The main definitions are the checker's, `IsItem` and `FloorsHold`; `AreAllTold`
// says which states floors are told of. It stands on `checker`, `terms`, `succinct`, `patterns`, `edges`,
// `least_weights`, `number_places` and `lists`.
#![tactic(auto)]

mod floor_list;
mod law;
mod rows;
mod tables;
mod telling;
mod told;

pub use floor_list::floors;
pub use law::least_floors_law;
pub use rows::item_rows;

#[cfg(test)]
mod tests;
