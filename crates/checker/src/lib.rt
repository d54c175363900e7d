// A checker of certificates that stands on the calculus alone, small enough to be read: the rows of an item, which
// spell an inhabitant with the type and the weight of each of its parts, and lists of floors, below which nothing
// weighs at a state of a search. The main definitions are `IsItem`, the rows of an inhabitant with its total, and
// `FloorsHold`, a closure condition that bounds each inhabitant from below. It stands on `terms` and `lists`, and
// knows nothing of a search.
#![tactic(auto)]

mod check;
mod floor;
mod floor_table;
mod heads;
mod item;
mod law;
mod open_part;
mod reaches;
mod reading;
mod rest;
mod row;
mod sets;
mod spots;
mod state;

pub use check::check_floors;
pub use floor::Floor;
pub use item::check_item;
pub use law::{floors_law, rows_law};
pub use row::Row;

#[cfg(test)]
mod floor_tests;
#[cfg(test)]
mod tests;
