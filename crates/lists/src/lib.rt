// The lists and texts of public types. A contract sees an `Items<T>` as the list of its elements and a
// `Text` as its bytes in UTF-8, so a copy equals what it copies. The main definition is the trait
// `Copies`: an equal value in memory of its own. It stands on the kit's `sqlite_items` alone.
#![tactic(auto)]

mod copies;
mod text;

pub use copies::{Copies, copy_all};
pub use sqlite_items::{Items, at};
pub use text::Text;

#[cfg(test)]
mod tests;
