// Directed graphs whose nodes are numbers, as rows of the nodes that each node's edges lead to. The main
// definition is `Reaches`, a path of one edge or more; cycles, ancestors and marks are said with it. Each
// call takes time linear in the nodes and edges that it meets. It stands on `lists`.
#![tactic(auto)]

mod components;
mod cycles;
mod joined;
mod numbered;
mod reach;

pub use cycles::{least_cycle, without_cycles};
pub use reach::{ancestors, free_marks, is_in_range, reached};

#[cfg(test)]
mod tests;
