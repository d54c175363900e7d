// Tests that hold whichever allocation is refused: each call is right, or wants memory and is right when it is made
// again. `tools/refuse_memory` refuses one allocation after the other. There is no other code here.
#![tactic(auto)]

#[cfg(test)]
mod board_tests;
#[cfg(test)]
mod level_tests;
#[cfg(test)]
mod page_tests;
#[cfg(test)]
mod session_tests;
