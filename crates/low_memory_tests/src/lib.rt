// Tests of the crates at the bottom that hold whichever allocation is refused: a call that wants memory leaves what its
// clauses say, and is right when it is made again. `tools/refuse_memory` refuses one allocation after the other. They
// stand on the crates that they test and no others, so they are cheap to prove. There is no other code here.
#![tactic(auto)]

#[cfg(test)]
mod document_tests;
#[cfg(test)]
mod frame_tests;
#[cfg(test)]
mod shape_tests;
