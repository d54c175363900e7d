// Tests of `upgrade`, and of sheets 2, by whole runs over ends in memory. There is no other code here: a test is proved with the
// crate that it stands in, and a crate that held its own tests would be proved twice.
#![tactic(auto)]

#[cfg(test)]
mod fault_tests;
#[cfg(test)]
mod run_tests;
#[cfg(test)]
mod sheet_tests;
