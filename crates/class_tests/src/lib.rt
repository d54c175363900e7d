// Tests of class files, of summaries of classes, of the index over them, and of weights.
// There is no other code here: a test is proved with the crate that it stands in, and a crate that held its own
// tests would be proved twice.
#![tactic(auto)]

#[cfg(test)]
mod index_tests;
#[cfg(test)]
mod merged_tests;
#[cfg(test)]
mod sample_tests;
#[cfg(test)]
mod shape_tests;
#[cfg(test)]
mod summary_tests;
#[cfg(test)]
mod weight_tests;
#[cfg(test)]
mod workload_tests;
