// Tests of sessions and of the program over ends in memory.
// There is no other code here: a test is proved with the crate that it stands in, and a crate that held its own
// tests would be proved twice.
#![tactic(auto)]

#[cfg(test)]
mod ahead_tests;
#[cfg(test)]
mod batch_tests;
#[cfg(test)]
mod client_tests;
#[cfg(test)]
mod count_tests;
#[cfg(test)]
mod explain_tests;
#[cfg(test)]
mod frame_tests;
#[cfg(test)]
mod gated_tests;
#[cfg(test)]
mod method_tests;
#[cfg(test)]
mod publication_tests;
#[cfg(test)]
mod run_tests;
#[cfg(test)]
mod sample_tests;
#[cfg(test)]
mod serve_tests;
#[cfg(test)]
mod several_tests;
#[cfg(test)]
mod source_file_tests;
#[cfg(test)]
mod two_client_tests;
#[cfg(test)]
mod version_tests;
#[cfg(test)]
mod weight_tests;
#[cfg(test)]
mod words;
