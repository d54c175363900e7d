// Tests of frames, messages and the forms of their parameters and results.
// There is no other code here: a test is proved with the crate that it stands in, and a crate that held its own
// tests would be proved twice.
#![tactic(auto)]

#[cfg(test)]
mod certificate_tests;
#[cfg(test)]
mod form_tests;
#[cfg(test)]
mod rpc_tests;
#[cfg(test)]
mod weight_tests;
