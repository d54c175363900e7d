// Tests of the calculus: terms and environments, sheets, and the search by succinct types.
// There is no other code here: a test is proved with the crate that it stands in, and a crate that held its own
// tests would be proved twice.
#![tactic(auto)]

#[cfg(test)]
mod patterns_tests;
#[cfg(test)]
mod reconstruction_tests;
#[cfg(test)]
mod sheets_tests;
#[cfg(test)]
mod terms_tests;
#[cfg(test)]
mod writing_tests;
