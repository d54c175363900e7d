// Tests of source texts published as classes. There is no other code here: a test is proved with the crate that it
// stands in, and a crate that held its own tests would be proved twice.
#![tactic(auto)]

#[cfg(test)]
mod known_tests;
#[cfg(test)]
mod name_tests;
#[cfg(test)]
mod several_tests;
#[cfg(test)]
mod told_tests;
