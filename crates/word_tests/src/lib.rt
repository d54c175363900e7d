// Tests of the words of the command line. There is no other code here: a test is proved with the crate that it stands in,
// and a crate that held its own tests would be proved twice.
#![tactic(auto)]

#[cfg(test)]
mod ahead_tests;
#[cfg(test)]
mod message_tests;
#[cfg(test)]
mod pair_tests;
#[cfg(test)]
mod word_tests;
