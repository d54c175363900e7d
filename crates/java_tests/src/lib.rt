// Tests of Java source: units, holes in bodies, and offered texts read back.
// There is no other code here: a test is proved with the crate that it stands in, and a crate that held its own
// tests would be proved twice.
#![tactic(auto)]

#[cfg(test)]
mod body_tests;
#[cfg(test)]
mod front_tests;
#[cfg(test)]
mod identifier_tests;
#[cfg(test)]
mod known_tests;
#[cfg(test)]
mod list_tests;
#[cfg(test)]
mod readable_tests;
#[cfg(test)]
mod resolve_tests;
#[cfg(test)]
mod shape_tests;
#[cfg(test)]
mod unit_tests;
