// Tests of what a hole sees: the members that are offered, its environment, and the items of its list.
// There is no other code here: a test is proved with the crate that it stands in, and a crate that held its own
// tests would be proved twice.
#![tactic(auto)]

#[cfg(test)]
mod absent_tests;
#[cfg(test)]
mod holes;
#[cfg(test)]
mod item_tests;
#[cfg(test)]
mod many_tests;
#[cfg(test)]
mod offer_tests;
#[cfg(test)]
mod read_back_tests;
#[cfg(test)]
mod scope_tests;
#[cfg(test)]
mod void_tests;
