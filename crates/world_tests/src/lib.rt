// Tests of what sessions over ends stand on: versions and their board, start texts, the parts and steps of a session, and
// the listings that clients share.
// There is no other code here: a test is proved with the crate that it stands in, and a crate that held its own
// tests would be proved twice.
#![tactic(auto)]

#[cfg(test)]
mod ahead_tests;
#[cfg(test)]
mod board_tests;
#[cfg(test)]
mod fingerprint_tests;
#[cfg(test)]
mod hub_tests;
#[cfg(test)]
mod part_tests;
#[cfg(test)]
mod publishing_tests;
#[cfg(test)]
mod shared_page_tests;
#[cfg(test)]
mod snapshot_tests;
#[cfg(test)]
mod start_tests;
#[cfg(test)]
mod step_tests;
