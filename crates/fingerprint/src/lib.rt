// The fingerprint of an environment, by which those who ask for one list find one listing. The main type is
// `Fingerprinted`: an environment with its fingerprint, made once and kept with it. A fingerprint decides only who shares,
// so no contract speaks of one. It stands on `terms`.
#![tactic(auto)]

mod fingerprinted;
mod hashing;

pub use fingerprinted::Fingerprinted;
pub use hashing::print_of;
