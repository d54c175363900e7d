// Holes that are worked out by hand, by the definition of an environment alone: in a version with these classes the hole has
// the environment that the rules give by hand, and no other. There is no code here, but a law about the definitions of
// `scopes`; the main definition is `HasOnly`. It stands on `scopes`.
#![tactic(auto)]

mod laws;

pub use laws::worked_holes;
