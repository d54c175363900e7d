// A state of a search, by which floors are looked up.

ghost use Rattle.std.proofs.Common.{rules};
ghost use Rattle.std.specs.Cmp.Lexicographic.{pointwise};
ghost use Rattle.std.specs.Cmp.Rules.{comparing, hashing};
ghost use Rattle.std.specs.Hash as fed;
ghost use Rattle.std.specs.Ordering.{on, eq_of_both};
ghost use Rattle.std.specs.Prelude.{nat_eq, ◌++◌};

use lists::Items;
use std::hash::{Hash, Hasher};

/// The types of the variables in scope, rising; how many more lambdas may nest; and the type that is wanted.
#[derive(Drop)]
pub(crate) struct State {
    pub(crate) set: Items<u32>,
    pub(crate) left: u32,
    pub(crate) goal: u32,
}

impl PartialEq for State {
    ghost eq = { eq_of_both (on (λ x. x.set) (pointwise nat_eq)) (eq_of_both (on (λ x. x.left) nat_eq) (on (λ x. x.goal) nat_eq)) };

    ghost laws = { Prim.search (comparing, rules) };

    fn eq(&self, other: &State) -> bool {
        self.set.as_slice() == other.set.as_slice()
            && (self.left == other.left && self.goal == other.goal)
    }
}

impl Eq for State {
    ghost laws = { Prim.search (comparing, rules) };
}

impl Hash for State {
    ghost hash_input = { λ x. fed.slice fed.u32 x.set ++ (fed.u32 x.left ++ fed.u32 x.goal) };

    ghost respects_eq = { Prim.search (hashing, rules) };

    fn hash<H: Hasher>(&self, state: &mut H) {
        self.set.as_slice().hash(state);
        self.left.hash(state);
        self.goal.hash(state);
    }
}
