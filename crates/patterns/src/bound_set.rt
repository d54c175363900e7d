// A set of bound types with its count of lambdas left, which a table can number.

ghost use Rattle.std.proofs.Common.{rules};
ghost use Rattle.std.specs.Cmp.Lexicographic.{pointwise};
ghost use Rattle.std.specs.Cmp.Rules.{comparing, hashing};
ghost use Rattle.std.specs.Hash as fed;
ghost use Rattle.std.specs.Ordering.{on, eq_of_both};
ghost use Rattle.std.specs.Prelude.{nat_eq, ◌++◌};

use lists::Items;
use std::hash::{Hash, Hasher};

/// The types that the lambdas around a place bind, rising, and how many more lambdas may nest there.
#[derive(Drop)]
pub struct BoundSet {
    pub types: Items<u32>,
    pub left: u32,
}

impl PartialEq for BoundSet {
    ghost eq = { eq_of_both (on (λ x. x.types) (pointwise nat_eq)) (on (λ x. x.left) nat_eq) };

    ghost laws = { Prim.search (comparing, rules) };

    fn eq(&self, other: &BoundSet) -> bool {
        self.types.as_slice() == other.types.as_slice() && self.left == other.left
    }
}

impl Eq for BoundSet {
    ghost laws = { Prim.search (comparing, rules) };
}

impl Hash for BoundSet {
    ghost hash_input = { λ x. fed.slice fed.u32 x.types ++ fed.u32 x.left };

    ghost respects_eq = { Prim.search (hashing, rules) };

    fn hash<H: Hasher>(&self, state: &mut H) {
        self.types.as_slice().hash(state);
        self.left.hash(state);
    }
}
