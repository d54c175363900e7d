// What a declaration or a pair wants and gives, by the numbers of its needs.

ghost use Rattle.std.proofs.Common.{rules};
ghost use Rattle.std.specs.Cmp.Lexicographic.{pointwise};
ghost use Rattle.std.specs.Cmp.Rules.{comparing, hashing};
ghost use Rattle.std.specs.Hash as fed;
ghost use Rattle.std.specs.Ordering.{on, eq_of_both};
ghost use Rattle.std.specs.Prelude.{nat_eq, ◌++◌};

use lists::Items;
use std::hash::{Hash, Hasher};

/// A succinct type: a set of needs, and the type that is given where all of them are met.
#[derive(Debug, Drop)]
pub struct Succinct {
    /// The numbers of the needs, strictly rising.
    pub needs: Items<u32>,
    /// The type that is given.
    pub result: u32,
}

impl PartialEq for Succinct {
    ghost eq = { eq_of_both (on (λ x. x.needs) (pointwise nat_eq)) (on (λ x. x.result) nat_eq) };

    ghost laws = { Prim.search (comparing, rules) };

    fn eq(&self, other: &Succinct) -> bool {
        self.needs.as_slice() == other.needs.as_slice() && self.result == other.result
    }
}

impl Eq for Succinct {
    ghost laws = { Prim.search (comparing, rules) };
}

impl Hash for Succinct {
    ghost hash_input = { λ x. fed.slice fed.u32 x.needs ++ fed.u32 x.result };

    ghost respects_eq = { Prim.search (hashing, rules) };

    fn hash<H: Hasher>(&self, state: &mut H) {
        self.needs.as_slice().hash(state);
        self.result.hash(state);
    }
}
