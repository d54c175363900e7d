// One argument's wish, with the order of a lambda's parameters and their repetitions left out.

ghost use Rattle.std.proofs.Common.{rules};
ghost use Rattle.std.specs.Cmp.Rules.{comparing, hashing};
ghost use Rattle.std.specs.Hash as fed;
ghost use Rattle.std.specs.Cmp.Lexicographic.{pointwise};
ghost use Rattle.std.specs.Ordering.{on, eq_of_both};
ghost use Rattle.std.specs.Prelude.{nat_eq, ◌++◌};
ghost use mathlib.Core.Bool.{beq};

use lists::Items;
use std::hash::{Hash, Hasher};

/// The succinct type of an argument.
#[derive(Debug, Drop)]
pub struct Need {
    /// The types of a lambda's parameters, strictly rising; none where a plain value is wanted.
    pub params: Items<u32>,
    /// The type of the value, or of the lambda's body.
    pub result: u32,
    /// Whether a lambda is wanted.
    pub lambda: bool,
}

impl PartialEq for Need {
    ghost eq = { eq_of_both (on (λ x. x.params) (pointwise nat_eq)) (eq_of_both (on (λ x. x.result) nat_eq) (on (λ x. x.lambda) beq)) };

    ghost laws = { Prim.search (comparing, rules) };

    fn eq(&self, other: &Need) -> bool {
        self.params.as_slice() == other.params.as_slice()
            && self.result == other.result
            && self.lambda == other.lambda
    }
}

impl Eq for Need {
    ghost laws = { Prim.search (comparing, rules) };
}

impl Hash for Need {
    ghost hash_input = { λ a. fed.slice fed.u32 a.params ++ fed.u32 a.result ++ fed.bool a.lambda };

    ghost respects_eq = { Prim.search (hashing, rules) };

    fn hash<H: Hasher>(&self, state: &mut H) {
        self.params.as_slice().hash(state);
        self.result.hash(state);
        self.lambda.hash(state);
    }
}
