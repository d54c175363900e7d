// An item under its key, ordered by the key alone and turned round: a heap that gives its greatest then
// gives the item of the least key.

use std::cmp::Ordering;

#[derive(Drop)]
pub struct Keyed<T> {
    pub key: u32,
    pub item: T,
}

impl<T> PartialEq for Keyed<T> {
    ghost use Rattle.std.proofs.Common.{rules};
    ghost use Rattle.std.specs.Cmp.Rules.{comparing};
    ghost use Rattle.std.specs.Prelude.{◌==◌};

    ghost eq = { λ a b. a.key == b.key };

    ghost laws = { Prim.search (comparing, rules) };

    fn eq(&self, other: &Keyed<T>) -> bool {
        self.key == other.key
    }
}

impl<T> Eq for Keyed<T> {
    ghost use Rattle.std.proofs.Common.{rules};
    ghost use Rattle.std.specs.Cmp.Rules.{comparing};

    ghost laws = { Prim.search (comparing, rules) };
}

impl<T> Ord for Keyed<T> {
    ghost use Rattle.std.proofs.Common.{rules};
    ghost use Rattle.std.specs.Cmp.Rules.{comparing};
    ghost use Rattle.std.specs.Ordering.{nat_cmp, on, flip_args};

    ghost cmp = { flip_args (on (λ k. k.key) nat_cmp) };

    ghost total = { Prim.search (comparing, rules) };

    ghost matches_partial_cmp = { Prim.search (comparing, rules) };

    ghost matches_eq = { Prim.search (comparing, rules) };

    fn cmp(&self, other: &Keyed<T>) -> Ordering {
        other.key.cmp(&self.key)
    }
}

impl<T> PartialOrd for Keyed<T> {
    ghost use Rattle.std.proofs.Common.{rules};
    ghost use Rattle.std.specs.Cmp.{partial_order_from_own_ties};
    ghost use Rattle.std.specs.Cmp.Rules.{comparing};
    ghost use Rattle.std.specs.Ordering.{nat_cmp, on, flip_args, as_partial_cmp};

    ghost partial_cmp = { as_partial_cmp (flip_args (on (λ k. k.key) nat_cmp)) };

    ghost laws = { partial_order_from_own_ties (Prim.search (comparing, rules)) (Prim.search (comparing, rules)) };

    fn partial_cmp(&self, other: &Keyed<T>) -> Option<Ordering> {
        Some(self.cmp(other))
    }
}
