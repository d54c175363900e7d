ghost use Rattle.std.specs.Prelude.{◌≡◌, ◌⊎◌, ◌+◌, ◌≤◌, ℕ, IfOk, IfSome, IfNone, OnErr};
ghost use Rattle.terms.specs.Listing.{Progress, AreFew, IsNextLevel, IsNextWeight, Skipped};

use crate::env::Env;
use crate::term::Term;
use lists::Items;
use std::alloc::{AllocError, Global};

/// The terms of one weight.
#[derive(Debug, Drop)]
pub struct Level {
    /// The total of each of them: its weight at the goal, the coercion there included.
    pub weight: u32,
    /// The terms, in no order.
    pub terms: Items<Term>,
}

/// A search of one environment, which gives its inhabitants level by level, each exactly once.
pub trait Levels: Sized {
    /// The environment, and the weight from which levels are left.
    ghost progress: { Self → Progress };

    /// The weight up to which the search has gone: that of the level given last, or 0 before the first; after
    /// want of memory it may be that of the level that was being made.
    ghost reached: { Self → ℕ };

    /// How many steps it has counted.
    ghost popped: { Self → ℕ };

    /// A search that has given nothing yet. It owns the environment.
    fn over(alloc: Global, env: Env) -> Result<Self, AllocError>
        ensures start { IfOk result (λ levels. progress levels ≡ record { parts = env; from = 0 }) }
        ensures fresh { IfOk result (λ levels. (reached levels ≡ 0) × (popped levels ≡ 0)) };

    /// The environment that was handed in.
    fn env(&self) -> &Env
        ensures same { result.now ≡ (progress self.now).parts };

    /// All inhabitants of the least weight above each weight given before, or `None` where the limit
    /// leaves none. After want of memory the next call gives the same level.
    fn next_level(&mut self, alloc: Global) -> Result<Option<Level>, AllocError>
        ensures next { IfOk result (λ found. IfSome found (λ level.
            IsNextLevel (progress self.old).parts (progress self.old).from level
            × (progress self.new ≡ record { parts = (progress self.old).parts; from = level.weight + 1 }))) }
        ensures none_left { IfOk result (λ found. IfNone found (
            Skipped (progress self.old).parts (progress self.old).from ((progress self.old).parts.limit + 1)
            × (progress self.new ≡ progress self.old))) }
        ensures same_level_again { OnErr result (progress self.new ≡ progress self.old) }
        ensures reached { IfOk result (λ found. IfSome found (λ level. reached self.new ≡ level.weight)) }
        ensures not_further { IfOk result (λ found. IfNone found (reached self.new ≡ reached self.old)) }
        ensures being_made { OnErr result ((reached self.new ≡ reached self.old)
            ⊎ IsNextWeight (progress self.old).parts (progress self.old).from (reached self.new)) }
        ensures pops_rise { popped self.old ≤ popped self.new };

    /// How many steps the search has taken, where it counts them, else 0. The count stays at 2^64 - 1.
    fn pops(&self) -> u64
        ensures count { result ≡ popped self.now }
        ensures few { AreFew (progress self.now).parts (reached self.now) result };
}
