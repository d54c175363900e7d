ghost use Rattle.std.specs.Prelude.{◌≡◌, ◌+◌, ◌-◌, IfOk, IfSome, IfNone, OnErr};
ghost use Rattle.terms.specs.Listing.{Progress, IsNextLevel, Skipped};

use crate::tables::Tables;
use std::alloc::{AllocError, Global};
use std::marker::Model;
use terms::{Env, Level, Levels};

/// A search by direct generation: all terms of each weight, one weight after the other, from those of
/// the weights below. It keeps them all, for each type and each list of parameters of a lambda.
#[derive(Drop)]
pub struct Plain {
    tables: Tables,
    /// The weight after that of the last level, or 0.
    from: u32,
}

impl Model for Plain {
    ghost use Rattle.std.specs.Prelude.{◌≤◌};
    ghost use Rattle.terms.specs.Listing.{Progress, Skipped};

    ghost Value = { Progress };

    ghost view = { λ p. record { parts = p.tables.parts; from = p.from } };

    ghost invariant = { λ p. (p.from ≤ p.tables.from) × Skipped p.tables.parts p.from p.tables.from };
}

impl Plain {
    fn advance(&mut self, alloc: Global) -> Result<Option<Level>, AllocError>
        ensures next { IfOk result (λ found. IfSome found (λ level.
            IsNextLevel self.old.parts self.old.from level × (self.new ≡ record self.old { from = level.weight + 1 }))) }
        ensures none_left { IfOk result (λ found. IfNone found (
            Skipped self.old.parts self.old.from (self.old.parts.limit + 1) × (self.new ≡ self.old))) }
        ensures same_level_again { OnErr result (self.new ≡ self.old) }
    {
        while self.tables.weight() <= self.tables.limit() as usize {
            let weight = self.tables.weight() as u32;
            let terms = self.tables.next(alloc)?;
            if !terms.is_empty() {
                self.from = weight + 1;
                return Ok(Some(Level { weight, terms }));
            }
        }
        Ok(None)
    }
}

impl Levels for Plain {
    ghost progress = { λ p. p };

    ghost reached = { λ p. p.from - 1 };

    ghost popped = { λ _. 0 };

    fn over(alloc: Global, env: Env) -> Result<Plain, AllocError> {
        Ok(Plain {
            tables: Tables::new(alloc, env)?,
            from: 0,
        })
    }

    fn env(&self) -> &Env {
        self.tables.env()
    }

    fn next_level(&mut self, alloc: Global) -> Result<Option<Level>, AllocError> {
        self.advance(alloc)
    }

    fn pops(&self) -> u64 {
        0
    }
}
