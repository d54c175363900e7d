// The bounds of an environment.

ghost use Rattle.std.specs.Prelude.{◌≡◌, IfOk};
ghost use Rattle.weight_bounds.specs.Bounds.{bound_at, AreLeastRelaxed, AreLow, NoneIsDeeper};

use crate::costs::place_of;
use crate::limit::Limit;
use crate::setting::Setting;
use crate::solving::solve;
use std::alloc::{AllocError, Global};
use std::marker::Model;
use terms::{Env, GREATEST_DEPTH};

/// For each type and each count of lambdas left a bound on the weights of terms. Contracts see its table, of
/// which `bound_at` speaks. It owns its table and keeps nothing of the environment.
#[derive(Drop)]
pub struct WeightBounds {
    limit: u32,
    /// A number above the limit stands for none.
    numbers: Vec<u32>,
}

impl Model for WeightBounds {
    ghost use Rattle.std.specs.Prelude.{ℕ, List, Option, map};
    ghost use Rattle.weight_bounds.specs.Bounds.{within};

    ghost Value = { List (Option ℕ) };

    ghost view = { λ b. map (within b.limit) b.numbers.items };
}

impl WeightBounds {
    /// The bounds for an environment, in time about linear in its declarations and pairs times one more than its
    /// depth, but for a logarithm.
    pub fn derive(alloc: Global, env: &Env) -> Result<WeightBounds, AllocError>
        ensures least { IfOk result (λ bounds. AreLeastRelaxed env.now bounds) }
        ensures low { IfOk result (λ bounds. AreLow env.now bounds) }
        ensures deeper { IfOk result (λ bounds. NoneIsDeeper env.now bounds) }
    {
        let parts = env.parts();
        let limit = Limit { value: parts.limit };
        let setting = Setting { parts, limit };
        let numbers = solve(alloc, &setting)?;
        Ok(WeightBounds {
            limit: parts.limit,
            numbers,
        })
    }

    /// The bound of a type, where so many lambdas more may nest; none where no relaxed term is within the limit, where there
    /// is no such type, and for more lambdas than the depth. Takes no memory.
    pub fn bound(&self, left: u32, wanted: u32) -> Option<u32>
        ensures value { result ≡ bound_at self.now left wanted }
    {
        if left > GREATEST_DEPTH {
            return None;
        }
        let limit = self.limit;
        match self.numbers.get(place_of(wanted, left)) {
            Some(number) if *number <= limit => Some(*number),
            _ => None,
        }
    }
}
