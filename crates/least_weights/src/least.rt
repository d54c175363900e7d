// The least weights of the states.

ghost use Rattle.std.specs.Prelude.{◌≡◌, ◌<◌, ℕ, length, slice_index_or, None, IfOk};
ghost use Rattle.succinct.specs.Compression.{IsCompression};
ghost use Rattle.patterns.specs.Patterned.{ArePatterns};
ghost use Rattle.edges.specs.Edges.{AreEdges};
ghost use Rattle.least_weights.specs.LeastWeight.{AreLeastWeights};

use crate::fixpoint::solve;
use crate::limit::Limit;
use edges::Edges;
use patterns::Patterns;
use std::alloc::{AllocError, Global};
use std::marker::Model;
use succinct::Compressed;
use terms::Env;

/// The least weight of each state. It owns its table and keeps nothing of what it was derived from.
#[derive(Drop)]
pub struct Least {
    limit: u32,
    /// A number above the limit stands for none.
    numbers: Vec<u32>,
}

impl Model for Least {
    ghost use Rattle.std.specs.Prelude.{ℕ, List, Option, map};
    ghost use Rattle.least_weights.specs.LeastWeight.{within};

    ghost Value = { List (Option ℕ) };

    ghost view = { λ l. map (within l.limit) l.numbers.items };
}

impl Least {
    /// The least weights for the patterns of an environment at its depth and at any goal, by its edges. The cheapest
    /// states are settled first, each once, and nothing above the limit is kept.
    pub fn derive(
        alloc: Global,
        env: &Env,
        compressed: &Compressed,
        patterns: &Patterns,
        edges: &Edges,
        limit: u32,
    ) -> Result<Least, AllocError>
        requires compressed { IsCompression env.now compressed.now }
        requires patterns { (goal : ℕ) × ArePatterns compressed.now goal env.now.depth patterns.now }
        requires edges { AreEdges env.now compressed.now patterns.now edges.now }
        requires limit { limit ≡ env.now.limit }
        ensures least { IfOk result (λ l. AreLeastWeights env.now patterns.now l) }
    {
        let _ = env.parts();
        let _ = compressed.needs();
        let count = patterns.states().len();
        let most = Limit { value: limit };
        let numbers = solve(alloc, most, count, edges)?;
        Ok(Least { limit, numbers })
    }

    /// The least weight of a state, none where no term is within the limit. Takes no memory.
    pub fn least(&self, state: u32) -> Option<u32>
        requires in_range { state < length self.now }
        ensures value { result ≡ slice_index_or self.now state None }
    {
        let limit = self.limit;
        match self.numbers.get(state as usize) {
            Some(number) if *number <= limit => Some(*number),
            _ => None,
        }
    }
}
