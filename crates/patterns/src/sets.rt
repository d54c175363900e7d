// The sets of bound types, and where each need is sought.

ghost use Rattle.std.specs.Prelude.{◌≡◌, slice_get};
ghost use Rattle.patterns.specs.States.{set_sought, step_at, types_at, left_at};

use crate::bound_set::BoundSet;
use crate::wanted::Wanted;
use indexmap::IndexSet;
use lists::Items;
use std::marker::Model;

/// The sets, the set in which each lambda's body is sought, and where each need is sought.
#[derive(Drop)]
pub struct Sets {
    pub depth: u32,
    pub bound: IndexSet<BoundSet>,
    pub rows: Vec<Items<u32>>,
    pub wanted: Items<Wanted>,
}

impl Model for Sets {
    ghost use Rattle.patterns.specs.States.{Space};

    ghost Value = { Space };

    ghost view = { λ s. record { depth = s.depth; bound = s.bound.keys; steps = s.rows.items; wanted = s.wanted } };
}

impl Sets {
    /// The set in which a want is sought from a set.
    pub fn set_sought(&self, set: u32, wanted: Wanted) -> Option<u32>
        ensures value { result ≡ set_sought self.now set wanted }
    {
        if !wanted.lambda {
            return Some(set);
        }
        if self.left(set) == 0 {
            return None;
        }
        self.step(set, wanted.number)
    }

    /// The set in which the body of a lambda is sought.
    fn step(&self, set: u32, need: u32) -> Option<u32>
        ensures value { result ≡ step_at self.now.steps set need }
    {
        match self.rows.get(set as usize) {
            Some(row) => row.as_slice().get(need as usize).copied(),
            None => None,
        }
    }

    /// Where a need is sought.
    pub fn wanted(&self, need: u32) -> Option<Wanted>
        ensures value { result ≡ slice_get self.now.wanted need }
    {
        self.wanted.as_slice().get(need as usize).copied()
    }

    /// The types of a set.
    pub fn types(&self, set: u32) -> &[u32]
        ensures value { result.now ≡ types_at self.now set }
    {
        match self.bound.as_slice().get(set as usize) {
            Some(found) => found.types.as_slice(),
            None => &[],
        }
    }

    /// The lambdas left in a set.
    pub fn left(&self, set: u32) -> u32
        ensures value { result ≡ left_at self.now set }
    {
        match self.bound.as_slice().get(set as usize) {
            Some(found) => found.left,
            None => 0,
        }
    }
}
