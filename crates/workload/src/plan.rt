ghost use Rattle.std.specs.Prelude.{◌≡◌, ◌<◌, ◌≤◌, ◌+◌, OnOk, IfOk, MatchOption, length, map};
ghost use Rattle.workload.specs.Needs.{add, place, once};
ghost use Rattle.workload.specs.Views.{need_seen};

use crate::needs::Need;
use indexmap::IndexSet;
use std::alloc::{AllocError, Global};
use std::marker::Model;

/// The entries of a pool, each once, in the order of their first need: so many that two bytes count the pool.
#[derive(Drop)]
pub struct PoolPlan<'a> {
    entries: IndexSet<Need<'a>>,
}

impl<'a> Model for PoolPlan<'a> {
    ghost use Rattle.std.specs.Prelude.{List, map, length, ◌<◌};
    ghost use Rattle.workload.specs.Needs.{Needed};
    ghost use Rattle.workload.specs.Views.{need_seen};

    ghost Value = { List Needed };

    ghost view = { λ p. map need_seen p.entries.keys };

    ghost invariant = { λ p. length (map need_seen p.entries.keys) < 65535 };
}

impl<'a> PoolPlan<'a> {
    /// The place of an entry in the pool, from 1 on; 0 where it isn't there.
    #[tactic(auto, unfolding(crate::specs::Needs::place))]
    pub fn place(&self, need: Need<'_>) -> u16
        ensures { result ≡ place self.now (need_seen need.entry) }
    {
        match self.entries.get_index_of(&need) {
            Some(index) => (index + 1) as u16,
            None => 0,
        }
    }

    /// How many places the pool has, with the place 0, at which no entry stands.
    pub fn count(&self) -> u16
        ensures { result ≡ length self.now + 1 }
    {
        self.entries.len() as u16 + 1
    }

    /// The entries, by their places from 1 on.
    pub fn as_slice(&self) -> &[Need<'a>]
        ensures { map need_seen result.now ≡ self.now }
    {
        self.entries.as_slice()
    }
}

/// Adds an entry, if it isn't there.
fn add<'a>(entries: &mut IndexSet<Need<'a>>, need: Need<'a>) -> Result<(), AllocError>
    ensures { OnOk result (map need_seen entries.new.keys ≡ add (map need_seen entries.old.keys) (need_seen need.entry)) }
{
    entries.insert(need)?;
    Ok(())
}

/// The needed entries, each once.
#[tactic(auto, unfolding(crate::specs::Needs::once))]
fn entries_of<'a>(alloc: Global, needs: &[Need<'a>]) -> Result<IndexSet<Need<'a>>, AllocError>
    ensures { IfOk result (λ entries. map need_seen entries.keys ≡ once (map need_seen needs.now)) }
{
    let mut entries = IndexSet::new(alloc);
    for i in 0..needs.len() {
        add(&mut entries, needs[i])?;
    }
    Ok(entries)
}

/// The pool that holds each of the needed entries once; none where two bytes can't count its places.
pub fn plan_of<'a>(alloc: Global, needs: &[Need<'a>]) -> Result<Option<PoolPlan<'a>>, AllocError>
    ensures { IfOk result (λ plan. MatchOption plan (65535 ≤ length (once (map need_seen needs.now))) (λ p. (p ≡ once (map need_seen needs.now)) × (length p < 65535))) }
{
    let entries = entries_of(alloc, needs)?;
    if entries.len() >= 65535 {
        return Ok(None);
    }
    Ok(Some(PoolPlan { entries }))
}
