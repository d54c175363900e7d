ghost use Rattle.std.specs.Prelude.{◌≡◌, ◌⊎◌, ◌+◌, ◌<◌, ◌≤◌, ◌++◌, false, All, List, length, IfOk, OnOk, IfSome, IfNone, OnErr};
ghost use Rattle.terms.specs.Expr.{Expr};
ghost use Rattle.terms.specs.Listing.{AreFew, IsNextLevel, IsNextWeight, Skipped};
ghost use Rattle.reconstruction.specs.Partial.{AreDivided, IsCode, least_completion, waiting};
ghost use Rattle.reconstruction.specs.Rebuilding.{AreGiven};
ghost use Rattle.partial_terms.specs.Search.{fronts};

use crate::agenda::Agenda;
use crate::built_terms::terms_of;
use crate::item::{Arena, Item, Parent};
use crate::start::{begin, least_at};
use crate::tables::{Tables, tables_of};
use crate::variables::grow;
use partial_terms::Chains;
use std::alloc::{AllocError, Global};
use std::marker::Model;
use terms::{Env, Level, Levels};
use weight_queue::WeightQueue;

/// A search that rebuilds the terms of a goal in the order of their weights, from partial terms in a queue.
/// It keeps partial terms alone, and makes the terms of a level when that is asked for.
#[derive(Drop)]
pub struct Rebuild {
    tables: Tables,
    arena: Arena,
    /// The partial terms that are still to be looked at; one is held where it doesn't belong to the levels given.
    agenda: Agenda,
    /// Room for the items that grow from one, before they go into the queue.
    children: Vec<(u32, Item)>,
    /// The whole fronts of the level that was begun.
    found: Vec<u32>,
    /// The weight of the level that was begun last, or 0.
    level: u32,
    /// The weight after that of the last level, or 0.
    from: u32,
}

impl Model for Rebuild {
    ghost use Rattle.reconstruction.specs.Rebuilding.{Rebuilding, held_shown};
    ghost use Rattle.reconstruction.specs.Running.{IsRunning};
    ghost use Rattle.reconstruction.specs.Tabled.{front_of, seen};
    ghost use Rattle.std.specs.Prelude.{map};

    ghost Value = { Rebuilding };

    ghost view = { λ r. record {
      progress = record { parts = r.tables.env; from = r.from };
      reached = r.level;
      pops = r.agenda.pops;
      queue = seen r.arena r.agenda.queue;
      held = held_shown r.arena r.agenda.held;
      level = map (front_of r.arena) r.found.items;
    } };

    ghost invariant = { λ r. IsRunning r.tables r.arena r.from r.level r.agenda r.found.items };
}

impl Rebuild {
    /// A search that has given nothing yet and popped nothing. It owns the environment.
    fn new(alloc: Global, env: Env) -> Result<Rebuild, AllocError>
        ensures start { IfOk result (λ search. search.progress ≡ record { parts = env; from = 0 }) }
        ensures fresh { IfOk result (λ search. (search.reached ≡ 0) × (search.pops ≡ 0)) }
    {
        let tables = tables_of(alloc, env)?;
        let mut arena = Arena {
            fronts: Chains::new(alloc),
            stacks: Chains::new(alloc),
        };
        let mut queue = WeightQueue::new(alloc);
        begin(&tables, &mut arena, &mut queue)?;
        Ok(Rebuild {
            tables,
            arena,
            agenda: Agenda::new(queue),
            children: Vec::new(alloc),
            found: Vec::new(alloc),
            level: 0,
            from: 0,
        })
    }

    /// Begins the next level, or goes on with the one that was begun: its weight, `None` where nothing is left.
    fn begin_level(&mut self) -> Option<u32>
        ensures next { IfSome result (λ k. IsNextWeight self.old.progress.parts self.old.progress.from k × (self.new.reached ≡ k)) }
        ensures none_left { IfNone result (
            Skipped self.old.progress.parts self.old.progress.from (self.old.progress.parts.limit + 1)
            × (self.new.reached ≡ self.old.reached)) }
        ensures same { self.new.progress ≡ self.old.progress }
        ensures pops_rise { self.old.pops ≤ self.new.pops }
    {
        let found = self.found.as_slice();
        match self.agenda.next_weight(found, self.level) {
            Some(weight) => {
                self.level = weight;
                Some(weight)
            }
            None => None,
        }
    }

    /// Takes the next item of the level that was begun: a whole front goes to those found, another one gives way to
    /// what grows from it. Whether there was such an item; after want of memory the search stands where it stood.
    fn step(&mut self) -> Result<bool, AllocError>
        requires begun { self.old.progress.from ≤ self.old.reached }
        ensures same { self.new.progress ≡ self.old.progress }
        ensures reached { self.new.reached ≡ self.old.reached }
        ensures whole { IfOk result (λ more. more ≡ false → All (λ q. self.new.reached < q.0) (waiting self.new)) }
        ensures pops_rise { self.old.pops ≤ self.new.pops }
    {
        let (key, item) = match self.agenda.next() {
            Some(next) => next,
            None => return Ok(false),
        };
        if key > self.level {
            return Ok(false);
        }
        match self.arena.stacks.first(item.stack) {
            None => {
                self.found.push(item.front)?;
                self.agenda.drop_held();
                Ok(true)
            }
            Some((place, rest)) => {
                let base = key - least_at(&self.tables, place);
                let front = item.front;
                let parent = Parent {
                    front,
                    base,
                    place,
                    rest,
                };
                self.children.clear();
                grow(&self.tables, &mut self.arena, &mut self.children, parent)?;
                self.agenda.replace_held(&mut self.children)?;
                Ok(true)
            }
        }
    }

    /// Makes the level that was begun. What was found of it before stays, so that it goes on after want of memory.
    fn make_level(&mut self) -> Result<(), AllocError>
        requires begun { self.old.progress.from ≤ self.old.reached }
        ensures same { self.new.progress ≡ self.old.progress }
        ensures reached { self.new.reached ≡ self.old.reached }
        ensures whole { OnOk result (All (λ q. self.new.reached < q.0) (waiting self.new)) }
        ensures pops_rise { self.old.pops ≤ self.new.pops }
    {
        for _turn in 0..u64::MAX {
            if !self.step()? {
                return Ok(());
            }
        }
        Err(AllocError)
    }

    /// The next level, as `next_level` gives it. What is reached is its weight; after want of memory it is the
    /// weight of the level that was being made.
    fn advance(&mut self, alloc: Global) -> Result<Option<Level>, AllocError>
        ensures next { IfOk result (λ found. IfSome found (λ level.
            IsNextLevel self.old.progress.parts self.old.progress.from level
            × (self.new.progress ≡ record { parts = self.old.progress.parts; from = level.weight + 1 }))) }
        ensures none_left { IfOk result (λ found. IfNone found (
            Skipped self.old.progress.parts self.old.progress.from (self.old.progress.parts.limit + 1)
            × (self.new.progress ≡ self.old.progress))) }
        ensures same_level_again { OnErr result (self.new.progress ≡ self.old.progress) }
        ensures pops_rise { self.old.pops ≤ self.new.pops }
        ensures reached { IfOk result (λ found. IfSome found (λ level. self.new.reached ≡ level.weight)) }
        ensures not_further { IfOk result (λ found. IfNone found (self.new.reached ≡ self.old.reached)) }
        ensures being_made { OnErr result (IsNextWeight self.old.progress.parts self.old.progress.from self.new.reached) }
    {
        let weight = match self.begin_level() {
            Some(weight) => weight,
            None => return Ok(None),
        };
        self.make_level()?;
        let fronts = self.found.as_slice();
        let terms = terms_of(alloc, &self.tables, &self.arena, fronts)?;
        self.found.clear();
        self.from = weight + 1;
        Ok(Some(Level { weight, terms }))
    }
}

impl Rebuild {
    /// How many items were popped so far; a count of 2^64 - 1 stands for that many or more. There are no more of
    /// them than 1 and, for each term up to the weight of the level that was begun last, its nodes and 1. The 1 is
    /// the item that is held for the next level. There are no fewer of them than terms given. It is what `pops`
    /// answers.
    pub fn popped_items(&self) -> u64
        ensures count { result ≡ self.now.pops }
        ensures few { AreFew self.now.progress.parts self.now.reached result }
        ensures many { (es : List Expr) → AreGiven self.now.progress es → (length es ≤ result) ⊎ (result ≡ 18446744073709551615) }
    {
        self.agenda.pops()
    }

    /// How many partial terms the queue holds. Each of them, and the one that is held beside it, has a completion,
    /// and its key is the least total of its completions. Each inhabitant that isn't given yet completes exactly
    /// one of the queue's items, the item that is held and the terms found of the level that is being made, if
    /// want of memory has stopped it.
    pub fn queued_items(&self) -> usize
        ensures count { result ≡ length self.now.queue }
        ensures alive { All (λ item. least_completion self.now.progress.parts item.1 item.0) (waiting self.now) }
        ensures found { All (IsCode self.now.progress.parts self.now.reached) self.now.level }
        ensures divided { AreDivided self.now.progress (fronts (waiting self.now) ++ self.now.level) }
    {
        self.agenda.queued()
    }
}

impl Levels for Rebuild {
    ghost progress = { λ r. r.progress };

    ghost reached = { λ r. r.reached };

    ghost popped = { λ r. r.pops };

    fn over(alloc: Global, env: Env) -> Result<Rebuild, AllocError> {
        Rebuild::new(alloc, env)
    }

    fn env(&self) -> &Env {
        &self.tables.env
    }

    fn next_level(&mut self, alloc: Global) -> Result<Option<Level>, AllocError> {
        self.advance(alloc)
    }

    fn pops(&self) -> u64 {
        self.popped_items()
    }
}
