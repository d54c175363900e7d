ghost use Rattle.std.specs.Prelude.{◌≡◌, ◌<◌, ◌≤◌, ◌+◌, ◌⊎◌, ◌++◌, ◌∷◌, [], List, IfOk, IfErr, map, length};
ghost use Rattle.decl_index.specs.declared.change.Change.{Change};
ghost use Rattle.decl_index.specs.declared.change.ChangeFault.{ChangeFault};
ghost use Rattle.decl_index.specs.declared.change.ChangeFault.TheVariants.{OutOfMemory};
ghost use Rattle.decl_index.specs.History.{IsState, KeepsRanges, use_of};
ghost use Rattle.decl_index.specs.Refusals.{RefusesFor, IsTooHigh};
ghost use Rattle.decl_index.specs.Weighing.{AreWeights};
ghost use Rattle.decl_index.specs.Steps.{IsPublished, IsPublishFault, IsKept, IsWithdrawn};

use crate::change::{Change, ChangeFault};
use crate::class_names::names_after;
use crate::counts::{Counts, with_counts};
use crate::merge::{put_all, take_all};
use crate::refusals::check;
use crate::sorted_classes::{Shared, Sorted, share};
use crate::weights::Weights;
use known_classes::{ClassList, ClassSummary, Classes, NameTables};
use lists::{Items, Text};
use std::alloc::{AllocError, Global};
use std::collections::BTreeMap;
use std::marker::Model;
use std::sync::Arc;

/// What is known of classes after a list of changes, in rising byte order of names, and what weighs how much then.
/// Indexes share the classes that they have in common, and their list where a change leaves it as it is.
#[derive(Drop)]
pub struct Index {
    classes: Arc<Vec<Shared>, Global>,
    counts: Arc<Counts, Global>,
    names: Arc<NameTables, Global>,
    weights: Weights,
    number: u32,
}

impl Model for Index {
    ghost use Rattle.std.specs.Prelude.{◌≡◌, List, ℕ, map};
    ghost use Rattle.std.specs.Arc.{arc_value};
    ghost use Rattle.decl_index.specs.History.{State, Rises};
    ghost use Rattle.decl_index.specs.Places.{AreNamesOf, count_pairs};
    ghost use Rattle.decl_index.specs.Changed.{IsFree};
    ghost use Rattle.decl_index.specs.Weighing.{AreWeights};

    ghost Value = { State };

    ghost view = { λ i. record { classes = map arc_value (arc_value i.classes).items; counts = count_pairs (arc_value i.counts); weights = i.weights; number = i.number } };

    ghost invariant = { λ i. Rises (map arc_value (arc_value i.classes).items) × AreNamesOf (map arc_value (arc_value i.classes).items) (arc_value i.names) × IsFree (map arc_value (arc_value i.classes).items) × AreWeights i.weights };
}

impl Index {
    /// The index of no change.
    pub fn empty(alloc: Global) -> Result<Index, AllocError>
        ensures state { IfOk result (λ index. IsState [] index) }
    {
        let classes = Vec::new(alloc);
        let names = NameTables::new(alloc, &Sorted::of(&classes), 0, Items::new(alloc))?;
        Ok(Index {
            classes: Arc::new(alloc, classes).map_err(|_| AllocError)?,
            counts: Arc::new(alloc, BTreeMap::new(alloc)).map_err(|_| AllocError)?,
            names: Arc::new(alloc, names).map_err(|_| AllocError)?,
            weights: Weights::usual(),
            number: 0,
        })
    }

    /// How many changes were applied.
    pub fn number(&self) -> u32
        ensures changes { result ≡ self.now.number }
    {
        self.number
    }

    /// The usage count of a key `owner.name:descriptor`, 0 where none was given.
    pub fn usage(&self, key: &str) -> u32
        ensures count { result ≡ use_of self.now.counts key.now }
    {
        self.counts.get(key).copied().unwrap_or(0)
    }

    /// What weighs how much: the weights that were set last, the usual ones where none were. It takes no memory.
    pub fn weights(&self) -> Weights
        ensures last { result ≡ self.now.weights }
        ensures ranges { AreWeights result }
    {
        self.weights
    }

    /// The index after a publication.
    fn published(
        &self,
        alloc: Global,
        puts: &[ClassSummary],
        removes: &[Text],
        counts: &[(Text, u32)],
    ) -> Result<Index, ChangeFault>
        requires { self.now.number < 4294967295 }
        ensures state { IfOk result (λ next. IsPublished puts.now removes.now counts.now self.now next) }
        ensures refused { IfErr result (λ fault. (fault ≡ OutOfMemory) ⊎ IsPublishFault puts.now removes.now self.now fault) }
    {
        let old = self.classes.as_slice();
        let mut classes = share(alloc, old)?;
        take_all(alloc, &mut classes, removes)?;
        put_all(alloc, &mut classes, puts)?;
        check(alloc, old, &classes, removes, puts)?;
        let names = names_after(alloc, self, &self.names, old, &classes, removes, puts)?;
        Ok(Index {
            classes: Arc::new(alloc, classes).map_err(|_| AllocError)?,
            counts: with_counts(alloc, &self.counts, counts)?,
            names,
            weights: self.weights,
            number: self.number + 1,
        })
    }

    /// The same classes and counts with these weights, after a change more.
    fn kept(&self, alloc: Global, weights: Weights) -> Result<Index, ChangeFault>
        requires number { self.now.number < 4294967295 }
        requires ranges { AreWeights weights }
        ensures state { IfOk result (λ next. IsKept weights self.now next) }
        ensures refused { IfErr result (λ fault. fault ≡ OutOfMemory) }
    {
        Ok(Index {
            classes: Arc::try_clone(&self.classes)?,
            counts: Arc::try_clone(&self.counts)?,
            names: Arc::try_clone(&self.names)?,
            weights,
            number: 1 + self.number,
        })
    }

    /// The index after a withdrawal.
    fn withdrawn(&self, alloc: Global, through: u32) -> Result<Index, ChangeFault>
        requires { self.now.number < 4294967295 }
        ensures state { IfOk result (λ next. IsWithdrawn through self.now next) }
        ensures refused { IfErr result (λ fault. (fault ≡ OutOfMemory) ⊎ IsTooHigh self.now.number through fault) }
    {
        if through > self.number {
            return Err(ChangeFault::TooHigh(through));
        }
        self.kept(alloc, self.weights)
    }

    /// The index with the change added, which shares the classes that the change doesn't touch; the receiver
    /// stays. The refusals come in the order `Cyclic`, `NestCycle`, `Full`; a withdrawal is refused by
    /// `TooHigh` alone, where its version isn't below `number() + 1`, and a setting of weights by nothing.
    /// `JournalFull` is never answered. What a setting sets must be what `Weights::checked` accepts.
    pub fn apply(&self, alloc: Global, change: &Change) -> Result<Index, ChangeFault>
        requires number { self.now.number < 4294967295 }
        requires ranges { KeepsRanges change.now }
        ensures state { (history : List Change) → IsState history self.now → IfOk result (λ next. IsState (history ++ change.now ∷ []) next) }
        ensures lawful { (history : List Change) → IsState history self.now → IfOk result (λ next. (fault : ChangeFault) → RefusesFor history change.now fault → ⊥) }
        ensures refused { (history : List Change) → IsState history self.now → IfErr result (λ fault. (fault ≡ OutOfMemory) ⊎ RefusesFor history change.now fault) }
    {
        match change {
            Change::Publish {
                puts,
                removes,
                counts,
            } => self.published(
                alloc,
                puts.as_slice(),
                removes.as_slice(),
                counts.as_slice(),
            ),
            Change::Withdraw(through) => self.withdrawn(alloc, *through),
            Change::SetWeights(weights) => self.kept(alloc, *weights),
        }
    }
}

impl Classes for Index {
    ghost listed = { λ s. s.classes };

    fn count(&self) -> usize {
        self.classes.len()
    }

    fn at(&self, place: usize) -> &ClassSummary {
        &*self.classes[place]
    }

    fn find(&self, name: &str) -> Option<usize> {
        Sorted::of(self.classes.as_slice()).find(name)
    }

    fn by_canonical(&self, dotted: &str) -> Option<usize> {
        self.names.place(dotted)
    }

    fn canonical_name(&self, place: usize) -> &str {
        match self.names.text(place) {
            Some(text) => text.as_str(),
            None => "",
        }
    }

    fn nested(&self, outer: &str, simple: &str) -> Option<usize> {
        self.names.nested(outer, simple)
    }

    fn surrounds(&self, name: &str) -> bool {
        self.names.surrounds(name)
    }
}
