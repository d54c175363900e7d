ghost use Rattle.std.specs.Prelude.{◌≡◌, ◌≤◌, ◌⊎◌, [], ◌∷◌, ◌++◌, List, length, IfOk, IfErr, IsErrOf};
ghost use Rattle.decl_index.specs.declared.change.Change.{Change};
ghost use Rattle.decl_index.specs.declared.change.ChangeFault.{ChangeFault};
ghost use Rattle.decl_index.specs.declared.change.ChangeFault.TheVariants.{JournalFull, OutOfMemory};
ghost use Rattle.decl_index.specs.History.{KeepsRanges, first_withdrawal};
ghost use Rattle.decl_index.specs.Refusals.{Refuses, most_changes};
ghost use Rattle.version_board.specs.Versions.{IsVersion};

use crate::journal::Journal;
use decl_index::{Change, ChangeFault, Index};
use std::alloc::{AllocError, Global};

/// The most changes that a version stands for.
const MOST_CHANGES: u32 = 100_000;

/// A version: how many changes were made, their withdrawals, and the index after them. The index shares the
/// classes that a change doesn't touch with the version before.
#[derive(Drop)]
pub struct Snapshot {
    pub number: u32,
    pub journal: Journal,
    pub index: Index,
}

impl Snapshot {
    /// The version 0, of no change.
    pub fn empty(alloc: Global) -> Result<Snapshot, AllocError>
        ensures version { IfOk result (λ snapshot. IsVersion [] snapshot) }
    {
        Ok(Snapshot {
            number: 0,
            journal: Journal::new(alloc),
            index: Index::empty(alloc)?,
        })
    }

    /// The version with the change added; the receiver stays. `JournalFull` comes first and takes no memory, at
    /// 100,000 changes; the other refusals are those of `Index::apply`.
    pub fn after(&self, alloc: Global, change: &Change) -> Result<Snapshot, ChangeFault>
        requires ranges { KeepsRanges change.now }
        ensures version { (history : List Change) → IsVersion history self.now → IfOk result (λ next. IsVersion (history ++ change.now ∷ []) next) }
        ensures lawful { (history : List Change) → IsVersion history self.now → IfOk result (λ next. (fault : ChangeFault) → Refuses history change.now fault → ⊥) }
        ensures refused { (history : List Change) → IsVersion history self.now → IfErr result (λ fault. (fault ≡ OutOfMemory) ⊎ Refuses history change.now fault) }
        ensures full { (history : List Change) → IsVersion history self.now → most_changes ≤ length history → IsErrOf result JournalFull }
    {
        if self.index.number() >= MOST_CHANGES {
            return Err(ChangeFault::JournalFull);
        }
        let index = self.index.apply(alloc, change)?;
        let number = index.number();
        let journal = self.journal.with(alloc, number, change)?;
        Ok(Snapshot {
            number,
            journal,
            index,
        })
    }

    /// The number of the first change that withdraws the version of this number, None where there is none. The
    /// changes are numbered from 1; a withdrawal through `n` withdraws the versions 0 to `n`.
    pub fn withdrawn(&self, version: u32) -> Option<u32>
        ensures first { (history : List Change) → IsVersion history self.now → result ≡ first_withdrawal history version }
    {
        self.journal.first_beyond(version)
    }
}
