ghost use Rattle.std.specs.Prelude.{◌≡◌, ◌⊎◌, ◌++◌, [], ◌∷◌, List, IfOk, IfErr};
ghost use Rattle.std.specs.Arc.{arc_value};
ghost use Rattle.decl_index.specs.declared.change.Change.{Change};
ghost use Rattle.decl_index.specs.declared.change.ChangeFault.{ChangeFault};
ghost use Rattle.decl_index.specs.declared.change.ChangeFault.TheVariants.{OutOfMemory};
ghost use Rattle.decl_index.specs.History.{KeepsRanges};
ghost use Rattle.decl_index.specs.Refusals.{Refuses};
ghost use Rattle.version_board.specs.Versions.{IsVersion};
ghost use Rattle.sessions.specs.MemStates.{mem_state};

use crate::shared_pages::shared_page;
use crate::world::World;
use answers::Page;
use decl_index::{Change, ChangeFault};
use fingerprint::Fingerprinted;
use listing::Listing;
use lists::{Copies, Items};
use outside::{LoadFault, Loaded, MemShelf, Shelf};
use reconstruction::Rebuild;
use shared_shelf::SharedShelf;
use std::alloc::{AllocError, Global};
use std::marker::Model;
use std::sync::{Arc, Wait};
use version_board::Snapshot;

/// How many listings a session keeps.
const LISTINGS: u32 = 64;

/// A world in memory for one client, whose changes are the only ones: tests see its whole history, the files that can
/// be loaded, and the lengths of the histories that were read. It keeps listings of its own. Contracts see it as its
/// state.
#[derive(Drop)]
pub struct MemWorld<'r, R: Wait> {
    rt: &'r R,
    at: Arc<Snapshot, Global>,
    pub history: Items<Change>,
    pub reads: Vec<u32>,
    pub shelf: MemShelf,
    listings: SharedShelf<Listing<Rebuild>>,
}

impl<'r, R: Wait> Model for MemWorld<'r, R> {
    ghost use Rattle.std.specs.Arc.{arc_value};
    ghost use Rattle.version_board.specs.Versions.{IsVersion};
    ghost use Rattle.sessions.specs.Worlds.{WorldState};
    ghost use Rattle.sessions.specs.MemStates.{mem_state};

    ghost Value = { WorldState };

    ghost view = { λ w. mem_state w.history w.reads.items w.shelf.files w.shelf.plan.faults };

    ghost invariant = { λ w. IsVersion w.history (arc_value w.at) };
}

impl<'r, R: Wait> MemWorld<'r, R> {
    /// The world of the version 0, with these files; nothing was read yet.
    #[tactic(auto, using(crate::proofs::MemWorlds::versions))]
    pub fn new(rt: &'r R, alloc: Global, shelf: MemShelf) -> Result<MemWorld<'r, R>, AllocError>
        ensures fresh { IfOk result (λ world. world ≡ mem_state [] [] shelf.files shelf.plan.faults) }
    {
        let snapshot = Snapshot::empty(alloc)?;
        let at = Arc::new(alloc, snapshot).map_err(|_| AllocError)?;
        Ok(MemWorld {
            rt,
            at,
            history: Items::new(alloc),
            reads: Vec::new(alloc),
            shelf,
            listings: SharedShelf::new(alloc, LISTINGS),
        })
    }
}

/// The version with a change added, for one client alone.
#[tactic(auto, using(crate::proofs::MemWorlds::versions))]
fn next_version(
    alloc: Global,
    at: &Arc<Snapshot, Global>,
    change: &Change,
) -> Result<Arc<Snapshot, Global>, ChangeFault>
    requires ranges { KeepsRanges change.now }
    ensures version { (history : List Change) → IsVersion history (arc_value at.now) → IfOk result (λ next. IsVersion (history ++ change.now ∷ []) (arc_value next)) }
    ensures lawful { (history : List Change) → IsVersion history (arc_value at.now) → IfOk result (λ _. (fault : ChangeFault) → Refuses history change.now fault → ⊥) }
    ensures refused { (history : List Change) → IsVersion history (arc_value at.now) → IfErr result (λ fault. (fault ≡ OutOfMemory) ⊎ Refuses history change.now fault) }
{
    let next = at.after(alloc, change)?;
    match Arc::new(alloc, next) {
        Ok(next) => Ok(next),
        Err(_) => Err(ChangeFault::OutOfMemory),
    }
}

#[tactic(auto, using(crate::proofs::MemWorlds::told))]
impl<R: Wait> World for MemWorld<'_, R> {
    ghost state = { λ w. w };

    fn faults(&self) -> u64 {
        self.shelf.faults()
    }

    fn read(&mut self) -> Result<Arc<Snapshot, Global>, AllocError> {
        let snapshot = Arc::try_clone(&self.at)?;
        let number = self.at.number;
        self.reads.push(number)?;
        Ok(snapshot)
    }

    fn publish(&mut self, alloc: Global, change: Change) -> Result<u32, ChangeFault> {
        let next = next_version(alloc, &self.at, &change)?;
        let number = next.number;
        self.history.push(change)?;
        self.at = next;
        Ok(number)
    }

    fn load(&mut self, name: &str, out: &mut Vec<u8>) -> Result<Loaded, LoadFault> {
        self.shelf.load(name, out)
    }

    fn page(
        &mut self,
        alloc: Global,
        env: &Fingerprinted,
        from: u64,
        count: u64,
    ) -> Result<Page, AllocError> {
        let (page, _) = shared_page(
            self.rt,
            alloc,
            &self.listings,
            env.print(),
            env.env(),
            from,
            count,
        )?;
        Ok(page)
    }
}
