ghost use Rattle.std.specs.Prelude.{◌≡◌, ◌⊎◌, IfOk, IfErr};
ghost use Rattle.decl_index.specs.declared.change.ChangeFault.TheVariants.{OutOfMemory};

use crate::ahead::hand_ahead;
use crate::hub::Hub;
use crate::shared_pages::shared_page;
use crate::world::World;
use answers::Page;
use decl_index::{Change, ChangeFault};
use fingerprint::Fingerprinted;
use listing::Listing;
use outside::{LoadFault, Loaded, Shelf};
use prefetch::Sender;
use reconstruction::Rebuild;
use std::alloc::{AllocError, Global};
use std::sync::{Arc, Wait};
use version_board::{Naming, Pass, Snapshot, publish_and_learn};

/// The world of one client of a running program: the versions that all clients publish, listings that they share, and
/// files of its own. Others publish as well, so its history isn't told. It owns its pass, its shelf of files and the sender
/// by which it hands the listing of each page to the workers, where there are any: to have two more pages of that size.
#[derive(Drop)]
pub struct RunningWorld<'r, J: Naming, R: Wait + Drop, H: Drop> {
    pub rt: &'r R,
    pub hub: &'r Hub<J, R>,
    pub pass: Pass<J>,
    pub shelf: H,
    pub ahead: Option<Sender<Listing<Rebuild>>>,
}

#[tactic(auto, using(crate::proofs::RunningWorlds::running))]
impl<J: Naming, R: Wait + Drop, H: Shelf + Drop> World for RunningWorld<'_, J, R, H> {
    ghost use Rattle.sessions.specs.RunningStates.{running_state};

    ghost state = { λ w. running_state w.pass (H.holds w.shelf) (H.faults w.shelf) };

    fn faults(&self) -> u64 {
        self.shelf.faults()
    }

    fn read(&mut self) -> Result<Arc<Snapshot, Global>, AllocError> {
        self.pass.read(self.rt)
    }

    fn publish(&mut self, alloc: Global, change: Change) -> Result<u32, ChangeFault> {
        publish_and_learn(self.rt, &self.hub.publisher, alloc, &mut self.pass, change)
    }

    fn load(&mut self, name: &str, out: &mut Vec<u8>) -> Result<Loaded, LoadFault> {
        self.shelf.load(name, out)
    }

    fn page(
        &mut self,
        alloc: Global,
        env: &Fingerprinted,
        from: u64,
        count: u64,
    ) -> Result<Page, AllocError> {
        let (page, slot) = shared_page(
            self.rt,
            alloc,
            &self.hub.shelf,
            env.print(),
            env.env(),
            from,
            count,
        )?;
        let end = from + page.items.len() as u64;
        hand_ahead(self.rt, &mut self.ahead, end + 2 * count, slot);
        Ok(page)
    }
}
