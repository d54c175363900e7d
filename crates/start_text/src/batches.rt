ghost use Rattle.std.specs.Prelude.{◌≡◌, ◌≤◌, ◌++◌, ◌∷◌, [], ℕ, List, Option, length, Some, IfOk, OnOk, IsErrOf};
ghost use Rattle.outside.specs.Held.{longest_load};
ghost use Rattle.known_classes.specs.declared.summary.ClassSummary.{ClassSummary};
ghost use Rattle.start_text.specs.Faults.{Meets};
ghost use Rattle.start_text.specs.Taken.{as_held, wrong_among, AreAmong, AreTaken, Takes, Stops};
ghost use Rattle.start_text.specs.declared.fault.StartFault.TheVariants.{Failed};

use crate::fault::StartFault;
use class_batches::{Batch, LoadedFile};
use class_summary::ClassSummary;
use lists::Items;
use std::alloc::Global;
use std::marker::Model;
use std::thread::Threads;

/// What was read of numbered files: the classes of those of the batches before, and the batch that isn't full yet.
#[derive(Drop)]
pub struct Batches {
    classes: Items<ClassSummary>,
    batch: Batch,
}

impl Model for Batches {
    ghost use Rattle.std.specs.Prelude.{ℕ, List};
    ghost use Rattle.known_classes.specs.declared.summary.ClassSummary.{ClassSummary};
    ghost use Rattle.class_batches.specs.Batches.{IsFull};

    ghost Value = { List ClassSummary × List (ℕ × List ℕ) };

    ghost view = { λ r. (r.classes, r.batch) };

    ghost invariant = { λ r. IsFull r.batch → ⊥ };
}

/// Parses the files of a batch, and adds their classes. The batch is empty then.
fn read_batch(
    rt: &(impl Threads + Sync),
    alloc: Global,
    batch: &mut Batch,
    classes: &mut Items<ClassSummary>,
) -> Result<(), StartFault>
    ensures fault { Meets (wrong_among (as_held batch.old)) result }
    ensures classes { OnOk result ((added : List ClassSummary) × (classes.new ≡ classes.old ++ added) × AreAmong (as_held batch.old) added) }
    ensures empty { batch.new ≡ [] }
    ensures inside { IsErrOf result Failed → ⊥ }
{
    match batch.parse(rt, alloc) {
        Ok(added) => {
            classes.append(added)?;
            Ok(())
        }
        Err(fault) => Err(StartFault::from(fault)),
    }
}

impl Batches {
    /// No file was taken yet. It takes no memory.
    pub fn new(alloc: Global) -> Batches
        ensures none { result ≡ ([], []) }
    {
        Batches {
            classes: Items::new(alloc),
            batch: Batch::new(alloc),
        }
    }

    /// Takes the bytes of the file of this number. Where they fill the batch, its files are parsed, and the bytes of all of
    /// them are let go. `Failed` never comes.
    pub fn take(
        &mut self,
        rt: &(impl Threads + Sync),
        alloc: Global,
        number: u32,
        bytes: Vec<u8>,
    ) -> Result<(), StartFault>
        requires short { length bytes.items ≤ longest_load }
        ensures taken { (before : List (ℕ × Option (List ℕ))) → AreTaken before self.old → Takes (before ++ (number, Some bytes.items) ∷ []) self.new result }
        ensures inside { IsErrOf result Failed → ⊥ }
    {
        self.batch.take(LoadedFile::new(number, bytes))?;
        if self.batch.is_full() {
            return read_batch(rt, alloc, &mut self.batch, &mut self.classes);
        }
        Ok(())
    }

    /// What to answer where the next file gave no bytes, for this fault. The files that were taken are parsed, since what is
    /// wrong with one of them comes first.
    pub fn stop(
        &mut self,
        rt: &(impl Threads + Sync),
        alloc: Global,
        fault: StartFault,
    ) -> StartFault
        ensures first { (before : List (ℕ × Option (List ℕ))) → AreTaken before self.old → Stops before fault result }
        ensures inside { result ≡ Failed → fault ≡ Failed }
    {
        match read_batch(rt, alloc, &mut self.batch, &mut self.classes) {
            Ok(()) => fault,
            Err(earlier) => return earlier,
        }
    }

    /// The classes of all files that were taken. `Failed` never comes.
    pub fn finish(
        self,
        rt: &(impl Threads + Sync),
        alloc: Global,
    ) -> Result<Items<ClassSummary>, StartFault>
        ensures fault { (before : List (ℕ × Option (List ℕ))) → AreTaken before self → Meets (wrong_among before) result }
        ensures classes { (before : List (ℕ × Option (List ℕ))) → AreTaken before self → IfOk result (AreAmong before) }
        ensures inside { IsErrOf result Failed → ⊥ }
    {
        let Batches {
            mut classes,
            mut batch,
        } = self;
        match read_batch(rt, alloc, &mut batch, &mut classes) {
            Ok(()) => Ok(classes),
            Err(fault) => Err(fault),
        }
    }
}
