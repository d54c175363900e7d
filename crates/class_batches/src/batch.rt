ghost use Rattle.std.specs.Prelude.{◌≡◌, ◌↔◌, ◌++◌, ◌∷◌, [], IsTrue, IfOk, OnOk, OnErr};
ghost use Rattle.class_batches.specs.Batches.{AreShort, IsFull};
ghost use Rattle.class_batches.specs.Classes.{AreSummariesOf};
ghost use Rattle.class_batches.specs.Faults.{first_broken, Meets};

use crate::fault::BatchFault;
use crate::files::LoadedFile;
use crate::parsing::{gather, parse_each};
use class_summary::ClassSummary;
use core::mem::replace;
use lists::Items;
use std::alloc::{AllocError, Global};
use std::marker::Model;
use std::thread::Threads;

/// So many files fill a batch.
const MOST_FILES: usize = 4_096;

/// So many bytes fill a batch.
const MOST_BYTES: usize = 268_435_456;

/// Loaded files that are to be parsed at once, in their order. It owns their bytes.
#[derive(Drop)]
pub struct Batch {
    files: Items<LoadedFile>,
    bytes: usize,
}

impl Model for Batch {
    ghost use Rattle.std.specs.Prelude.{◌≡◌, ℕ, List};
    ghost use Rattle.class_batches.specs.Batches.{AreShort, bytes_of};

    ghost Value = { List (ℕ × List ℕ) };

    ghost view = { λ b. b.files };

    ghost invariant = { λ b. (b.bytes ≡ bytes_of b.files) × AreShort b.files };
}

impl Batch {
    /// No files. It takes no memory.
    pub fn new(alloc: Global) -> Batch
        ensures empty { result ≡ [] }
    {
        Batch {
            files: Items::new(alloc),
            bytes: 0,
        }
    }

    /// Whether the batch is to be parsed before it takes another file.
    pub fn is_full(&self) -> bool
        ensures is { IsTrue result ↔ IsFull self.now }
    {
        self.files.len() >= MOST_FILES || self.bytes >= MOST_BYTES
    }

    /// Takes a file in.
    #[tactic(auto, using(crate::proofs::FilesMore::short_more))]
    pub fn take(&mut self, file: LoadedFile) -> Result<(), AllocError>
        requires room { IsFull self.old → ⊥ }
        ensures taken { OnOk result (self.new ≡ self.old ++ file ∷ []) }
        ensures same { OnErr result (self.new ≡ self.old) }
    {
        let bytes = file.bytes().len();
        self.files.push(file)?;
        self.bytes += bytes;
        Ok(())
    }

    /// The classes of all files in their order, or the first file that is none. The bytes are let go, and the batch is
    /// empty.
    pub fn parse(
        &mut self,
        rt: &(impl Threads + Sync),
        alloc: Global,
    ) -> Result<Items<ClassSummary>, BatchFault>
        ensures wrong { Meets (first_broken self.old) result }
        ensures classes { IfOk result (AreSummariesOf self.old) }
        ensures short { AreShort self.old }
        ensures empty { self.new ≡ [] }
    {
        let Batch { files, bytes: _ } = replace(self, Batch::new(alloc));
        let parsed = parse_each(rt, alloc, files.as_slice())?;
        gather(alloc, parsed)
    }
}
