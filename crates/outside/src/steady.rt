ghost use Rattle.std.specs.Prelude.{◌≡◌, Some, None};

use crate::shelf::{HeldFile, LoadFault, Loaded, Shelf, load_held};
use crate::sink::Sink;
use crate::source::{Failed, Source};
use lists::Items;

/// A source over bytes in memory that never fails: its count of faults is 0 for good.
#[derive(Drop)]
pub struct SteadySource<'a> {
    pub rest: &'a [u8],
}

impl Source for SteadySource<'_> {
    ghost left = { λ s. Some s.rest.now };

    ghost faults = { λ _. 0 };

    fn faults(&self) -> u64 {
        0
    }

    fn read(&mut self, buf: &mut [u8]) -> Result<usize, Failed> {
        let count = buf.len().min(self.rest.len());
        buf[..count].copy_from_slice(&self.rest[..count]);
        self.rest = &self.rest[count..];
        Ok(count)
    }
}

/// A sink that never fails: its count of faults is 0 for good. It counts the bytes that it takes, and
/// keeps none of them, since keeping would want memory.
#[derive(Drop)]
pub struct SteadySink {
    pub taken: u64,
}

impl Sink for SteadySink {
    ghost written = { λ _. None };

    ghost faults = { λ _. 0 };

    fn faults(&self) -> u64 {
        0
    }

    fn write(&mut self, piece: &[u8]) -> Result<usize, Failed> {
        self.taken = self.taken.saturating_add(piece.len() as u64);
        Ok(piece.len())
    }
}

/// A shelf over files in memory that never fails: its count of faults is 0 for good. Of two files with
/// one name the first counts.
#[derive(Drop)]
pub struct SteadyShelf {
    pub files: Items<HeldFile>,
}

impl Shelf for SteadyShelf {
    ghost holds = { λ s. Some s.files };

    ghost faults = { λ _. 0 };

    fn faults(&self) -> u64 {
        0
    }

    fn load(&mut self, name: &str, out: &mut Vec<u8>) -> Result<Loaded, LoadFault> {
        let loaded = load_held(self.files.as_slice(), name, out)?;
        Ok(loaded)
    }
}
