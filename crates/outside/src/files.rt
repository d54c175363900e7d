ghost use Rattle.std.specs.Prelude.{◌≡◌, None};

use crate::reading::{ReadFault, read_up_to};
use crate::shelf::{LONGEST_LOAD, LoadFault, Loaded, Shelf};
use crate::streams::ReaderSource;
use std::alloc::Global;
use std::fs;
use std::io::ErrorKind;
use std::marker::Model;
use std::rt::Files;

/// The real files, by their paths. It tells nothing of what they hold. A file that isn't there is
/// `Missing`, and any other error of the file system is a fault. Contracts see the count of faults.
#[derive(Drop)]
pub struct FileShelf<'r, R: Files> {
    rt: &'r R,
    alloc: Global,
    faults: u64,
}

impl<'r, R: Files> Model for FileShelf<'r, R> {
    ghost use Rattle.std.specs.Prelude.{ℕ};

    ghost Value = { ℕ };

    ghost view = { λ s. s.faults };
}

impl<'r, R: Files> FileShelf<'r, R> {
    /// A shelf that has not failed yet.
    pub fn new(rt: &'r R, alloc: Global) -> FileShelf<'r, R>
        ensures fresh { result ≡ 0 }
    {
        FileShelf {
            rt,
            alloc,
            faults: 0,
        }
    }
}

impl<R: Files> Shelf for FileShelf<'_, R> {
    ghost holds = { λ _. None };

    ghost faults = { λ s. s };

    fn faults(&self) -> u64 {
        self.faults
    }

    fn load(&mut self, name: &str, out: &mut Vec<u8>) -> Result<Loaded, LoadFault> {
        out.clear();
        let file = match fs::open(self.rt, name) {
            Ok(file) => file,
            Err(error) => {
                if error.kind() == ErrorKind::NotFound {
                    return Ok(Loaded::Missing);
                }
                self.faults = self.faults.saturating_add(1);
                return Err(LoadFault::Failed);
            }
        };
        match read_up_to(self.alloc, &mut ReaderSource::new(file), LONGEST_LOAD + 1) {
            Ok(bytes) => {
                if bytes.len() > LONGEST_LOAD {
                    return Ok(Loaded::TooLong(bytes.len() as u64));
                }
                *out = bytes;
                Ok(Loaded::Bytes)
            }
            Err(ReadFault::Failed) => {
                self.faults = self.faults.saturating_add(1);
                Err(LoadFault::Failed)
            }
            Err(ReadFault::OutOfMemory) => Err(LoadFault::OutOfMemory),
        }
    }
}
