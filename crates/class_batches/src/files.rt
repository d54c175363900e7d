ghost use Rattle.std.specs.Prelude.{◌≡◌, ◌≤◌, length};

use std::marker::Model;

/// The most bytes that a file in a batch has.
pub const LONGEST_FILE: usize = 16_777_216;

/// The bytes of a file, under a number by which faults tell it. Contracts see the number and the bytes.
#[derive(Drop)]
pub struct LoadedFile {
    pub(crate) number: u32,
    pub(crate) bytes: Vec<u8>,
}

impl Model for LoadedFile {
    ghost use Rattle.std.specs.Prelude.{ℕ, List, length, ◌≤◌};

    ghost Value = { ℕ × List ℕ };

    ghost view = { λ f. (f.number, f.bytes.items) };

    ghost invariant = { λ f. length f.bytes.items ≤ 16777216 };
}

impl LoadedFile {
    /// The file of a number.
    pub fn new(number: u32, bytes: Vec<u8>) -> LoadedFile
        requires short { length bytes.items ≤ LONGEST_FILE }
        ensures is { result ≡ (number, bytes.items) }
    {
        LoadedFile { number, bytes }
    }

    pub(crate) fn number(&self) -> u32
        ensures is { result ≡ self.now.0 }
    {
        self.number
    }

    pub(crate) fn bytes(&self) -> &[u8]
        ensures is { result.now ≡ self.now.1 }
        ensures short { length result.now ≤ LONGEST_FILE }
    {
        self.bytes.as_slice()
    }
}
