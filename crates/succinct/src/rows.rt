// Lists by number in one flat table.

ghost use Rattle.std.specs.Prelude.{◌≡◌, ◌<◌, ◌≤◌, ◌++◌, ◌∷◌, [], length, slice_index_or, slice_range, OnOk, OnErr};

use std::alloc::{AllocError, Global};
use std::marker::Model;

/// Lists of numbers by their places, without memory of its own for each of them. It owns its tables.
#[derive(Drop)]
pub struct Rows {
    /// Where each row ends.
    ends: Vec<usize>,
    flat: Vec<u32>,
}

impl Model for Rows {
    ghost use Rattle.std.specs.Prelude.{ℕ, List};
    ghost use Rattle.succinct.specs.Rows.{rows_from, AreCuts};

    ghost Value = { List (List ℕ) };

    ghost view = { λ r. rows_from 0 r.ends.items r.flat.items };

    ghost invariant = { λ r. AreCuts 0 r.ends.items r.flat.items };
}

/// Where a row starts: at the end of the one before it.
fn start_of(ends: &[usize], place: usize) -> usize
    requires in_range { place < length ends.now }
    ensures value { result ≡ slice_index_or (0 ∷ ends.now) place 0 }
{
    if place == 0 {
        return 0;
    }
    ends[place - 1]
}

/// The numbers from one place up to another.
fn part(flat: &[u32], start: usize, end: usize) -> &[u32]
    requires order { start ≤ end }
    requires in_range { end ≤ length flat.now }
    ensures value { result.now ≡ slice_range flat.now start end }
{
    &flat[start..end]
}

impl Rows {
    /// No rows. Takes no memory.
    pub fn new(alloc: Global) -> Rows
        ensures empty { result ≡ [] }
    {
        Rows {
            ends: Vec::new(alloc),
            flat: Vec::new(alloc),
        }
    }

    /// How many rows there are.
    pub fn len(&self) -> usize
        ensures value { result ≡ length self.now }
    {
        self.ends.len()
    }

    /// Puts a row at the end.
    pub fn push(&mut self, row: &[u32]) -> Result<(), AllocError>
        ensures added { OnOk result (self.new ≡ self.old ++ row.now ∷ []) }
        ensures kept { OnErr result (self.new ≡ self.old) }
    {
        self.ends.reserve(1)?;
        self.flat.extend_from_slice(row)?;
        let _ = self.ends.push(self.flat.len());
        Ok(())
    }

    /// The row of a place, empty where there is none.
    pub fn row(&self, place: u32) -> &[u32]
        ensures value { result.now ≡ slice_index_or self.now place [] }
    {
        let ends = self.ends.as_slice();
        let place = place as usize;
        if place >= ends.len() {
            return &[];
        }
        part(self.flat.as_slice(), start_of(ends, place), ends[place])
    }
}
