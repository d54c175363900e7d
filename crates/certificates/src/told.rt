// States that are told, each once, in the order in which they were met.

ghost use Rattle.std.specs.Prelude.{◌≡◌, ◌<◌, ℕ, [], ◌∷◌, true, false, length, slice_get, slice_index_or, IfOk, OnOk};
ghost use Rattle.succinct.specs.Compression.{AreDistinct};
ghost use Rattle.succinct.specs.Sets.{has};
ghost use Rattle.certificates.specs.Tables.{IsLater};

use std::alloc::{AllocError, Global};
use std::marker::Model;

/// The states that are told, and for each state whether it is.
#[derive(Drop)]
pub(crate) struct Told {
    states: Vec<u32>,
    marks: Vec<bool>,
}

impl Model for Told {
    ghost use Rattle.std.specs.Prelude.{length};
    ghost use Rattle.certificates.specs.Told.{ToldStates, IsTold};

    ghost Value = { ToldStates };

    ghost view = { λ t. record { states = t.states.items; count = length t.marks.items } };

    ghost invariant = { λ t. IsTold t.states.items t.marks.items };
}

/// No mark at so many states.
fn no_marks(alloc: Global, count: usize) -> Result<Vec<bool>, AllocError>
    ensures as_many { IfOk result (λ marks. length marks.items ≡ count) }
    ensures none { IfOk result (λ marks. (k : ℕ) → slice_index_or marks.items k false ≡ false) }
{
    let mut marks = Vec::new(alloc);
    for _ in 0..count {
        marks.push(false)?;
    }
    Ok(marks)
}

impl Told {
    /// One of so many states.
    pub(crate) fn of(alloc: Global, count: usize, state: u32) -> Result<Told, AllocError>
        requires in_range { state < count }
        ensures one { IfOk result (λ t. t.states ≡ state ∷ []) }
        ensures as_many { IfOk result (λ t. t.count ≡ count) }
    {
        let mut marks = no_marks(alloc, count)?;
        marks[state as usize] = true;
        let mut states = Vec::new(alloc);
        states.push(state)?;
        Ok(Told { states, marks })
    }

    /// Adds a state where it isn't told yet.
    pub(crate) fn add(&mut self, state: u32) -> Result<(), AllocError>
        requires in_range { state < self.old.count }
        ensures later { OnOk result (IsLater self.old self.new) }
        ensures added { OnOk result (has state self.new.states ≡ true) }
    {
        if self.marks[state as usize] {
            return Ok(());
        }
        self.states.push(state)?;
        self.marks[state as usize] = true;
        Ok(())
    }

    /// The state at a place.
    pub(crate) fn at(&self, place: usize) -> Option<u32>
        ensures value { result ≡ slice_get self.now.states place }
    {
        self.states.as_slice().get(place).copied()
    }

    /// All of them.
    pub(crate) fn as_slice(&self) -> &[u32]
        ensures value { result.now ≡ self.now.states }
        ensures distinct { AreDistinct self.now.states }
        ensures in_range { (state : ℕ) → has state self.now.states ≡ true → state < self.now.count }
    {
        self.states.as_slice()
    }
}
