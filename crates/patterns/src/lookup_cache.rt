// Guesses of places by numbers. Whoever reads one compares what stands there, so that a wrong one costs time alone.

use std::alloc::{AllocError, Global};

/// A guess for each number. Numbers that are a multiple of the count of notes apart share one.
#[derive(Drop)]
pub struct Notes {
    /// None, or a power of two of them.
    places: Vec<u32>,
}

impl Notes {
    /// No notes. Takes no memory.
    pub fn new(alloc: Global) -> Notes {
        Notes {
            places: Vec::new(alloc),
        }
    }

    /// The count of notes.
    pub fn len(&self) -> usize {
        self.places.len()
    }

    /// The place that is noted for a number, 0 where there is none.
    pub fn at(&self, number: u32) -> usize {
        let slot = number as usize & self.places.len().wrapping_sub(1);
        match self.places.get(slot) {
            Some(place) => *place as usize,
            None => 0,
        }
    }

    /// Notes a place for a number, where there are notes.
    pub fn note(&mut self, number: u32, place: u32) {
        let slot = number as usize & self.places.len().wrapping_sub(1);
        match self.places.get_mut(slot) {
            Some(noted) => *noted = place,
            None => {}
        }
    }

    /// Doubles the count of notes, the first time to 64. What was noted is then to be noted again.
    pub fn widen(&mut self) -> Result<(), AllocError> {
        let more = if self.places.is_empty() {
            64
        } else {
            self.places.len()
        };
        for _ in 0..more {
            self.places.push(0)?;
        }
        Ok(())
    }
}
