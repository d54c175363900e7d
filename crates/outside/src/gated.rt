ghost use Rattle.std.specs.Prelude.{◌≡◌, None};
ghost use Rattle.outside.specs.Causes.{HasCause};

use crate::sink::Sink;
use crate::source::{Failed, Source};
use std::sync::atomic::{AtomicU64, Ordering};
use std::thread::yield_now;

/// So often a source looks whether its turn has come.
const LOOKS: u64 = 200_000_000;

/// Whether a count becomes so great.
fn reaches(count: &AtomicU64, wanted: u64) -> bool {
    for _ in 0..LOOKS {
        if count.load(Ordering::SeqCst) >= wanted {
            return true;
        }
        yield_now();
    }
    false
}

/// A source for tests of several ends: it gives its bytes in turns, each once the count of bytes that another end's
/// `FlaggedSink` took is so great. It fails, and counts one, where that takes more than 200,000,000 looks.
#[derive(Drop)]
pub struct GatedSource<'a> {
    /// The turns that are left, each behind the count that it waits for.
    pub turns: &'a [(u64, String)],
    /// What is left of the turn that has come.
    pub rest: &'a [u8],
    /// How many bytes the other end was written.
    pub written: &'a AtomicU64,
    pub faults: u64,
}

impl GatedSource<'_> {
    /// Waits for the next turn, where there is one.
    fn next_turn(&mut self) -> Result<(), Failed>
        ensures cause { HasCause self.old.faults self.new.faults result }
    {
        let Some((turn, later)) = self.turns.split_first() else {
            return Ok(());
        };
        if !reaches(self.written, turn.0) {
            self.faults = self.faults.saturating_add(1);
            return Err(Failed);
        }
        self.rest = turn.1.as_bytes();
        self.turns = later;
        Ok(())
    }
}

impl Source for GatedSource<'_> {
    ghost left = { λ _. None };

    ghost faults = { λ s. s.faults };

    fn faults(&self) -> u64 {
        self.faults
    }

    fn read(&mut self, buf: &mut [u8]) -> Result<usize, Failed> {
        if self.rest.is_empty() {
            self.next_turn()?;
        }
        let count = buf.len().min(self.rest.len());
        buf[..count].copy_from_slice(&self.rest[..count]);
        self.rest = &self.rest[count..];
        Ok(count)
    }
}

/// A sink that tells other threads how many bytes it took. It is written and fails as the sink within it.
#[derive(Drop)]
pub struct FlaggedSink<'a, K: Sink> {
    pub sink: K,
    pub taken: &'a AtomicU64,
}

impl<K: Sink> Sink for FlaggedSink<'_, K> {
    ghost written = { λ s. K.written s.sink };

    ghost faults = { λ s. K.faults s.sink };

    fn faults(&self) -> u64 {
        self.sink.faults()
    }

    fn write(&mut self, piece: &[u8]) -> Result<usize, Failed> {
        let count = self.sink.write(piece)?;
        self.taken.fetch_add(count as u64, Ordering::SeqCst);
        Ok(count)
    }
}
