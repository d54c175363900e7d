ghost use Rattle.std.specs.Prelude.{◌≡◌, ◌<◌, ◌≤◌, ◌↔◌, ◌-◌, ◌^◌, [], Some, min, max, length, IfOk, IfSome, IsErr, IsTrue, OnErr, IsErrOf};
ghost use Rattle.std.specs.Io.{ReadsAtMost};
ghost use Rattle.std.specs.Io.KnownBytes.{ReadConsumes, WriteAppends};
ghost use Rattle.outside.specs.Causes.{HasCause, Rose};
ghost use Rattle.outside.specs.Held.{held_under, Gives, Leaves};
ghost use Rattle.outside.specs.Plans.{is_due, one_more};

use crate::plan::FaultPlan;
use crate::shelf::{HeldFile, LoadFault, Loaded, Shelf, load_held};
use crate::sink::Sink;
use crate::source::{Failed, Source};
use lists::Items;
use std::alloc::Global;

/// A source over bytes in memory. A call gives at most `most` bytes, one where `most` is 0, and fails
/// exactly where the plan lists its number.
#[derive(Drop)]
pub struct MemSource<'a> {
    pub rest: &'a [u8],
    pub most: usize,
    pub plan: FaultPlan,
}

impl<'a> MemSource<'a> {
    /// The bytes, in reads as long as the caller's room.
    pub fn new(rest: &'a [u8], plan: FaultPlan) -> MemSource<'a>
        ensures left { result.rest.now ≡ rest.now }
        ensures most { result.most ≡ 2 ^ 64 - 1 }
        ensures plan { result.plan ≡ plan }
    {
        MemSource {
            rest,
            most: usize::MAX,
            plan,
        }
    }
}

impl Source for MemSource<'_> {
    ghost left = { λ s. Some s.rest.now };

    ghost faults = { λ s. s.plan.faults };

    fn faults(&self) -> u64 {
        self.plan.faults
    }

    fn read(&mut self, buf: &mut [u8]) -> Result<usize, Failed>
        ensures bound { ReadsAtMost result buf.new }
        ensures bytes { ReadConsumes (Some self.old.rest.now) (Some self.new.rest.now) result buf.new }
        ensures end { IfOk result (λ n. n ≡ 0 → 0 < length buf.new → IfSome (Some self.old.rest.now) (λ bytes. bytes ≡ [])) }
        ensures cause { HasCause self.old.plan.faults self.new.plan.faults result }
        ensures planned { IsErr result ↔ IsTrue (is_due self.old.plan) }
        ensures counted { self.new.plan.calls ≡ one_more self.old.plan.calls }
        ensures same_plan { self.new.plan.failing ≡ self.old.plan.failing }
        ensures same_most { self.new.most ≡ self.old.most }
        ensures count { IfOk result (λ n. n ≡ min (min (length buf.new) (length self.old.rest.now)) (max self.old.most 1)) }
    {
        if self.plan.step() {
            return Err(Failed);
        }
        let count = buf.len().min(self.rest.len()).min(self.most.max(1));
        buf[..count].copy_from_slice(&self.rest[..count]);
        self.rest = &self.rest[count..];
        Ok(count)
    }
}

/// A sink that keeps what is written. A call takes at most `most` bytes, one where `most` is 0. It fails
/// where the plan lists its number, and where memory is wanting.
#[derive(Drop)]
pub struct MemSink {
    pub bytes: Vec<u8>,
    pub most: usize,
    pub plan: FaultPlan,
}

impl MemSink {
    /// Nothing is written yet.
    pub fn new(alloc: Global, plan: FaultPlan) -> MemSink
        ensures written { result.bytes.items ≡ [] }
        ensures most { result.most ≡ 2 ^ 64 - 1 }
        ensures plan { result.plan ≡ plan }
    {
        MemSink {
            bytes: Vec::new(alloc),
            most: usize::MAX,
            plan,
        }
    }
}

impl Sink for MemSink {
    ghost written = { λ s. Some s.bytes.items };

    ghost faults = { λ s. s.plan.faults };

    fn faults(&self) -> u64 {
        self.plan.faults
    }

    fn write(&mut self, piece: &[u8]) -> Result<usize, Failed>
        ensures taken { IfOk result (λ n. (n ≤ length piece.now) × (0 < length piece.now → 0 < n)) }
        ensures bytes { WriteAppends (Some self.old.bytes.items) (Some self.new.bytes.items) result piece.now }
        ensures cause { HasCause self.old.plan.faults self.new.plan.faults result }
        ensures planned { IsTrue (is_due self.old.plan) → IsErr result }
        ensures counted { self.new.plan.calls ≡ one_more self.old.plan.calls }
        ensures same_plan { self.new.plan.failing ≡ self.old.plan.failing }
        ensures same_most { self.new.most ≡ self.old.most }
        ensures count { IfOk result (λ n. n ≡ min (length piece.now) (max self.old.most 1)) }
    {
        if self.plan.step() {
            return Err(Failed);
        }
        let count = piece.len().min(self.most.max(1));
        match self.bytes.extend_from_slice(&piece[..count]) {
            Ok(()) => Ok(count),
            Err(_) => {
                self.plan.faults = self.plan.faults.saturating_add(1);
                Err(Failed)
            }
        }
    }
}

/// A shelf over files in memory. A call fails exactly where the plan lists its number, unless memory is
/// wanting.
#[derive(Drop)]
pub struct MemShelf {
    pub files: Items<HeldFile>,
    pub plan: FaultPlan,
}

impl MemShelf {
    /// A shelf of these files; of two with one name the first counts.
    pub fn new(files: Items<HeldFile>, plan: FaultPlan) -> MemShelf
        ensures value { result ≡ record { files = files; plan = plan } }
    {
        MemShelf { files, plan }
    }
}

impl Shelf for MemShelf {
    ghost holds = { λ s. Some s.files };

    ghost faults = { λ s. s.plan.faults };

    fn faults(&self) -> u64 {
        self.plan.faults
    }

    fn load(&mut self, name: &str, out: &mut Vec<u8>) -> Result<Loaded, LoadFault>
        ensures answer { IfOk result (λ loaded. Gives (held_under self.old.files name.now) loaded out.new.items) }
        ensures bound { IfOk result (λ loaded. Leaves loaded out.new.items) }
        ensures empty { OnErr result (out.new.items ≡ []) }
        ensures unchanged { Some self.new.files ≡ Some self.old.files }
        ensures later { self.old.plan.faults ≤ self.new.plan.faults }
        ensures cause { IsErrOf result LoadFault.Failed → Rose self.old.plan.faults self.new.plan.faults }
        ensures planned { IsErrOf result LoadFault.Failed ↔ IsTrue (is_due self.old.plan) }
        ensures counted { self.new.plan.calls ≡ one_more self.old.plan.calls }
        ensures same_plan { self.new.plan.failing ≡ self.old.plan.failing }
    {
        if self.plan.step() {
            out.clear();
            return Err(LoadFault::Failed);
        }
        let loaded = load_held(self.files.as_slice(), name, out)?;
        Ok(loaded)
    }
}
