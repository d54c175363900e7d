// The edge of the program: where bytes come from, where they go, and files by their names.
// Each is a trait that counts its faults and may tell its bytes; the one main definition is `Rose`,
// by which a fault is answered only where the object's own count rose. Beside the adapters over the
// real thing stand objects in memory, for tests, and steady ones that never fail.
// It stands on `lists`.
#![tactic(auto)]

mod end;
mod files;
mod gated;
mod gathering;
mod memory;
mod plan;
mod reading;
mod shelf;
mod sink;
mod source;
mod steady;
mod streams;

pub use end::End;
pub use files::FileShelf;
pub use gated::{FlaggedSink, GatedSource};
pub use gathering::{Gathering, WriteFault};
pub use memory::{MemShelf, MemSink, MemSource};
pub use plan::FaultPlan;
pub use reading::{ReadFault, read_up_to};
pub use shelf::{HeldFile, LONGEST_LOAD, LoadFault, Loaded, Shelf};
pub use sink::{Sink, write_all};
pub use source::{Failed, Source};
pub use steady::{SteadyShelf, SteadySink, SteadySource};
pub use streams::{ReaderSource, WriterSink};

#[cfg(test)]
mod tests;
