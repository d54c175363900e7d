ghost use Rattle.std.specs.Prelude.{◌≡◌, ◌⊎◌, ◌≤◌};
ghost use Rattle.outside.specs.Causes.{Rose};
ghost use Rattle.samples.specs.Runs.{SamplesBy, IsSilent};
ghost use Rattle.samples.specs.declared.sampling.Sampling.TheVariants.{Whole, OutOfMemory};

use crate::sample::write_sample;
use crate::sampling::Sampling;
use outside::{End, Shelf, Sink, Source, WriteFault};
use std::alloc::Global;

/// Writes the six lines of the sample of a number to the end's sink. It reads nothing and loads nothing.
pub fn tell_sample<S: Source, K: Sink, H: Shelf>(
    alloc: Global,
    number: u32,
    end: &mut End<S, K, H>,
) -> Sampling
    ensures ending { SamplesBy result number (K.written end.old.sink) (K.written end.new.sink) (K.faults end.old.sink) (K.faults end.new.sink) }
    // Where memory is wanting nothing is written.
    ensures silent { IsSilent result → end.new.sink ≡ end.old.sink }
    ensures source { end.new.source ≡ end.old.source }
    ensures shelf { end.new.shelf ≡ end.old.shelf }
    ensures later { K.faults end.old.sink ≤ K.faults end.new.sink }
    // Into a sink that doesn't fail the lines are written, unless memory runs out.
    ensures complete { ¬ (Rose (K.faults end.old.sink) (K.faults end.new.sink)) → (result ≡ Whole) ⊎ (result ≡ OutOfMemory) }
{
    match write_sample(alloc, number, &mut end.sink) {
        Ok(()) => Sampling::Whole,
        Err(WriteFault::Failed) => Sampling::WriteFault,
        Err(WriteFault::OutOfMemory) => Sampling::OutOfMemory,
    }
}
