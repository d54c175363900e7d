ghost use Rattle.std.specs.Prelude.{◌≡◌, ◌⊎◌, ◌≤◌, List, Some};
ghost use Rattle.outside.specs.Causes.{Rose};
ghost use Rattle.outside.specs.declared.shelf.HeldFile.{HeldFile};
ghost use Rattle.counting.specs.Counted.{IsFaultOf};
ghost use Rattle.counting.specs.Runs.{CountsBy, IsSilent};
ghost use Rattle.counting.specs.declared.counting.Counting.TheVariants.{Whole, OutOfMemory};
ghost use Rattle.counting.specs.declared.fault.CountFault.{CountFault};

use crate::counting::Counting;
use crate::files::count_files;
use crate::lines::write_lines;
use outside::{End, Shelf, Sink, Source, WriteFault};
use std::alloc::Global;

/// Writes to the end's sink how often the class files that a start text names use each field, method and constructor: a
/// line `N KEY` for each key that is used, in rising byte order of keys. The text of this name and the files of its
/// lines are loaded from the end's shelf, one by one, and a file that is named twice counts twice. Nothing is written
/// before all files are counted, so nothing where the text or a file is wrong. A key with a line feed in it is written
/// as it stands. Memory grows with the keys, not with the files.
pub fn count<S: Source, K: Sink, H: Shelf>(
    alloc: Global,
    start: &str,
    end: &mut End<S, K, H>,
) -> Counting
    ensures ending { CountsBy result (H.holds end.old.shelf) start.now (K.written end.old.sink) (K.written end.new.sink)
        (H.faults end.old.shelf) (H.faults end.new.shelf) (K.faults end.old.sink) (K.faults end.new.sink) }
    // Where the text or a file is wrong, or the shelf fails, nothing is written.
    ensures silent { IsSilent result → end.new.sink ≡ end.old.sink }
    ensures source { end.new.source ≡ end.old.source }
    ensures shelf { H.holds end.new.shelf ≡ H.holds end.old.shelf }
    ensures later { (K.faults end.old.sink ≤ K.faults end.new.sink) × (H.faults end.old.shelf ≤ H.faults end.new.shelf) }
    // Over an end that doesn't fail, a text with which nothing is wrong is counted, unless memory runs out.
    ensures complete { (files : List HeldFile) → H.holds end.old.shelf ≡ Some files
        → ((fault : CountFault) → IsFaultOf files start.now fault → ⊥)
        → ¬ (Rose (H.faults end.old.shelf) (H.faults end.new.shelf)) → ¬ (Rose (K.faults end.old.sink) (K.faults end.new.sink))
        → (result ≡ Whole) ⊎ (result ≡ OutOfMemory) }
{
    let counts = match count_files(alloc, &mut end.shelf, start) {
        Ok(counts) => counts,
        Err(fault) => return Counting::of_fault(&fault),
    };
    match write_lines(alloc, &counts, &mut end.sink) {
        Ok(()) => Counting::Whole,
        Err(WriteFault::Failed) => Counting::WriteFault,
        Err(WriteFault::OutOfMemory) => Counting::OutOfMemory,
    }
}
