ghost use Rattle.std.specs.Prelude.{◌≡◌, ◌≤◌, ◌<◌, ◌⊎◌, ◌++◌, ◌∷◌, ◌^◌, ℕ, [], List, Option, length, Some, IfOk, OnOk, IsErrOf, MatchResult};
ghost use Rattle.outside.specs.Held.{held_under, longest_load};
ghost use Rattle.outside.specs.declared.shelf.HeldFile.{HeldFile};
ghost use Rattle.class_shape.specs.Shapes.{IsClassFile};
ghost use Rattle.known_classes.specs.declared.summary.ClassSummary.{ClassSummary};
ghost use Rattle.start_text.specs.Lines.{paths_among, paths_in};
ghost use Rattle.start_text.specs.Faults.{IsOutside, Meets, LeavesShelf, of_class};
ghost use Rattle.start_text.specs.Starts.{file_fault, first_file_fault, AreClassesOf};
ghost use Rattle.start_text.specs.Taken.{held_for, AreTaken, Takes};

use crate::batches::Batches;
use crate::fault::StartFault;
use class_pool::{ClassCause, ClassFault};
use class_shape::{ClassShape, read_class};
use class_summary::ClassSummary;
use lists::Items;
use outside::{Loaded, Shelf};
use std::alloc::Global;
use std::thread::Threads;

/// What is wrong with the class file of a line.
fn no_class(line: u32, fault: ClassFault) -> StartFault
    ensures { result ≡ of_class line fault fault.cause }
{
    match fault.cause {
        ClassCause::OutOfMemory => StartFault::OutOfMemory,
        _ => StartFault::NotClass(line, fault),
    }
}

/// The shape of the bytes of the file of this line. `Failed` never comes.
pub fn shape_of(alloc: Global, bytes: &[u8], line: u32) -> Result<ClassShape, StartFault>
    requires { length bytes.now ≤ longest_load }
    ensures fault { Meets (file_fault line (Some bytes.now)) result }
    ensures shape { IfOk result (λ shape. IsClassFile bytes.now shape) }
    ensures inside { IsErrOf result StartFault.Failed → ⊥ }
{
    match read_class(alloc, bytes) {
        Ok(shape) => Ok(shape),
        Err(fault) => Err(no_class(line, fault)),
    }
}

/// Loads the file of a line into the buffer, in place of what stood there.
pub fn load_file<H: Shelf>(
    shelf: &mut H,
    path: &str,
    line: u32,
    buffer: &mut Vec<u8>,
) -> Result<(), StartFault>
    ensures found { (files : List HeldFile) → H.holds shelf.old ≡ Some files → MatchResult result
        (λ _. held_under files path.now ≡ Some buffer.new.items)
        (λ fault. IsOutside fault ⊎ (file_fault line (held_under files path.now) ≡ Some fault)) }
    ensures short { OnOk result (length buffer.new.items ≤ longest_load) }
    ensures shelf { LeavesShelf (H.holds shelf.old) (H.holds shelf.new) (H.faults shelf.old) (H.faults shelf.new) result }
{
    match shelf.load(path, buffer)? {
        Loaded::Bytes => Ok(()),
        Loaded::Missing => Err(StartFault::NoFile(line)),
        Loaded::TooLong(_) => Err(StartFault::LongFile(line)),
    }
}

/// Loads the file of a line, where the line isn't empty, and takes its bytes.
fn read_line<H: Shelf>(
    rt: &(impl Threads + Sync),
    alloc: Global,
    shelf: &mut H,
    path: &str,
    line: u32,
    reading: &mut Batches,
) -> Result<(), StartFault>
    ensures taken { (files : List HeldFile) (before : List (ℕ × Option (List ℕ))) → H.holds shelf.old ≡ Some files → AreTaken before reading.old
        → Takes (before ++ held_for files (paths_among ((line, path.now) ∷ []))) reading.new result }
    ensures shelf { LeavesShelf (H.holds shelf.old) (H.holds shelf.new) (H.faults shelf.old) (H.faults shelf.new) result }
{
    if path.is_empty() {
        return Ok(());
    }
    let mut bytes = Vec::new(alloc);
    match load_file(shelf, path, line, &mut bytes) {
        Ok(()) => reading.take(rt, alloc, line, bytes),
        Err(fault) => Err(reading.stop(rt, alloc, fault)),
    }
}

/// Loads the files that a text names, in the order of the lines, and takes their bytes.
fn read_lines<H: Shelf>(
    rt: &(impl Threads + Sync),
    alloc: Global,
    shelf: &mut H,
    text: &str,
    reading: &mut Batches,
) -> Result<(), StartFault>
    requires { length text.now ≤ longest_load }
    ensures taken { (files : List HeldFile) → H.holds shelf.old ≡ Some files → reading.old ≡ ([], []) → Takes (held_for files (paths_in text.now)) reading.new result }
    ensures shelf { LeavesShelf (H.holds shelf.old) (H.holds shelf.new) (H.faults shelf.old) (H.faults shelf.new) result }
{
    let mut line: u32 = 0;
    for path in text.lines() {
        line += 1;
        match read_line(rt, alloc, shelf, path, line, reading) {
            Ok(()) => {}
            Err(fault) => return Err(fault),
        }
    }
    Ok(())
}

/// The classes of the files that a text names, in the order of the lines. The files are loaded one by one, and parsed in
/// batches; none is loaded after a batch with a fault.
pub fn read_classes<H: Shelf>(
    rt: &(impl Threads + Sync),
    alloc: Global,
    shelf: &mut H,
    text: &str,
) -> Result<Items<ClassSummary>, StartFault>
    requires { length text.now ≤ longest_load }
    ensures fault { (files : List HeldFile) → H.holds shelf.old ≡ Some files → Meets (first_file_fault files (paths_in text.now)) result }
    ensures classes { (files : List HeldFile) → H.holds shelf.old ≡ Some files → IfOk result (λ classes. AreClassesOf files (paths_in text.now) classes) }
    ensures shelf { LeavesShelf (H.holds shelf.old) (H.holds shelf.new) (H.faults shelf.old) (H.faults shelf.new) result }
{
    let mut reading = Batches::new(alloc);
    match read_lines(rt, alloc, shelf, text, &mut reading) {
        Ok(()) => reading.finish(rt, alloc),
        Err(fault) => Err(fault),
    }
}
