ghost use Rattle.std.specs.Prelude.{◌≡◌, ◌≤◌, ◌∷◌, [], ℕ, List, length, Some, IsErrOf};
ghost use Rattle.outside.specs.Held.{longest_load};
ghost use Rattle.outside.specs.declared.shelf.HeldFile.{HeldFile};
ghost use Rattle.start_text.specs.Lines.{paths_among, paths_in};
ghost use Rattle.start_text.specs.declared.fault.StartFault.TheVariants.{Failed};
ghost use Rattle.counting.specs.Faults.{LeavesShelf};
ghost use Rattle.start_text.specs.Taken.{held_for};
ghost use Rattle.counting.specs.Counted.{CountsLines, CountsText};
ghost use Rattle.counting.specs.declared.fault.CountFault.TheVariants.{Start};

use crate::fault::{CountFault, no_code};
use outside::Shelf;
use start_text::{load_file, read_text, shape_of};
use std::alloc::Global;
use usage_counts::{Counts, count_file};

/// Adds the uses in the file of this line.
fn count_class(
    alloc: Global,
    bytes: &[u8],
    line: u32,
    counts: &mut Counts,
) -> Result<(), CountFault>
    requires { length bytes.now ≤ longest_load }
    ensures counted { CountsLines ((line, Some bytes.now) ∷ []) counts.old counts.new result }
    ensures inside { IsErrOf result (Start Failed) → ⊥ }
{
    shape_of(alloc, bytes, line)?;
    match count_file(alloc, bytes, counts) {
        Ok(()) => Ok(()),
        Err(fault) => Err(no_code(line, fault)),
    }
}

/// What was counted, and room for the bytes of one file.
#[derive(Drop)]
struct Tally {
    counts: Counts,
    buffer: Vec<u8>,
}

/// Adds the uses in the file of a line, where the line isn't empty.
fn count_line<H: Shelf>(
    alloc: Global,
    shelf: &mut H,
    path: &str,
    line: u32,
    tally: &mut Tally,
) -> Result<(), CountFault>
    ensures counted { (files : List HeldFile) → H.holds shelf.old ≡ Some files
        → CountsLines (held_for files (paths_among ((line, path.now) ∷ []))) tally.old.counts tally.new.counts result }
    ensures shelf { LeavesShelf (H.holds shelf.old) (H.holds shelf.new) (H.faults shelf.old) (H.faults shelf.new) result }
{
    if path.is_empty() {
        return Ok(());
    }
    load_file(shelf, path, line, &mut tally.buffer)?;
    count_class(alloc, tally.buffer.as_slice(), line, &mut tally.counts)
}

/// Adds the uses in the files that a text names, in the order of the lines. The files are read one by one.
fn count_lines<H: Shelf>(
    alloc: Global,
    shelf: &mut H,
    text: &str,
    tally: &mut Tally,
) -> Result<(), CountFault>
    requires { length text.now ≤ longest_load }
    ensures counted { (files : List HeldFile) → H.holds shelf.old ≡ Some files
        → CountsLines (held_for files (paths_in text.now)) tally.old.counts tally.new.counts result }
    ensures shelf { LeavesShelf (H.holds shelf.old) (H.holds shelf.new) (H.faults shelf.old) (H.faults shelf.new) result }
{
    let mut line: u32 = 0;
    for path in text.lines() {
        line += 1;
        match count_line(alloc, shelf, path, line, tally) {
            Ok(()) => {}
            Err(fault) => return Err(fault),
        }
    }
    Ok(())
}

/// The uses in the files that the start text of this name names. The text's lines are those of a server's start.
/// Files are read one by one, and of each only its uses are kept.
pub fn count_files<H: Shelf>(alloc: Global, shelf: &mut H, name: &str) -> Result<Counts, CountFault>
    ensures counted { (files : List HeldFile) → H.holds shelf.old ≡ Some files → CountsText files name.now result }
    ensures shelf { LeavesShelf (H.holds shelf.old) (H.holds shelf.new) (H.faults shelf.old) (H.faults shelf.new) result }
{
    let text = read_text(alloc, shelf, name)?;
    let mut tally = Tally {
        counts: Counts::new(alloc),
        buffer: Vec::new(alloc),
    };
    match count_lines(alloc, shelf, text.as_str(), &mut tally) {
        Ok(()) => Ok(tally.counts),
        Err(fault) => Err(fault),
    }
}
