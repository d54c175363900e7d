ghost use Rattle.std.specs.Prelude.{◌≡◌, ◌⊎◌, ◌∷◌, [], List, Some, Err, IfOk, IfErr, IsErrOf, MatchResult, ⊤};
ghost use Rattle.outside.specs.declared.shelf.HeldFile.{HeldFile};
ghost use Rattle.known_classes.specs.declared.summary.ClassSummary.{ClassSummary};
ghost use Rattle.decl_index.specs.declared.change.ChangeFault.{ChangeFault};
ghost use Rattle.decl_index.specs.Refusals.{Refuses};
ghost use Rattle.version_board.specs.Versions.{IsVersion};
ghost use Rattle.start_text.specs.declared.fault.StartFault.{StartFault};
ghost use Rattle.start_text.specs.declared.fault.StartFault.TheVariants.{Refused};
ghost use Rattle.start_text.specs.Faults.{IsOutside, Meets, LeavesShelf};
ghost use Rattle.start_text.specs.Starts.{publication, first_fault, IsStart, IsFaultOf};

use crate::class_files::read_classes;
use crate::fault::StartFault;
use crate::text::read_text;
use class_shape::one_shape;
use class_summary::ClassSummary;
use decl_index::Change;
use lists::Items;
use outside::Shelf;
use std::alloc::Global;
use std::thread::Threads;
use version_board::Snapshot;

/// The change that puts these classes in.
fn publication(alloc: Global, puts: Items<ClassSummary>) -> Change
    ensures { result ≡ publication puts }
{
    Change::Publish {
        puts,
        removes: Items::new(alloc),
        counts: Items::new(alloc),
    }
}

/// The version of the one change that puts these classes in.
fn first_version(alloc: Global, classes: Items<ClassSummary>) -> Result<Snapshot, StartFault>
    ensures version { IfOk result (λ snapshot. IsVersion (publication classes ∷ []) snapshot) }
    ensures lawful { IfOk result (λ _. (why : ChangeFault) → Refuses [] (publication classes) why → ⊥) }
    ensures refused { IfErr result (λ fault. IsOutside fault ⊎ ((why : ChangeFault) × (fault ≡ Refused why) × Refuses [] (publication classes) why)) }
    ensures inside { IsErrOf result StartFault.Failed → ⊥ }
{
    let empty = Snapshot::empty(alloc)?;
    let change = publication(alloc, classes);
    match empty.after(alloc, &change) {
        Ok(version) => Ok(version),
        Err(fault) => Err(StartFault::from(fault)),
    }
}

/// The classes of the files that the start text of this name names, in the order of its lines.
fn read_all<H: Shelf>(
    rt: &(impl Threads + Sync),
    alloc: Global,
    shelf: &mut H,
    name: &str,
) -> Result<Items<ClassSummary>, StartFault>
    ensures fault { (files : List HeldFile) → H.holds shelf.old ≡ Some files → Meets (first_fault files name.now) result }
    ensures classes { (files : List HeldFile) → H.holds shelf.old ≡ Some files → IfOk result (λ classes. IsStart files name.now classes) }
    ensures shelf { LeavesShelf (H.holds shelf.old) (H.holds shelf.new) (H.faults shelf.old) (H.faults shelf.new) result }
{
    let text = read_text(alloc, shelf, name)?;
    read_classes(rt, alloc, shelf, text.as_str())
}

/// The first version of a server: the one after the change that puts the classes of the start text's files in. The
/// text is UTF-8 and has one path of a class file a line; paths are names on the shelf as they stand, with
/// blanks and without comments. A line feed ends a line, a carriage return right before it belongs to neither
/// line, and empty lines are passed over. A path that stands twice is loaded twice, and of two classes of one
/// name the later one counts. A text without paths gives the version after a change of nothing. Files are loaded one
/// by one and parsed in batches, by as many threads as there are processors; of each only the summary of its class is kept.
pub fn read_start<H: Shelf>(
    rt: &(impl Threads + Sync),
    alloc: Global,
    shelf: &mut H,
    name: &str,
) -> Result<Snapshot, StartFault>
    // The version is that of one change, which puts in just the classes of the files, in the order of the lines.
    ensures version { IfOk result (λ snapshot. (classes : List ClassSummary) × IsVersion (publication classes ∷ []) snapshot
        × ((files : List HeldFile) → H.holds shelf.old ≡ Some files → IsStart files name.now classes)) }
    // A fault is the first one: the text's, then that of the first line that has one, then that of the change.
    ensures fault { (files : List HeldFile) → H.holds shelf.old ≡ Some files → IfErr result (λ fault. IsOutside fault ⊎ IsFaultOf files name.now fault) }
    // Whatever is wrong is answered, unless the shelf fails or memory runs out.
    ensures refused { (files : List HeldFile) (wrong : StartFault) → H.holds shelf.old ≡ Some files → IsFaultOf files name.now wrong
        → MatchResult result (λ _. ⊥) (λ fault. IsOutside fault ⊎ (fault ≡ wrong)) }
    // Where nothing is wrong there is a version, unless the shelf fails or memory runs out.
    ensures whole { (files : List HeldFile) (classes : List ClassSummary) → H.holds shelf.old ≡ Some files → IsStart files name.now classes
        → ((why : ChangeFault) → Refuses [] (publication classes) why → ⊥) → IfErr result IsOutside }
    ensures shelf { LeavesShelf (H.holds shelf.old) (H.holds shelf.new) (H.faults shelf.old) (H.faults shelf.new) result }
{
    one_shape();
    match read_all(rt, alloc, shelf, name) {
        Ok(classes) => first_version(alloc, classes),
        Err(fault) => Err(fault),
    }
}
