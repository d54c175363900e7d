ghost use Rattle.std.specs.Prelude.{◌≡◌, ◌≤◌, [], ◌∷◌, length, IfOk, map};
ghost use Rattle.class_shape.specs.Shapes.{IsClassFile};
ghost use Rattle.class_shape.specs.declared.shapes.ClassShape.{ClassShape};
ghost use Rattle.class_summary.specs.Summaries.{summary_of};
ghost use Rattle.decl_index.specs.declared.change.Change.TheVariants.{Publish};
ghost use Rattle.decl_index.specs.History.{KeepsRanges};
ghost use Rattle.version_board.specs.Versions.{IsVersion};
ghost use Rattle.workload.specs.Writing.{IsWhole};
ghost use Rattle.samples.specs.Samples.{publication_of, history_of, IsLawful};

use class_shape::{ClassShape, one_shape, read_class};
use class_summary::{ClassSummary, from_shape};
use decl_index::Change;
use lists::Items;
use std::alloc::{AllocError, Global};
use version_board::Snapshot;
use workload::{is_whole, write_class};

/// The most bytes of a class file that is read.
const LONGEST_FILE: usize = 16_777_216;

/// What is kept of the class of a class file.
fn kept_in(alloc: Global, bytes: &[u8]) -> Result<ClassSummary, AllocError>
    requires short { length bytes.now ≤ 16777216 }
    ensures exact { (shape : ClassShape) → IsClassFile bytes.now shape → IfOk result (λ kept. kept ≡ summary_of shape) }
{
    one_shape();
    match read_class(alloc, bytes) {
        Ok(shape) => from_shape(alloc, &shape),
        Err(_) => Err(AllocError),
    }
}

/// What is kept of a class that is written as a class file and read again.
fn read_back(alloc: Global, shape: &ClassShape) -> Result<ClassSummary, AllocError>
    requires new { 45 ≤ shape.now.major }
    requires whole { IsWhole shape.now }
    ensures exact { IfOk result (λ kept. kept ≡ summary_of shape.now) }
{
    let Ok(bytes) = write_class(alloc, shape) else {
        return Err(AllocError);
    };
    if bytes.len() > LONGEST_FILE {
        return Err(AllocError);
    }
    kept_in(alloc, bytes.as_slice())
}

/// What is kept of a class, after a look whether it can be written.
fn kept_of(alloc: Global, shape: &ClassShape) -> Result<ClassSummary, AllocError>
    ensures exact { IfOk result (λ kept. kept ≡ summary_of shape.now) }
{
    if shape.major < 45 || !is_whole(alloc, shape)? {
        return Err(AllocError);
    }
    read_back(alloc, shape)
}

/// What is kept of classes, in their order.
fn all_kept(alloc: Global, shapes: &[ClassShape]) -> Result<Items<ClassSummary>, AllocError>
    ensures exact { IfOk result (λ all. all ≡ map summary_of shapes.now) }
{
    let mut all = Items::new(alloc);
    for shape in shapes {
        all.push(kept_of(alloc, shape)?)?;
    }
    Ok(all)
}

/// The change that puts these classes in.
fn publication(alloc: Global, kept: Items<ClassSummary>) -> Change
    ensures { result ≡ Publish kept [] [] }
{
    Change::Publish {
        puts: kept,
        removes: Items::new(alloc),
        counts: Items::new(alloc),
    }
}

/// The version of one change.
fn version_after(alloc: Global, change: &Change) -> Result<Snapshot, AllocError>
    requires ranges { KeepsRanges change.now }
    ensures version { IfOk result (λ version. IsVersion (change.now ∷ []) version) }
    ensures lawful { IfOk result (λ _. IsLawful change.now) }
{
    let empty = Snapshot::empty(alloc)?;
    match empty.after(alloc, change) {
        Ok(version) => Ok(version),
        Err(_) => Err(AllocError),
    }
}

/// The version of the one change that puts these classes in.
pub fn version_of(alloc: Global, shapes: &[ClassShape]) -> Result<Snapshot, AllocError>
    ensures version { IfOk result (λ version. IsVersion (history_of shapes.now) version) }
    ensures lawful { IfOk result (λ _. IsLawful (publication_of shapes.now)) }
{
    let change = publication(alloc, all_kept(alloc, shapes)?);
    version_after(alloc, &change)
}
