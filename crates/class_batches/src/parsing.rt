ghost use Rattle.std.specs.Prelude.{◌≡◌, ℕ, List, IfOk};
ghost use Rattle.std.specs.List.{AllZip};
ghost use Rattle.class_batches.specs.Classes.{IsSummaryOf, AreSummariesOf};
ghost use Rattle.class_batches.specs.Faults.{broken_by, first_broken, Meets, Parses};

use crate::fault::{BatchFault, broken};
use crate::files::LoadedFile;
use class_shape::read_class;
use class_summary::{ClassSummary, from_shape};
use lists::Items;
use rayon::prelude::*;
use std::alloc::{AllocError, Global};
use std::thread::Threads;

/// The class of a file.
fn class_in(alloc: Global, file: &LoadedFile) -> Result<ClassSummary, BatchFault>
    ensures fault { Meets (broken_by file.now) result }
    ensures class { IfOk result (IsSummaryOf file.now.1) }
{
    match read_class(alloc, file.bytes()) {
        Ok(shape) => Ok(from_shape(alloc, &shape)?),
        Err(fault) => Err(broken(file.number(), fault)),
    }
}

/// What each file gives, in their order, by as many threads as there are processors.
pub(crate) fn parse_each(
    rt: &(impl Threads + Sync),
    alloc: Global,
    files: &[LoadedFile],
) -> Result<Vec<Result<ClassSummary, BatchFault>>, AllocError>
    ensures each { IfOk result (λ parsed. AllZip Parses files.now parsed.items) }
{
    files
        .par_iter()
        // By itself the kit parts no slice below 1,024 items.
        .with_min_len(1)
        .map(
            |file: &LoadedFile| -> Result<ClassSummary, BatchFault>
                ensures { Parses file.now result }
            { class_in(alloc, file) },
        )
        .collect(rt, alloc)
}

/// The classes of files of which each gave this, or the first fault.
pub(crate) fn gather(
    alloc: Global,
    parsed: Vec<Result<ClassSummary, BatchFault>>,
) -> Result<Items<ClassSummary>, BatchFault>
    ensures wrong { (files : List (ℕ × List ℕ)) → AllZip Parses files parsed.items → Meets (first_broken files) result }
    ensures classes { (files : List (ℕ × List ℕ)) → AllZip Parses files parsed.items → IfOk result (AreSummariesOf files) }
{
    let mut classes = Items::new(alloc);
    for answer in parsed {
        match answer {
            Ok(class) => classes.push(class)?,
            Err(fault) => return Err(fault),
        }
    }
    Ok(classes)
}
