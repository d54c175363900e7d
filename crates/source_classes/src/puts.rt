ghost use Rattle.std.specs.Prelude.{◌≤◌, All, length, IfOk};
ghost use Rattle.source_classes.specs.SourceClasses.{AreSourceClasses};
ghost use Rattle.source_classes.specs.KnownNames.{known_of, ArePuts};
ghost use Rattle.source_classes.specs.Order.{HaveOwnNames, LeaveOneState};

use crate::classes::source_classes;
use crate::known::told_classes;
use decl_index::Index;
use known_classes::{ClassSummary, Merged};
use lists::{Items, Text};
use std::alloc::{AllocError, Global};
use std::thread::Threads;

/// The classes of the source texts of a publication that puts these classes.
fn classes_of(
    rt: &(impl Threads + Sync),
    alloc: Global,
    puts: &[ClassSummary],
    known: &[Text],
    texts: &[Text],
) -> Result<Items<ClassSummary>, AllocError>
    requires at_most_16_mib { All (λ text. length text ≤ 16777216) texts.now }
    ensures { IfOk result (AreSourceClasses texts.now (known_of puts.now known.now)) }
{
    let nothing = Index::empty(alloc)?;
    let told = told_classes(alloc, puts, known)?;
    let in_sight = Merged::new(alloc, &nothing, told)?;
    source_classes(rt, alloc, texts, &in_sight)
}

/// The classes that a publication puts: those of its class files, and then those of its source texts. What the names in
/// the texts may mean are the classes of all the texts, those of the class files, and the classes of which `known` has
/// the internal names. No other class plays a part, whatever was published before; `known` makes no class.
pub fn with_source_classes(
    rt: &(impl Threads + Sync),
    alloc: Global,
    puts: Items<ClassSummary>,
    known: &[Text],
    texts: &[Text],
) -> Result<Items<ClassSummary>, AllocError>
    requires at_most_16_mib { All (λ text. length text ≤ 16777216) texts.now }
    ensures exact { IfOk result (ArePuts puts known.now texts.now) }
    ensures order { HaveOwnNames texts.now → IfOk result (LeaveOneState puts known.now texts.now) }
{
    let mut all = puts;
    if texts.is_empty() {
        return Ok(all);
    }
    let classes = classes_of(rt, alloc, all.as_slice(), known, texts)?;
    all.append(classes)?;
    Ok(all)
}
