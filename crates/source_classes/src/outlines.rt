ghost use Rattle.std.specs.Prelude.{◌≡◌, [], IfOk};
ghost use Rattle.class_summary.specs.SourceSummaries.{nesting_of, summary_at};
ghost use Rattle.source_classes.specs.SourceClasses.{outline, outlines_of};

use class_summary::internal_name;
use java_units::{SourceClass, Unit};
use known_classes::{ClassSummary, Nesting};
use lists::{Copies, Items};
use std::alloc::{AllocError, Global};

/// How a class stands in the class around it; a top-level class has no nesting.
fn nesting_of(
    alloc: Global,
    unit: &Unit,
    class: &SourceClass,
) -> Result<Option<Nesting>, AllocError>
    ensures { IfOk result (λ nesting. nesting ≡ nesting_of unit.now class.now class.now.outer) }
{
    let Some(outer) = class.outer else {
        return Ok(None);
    };
    Ok(Some(Nesting {
        outer: Some(internal_name(alloc, unit, outer as usize)?),
        simple: Some(class.name.copy(alloc)?),
        flags: class.flags,
    }))
}

/// The name, flags and nesting of the class of this number.
fn outline_at(
    alloc: Global,
    unit: &Unit,
    number: usize,
    class: &SourceClass,
) -> Result<ClassSummary, AllocError>
    ensures { IfOk result (λ kept. kept ≡ outline (summary_at unit.now number [] class.now)) }
{
    let name = internal_name(alloc, unit, number)?;
    let nesting = nesting_of(alloc, unit, class)?;
    Ok(ClassSummary {
        name,
        flags: class.flags,
        nesting,
        supers: Items::new(alloc),
        fields: Items::new(alloc),
        methods: Items::new(alloc),
    })
}

/// What is told of the classes of a unit before any name is looked up.
pub fn outlines(alloc: Global, unit: &Unit) -> Result<Items<ClassSummary>, AllocError>
    ensures { IfOk result (λ all. all ≡ outlines_of unit.now) }
{
    let classes = unit.classes.as_slice();
    let mut all = Items::new(alloc);
    for i in 0..classes.len() {
        all.push(outline_at(alloc, unit, i, &classes[i])?)?;
    }
    Ok(all)
}
