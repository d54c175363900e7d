ghost use Rattle.std.specs.Prelude.{◌+◌, ◌<◌, ◌^◌, IfOk};
ghost use Rattle.java_units.specs.UnitLaws.{IsNested};
ghost use Rattle.java_units.specs.Dimensions.{dims_of_bounds, greatest, type_dims};

use class_summary::{ClassSummary, Classes, from_unit};
use java_tokens::tokens;
use java_units::{Unit, read_unit};
use lists::Items;
use std::alloc::{AllocError, Global};

/// The unit of a text, and want of memory for one of more than 16 MiB.
pub fn unit_of(alloc: Global, text: &str) -> Result<Unit, AllocError>
    ensures nested { IfOk result (λ u. IsNested u.classes) }
    ensures dims { IfOk result (λ u. greatest type_dims u.classes + dims_of_bounds u.classes < 2 ^ 64) }
{
    if text.len() > 16_777_216 {
        return Err(AllocError);
    }
    let all = tokens(alloc, text)?;
    read_unit(alloc, text, all.as_slice())
}

/// The summaries of all classes of a text.
pub fn summaries_of<C: Classes>(
    alloc: Global,
    text: &str,
    known: &C,
) -> Result<Items<ClassSummary>, AllocError> {
    let unit = unit_of(alloc, text)?;
    let Ok(count) = u32::try_from(unit.classes.len()) else {
        return Err(AllocError);
    };
    let mut all = Items::new(alloc);
    for class in 0..count {
        all.push(from_unit(alloc, &unit, class, known)?)?;
    }
    Ok(all)
}
