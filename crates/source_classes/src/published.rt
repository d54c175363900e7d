ghost use Rattle.std.specs.Prelude.{◌≡◌, map, IfOk};
ghost use Rattle.source_classes.specs.SourceClasses.{last_ones, without_private};

use crate::private::without_private;
use known_classes::{ClassSummary, put};
use lists::Items;
use std::alloc::{AllocError, Global};
use std::collections::BTreeMap;

/// Of classes of one name the last one, each without its private members. They are found from the last to the
/// first.
pub fn published(
    alloc: Global,
    classes: Items<ClassSummary>,
) -> Result<Items<ClassSummary>, AllocError>
    ensures { IfOk result (λ kept. kept ≡ map without_private (last_ones classes)) }
{
    let mut left = classes;
    let mut later = BTreeMap::new(alloc);
    let mut kept = Vec::new(alloc);
    while let Some(class) = left.pop() {
        if later.contains_key(class.name.as_str()) {
            continue;
        }
        put(alloc, &mut later, class.name.as_str(), 0)?;
        kept.push(without_private(alloc, class)?)?;
    }
    kept.reverse();
    Ok(Items::from_vec(kept))
}
