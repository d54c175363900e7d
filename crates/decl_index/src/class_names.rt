ghost use Rattle.std.specs.Prelude.{◌++◌, IfOk, map};
ghost use Rattle.std.specs.Arc.{arc_value};
ghost use Rattle.decl_index.specs.History.{Rises, remove, put};
ghost use Rattle.decl_index.specs.Places.{Leaves, AreNamesOf};

use crate::nesting::all_keep_nesting;
use crate::sorted_classes::{Shared, Sorted};
use known_classes::{ClassSummary, Classes, NameTables, tables_of};
use lists::Text;
use std::alloc::{AllocError, Global};
use std::sync::Arc;

/// The tables of names after these removes and puts. Where each put has the name and the nesting of a class
/// before it and nothing is removed, they are those before it, which are shared.
pub fn names_after<C: Classes>(
    alloc: Global,
    base: &C,
    before: &Arc<NameTables, Global>,
    old: &[Shared],
    classes: &[Shared],
    removes: &[Text],
    puts: &[ClassSummary],
) -> Result<Arc<NameTables, Global>, AllocError>
    requires rises { Rises (map arc_value old.now) }
    requires leaves { Leaves (map remove removes.now ++ map put puts.now) (map arc_value old.now) (map arc_value classes.now) }
    requires names { AreNamesOf (map arc_value old.now) (arc_value before.now) }
    ensures { IfOk result (λ names. AreNamesOf (map arc_value classes.now) (arc_value names)) }
{
    if removes.is_empty() && all_keep_nesting(&Sorted::of(old), puts) {
        return Arc::try_clone(before);
    }
    let names = tables_of(alloc, base, &Sorted::of(classes))?;
    Ok(Arc::new(alloc, names).map_err(|_| AllocError)?)
}
