ghost use Rattle.std.specs.Prelude.{◌≡◌, IfOk};
ghost use Rattle.std.specs.Option.{option_copied};
ghost use Rattle.std.specs.BTreeMap.{get_by_text};
ghost use Rattle.class_summary.specs.ImportTables.{GivesImported, single_name};

use java_units::Import;
use known_classes::put;
use lists::Text;
use std::alloc::{AllocError, Global};
use std::collections::BTreeMap;

/// The last name of an import without star.
fn single_name(import: &Import) -> Option<&Text>
    ensures { option_copied result ≡ single_name import.now }
{
    if import.star {
        return None;
    }
    import.parts.as_slice().last()
}

/// The place of the first import without star of each last name, found from the last to the first.
pub fn singles_in(alloc: Global, imports: &[Import]) -> Result<BTreeMap<String, usize>, AllocError>
    ensures { IfOk result (λ places. GivesImported imports.now (get_by_text places)) }
{
    let mut places = BTreeMap::new(alloc);
    let mut left = imports.len();
    while left > 0 {
        left -= 1;
        let import = &imports[left];
        let Some(last) = single_name(import) else {
            continue;
        };
        put(alloc, &mut places, last.as_str(), left)?;
    }
    Ok(places)
}
