ghost use Rattle.std.specs.Prelude.{◌≡◌, ℕ, List, if◌then◌else◌, bytes_eq, map, Some, OnOk, OnErr};
ghost use Rattle.std.specs.BTreeMap.{get_by_text};
ghost use Rattle.known_classes.specs.NameTables.{PutsAt};

use std::alloc::{AllocError, Global};
use std::collections::BTreeMap;

/// Gives a name a number.
pub fn put(
    alloc: Global,
    numbers: &mut BTreeMap<String, usize>,
    name: &str,
    number: usize,
) -> Result<(), AllocError>
    ensures placed { OnOk result ((other : List ℕ) → get_by_text numbers.new other ≡ (if bytes_eq name.now other then Some number else get_by_text numbers.old other)) }
    ensures unchanged { OnErr result (get_by_text numbers.new ≡ get_by_text numbers.old) }
{
    let key = String::from_str(alloc, name)?;
    numbers.insert(key, number)?;
    Ok(())
}

/// Gives a name a number in the table at this place, where there is one.
pub fn put_at(
    alloc: Global,
    tables: &mut Vec<BTreeMap<String, usize>>,
    place: usize,
    name: &str,
    number: usize,
) -> Result<(), AllocError>
    ensures placed { OnOk result (PutsAt place name.now number (map get_by_text tables.old.items) (map get_by_text tables.new.items)) }
    ensures unchanged { OnErr result (map get_by_text tables.new.items ≡ map get_by_text tables.old.items) }
{
    if place >= tables.len() {
        return Ok(());
    }
    put(alloc, &mut tables[place], name, number)
}
