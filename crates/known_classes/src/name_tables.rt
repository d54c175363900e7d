ghost use Rattle.std.specs.Prelude.{◌≡◌, ◌≤◌, length, is_some, slice_get, IfOk};
ghost use Rattle.std.specs.Option.{option_copied};
ghost use Rattle.std.specs.BTreeMap.{get_by_text};
ghost use Rattle.known_classes.specs.Known.{HasEachOnce};
ghost use Rattle.known_classes.specs.NameTables.{AreCanonicalNames, IsCanonicalTable, AreNameTables, table_of, member_place};

use crate::classes::ClassList;
use crate::members::{Members, member_place, members_from};
use crate::nested::lesser;
use crate::tables::put;
use lists::{Items, Text};
use std::alloc::{AllocError, Global};
use std::collections::BTreeMap;

/// Tables of the names of classes in a list, from a place on: their canonical names, and their places by these
/// and by outer class and simple name. Of several classes of one name the one of the least internal name counts.
#[derive(Drop)]
pub struct NameTables {
    from: usize,
    texts: Items<Text>,
    canonical: BTreeMap<String, usize>,
    members: Members,
}

/// The classes from a place on by their canonical names, found from the last to the first.
fn canonical_from<L: ClassList>(
    alloc: Global,
    classes: &L,
    from: usize,
    texts: &[Text],
) -> Result<BTreeMap<String, usize>, AllocError>
    requires within { from ≤ length (L.listed classes.now) }
    requires names { AreCanonicalNames (L.listed classes.now) from (length (L.listed classes.now)) texts.now }
    ensures table { IfOk result (λ table. IsCanonicalTable (L.listed classes.now) from (get_by_text table)) }
    ensures once { IfOk result (λ table. HasEachOnce (L.listed classes.now)) }
{
    let mut table = BTreeMap::new(alloc);
    let mut left = classes.count();
    while left > from {
        left -= 1;
        let text = texts[left - from].as_str();
        let best = table.get(text).copied();
        let least = lesser(classes, left, best);
        put(alloc, &mut table, text, least)?;
    }
    Ok(table)
}

impl NameTables {
    /// The tables of the classes from a place on, whose canonical names these are.
    pub fn new<L: ClassList>(
        alloc: Global,
        classes: &L,
        from: usize,
        texts: Items<Text>,
    ) -> Result<NameTables, AllocError>
        requires within { from ≤ length (L.listed classes.now) }
        requires names { AreCanonicalNames (L.listed classes.now) from (length (L.listed classes.now)) texts }
        ensures tables { IfOk result (λ t. AreNameTables (L.listed classes.now) (table_of t)) }
        ensures from { IfOk result (λ t. t.from ≡ from) }
    {
        let canonical = canonical_from(alloc, classes, from, texts.as_slice())?;
        let members = members_from(alloc, classes, from)?;
        Ok(NameTables {
            from,
            texts,
            canonical,
            members,
        })
    }

    /// The place from which on the classes stand in the tables.
    pub fn from(&self) -> usize
        ensures { result ≡ self.now.from }
    {
        self.from
    }

    /// The canonical name of the class that stands so many places behind that place.
    pub fn text(&self, behind: usize) -> Option<&Text>
        ensures { option_copied result ≡ slice_get self.now.texts behind }
    {
        self.texts.get(behind)
    }

    /// The place of the class with this canonical name.
    pub fn place(&self, dotted: &str) -> Option<usize>
        ensures { result ≡ (table_of self.now).canonical dotted.now }
    {
        self.canonical.get(dotted).copied()
    }

    /// The place of the class that stands directly in that class and has this simple name.
    pub fn nested(&self, outer: &str, simple: &str) -> Option<usize>
        ensures { result ≡ member_place (table_of self.now).outers (table_of self.now).members outer.now simple.now }
    {
        member_place(&self.members, outer, simple)
    }

    /// Whether a class of the tables is recorded as nested in the class of this name.
    pub fn surrounds(&self, name: &str) -> bool
        ensures { result ≡ is_some ((table_of self.now).outers name.now) }
    {
        self.members.outers.contains_key(name)
    }
}
