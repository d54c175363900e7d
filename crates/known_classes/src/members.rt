ghost use Rattle.std.specs.Prelude.{◌≡◌, ◌+◌, ◌<◌, ◌≤◌, ◌&&◌, ◌||◌, ℕ, List, if◌then◌else◌, Some, IfOk, OnOk, bytes_eq, is_some, length, map};
ghost use Rattle.std.specs.BTreeMap.{get_by_text};
ghost use Rattle.known_classes.specs.NameTables.{member_place, IsNumbered, AreMemberTables};

use crate::classes::ClassList;
use crate::nested::{lesser, outer_name, simple_name};
use crate::tables::{put, put_at};
use std::alloc::{AllocError, Global};
use std::collections::BTreeMap;

/// Places by the names of an outer class and a simple name. Each outer class has a number, that of a table.
#[derive(Drop)]
pub struct Members {
    pub outers: BTreeMap<String, usize>,
    pub tables: Vec<BTreeMap<String, usize>>,
}

/// The place that an outer class and a simple name have.
pub fn member_place(members: &Members, outer: &str, name: &str) -> Option<usize>
    ensures { result ≡ member_place (get_by_text members.now.outers) (map get_by_text members.now.tables.items) outer.now name.now }
{
    let Some(number) = members.outers.get(outer).copied() else {
        return None;
    };
    match members.tables.get(number) {
        Some(table) => table.get(name).copied(),
        None => None,
    }
}

/// The number of an outer class, which gets the next one where it has none.
fn number_of(alloc: Global, members: &mut Members, outer: &str) -> Result<usize, AllocError>
    requires { IsNumbered (get_by_text members.old.outers) (map get_by_text members.old.tables.items) }
    ensures numbered { IfOk result (λ n. IsNumbered (get_by_text members.new.outers) (map get_by_text members.new.tables.items)) }
    ensures number { IfOk result (λ n. get_by_text members.new.outers outer.now ≡ Some n) }
    ensures stays { IfOk result (λ n. (other name : List ℕ) → member_place (get_by_text members.new.outers) (map get_by_text members.new.tables.items) other name ≡ member_place (get_by_text members.old.outers) (map get_by_text members.old.tables.items) other name) }
    ensures outers { IfOk result (λ n. (other : List ℕ) → is_some (get_by_text members.new.outers other) ≡ (bytes_eq other outer.now || is_some (get_by_text members.old.outers other))) }
{
    if let Some(number) = members.outers.get(outer).copied() {
        return Ok(number);
    }
    let number = members.tables.len();
    members.tables.push(BTreeMap::new(alloc))?;
    put(alloc, &mut members.outers, outer, number)?;
    Ok(number)
}

/// Gives an outer class and a simple name a place.
fn put_member(
    alloc: Global,
    members: &mut Members,
    outer: &str,
    name: &str,
    place: usize,
) -> Result<(), AllocError>
    requires { IsNumbered (get_by_text members.old.outers) (map get_by_text members.old.tables.items) }
    ensures numbered { OnOk result (IsNumbered (get_by_text members.new.outers) (map get_by_text members.new.tables.items)) }
    ensures placed { OnOk result ((other text : List ℕ) → member_place (get_by_text members.new.outers) (map get_by_text members.new.tables.items) other text ≡ (if bytes_eq other outer.now && bytes_eq text name.now then Some place else member_place (get_by_text members.old.outers) (map get_by_text members.old.tables.items) other text)) }
    ensures outers { OnOk result ((other : List ℕ) → is_some (get_by_text members.new.outers other) ≡ (bytes_eq other outer.now || is_some (get_by_text members.old.outers other))) }
{
    let number = number_of(alloc, members, outer)?;
    put_at(alloc, &mut members.tables, number, name, place)
}

/// Adds the class at a place to the tables of those behind it.
fn add_member<L: ClassList>(
    alloc: Global,
    members: &mut Members,
    classes: &L,
    place: usize,
) -> Result<(), AllocError>
    requires place { place < length (L.listed classes.now) }
    requires tables { AreMemberTables (L.listed classes.now) (place + 1) (get_by_text members.old.outers) (map get_by_text members.old.tables.items) }
    ensures { OnOk result (AreMemberTables (L.listed classes.now) place (get_by_text members.new.outers) (map get_by_text members.new.tables.items)) }
{
    let class = classes.at(place);
    let Some(outer) = outer_name(class) else {
        return Ok(());
    };
    let Some(simple) = simple_name(class) else {
        number_of(alloc, members, outer.as_str())?;
        return Ok(());
    };
    let best = member_place(members, outer.as_str(), simple.as_str());
    let least = lesser(classes, place, best);
    put_member(alloc, members, outer.as_str(), simple.as_str(), least)
}

/// The nested classes from a place on by their outer classes and simple names.
pub fn members_from<L: ClassList>(
    alloc: Global,
    classes: &L,
    from: usize,
) -> Result<Members, AllocError>
    requires { from ≤ length (L.listed classes.now) }
    ensures { IfOk result (λ m. AreMemberTables (L.listed classes.now) from (get_by_text m.outers) (map get_by_text m.tables.items)) }
{
    let mut members = Members {
        outers: BTreeMap::new(alloc),
        tables: Vec::new(alloc),
    };
    let mut left = classes.count();
    while left > from {
        left -= 1;
        add_member(alloc, &mut members, classes, left)?;
    }
    Ok(members)
}
