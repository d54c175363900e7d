ghost use Rattle.std.specs.Prelude.{◌≡◌, ◌++◌, [], IfOk, OnOk, map, drop};
ghost use Rattle.std.specs.Arc.{arc_value};
ghost use Rattle.std.specs.BTreeSet.{contains_text};
ghost use Rattle.decl_index.specs.History.{Name, Rises, remove, put};
ghost use Rattle.decl_index.specs.Places.{Leaves};
ghost use Rattle.decl_index.specs.Merging.{is_among, others, prefix_order, IsMerge};

use crate::sorted_classes::{Shared, compare, put_each, take_each};
use known_classes::ClassSummary;
use lists::{Copies, Text};
use std::alloc::{AllocError, Global};
use std::cmp::Ordering;
use std::collections::BTreeSet;
use std::sync::Arc;

/// The most classes that are taken out or put in one after the other; more are merged.
const FEW: usize = 16;

/// The names as a set.
fn set_of(alloc: Global, names: &[Text]) -> Result<BTreeSet<String>, AllocError>
    ensures { IfOk result (λ set. (n : Name) → contains_text set n ≡ is_among names.now n) }
{
    let mut set = BTreeSet::new(alloc);
    for name in names {
        set.insert(String::from_str(alloc, name.as_str())?)?;
    }
    Ok(set)
}

/// The classes whose names are not in the set.
fn without(
    alloc: Global,
    classes: &[Shared],
    names: &BTreeSet<String>,
) -> Result<Vec<Shared>, AllocError>
    ensures { IfOk result (λ all. map arc_value all.items ≡ others (contains_text names.now) (map arc_value classes.now)) }
{
    let mut all = Vec::new(alloc);
    for class in classes {
        if names.contains(class.name.as_str()) {
            continue;
        }
        all.push(Arc::try_clone(class)?)?;
    }
    Ok(all)
}

/// Takes the classes of these names out.
pub fn take_all(alloc: Global, classes: &mut Vec<Shared>, names: &[Text]) -> Result<(), AllocError>
    requires { Rises (map arc_value classes.old.items) }
    ensures { OnOk result (Leaves (map remove names.now) (map arc_value classes.old.items) (map arc_value classes.new.items)) }
{
    if names.len() <= FEW {
        take_each(classes, names);
        return Ok(());
    }
    let set = set_of(alloc, names)?;
    let all = without(alloc, classes, &set)?;
    *classes = all;
    Ok(())
}

/// How the name of the class at a place stands to a name; behind it where there is no class.
fn order_at(classes: &[Shared], place: usize, name: &str) -> Ordering
    ensures { result ≡ prefix_order name.now (drop place (map arc_value classes.now)) }
{
    match classes.get(place) {
        Some(class) => compare(&**class, name),
        None => Ordering::Greater,
    }
}

/// Adds the classes at the end.
fn add_all(all: &mut Vec<Shared>, classes: &[Shared]) -> Result<(), AllocError>
    ensures { OnOk result (map arc_value all.new.items ≡ map arc_value all.old.items ++ map arc_value classes.now) }
{
    for class in classes {
        all.push(Arc::try_clone(class)?)?;
    }
    Ok(())
}

/// Both lists as one. Of two classes with one name that of the newer list is kept.
fn merged(alloc: Global, older: &[Shared], newer: &[Shared]) -> Result<Vec<Shared>, AllocError>
    requires older { Rises (map arc_value older.now) }
    requires newer { Rises (map arc_value newer.now) }
    ensures { IfOk result (λ all. IsMerge (map arc_value older.now) (map arc_value newer.now) (map arc_value all.items)) }
{
    let mut all = Vec::new(alloc);
    let mut old = 0;
    let mut new = 0;
    while new < newer.len() {
        match order_at(older, old, newer[new].name.as_str()) {
            Ordering::Less => {
                all.push(Arc::try_clone(&older[old])?)?;
                old += 1;
                continue;
            }
            Ordering::Equal => {
                all.push(Arc::try_clone(&newer[new])?)?;
                old += 1;
                new += 1;
                continue;
            }
            Ordering::Greater => {
                all.push(Arc::try_clone(&newer[new])?)?;
                new += 1;
                continue;
            }
        }
    }
    add_all(&mut all, &older[old..])?;
    Ok(all)
}

/// Copies of these classes in rising order of names; of several of one name the last is kept.
fn sorted(alloc: Global, puts: &[ClassSummary]) -> Result<Vec<Shared>, AllocError>
    ensures { IfOk result (λ all. Leaves (map put puts.now) [] (map arc_value all.items)) }
{
    if puts.len() <= 1 {
        let mut all = Vec::new(alloc);
        put_each(alloc, &mut all, puts)?;
        return Ok(all);
    }
    let middle = puts.len() / 2;
    let first = sorted(alloc, &puts[..middle])?;
    let second = sorted(alloc, &puts[middle..])?;
    merged(alloc, &first, &second)
}

/// Puts copies of these classes in, each in place of the one of its name.
pub fn put_all(
    alloc: Global,
    classes: &mut Vec<Shared>,
    puts: &[ClassSummary],
) -> Result<(), AllocError>
    requires { Rises (map arc_value classes.old.items) }
    ensures { OnOk result (Leaves (map put puts.now) (map arc_value classes.old.items) (map arc_value classes.new.items)) }
{
    if puts.len() <= FEW {
        return put_each(alloc, classes, puts);
    }
    let newer = sorted(alloc, puts)?;
    let all = merged(alloc, classes, &newer)?;
    *classes = all;
    Ok(())
}
