ghost use Rattle.std.specs.Prelude.{◌≡◌, true, false, IfOk, IfSome, OnOk, Contains};
ghost use Rattle.decl_index.specs.Changed.{Each, Meets, Follows, IsReached, AvoidsItself};

use crate::refusals::outer_names;
use crate::sorted_classes::Sorted;
use known_classes::{ClassList, ClassSummary};
use lists::{Copies, Items, Text};
use std::alloc::{AllocError, Global};

/// The most classes that are searched from.
const MOST_SEARCHES: usize = 32;

/// The most names that one search follows.
const MOST_FOLLOWED: usize = 256;

/// Whether the name is one of the names.
fn is_one_of(names: &[Text], name: &str) -> bool
    ensures sound { result ≡ true → Contains names.now name.now }
    ensures complete { Contains names.now name.now → result ≡ true }
{
    for one in names {
        if name == one.as_str() {
            return true;
        }
    }
    false
}

/// Adds the names that aren't there.
fn meet(alloc: Global, found: &mut Items<Text>, names: &[Text]) -> Result<(), AllocError>
    ensures { OnOk result (Meets names.now found.old found.new) }
{
    for name in names {
        if is_one_of(found.as_slice(), name.as_str()) {
            continue;
        }
        found.push(name.copy(alloc)?)?;
    }
    Ok(())
}

/// Adds the supers of a class and the class around it.
fn follow(alloc: Global, found: &mut Items<Text>, class: &ClassSummary) -> Result<(), AllocError>
    ensures { OnOk result (Follows class.now found.old found.new) }
{
    meet(alloc, found, class.supers.as_slice())?;
    meet(alloc, found, outer_names(class))?;
    Ok(())
}

/// Whether the class has more supers than a search follows names.
fn has_many_supers(class: &ClassSummary) -> bool {
    class.supers.len() > MOST_FOLLOWED
}

/// The names that a class leads to by supers and outer classes; None where they are many. A class with many
/// supers isn't followed, since each is looked for among the names that were found.
fn reached(
    alloc: Global,
    classes: &Sorted<'_>,
    from: &ClassSummary,
) -> Result<Option<Items<Text>>, AllocError>
    ensures { IfOk result (λ found. IfSome found (λ names. IsReached classes.now from.now names)) }
{
    if has_many_supers(from) {
        return Ok(None);
    }
    let mut found = Items::new(alloc);
    follow(alloc, &mut found, from)?;
    for next in 0..MOST_FOLLOWED {
        let Some(name) = found.as_slice().get(next) else {
            return Ok(Some(found));
        };
        let Some(place) = classes.find(name.as_str()) else {
            continue;
        };
        let class = classes.at(place);
        if has_many_supers(class) {
            return Ok(None);
        }
        follow(alloc, &mut found, class)?;
    }
    Ok(None)
}

/// Whether the class of this name may reach itself by supers and outer classes. It surely doesn't where the
/// answer is false.
fn may_come_back(alloc: Global, classes: &Sorted<'_>, name: &str) -> Result<bool, AllocError>
    ensures { IfOk result (λ may. may ≡ false → AvoidsItself classes.now name.now) }
{
    let Some(place) = classes.find(name) else {
        return Ok(false);
    };
    match reached(alloc, classes, classes.at(place))? {
        Some(found) => Ok(is_one_of(found.as_slice(), name)),
        None => Ok(true),
    }
}

/// Whether one of the classes with the names of these may reach itself. None does where the answer is false.
pub fn one_may_come_back(
    alloc: Global,
    classes: &Sorted<'_>,
    puts: &[ClassSummary],
) -> Result<bool, AllocError>
    ensures { IfOk result (λ may. may ≡ false → Each (λ c. AvoidsItself classes.now c.name) puts.now) }
{
    if puts.len() > MOST_SEARCHES {
        return Ok(true);
    }
    for class in puts {
        if may_come_back(alloc, classes, class.name.as_str())? {
            return Ok(true);
        }
    }
    Ok(false)
}
