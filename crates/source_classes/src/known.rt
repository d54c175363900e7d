ghost use Rattle.std.specs.Prelude.{◌≡◌, ℕ, ◌++◌, List, map, IfOk};
ghost use Rattle.std.specs.Option.{option_map};
ghost use Rattle.std.specs.Path.{rsplit_once};
ghost use Rattle.std.specs.BTreeSet.{contains_text};
ghost use Rattle.decl_index.specs.Merging.{is_among};
ghost use Rattle.source_classes.specs.SourceClasses.{outline};
ghost use Rattle.source_classes.specs.KnownNames.{if_any, nesting_by, named_class, told_classes};

use known_classes::{ClassSummary, Nesting};
use lists::{Copies, Items, Text};
use std::alloc::{AllocError, Global};
use std::collections::BTreeSet;

/// The flag of a public class (JVMS 4.1).
const PUBLIC: u16 = 0x0001;

/// The flags of a public and static nested class (JVMS 4.7.6).
const PUBLIC_STATIC: u16 = 0x0009;

/// The names as a set.
fn set_of(alloc: Global, names: &[Text]) -> Result<BTreeSet<String>, AllocError>
    ensures { IfOk result (λ set. (n : List ℕ) → contains_text set n ≡ is_among names.now n) }
{
    let mut set = BTreeSet::new(alloc);
    for name in names {
        set.insert(String::from_str(alloc, name.as_str())?)?;
    }
    Ok(set)
}

/// The parts of a name before and behind its last `$`.
fn at_last_dollar(name: &str) -> Option<(&str, &str)>
    ensures { option_map (λ x. (x.0.now, x.1.now)) result ≡ rsplit_once 36 name.now }
{
    name.rsplit_once('$')
}

/// A simple name, where the part isn't empty.
fn simple_name(alloc: Global, part: &str) -> Result<Option<Text>, AllocError>
    ensures { IfOk result (λ name. name ≡ if_any part.now) }
{
    if part.is_empty() {
        return Ok(None);
    }
    Ok(Some(Text::from_str(alloc, part)?))
}

/// How a class of this name stands in another, where that is among the names.
fn nesting_of(
    alloc: Global,
    names: &BTreeSet<String>,
    name: &str,
) -> Result<Option<Nesting>, AllocError>
    ensures { IfOk result (λ nesting. nesting ≡ nesting_by (contains_text names.now) (rsplit_once 36 name.now)) }
{
    let Some((outer, simple)) = at_last_dollar(name) else {
        return Ok(None);
    };
    if !names.contains(outer) {
        return Ok(None);
    }
    Ok(Some(Nesting {
        outer: Some(Text::from_str(alloc, outer)?),
        simple: simple_name(alloc, simple)?,
        flags: PUBLIC_STATIC,
    }))
}

/// The class that is known by its name alone.
#[tactic(auto, unfolding(crate::specs::KnownNames::named_class))]
fn named_class(
    alloc: Global,
    names: &BTreeSet<String>,
    name: &Text,
) -> Result<ClassSummary, AllocError>
    ensures { IfOk result (λ class. class ≡ named_class (contains_text names.now) name.now) }
{
    Ok(ClassSummary {
        name: name.copy(alloc)?,
        flags: PUBLIC,
        nesting: nesting_of(alloc, names, name.as_str())?,
        supers: Items::new(alloc),
        fields: Items::new(alloc),
        methods: Items::new(alloc),
    })
}

/// The classes of these names.
fn named_classes(alloc: Global, names: &[Text]) -> Result<Items<ClassSummary>, AllocError>
    ensures { IfOk result (λ all. all ≡ map (named_class (is_among names.now)) names.now) }
{
    let set = set_of(alloc, names)?;
    let mut all = Items::new(alloc);
    for name in names {
        all.push(named_class(alloc, &set, name)?)?;
    }
    Ok(all)
}

/// A copy of a nesting that may be missing.
fn copy_nesting(alloc: Global, nesting: &Option<Nesting>) -> Result<Option<Nesting>, AllocError>
    ensures { IfOk result (λ copy. copy ≡ nesting.now) }
{
    match nesting {
        Some(nesting) => Ok(Some(nesting.copy(alloc)?)),
        None => Ok(None),
    }
}

/// The name, flags and nesting of a class.
fn outline(alloc: Global, class: &ClassSummary) -> Result<ClassSummary, AllocError>
    ensures { IfOk result (λ kept. kept ≡ outline class.now) }
{
    Ok(ClassSummary {
        name: class.name.copy(alloc)?,
        flags: class.flags,
        nesting: copy_nesting(alloc, &class.nesting)?,
        supers: Items::new(alloc),
        fields: Items::new(alloc),
        methods: Items::new(alloc),
    })
}

/// The name, flags and nesting of each of these classes.
fn outlines(alloc: Global, classes: &[ClassSummary]) -> Result<Items<ClassSummary>, AllocError>
    ensures { IfOk result (λ all. all ≡ map outline classes.now) }
{
    let mut all = Items::new(alloc);
    for class in classes {
        all.push(outline(alloc, class)?)?;
    }
    Ok(all)
}

/// The classes of these names, and then those that are put, without their supers and members: what a name denotes
/// hangs on neither.
pub fn told_classes(
    alloc: Global,
    puts: &[ClassSummary],
    names: &[Text],
) -> Result<Items<ClassSummary>, AllocError>
    ensures { IfOk result (λ all. all ≡ told_classes puts.now names.now) }
{
    let mut all = named_classes(alloc, names)?;
    all.append(outlines(alloc, puts)?)?;
    Ok(all)
}
