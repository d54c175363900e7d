ghost use Rattle.std.specs.Prelude.{◌≡◌, ◌⊎◌, ◌≤◌, ◌++◌, IfOk, IfSome, OnOk, IfErr, MatchOption, Some, None, map, sum_by, option_map};
ghost use Rattle.std.specs.Arc.{arc_value};
ghost use Rattle.decl_index.specs.declared.change.ChangeFault.TheVariants.{OutOfMemory};
ghost use Rattle.decl_index.specs.History.{remove, put};
ghost use Rattle.decl_index.specs.Places.{Leaves};
ghost use Rattle.decl_index.specs.Changed.{IsFree};
ghost use Rattle.type_names.specs.Names.{object_name};
ghost use Rattle.decl_index.specs.Refusals.{supers_of, outers_of, method_parts, parts_of, parts_in, HasNoCycle, IsLeastNamedCycle, IsFaultOf, IsSound};
ghost use Rattle.decl_index.specs.Rows.{IsRow, IsGraph};

use crate::change::ChangeFault;
use crate::cycle_search::one_may_come_back;
use crate::sorted_classes::{Shared, Sorted};
use graphs::least_cycle;
use known_classes::{ClassList, ClassSummary, MethodSummary};
use lists::{Copies, Items, Text};
use std::alloc::{AllocError, Global};
use type_names::OBJECT;

/// The most parts of an index.
const MOST_PARTS: u64 = 16_777_215;

/// The places of the classes with these names.
fn row(alloc: Global, classes: &Sorted<'_>, names: &[Text]) -> Result<Items<usize>, AllocError>
    ensures { IfOk result (λ row. IsRow classes.now names.now row) }
{
    let mut row = Items::new(alloc);
    for name in names {
        let Some(place) = classes.find(name.as_str()) else {
            continue;
        };
        row.push(place)?;
    }
    Ok(row)
}

/// The name of the class around a class, as a list.
pub(crate) fn outer_names(class: &ClassSummary) -> &[Text]
    ensures { result.now ≡ outers_of class.now }
{
    match &class.nesting {
        Some(nesting) => nesting.outer.as_slice(),
        None => &[],
    }
}

/// From each class the places of its supers.
fn super_rows(alloc: Global, classes: &Sorted<'_>) -> Result<Vec<Items<usize>>, AllocError>
    ensures { IfOk result (λ rows. IsGraph supers_of classes.now rows.items) }
{
    let mut rows = Vec::new(alloc);
    for place in 0..classes.count() {
        let class = classes.at(place);
        rows.push(row(alloc, classes, class.supers.as_slice())?)?;
    }
    Ok(rows)
}

/// From each class the place of the class around it.
fn outer_rows(alloc: Global, classes: &Sorted<'_>) -> Result<Vec<Items<usize>>, AllocError>
    ensures { IfOk result (λ rows. IsGraph outers_of classes.now rows.items) }
{
    let mut rows = Vec::new(alloc);
    for place in 0..classes.count() {
        let class = classes.at(place);
        rows.push(row(alloc, classes, outer_names(class))?)?;
    }
    Ok(rows)
}

/// The least name that reaches itself by supers.
fn super_cycle(alloc: Global, classes: &Sorted<'_>) -> Result<Option<Text>, AllocError>
    ensures { IfOk result (λ found. MatchOption found (HasNoCycle supers_of (Some object_name) classes.now) (λ name. IsLeastNamedCycle supers_of (Some object_name) classes.now name)) }
{
    let rows = super_rows(alloc, classes)?;
    let object = classes.find(OBJECT).unwrap_or(classes.count());
    match least_cycle(alloc, rows.as_slice(), object)? {
        Some(place) => Ok(Some(classes.at(place).name.copy(alloc)?)),
        None => Ok(None),
    }
}

/// The least name that reaches itself by outer classes.
fn outer_cycle(alloc: Global, classes: &Sorted<'_>) -> Result<Option<Text>, AllocError>
    ensures { IfOk result (λ found. MatchOption found (HasNoCycle outers_of None classes.now) (λ name. IsLeastNamedCycle outers_of None classes.now name)) }
{
    let rows = outer_rows(alloc, classes)?;
    match least_cycle(alloc, rows.as_slice(), classes.count())? {
        Some(place) => Ok(Some(classes.at(place).name.copy(alloc)?)),
        None => Ok(None),
    }
}

/// The parts of methods; None where their number passes 64 bits.
fn parts_of_methods(methods: &[MethodSummary]) -> Option<u64>
    ensures { IfSome result (λ n. n ≡ sum_by method_parts methods.now) }
{
    let mut parts: u64 = 0;
    for method in methods {
        parts = parts
            .checked_add(1)?
            .checked_add(method.params.len() as u64)?;
    }
    Some(parts)
}

/// The parts of a class; None where their number passes 64 bits.
fn parts_of(class: &ClassSummary) -> Option<u64>
    ensures { IfSome result (λ n. n ≡ parts_of class.now) }
{
    let supers = 1u64.checked_add(class.supers.len() as u64)?;
    let fields = supers.checked_add(class.fields.len() as u64)?;
    fields.checked_add(parts_of_methods(class.methods.as_slice())?)
}

/// The parts of all classes; None where their number passes 64 bits.
fn parts_in(classes: &[Shared]) -> Option<u64>
    ensures { IfSome result (λ n. n ≡ parts_in (map arc_value classes.now)) }
{
    let mut parts: u64 = 0;
    for class in classes {
        parts = parts.checked_add(parts_of(&**class)?)?;
    }
    Some(parts)
}

/// Whether no class but `java/lang/Object` reaches itself: all classes are looked at.
fn check_cycles(alloc: Global, classes: &Sorted<'_>) -> Result<(), ChangeFault>
    ensures free { OnOk result (IsFree classes.now) }
    ensures refused { IfErr result (λ fault. (fault ≡ OutOfMemory) ⊎ IsFaultOf classes.now fault) }
{
    if let Some(name) = super_cycle(alloc, classes)? {
        return Err(ChangeFault::Cyclic(name));
    }
    if let Some(name) = outer_cycle(alloc, classes)? {
        return Err(ChangeFault::NestCycle(name));
    }
    Ok(())
}

/// The same where the classes were free of cycles before these puts: a cycle then passes through one of
/// them, and all classes are looked at only where one may reach itself.
fn check_changed(
    alloc: Global,
    old: &[Shared],
    classes: &[Shared],
    removes: &[Text],
    puts: &[ClassSummary],
) -> Result<(), ChangeFault>
    requires free { IsFree (map arc_value old.now) }
    requires leaves { Leaves (map remove removes.now ++ map put puts.now) (map arc_value old.now) (map arc_value classes.now) }
    ensures free { OnOk result (IsFree (map arc_value classes.now)) }
    ensures refused { IfErr result (λ fault. (fault ≡ OutOfMemory) ⊎ IsFaultOf (map arc_value classes.now) fault) }
{
    let sorted = Sorted::of(classes);
    if one_may_come_back(alloc, &sorted, puts)? {
        return check_cycles(alloc, &sorted);
    }
    Ok(())
}

/// Whether the classes may be published, which these removes and puts made of classes free of cycles. More
/// parts than 64 bits count don't fit in memory.
pub fn check(
    alloc: Global,
    old: &[Shared],
    classes: &[Shared],
    removes: &[Text],
    puts: &[ClassSummary],
) -> Result<(), ChangeFault>
    requires free { IsFree (map arc_value old.now) }
    requires leaves { Leaves (map remove removes.now ++ map put puts.now) (map arc_value old.now) (map arc_value classes.now) }
    ensures sound { OnOk result (IsSound (map arc_value classes.now)) }
    ensures refused { IfErr result (λ fault. (fault ≡ OutOfMemory) ⊎ IsFaultOf (map arc_value classes.now) fault) }
{
    check_changed(alloc, old, classes, removes, puts)?;
    let Some(parts) = parts_in(classes) else {
        return Err(ChangeFault::OutOfMemory);
    };
    if parts > MOST_PARTS {
        return Err(ChangeFault::Full(parts));
    }
    Ok(())
}
