ghost use Rattle.std.specs.Prelude.{◌≡◌, ◌++◌, map, slice_get, IfOk, OnOk};
ghost use Rattle.java_units.specs.UnitLaws.{outer_number};
ghost use Rattle.class_summary.specs.Sources.{followed, joined, own_name, name_at, around, path, binary, internal_name, canonical_name};

use java_units::{SourceClass, Unit};
use lists::{Copies, Items, Text, at, copy_all};
use std::alloc::{AllocError, Global};

/// Adds parts to a text, each behind a separator.
pub fn follow(text: &mut Text, sign: &str, parts: &[Text]) -> Result<(), AllocError>
    ensures { OnOk result (text.new ≡ text.old ++ followed sign.now parts.now) }
{
    for i in 0..parts.len() {
        text.push_str(sign)?;
        text.push_str(parts[i].as_str())?;
    }
    Ok(())
}

/// Parts with a separator between them.
#[tactic(auto, unfolding(crate::specs::Sources::joined))]
pub fn joined(alloc: Global, sign: &str, parts: &[Text]) -> Result<Text, AllocError>
    ensures text { IfOk result (λ text. text ≡ joined sign.now parts.now) }
{
    match parts {
        [] => Ok(Text::new(alloc)),
        [first, more @ ..] => {
            let mut text = first.copy(alloc)?;
            follow(&mut text, sign, more)?;
            Ok(text)
        }
    }
}

/// The number of the class around a class.
fn outer_of(class: &SourceClass) -> Option<usize>
    ensures { result ≡ class.now.outer }
{
    match class.outer {
        Some(outer) => Some(outer as usize),
        None => None,
    }
}

/// The number of the class around the class number i.
fn outer_at(classes: &[SourceClass], i: usize) -> Option<usize>
    ensures { result ≡ outer_number (slice_get classes.now i) }
{
    match at(classes, i) {
        Some(class) => outer_of(class),
        None => None,
    }
}

/// The simple name of the class number i.
pub fn name_at(alloc: Global, classes: &[SourceClass], i: usize) -> Result<Text, AllocError>
    ensures { IfOk result (λ name. name ≡ name_at classes.now i) }
{
    match at(classes, i) {
        Some(class) => class.name.copy(alloc),
        None => Ok(Text::new(alloc)),
    }
}

/// The class and the classes around it, by their numbers in the unit, from the innermost outwards.
pub fn around(
    alloc: Global,
    classes: &[SourceClass],
    class: usize,
) -> Result<Vec<usize>, AllocError>
    ensures { IfOk result (λ all. all.items ≡ around classes.now class) }
{
    let mut all = Vec::new(alloc);
    let mut next = Some(class);
    for _met in 0..classes.len() {
        let Some(here) = next else {
            return Ok(all);
        };
        all.push(here)?;
        next = outer_at(classes, here);
    }
    Ok(all)
}

/// The names of these classes, behind the parts of the package.
fn named(alloc: Global, unit: &Unit, numbers: &[usize]) -> Result<Items<Text>, AllocError>
    ensures { IfOk result (λ names. names ≡ unit.now.package ++ map (name_at unit.now.classes) numbers.now) }
{
    let mut names = copy_all(alloc, &unit.package)?;
    for i in 0..numbers.len() {
        names.push(name_at(alloc, unit.classes.as_slice(), numbers[i])?)?;
    }
    Ok(names)
}

/// The parts of the package, and then the names of the classes from the outermost inwards.
fn path(alloc: Global, unit: &Unit, class: usize) -> Result<Items<Text>, AllocError>
    ensures { IfOk result (λ parts. parts ≡ path unit.now class) }
{
    let mut numbers = around(alloc, unit.classes.as_slice(), class)?;
    numbers.reverse();
    named(alloc, unit, numbers.as_slice())
}

/// The canonical name of the class number i of a text (JLS 6.7).
pub fn canonical_name(alloc: Global, unit: &Unit, class: usize) -> Result<Text, AllocError>
    ensures name { IfOk result (λ name. name ≡ canonical_name unit.now class) }
{
    let parts = path(alloc, unit, class)?;
    joined(alloc, ".", parts.as_slice())
}

/// The first n parts joined by `/`, and then `$` before each further part.
fn binary(alloc: Global, n: usize, parts: &[Text]) -> Result<Text, AllocError>
    ensures { IfOk result (λ name. name ≡ binary n parts.now) }
{
    if n >= parts.len() {
        return joined(alloc, "/", parts);
    }
    let mut name = joined(alloc, "/", &parts[..n])?;
    follow(&mut name, "$", &parts[n..])?;
    Ok(name)
}

/// The internal name of the class number i of a text (JLS 13.1).
pub fn internal_name(alloc: Global, unit: &Unit, class: usize) -> Result<Text, AllocError>
    ensures name { IfOk result (λ name. name ≡ internal_name unit.now class) }
{
    let parts = path(alloc, unit, class)?;
    let n = unit.package.len() + 1;
    binary(alloc, n, parts.as_slice())
}
