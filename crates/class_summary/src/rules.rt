ghost use Rattle.std.specs.Prelude.{◌≡◌, ◌<◌, ◌∷◌, ◌++◌, [], length, Some, IfOk, IfSome, bytes_eq};
ghost use Rattle.known_classes.specs.Known.{IsPlaceOf};
ghost use Rattle.class_summary.specs.Sources.{joined, name_at};
ghost use Rattle.class_summary.specs.Names.{internal_of, class_with, same_number, is_member, enclosing, own_class, spelled, known_as, nested_below, below, below_star, starred, of_java_lang, named_class, simple_class};

use crate::paths::{around, joined};
use crate::unit_names::UnitNames;
use java_units::{Import, SourceClass};
use known_classes::{Classes, same};
use lists::{Copies, Items, Text, at, copy_all};
use std::alloc::{AllocError, Global};

/// A class that a name denotes: one of the text by its number, or another by its internal name.
#[derive(Drop)]
pub enum Denoted {
    Own(usize),
    Other(Text),
}

/// Whether a text is this word.
pub fn is(text: &Text, word: &str) -> bool
    ensures { result ≡ bytes_eq text.now word.now }
{
    text.as_str() == word
}

/// The internal name of a class.
pub fn internal_of(alloc: Global, unit: &UnitNames<'_>, class: &Denoted) -> Result<Text, AllocError>
    ensures { IfOk result (λ name. name ≡ internal_of unit.now class.now) }
{
    match class {
        Denoted::Own(i) => unit.internal(alloc, *i),
        Denoted::Other(name) => name.copy(alloc),
    }
}

/// The class with this canonical name, among those of the text and then the known ones.
#[tactic(auto, unfolding(crate::specs::Names::class_with))]
pub fn class_with<C: Classes>(
    alloc: Global,
    unit: &UnitNames<'_>,
    known: &C,
    name: &Text,
) -> Result<Option<Denoted>, AllocError>
    ensures { IfOk result (λ found. found ≡ class_with unit.now (C.listed known.now) name.now) }
{
    if let Some(i) = unit.by_canonical(name) {
        return Ok(Some(Denoted::Own(i)));
    }
    let Some(place) = known.by_canonical(name.as_str()) else {
        return Ok(None);
    };
    Ok(Some(Denoted::Other(known.at(place).name.copy(alloc)?)))
}

fn same_number(left: Option<usize>, right: Option<usize>) -> bool
    ensures { result ≡ same_number left right }
{
    match (left, right) {
        (None, None) => true,
        (Some(i), Some(j)) => i == j,
        _ => false,
    }
}

/// Whether a class has this name and stands directly in that class, or in none.
pub fn is_member(class: &SourceClass, outer: Option<usize>, name: &Text) -> bool
    ensures { result ≡ is_member outer name.now class.now }
{
    let own = match class.outer {
        Some(own) => Some(own as usize),
        None => None,
    };
    same_number(own, outer) && same(name, &class.name)
}

/// Whether the class number i has this name.
fn is_named(classes: &[SourceClass], i: usize, name: &Text) -> bool
    ensures { result ≡ bytes_eq name.now (name_at classes.now i) }
{
    match at(classes, i) {
        Some(class) => same(name, &class.name),
        None => is(name, ""),
    }
}

/// From the innermost class outwards: that class, or one nested directly in it, by its name.
fn enclosing(unit: &UnitNames<'_>, numbers: &[usize], name: &Text) -> Option<usize>
    ensures { result ≡ enclosing unit.now.classes name.now numbers.now }
{
    for k in 0..numbers.len() {
        let here = numbers[k];
        if is_named(unit.classes(), here, name) {
            return Some(here);
        }
        let Some(member) = unit.member(Some(here), name) else {
            continue;
        };
        return Some(member);
    }
    None
}

/// A class of the text by its simple name: an enclosing class or a member of one, else a top-level class.
fn own_class(
    alloc: Global,
    unit: &UnitNames<'_>,
    class: usize,
    name: &Text,
) -> Result<Option<usize>, AllocError>
    ensures { IfOk result (λ found. found ≡ own_class unit.now class name.now) }
{
    let numbers = around(alloc, unit.classes(), class)?;
    if let Some(i) = enclosing(unit, numbers.as_slice(), name) {
        return Ok(Some(i));
    }
    Ok(unit.member(None, name))
}

/// The class with these parts as its canonical name, else the parts joined by `/`.
#[tactic(auto, unfolding(crate::specs::Names::spelled))]
pub fn spelled<C: Classes>(
    alloc: Global,
    unit: &UnitNames<'_>,
    known: &C,
    parts: &[Text],
) -> Result<Denoted, AllocError>
    ensures { IfOk result (λ class. class ≡ spelled unit.now (C.listed known.now) parts.now) }
{
    let name = joined(alloc, ".", parts)?;
    if let Some(class) = class_with(alloc, unit, known, &name)? {
        return Ok(class);
    }
    Ok(Denoted::Other(joined(alloc, "/", parts)?))
}

/// The class of this internal name, where it is known.
fn known_as<C: Classes>(known: &C, name: Text) -> Option<Denoted>
    ensures { result ≡ known_as (C.listed known.now) name }
{
    match known.find(name.as_str()) {
        Some(_) => Some(Denoted::Other(name)),
        None => None,
    }
}

/// A name behind parts, with a separator between them.
pub fn joined_with(
    alloc: Global,
    sign: &str,
    parts: &Items<Text>,
    name: &Text,
) -> Result<Text, AllocError>
    ensures { IfOk result (λ text. text ≡ joined sign.now (parts.now ++ name.now ∷ [])) }
{
    let mut all = copy_all(alloc, parts)?;
    all.push(name.copy(alloc)?)?;
    joined(alloc, sign, all.as_slice())
}

/// The known class nested directly in a class.
fn nested_below<C: Classes>(
    alloc: Global,
    unit: &UnitNames<'_>,
    known: &C,
    name: &Text,
    class: &Denoted,
) -> Result<Option<Denoted>, AllocError>
    ensures { IfOk result (λ found. found ≡ nested_below unit.now (C.listed known.now) name.now (Some class.now)) }
{
    let outer = internal_of(alloc, unit, class)?;
    let Some(place) = known.nested(outer.as_str(), name.as_str()) else {
        return Ok(None);
    };
    Ok(Some(Denoted::Other(known.at(place).name.copy(alloc)?)))
}

/// The known class of this name that an import with star of these parts has.
#[tactic(auto, unfolding(crate::specs::Names::below))]
fn below<C: Classes>(
    alloc: Global,
    unit: &UnitNames<'_>,
    known: &C,
    name: &Text,
    parts: &Items<Text>,
) -> Result<Option<Denoted>, AllocError>
    ensures { IfOk result (λ found. found ≡ below unit.now (C.listed known.now) name.now parts.now) }
{
    let inside = joined_with(alloc, "/", parts, name)?;
    if let Some(class) = known_as(known, inside) {
        return Ok(Some(class));
    }
    let package = joined(alloc, ".", parts.as_slice())?;
    let Some(class) = class_with(alloc, unit, known, &package)? else {
        return Ok(None);
    };
    nested_below(alloc, unit, known, name, &class)
}

/// What one import has of this name.
fn below_star<C: Classes>(
    alloc: Global,
    unit: &UnitNames<'_>,
    known: &C,
    name: &Text,
    import: &Import,
) -> Result<Option<Denoted>, AllocError>
    ensures { IfOk result (λ found. found ≡ below_star unit.now (C.listed known.now) name.now import.now) }
{
    if !import.star {
        return Ok(None);
    }
    below(alloc, unit, known, name, &import.parts)
}

/// The class of this name in the first import with star that has one.
fn starred<C: Classes>(
    alloc: Global,
    unit: &UnitNames<'_>,
    known: &C,
    name: &Text,
    imports: &[Import],
) -> Result<Option<Denoted>, AllocError>
    ensures { IfOk result (λ found. found ≡ starred unit.now (C.listed known.now) name.now imports.now) }
{
    for i in 0..imports.len() {
        let Some(class) = below_star(alloc, unit, known, name, &imports[i])? else {
            continue;
        };
        return Ok(Some(class));
    }
    Ok(None)
}

/// `java/lang/NAME`, where it is known or the name is `Object` or `String`.
#[tactic(auto, unfolding(crate::specs::Names::of_java_lang))]
fn of_java_lang<C: Classes>(
    alloc: Global,
    known: &C,
    name: &Text,
) -> Result<Option<Denoted>, AllocError>
    ensures { IfOk result (λ found. found ≡ of_java_lang (C.listed known.now) name.now) }
{
    let mut full = Text::from_str(alloc, "java/lang/")?;
    full.push_str(name.as_str())?;
    if is(name, "Object") || is(name, "String") {
        return Ok(Some(Denoted::Other(full)));
    }
    Ok(known_as(known, full))
}

/// A class that the text names by its imports and its package, or that is known without being named.
#[tactic(auto, unfolding(crate::specs::Names::named_class))]
fn named_class<C: Classes>(
    alloc: Global,
    unit: &UnitNames<'_>,
    known: &C,
    name: &Text,
) -> Result<Option<Denoted>, AllocError>
    ensures { IfOk result (λ found. found ≡ named_class unit.now (C.listed known.now) name.now) }
{
    if let Some(import) = unit.imported(name) {
        return Ok(Some(spelled(alloc, unit, known, import.parts.as_slice())?));
    }
    let inside = joined_with(alloc, "/", unit.package(), name)?;
    if let Some(class) = known_as(known, inside) {
        return Ok(Some(class));
    }
    if let Some(class) = starred(alloc, unit, known, name, unit.imports())? {
        return Ok(Some(class));
    }
    of_java_lang(alloc, known, name)
}

/// A class by its simple name at the class number i.
#[tactic(auto, unfolding(crate::specs::Names::simple_class))]
pub fn simple_class<C: Classes>(
    alloc: Global,
    unit: &UnitNames<'_>,
    class: usize,
    known: &C,
    name: &Text,
) -> Result<Option<Denoted>, AllocError>
    ensures { IfOk result (λ found. found ≡ simple_class unit.now class (C.listed known.now) name.now) }
{
    if let Some(i) = own_class(alloc, unit, class, name)? {
        return Ok(Some(Denoted::Own(i)));
    }
    named_class(alloc, unit, known, name)
}
