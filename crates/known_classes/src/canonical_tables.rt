ghost use Rattle.std.specs.Prelude.{◌≡◌, ◌<◌, ◌≤◌, ◌+◌, ℕ, Some, length, true, IfOk, IfSome};
ghost use Rattle.known_classes.specs.Known.{class_named, canonical, HasEachOnce, IsPlaceOf};
ghost use Rattle.known_classes.specs.NameTables.{AreCanonicalNames, IsBehind, IsClosedBelow, IsNextName, AreNameTables, table_of};

use crate::classes::{ClassList, Classes};
use crate::name_tables::NameTables;
use crate::nested::{outer_name, simple_name};
use crate::outer_first::{dotted_text, nested_text, texts_outer_first};
use lists::{Copies, Items, Text};
use std::alloc::{AllocError, Global};

/// Whether no class is there, or one before a place.
fn is_before(around: Option<usize>, place: usize) -> bool
    ensures { result ≡ true → IfSome around (λ q. q < place) }
{
    match around {
        Some(around) => around < place,
        None => true,
    }
}

/// The canonical name of an outer class that isn't known, or stands before a place up to which names are made.
fn outer_text<C: Classes, L: ClassList>(
    alloc: Global,
    base: &C,
    classes: &L,
    from: usize,
    texts: &[Text],
    outer: &Text,
) -> Result<Text, AllocError>
    requires behind { IsBehind (C.listed base.now) (L.listed classes.now) from }
    requires names { AreCanonicalNames (L.listed classes.now) from (from + length texts.now) texts.now }
    requires before { (around : ℕ) → IsPlaceOf (L.listed classes.now) (class_named (L.listed classes.now) outer.now) (Some around) → around < from + length texts.now }
    ensures { IfOk result (λ text. text ≡ canonical (L.listed classes.now) outer.now) }
{
    let Some(around) = classes.find(outer.as_str()) else {
        return dotted_text(alloc, outer);
    };
    if around < from {
        return Text::from_str(alloc, base.canonical_name(around));
    }
    texts[around - from].copy(alloc)
}

/// The canonical name of the class at a place up to which names are made; None where its outer class stands at
/// no lower place.
fn text_at<C: Classes, L: ClassList>(
    alloc: Global,
    base: &C,
    classes: &L,
    from: usize,
    texts: &[Text],
    place: usize,
) -> Result<Option<Text>, AllocError>
    requires behind { IsBehind (C.listed base.now) (L.listed classes.now) from }
    requires names { AreCanonicalNames (L.listed classes.now) from place texts.now }
    requires once { HasEachOnce (L.listed classes.now) }
    requires closed { IsClosedBelow (L.listed classes.now) place }
    requires place { place < length (L.listed classes.now) }
    ensures { IfOk result (λ found. IfSome found (λ text. IsNextName (L.listed classes.now) place text)) }
{
    let class = classes.at(place);
    let Some(outer) = outer_name(class) else {
        let text = dotted_text(alloc, &class.name)?;
        return Ok(Some(text));
    };
    if !is_before(classes.find(outer.as_str()), place) {
        return Ok(None);
    }
    let Some(simple) = simple_name(class) else {
        let text = dotted_text(alloc, &class.name)?;
        return Ok(Some(text));
    };
    let prefix = outer_text(alloc, base, classes, from, texts, outer)?;
    let text = nested_text(alloc, &prefix, simple)?;
    Ok(Some(text))
}

/// The canonical names of the classes from a place on, each made from that of its outer class; None where that
/// stands behind it.
fn texts_in_order<C: Classes, L: ClassList>(
    alloc: Global,
    base: &C,
    classes: &L,
    from: usize,
) -> Result<Option<Items<Text>>, AllocError>
    requires { IsBehind (C.listed base.now) (L.listed classes.now) from }
    ensures { IfOk result (λ found. IfSome found (λ texts. AreCanonicalNames (L.listed classes.now) from (length (L.listed classes.now)) texts)) }
{
    let mut texts = Items::new(alloc);
    for place in from..classes.count() {
        let Some(text) = text_at(alloc, base, classes, from, texts.as_slice(), place)? else {
            return Ok(None);
        };
        texts.push(text)?;
    }
    Ok(Some(texts))
}

/// The tables of the classes behind those of a base; None where the outer class of one stands behind it.
pub fn tables_behind<C: Classes, L: ClassList>(
    alloc: Global,
    base: &C,
    classes: &L,
    from: usize,
) -> Result<Option<NameTables>, AllocError>
    requires { IsBehind (C.listed base.now) (L.listed classes.now) from }
    ensures tables { IfOk result (λ found. IfSome found (λ t. AreNameTables (L.listed classes.now) (table_of t))) }
    ensures from { IfOk result (λ found. IfSome found (λ t. t.from ≡ from)) }
{
    let Some(texts) = texts_in_order(alloc, base, classes, from)? else {
        return Ok(None);
    };
    let tables = NameTables::new(alloc, classes, from, texts)?;
    Ok(Some(tables))
}

/// The tables of the names of all classes; of a base, which may be any, nothing is asked. It takes time linear in
/// the classes and their canonical names, but for the logarithm of looking names up, in whatever order the classes
/// stand.
pub fn tables_of<C: Classes, L: ClassList>(
    alloc: Global,
    base: &C,
    classes: &L,
) -> Result<NameTables, AllocError>
    ensures tables { IfOk result (λ t. AreNameTables (L.listed classes.now) (table_of t)) }
    ensures from { IfOk result (λ t. t.from ≡ 0) }
{
    if let Some(tables) = tables_behind(alloc, base, classes, 0)? {
        return Ok(tables);
    }
    let texts = texts_outer_first(alloc, classes)?;
    NameTables::new(alloc, classes, 0, texts)
}

/// The canonical name of the class of this internal name, known or not (JLS 6.7).
pub fn canonical_named<C: Classes>(
    alloc: Global,
    known: &C,
    name: &Text,
) -> Result<Text, AllocError>
    ensures { IfOk result (λ text. text ≡ canonical (C.listed known.now) name.now) }
{
    let Some(place) = known.find(name.as_str()) else {
        return dotted_text(alloc, name);
    };
    Text::from_str(alloc, known.canonical_name(place))
}
