ghost use Rattle.std.specs.Prelude.{◌≡◌, ◌<◌, ◌++◌, ◌∷◌, length, IfOk, IfSome, OnOk};
ghost use Rattle.known_classes.specs.Known.{dotted, HasEachOnce};
ghost use Rattle.known_classes.specs.NameTables.{AreCanonicalNames, AreNamed, IsName, IsNameAt, IsCanonicalAt};

use crate::canonical_text::{canonical, push_dotted};
use crate::classes::ClassList;
use crate::nested::{outer_name, simple_name};
use crate::summary::copy_text;
use lists::{Copies, Items, Text};
use std::alloc::{AllocError, Global};

/// A name with `.` in place of `/`.
pub fn dotted_text(alloc: Global, name: &Text) -> Result<Text, AllocError>
    ensures { IfOk result (λ text. text ≡ dotted name.now) }
{
    let mut text = Text::new(alloc);
    push_dotted(&mut text, name.as_str())?;
    Ok(text)
}

/// A text, `.` and a simple name.
pub fn nested_text(alloc: Global, prefix: &Text, simple: &Text) -> Result<Text, AllocError>
    ensures { IfOk result (λ text. text ≡ prefix.now ++ 46 ∷ simple.now) }
{
    let mut text = prefix.copy(alloc)?;
    text.push_str(".")?;
    text.push_str(simple.as_str())?;
    Ok(text)
}

/// No name yet for each class.
fn no_names<L: ClassList>(alloc: Global, classes: &L) -> Result<Vec<Option<Text>>, AllocError>
    ensures { IfOk result (λ named. AreNamed (L.listed classes.now) (length (L.listed classes.now)) named.items) }
{
    let mut named = Vec::new(alloc);
    for _place in 0..classes.count() {
        named.push(None)?;
    }
    Ok(named)
}

/// The canonical name that is made for the class at a place.
fn name_at<L: ClassList>(
    alloc: Global,
    classes: &L,
    named: &[Option<Text>],
    place: usize,
) -> Result<Option<Text>, AllocError>
    requires { AreNamed (L.listed classes.now) (length (L.listed classes.now)) named.now }
    ensures { IfOk result (λ found. IfSome found (λ text. IsNameAt (L.listed classes.now) place text)) }
{
    match named.get(place) {
        Some(text) => copy_text(alloc, text),
        None => Ok(None),
    }
}

/// The canonical name of an outer class; None where it is known and has no name yet.
fn outer_near<L: ClassList>(
    alloc: Global,
    classes: &L,
    named: &[Option<Text>],
    outer: &Text,
) -> Result<Option<Text>, AllocError>
    requires { AreNamed (L.listed classes.now) (length (L.listed classes.now)) named.now }
    ensures { IfOk result (λ found. IfSome found (λ text. IsName (L.listed classes.now) outer.now text)) }
{
    match classes.find(outer.as_str()) {
        Some(around) => name_at(alloc, classes, named, around),
        None => Ok(Some(dotted_text(alloc, outer)?)),
    }
}

/// The canonical name of the class at a place, from that of its outer class; None where this is known and has no
/// name yet. So no class that reaches itself by outer classes is named.
fn text_near<L: ClassList>(
    alloc: Global,
    classes: &L,
    named: &[Option<Text>],
    place: usize,
) -> Result<Option<Text>, AllocError>
    requires named { AreNamed (L.listed classes.now) (length (L.listed classes.now)) named.now }
    requires once { HasEachOnce (L.listed classes.now) }
    requires place { place < length (L.listed classes.now) }
    ensures { IfOk result (λ found. IfSome found (λ text. IsNameAt (L.listed classes.now) place text)) }
{
    let class = classes.at(place);
    let Some(outer) = outer_name(class) else {
        let text = dotted_text(alloc, &class.name)?;
        return Ok(Some(text));
    };
    let Some(prefix) = outer_near(alloc, classes, named, outer)? else {
        return Ok(None);
    };
    let Some(simple) = simple_name(class) else {
        let text = dotted_text(alloc, &class.name)?;
        return Ok(Some(text));
    };
    let text = nested_text(alloc, &prefix, simple)?;
    Ok(Some(text))
}

/// Names the class at a place, where its outer class has its name.
fn name_place<L: ClassList>(
    alloc: Global,
    classes: &L,
    named: &mut Vec<Option<Text>>,
    place: usize,
) -> Result<(), AllocError>
    requires { AreNamed (L.listed classes.now) (length (L.listed classes.now)) named.old.items }
    ensures { OnOk result (AreNamed (L.listed classes.now) (length (L.listed classes.now)) named.new.items) }
{
    if place >= classes.count() {
        return Ok(());
    }
    let Some(text) = text_near(alloc, classes, named.as_slice(), place)? else {
        return Ok(());
    };
    named[place] = Some(text);
    Ok(())
}

/// Names the classes of a way outwards from its far end back.
fn name_way<L: ClassList>(
    alloc: Global,
    classes: &L,
    named: &mut Vec<Option<Text>>,
    way: &[usize],
) -> Result<(), AllocError>
    requires { AreNamed (L.listed classes.now) (length (L.listed classes.now)) named.old.items }
    ensures { OnOk result (AreNamed (L.listed classes.now) (length (L.listed classes.now)) named.new.items) }
{
    let mut left = way.len();
    while left > 0 {
        left -= 1;
        name_place(alloc, classes, named, way[left])?;
    }
    Ok(())
}

/// The place of the outer class of the class at a place; None where it has none that is known.
fn place_around<L: ClassList>(classes: &L, place: usize) -> Option<usize> {
    if place >= classes.count() {
        return None;
    }
    let Some(outer) = outer_name(classes.at(place)) else {
        return None;
    };
    classes.find(outer.as_str())
}

/// Marks a place; whether it is one, and wasn't marked.
fn mark(marks: &mut Vec<bool>, place: usize) -> bool {
    if place >= marks.len() || marks[place] {
        return false;
    }
    marks[place] = true;
    true
}

/// The places of a class and of those around it that weren't met, outwards, which it marks. It says in which order
/// names are made, and no name rests on it.
fn way_out<L: ClassList>(
    alloc: Global,
    classes: &L,
    met: &mut Vec<bool>,
    place: usize,
) -> Result<Vec<usize>, AllocError> {
    let mut way = Vec::new(alloc);
    let mut next = Some(place);
    for _step in 0..classes.count() {
        let Some(here) = next else {
            return Ok(way);
        };
        if !mark(met, here) {
            return Ok(way);
        }
        way.push(here)?;
        next = place_around(classes, here);
    }
    Ok(way)
}

/// The canonical names of the classes that no way outwards leads from into a circle.
fn names_outer_first<L: ClassList>(
    alloc: Global,
    classes: &L,
) -> Result<Vec<Option<Text>>, AllocError>
    ensures { IfOk result (λ named. AreNamed (L.listed classes.now) (length (L.listed classes.now)) named.items) }
{
    let mut named = no_names(alloc, classes)?;
    let mut met = Vec::from_elem(alloc, false, classes.count())?;
    for place in 0..classes.count() {
        let way = way_out(alloc, classes, &mut met, place)?;
        name_way(alloc, classes, &mut named, &way)?;
    }
    Ok(named)
}

/// The canonical name of the class at a place, which is made by itself where none is made yet.
fn text_of<L: ClassList>(
    alloc: Global,
    classes: &L,
    named: &[Option<Text>],
    place: usize,
) -> Result<Text, AllocError>
    requires named { AreNamed (L.listed classes.now) (length (L.listed classes.now)) named.now }
    requires place { place < length (L.listed classes.now) }
    ensures { IfOk result (λ text. IsCanonicalAt (L.listed classes.now) place text) }
{
    match name_at(alloc, classes, named, place)? {
        Some(text) => Ok(text),
        None => canonical(alloc, classes, &classes.at(place).name),
    }
}

/// The canonical names of all classes, each made after that of its outer class, in whatever order they stand. It
/// takes time linear in the classes and their canonical names, but for the logarithm of looking names up. A class
/// from which outer classes lead into a circle is the exception: its name is made by itself.
pub fn texts_outer_first<L: ClassList>(
    alloc: Global,
    classes: &L,
) -> Result<Items<Text>, AllocError>
    ensures { IfOk result (λ texts. AreCanonicalNames (L.listed classes.now) 0 (length (L.listed classes.now)) texts) }
{
    let named = names_outer_first(alloc, classes)?;
    let mut texts = Items::new(alloc);
    for place in 0..classes.count() {
        let text = text_of(alloc, classes, named.as_slice(), place)?;
        texts.push(text)?;
    }
    Ok(texts)
}
