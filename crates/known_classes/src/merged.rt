ghost use Rattle.std.specs.Prelude.{◌≡◌, ◌<◌, length, IfOk, IfSome, true};
ghost use Rattle.std.specs.Option.{option_copied};
ghost use Rattle.known_classes.specs.Merging.{merged, KeepsName, KeepNames};
ghost use Rattle.known_classes.specs.Nested.{IsLesserOf};
ghost use Rattle.known_classes.specs.NameTables.{Extends, AreTablesBeside, table_of};

use crate::canonical_tables::{tables_behind, tables_of};
use crate::classes::{ClassList, Classes};
use crate::name_tables::NameTables;
use crate::nested::{lesser, outer_name, simple_name};
use crate::parts::Parts;
use crate::summary::ClassSummary;
use lists::{Items, Text};
use std::alloc::{AllocError, Global};
use std::marker::Model;

/// Known classes with others added: an extra class replaces the base class of its name, and of two extra classes
/// of one name the later one counts. The base classes keep their places; those that the base lacks follow. A class
/// is found by each of its names in logarithmic time beside that of the base. To make it takes time linear in the
/// extra classes, where these leave the names of the base's classes as they are; else in all classes.
#[derive(Drop)]
pub struct Merged<'a, C: Classes> {
    base: &'a C,
    parts: Parts<'a, C>,
    /// The names of the classes behind the base; of all classes, where some of the base have other names here.
    names: NameTables,
}

impl<'a, C: Classes> Model for Merged<'a, C> {
    ghost use Rattle.known_classes.specs.Known.{KnownClasses};
    ghost use Rattle.known_classes.specs.NameTables.{AreTablesBeside, table_of};

    ghost Value = { KnownClasses };

    ghost view = { λ m. m.parts };

    ghost invariant = { λ m. AreTablesBeside (C.listed m.base.now) m.parts (table_of m.names) };
}

/// Whether both are the same text, or both are none.
fn same_option(text: Option<&Text>, other: Option<&Text>) -> bool
    ensures { result ≡ true → option_copied text.entry ≡ option_copied other.entry }
{
    match (text, other) {
        (Some(text), Some(other)) => text.same(other),
        (None, None) => true,
        _ => false,
    }
}

/// Whether a class leaves the names of the base's classes as they are: it has the outer class and the simple name
/// of the base class of its name, or a new name in which no base class is nested.
fn keeps_name<C: Classes>(base: &C, class: &ClassSummary) -> bool
    ensures { result ≡ true → KeepsName (C.listed base.now) class.now }
{
    let Some(place) = base.find(class.name.as_str()) else {
        return !base.surrounds(class.name.as_str());
    };
    let old = base.at(place);
    if !same_option(outer_name(class), outer_name(old)) {
        return false;
    }
    same_option(simple_name(class), simple_name(old))
}

/// Whether each of these classes does.
fn keep_names<C: Classes>(base: &C, extra: &[ClassSummary]) -> bool
    ensures { result ≡ true → KeepNames (C.listed base.now) extra.now }
{
    for class in extra {
        if !keeps_name(base, class) {
            return false;
        }
    }
    true
}

/// The names of the classes behind the base, where the base's classes keep theirs; else those of all classes.
fn names_of<C: Classes>(
    alloc: Global,
    keeps: bool,
    base: &C,
    parts: &Parts<'_, C>,
) -> Result<NameTables, AllocError>
    requires { keeps ≡ true → Extends (C.listed base.now) parts.now }
    ensures { IfOk result (λ names. AreTablesBeside (C.listed base.now) parts.now (table_of names)) }
{
    if keeps {
        if let Some(tables) = tables_behind(alloc, base, parts, base.count())? {
            return Ok(tables);
        }
    }
    tables_of(alloc, base, parts)
}

/// Of two classes that may be missing, the one whose name is less.
fn lesser_of<L: ClassList>(known: &L, own: Option<usize>, other: Option<usize>) -> Option<usize>
    requires own { IfSome own (λ place. place < length (L.listed known.now)) }
    requires other { IfSome other (λ place. place < length (L.listed known.now)) }
    ensures { IsLesserOf (L.listed known.now) own other result }
{
    match own {
        Some(place) => Some(lesser(known, place, other)),
        None => other,
    }
}

impl<'a, C: Classes> Merged<'a, C> {
    /// The base classes with the extra ones; want of memory also where so many classes can't be counted.
    pub fn new(
        alloc: Global,
        base: &'a C,
        extra: Items<ClassSummary>,
    ) -> Result<Merged<'a, C>, AllocError>
        ensures { IfOk result (λ classes. classes ≡ merged (C.listed base.now) extra) }
    {
        let keeps = keep_names(base, extra.as_slice());
        let parts = Parts::new(alloc, base, extra)?;
        let names = names_of(alloc, keeps, base, &parts)?;
        Ok(Merged { base, parts, names })
    }
}

impl<'a, C: Classes> Classes for Merged<'a, C> {
    ghost listed = { λ classes. classes };

    fn count(&self) -> usize {
        self.parts.count()
    }

    fn at(&self, place: usize) -> &ClassSummary {
        self.parts.at(place)
    }

    fn find(&self, name: &str) -> Option<usize> {
        self.parts.find(name)
    }

    fn by_canonical(&self, dotted: &str) -> Option<usize> {
        let own = self.names.place(dotted);
        if self.names.from() == 0 {
            return own;
        }
        lesser_of(&self.parts, own, self.base.by_canonical(dotted))
    }

    fn canonical_name(&self, place: usize) -> &str {
        let from = self.names.from();
        if place < from {
            return self.base.canonical_name(place);
        }
        match self.names.text(place - from) {
            Some(text) => text.as_str(),
            None => "",
        }
    }

    fn nested(&self, outer: &str, simple: &str) -> Option<usize> {
        let own = self.names.nested(outer, simple);
        if self.names.from() == 0 {
            return own;
        }
        lesser_of(&self.parts, own, self.base.nested(outer, simple))
    }

    fn surrounds(&self, name: &str) -> bool {
        if self.names.surrounds(name) {
            return true;
        }
        if self.names.from() == 0 {
            return false;
        }
        self.base.surrounds(name)
    }
}
