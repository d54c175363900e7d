ghost use Rattle.std.specs.Prelude.{◌≡◌, ◌<◌, length, map, slice_get, Some, IfOk};
ghost use Rattle.std.specs.BTreeMap.{get_by_text};
ghost use Rattle.known_classes.specs.Known.{HasEachOnce, IsPlaceOf, class_named};
ghost use Rattle.known_classes.specs.Merging.{merged, added, IsMerging, IsTable};

use crate::classes::{ClassList, Classes};
use crate::summary::ClassSummary;
use crate::tables::put;
use lists::Items;
use std::alloc::{AllocError, Global};
use std::collections::BTreeMap;
use std::marker::Model;

/// The classes of a base with others added, by their places and their names.
#[derive(Drop)]
pub struct Parts<'a, C: Classes> {
    base: &'a C,
    extra: Items<ClassSummary>,
    /// The numbers of the extra classes that the base lacks, of each name the last.
    added: Vec<usize>,
    /// For a name of the base the number of the last extra class of it, for another the place of that class among
    /// the added ones, counted from the last.
    by_name: BTreeMap<String, usize>,
}

impl<'a, C: Classes> Model for Parts<'a, C> {
    ghost use Rattle.known_classes.specs.Known.{KnownClasses};
    ghost use Rattle.known_classes.specs.Merging.{merged, IsMerging, IsTable};
    ghost use Rattle.std.specs.BTreeMap.{get_by_text};

    ghost Value = { KnownClasses };

    ghost view = { λ m. merged (C.listed m.base.now) m.extra };

    ghost invariant = { λ m. IsMerging (C.listed m.base.now) m.extra m.added.items × IsTable (C.listed m.base.now) m.extra m.extra (get_by_text m.by_name) };
}

/// The numbers of the added classes, and the table of the extra classes by their names.
#[derive(Drop)]
struct Numbers {
    added: Vec<usize>,
    by_name: BTreeMap<String, usize>,
}

/// The extra classes that count, found from the last to the first.
fn numbers_of<C: Classes>(
    alloc: Global,
    base: &C,
    extra: &[ClassSummary],
) -> Result<Numbers, AllocError>
    ensures added { IfOk result (λ n. map (slice_get extra.now) n.added.items ≡ map Some (added (C.listed base.now) extra.now)) }
    ensures table { IfOk result (λ n. IsTable (C.listed base.now) extra.now extra.now (get_by_text n.by_name)) }
{
    let mut added = Vec::new(alloc);
    let mut by_name = BTreeMap::new(alloc);
    let mut left = extra.len();
    while left > 0 {
        left -= 1;
        let name = extra[left].name.as_str();
        if by_name.contains_key(name) {
            continue;
        }
        if base.find(name).is_some() {
            put(alloc, &mut by_name, name, left)?;
            continue;
        }
        put(alloc, &mut by_name, name, added.len())?;
        added.push(left)?;
    }
    added.as_mut_slice().reverse();
    Ok(Numbers { added, by_name })
}

impl<'a, C: Classes> Parts<'a, C> {
    /// The base classes with the extra ones; want of memory also where so many classes can't be counted.
    pub fn new(
        alloc: Global,
        base: &'a C,
        extra: Items<ClassSummary>,
    ) -> Result<Parts<'a, C>, AllocError>
        ensures merged { IfOk result (λ classes. classes ≡ merged (C.listed base.now) extra) }
        ensures once { IfOk result (λ classes. HasEachOnce (C.listed base.now)) }
    {
        let numbers = numbers_of(alloc, base, extra.as_slice())?;
        if numbers.added.len() > usize::MAX - base.count() {
            return Err(AllocError);
        }
        Ok(Parts {
            base,
            extra,
            added: numbers.added,
            by_name: numbers.by_name,
        })
    }

    /// How many classes there are.
    fn size(&self) -> usize
        ensures size { result ≡ length self.now }
        ensures once { HasEachOnce self.now }
    {
        self.base.count() + self.added.len()
    }

    /// The class at a place.
    fn class_at(&self, place: usize) -> &ClassSummary
        requires { place < length self.now }
        ensures { slice_get self.now place ≡ Some result.now }
    {
        let kept = self.base.count();
        if place >= kept {
            return &self.extra.as_slice()[self.added[place - kept]];
        }
        let class = self.base.at(place);
        match self.by_name.get(class.name.as_str()).copied() {
            Some(number) => &self.extra.as_slice()[number],
            None => class,
        }
    }

    /// The place of the class of this name.
    fn place_named(&self, name: &str) -> Option<usize>
        ensures { IsPlaceOf self.now (class_named self.now name.now) result }
    {
        if let Some(place) = self.base.find(name) {
            return Some(place);
        }
        match self.by_name.get(name).copied() {
            Some(number) => Some(self.base.count() + (self.added.len() - 1 - number)),
            None => None,
        }
    }
}

impl<'a, C: Classes> ClassList for Parts<'a, C> {
    ghost listed = { λ classes. classes };

    fn count(&self) -> usize {
        self.size()
    }

    fn at(&self, place: usize) -> &ClassSummary {
        self.class_at(place)
    }

    fn find(&self, name: &str) -> Option<usize> {
        self.place_named(name)
    }
}
