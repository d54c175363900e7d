ghost use Rattle.std.specs.Prelude.{◌≡◌, ◌↔◌, ℕ, List, true, false, IsTrue, IfOk, slice_get};
ghost use Rattle.std.specs.Option.{option_copied};
ghost use Rattle.type_names.specs.declared.kinds.Base.TheVariants.{Class};
ghost use Rattle.known_classes.specs.Known.{KnownClasses};
ghost use Rattle.subtyping.specs.Steps.{IsStrictSubtype, IsReference, IsOfArrays};
ghost use Rattle.graphs.specs.Graph.{edges};
ghost use Rattle.name_places.specs.Places.{place_of};
ghost use Rattle.subtyping.specs.Places.{Stands, Rises, IsAncestry};
ghost use Rattle.subtyping.specs.Asked.{class_name, class_place, IsClassBelow, IsBaseBelow, IsArrayBelow, IsBelow};

use crate::supers::{graph_of, names_of, place_in, rows_above, steps_of};
use crate::widening::widens;
use known_classes::Classes;
use lists::{Items, Text};
use name_places::Names;
use std::alloc::{AllocError, Global};
use std::cmp::Ordering;
use std::marker::Model;
use type_names::{Base, Erased, OBJECT};

const CLONEABLE: &str = "java/lang/Cloneable";

const SERIALIZABLE: &str = "java/io/Serializable";

/// The strict subtypes among known classes, as they stood when it was made.
#[derive(Drop)]
pub struct Subtypes {
    names: Names,
    rows: Items<Items<usize>>,
}

impl Model for Subtypes {
    ghost use Rattle.subtyping.specs.Places.{Ancestry, AllRise};

    ghost Value = { Ancestry };

    ghost view = { λ s. record { names = s.names; rows = s.rows } };

    ghost invariant = { λ s. AllRise s.rows };
}

/// The name of a class without dimensions.
fn class_of(base: &Base) -> Option<&str>
    ensures { option_copied result ≡ class_name base.now }
{
    match base {
        Base::Class(name) => Some(name.as_str()),
        _ => None,
    }
}

/// Whether each array steps to this class.
fn is_of_arrays(name: &str) -> bool
    ensures sound { result ≡ true → IsOfArrays (Class name.now) }
    ensures complete { IsOfArrays (Class name.now) → result ≡ true }
{
    if name == OBJECT {
        return true;
    }
    if name == CLONEABLE {
        return true;
    }
    name == SERIALIZABLE
}

impl Subtypes {
    /// The subtypes among these classes. It takes time linear in the classes with their ancestors; names are
    /// looked up by their hash.
    pub fn new<C: Classes>(alloc: Global, known: &C) -> Result<Subtypes, AllocError>
        ensures of_known { IfOk result (λ s. IsAncestry (C.listed known.now) s) }
    {
        let names = names_of(alloc, known)?;
        let graph = graph_of(alloc, known, &names)?;
        let steps = steps_of(alloc, &names, graph.as_slice())?;
        let rows = rows_above(alloc, steps.as_slice())?;
        Ok(Subtypes { names, rows })
    }

    /// The place of a class by its internal name. The known classes and their supers have places, each its own.
    pub fn place(&self, name: &str) -> Option<usize>
        ensures place { result ≡ place_of self.now.names name.now }
    {
        place_in(&self.names, name)
    }

    /// The internal name of the class at a place.
    pub fn name(&self, place: usize) -> Option<&Text>
        ensures name { option_copied result ≡ slice_get self.now.names place }
    {
        self.names.texts().get(place)
    }

    /// The places of the classes above the class at a place, in rising order; none where there is no class.
    pub fn above(&self, place: usize) -> &[usize]
        ensures above { result.now ≡ edges self.now.rows place }
        ensures rises { Rises result.now }
    {
        match self.rows.get(place) {
            Some(row) => row.as_slice(),
            None => &[],
        }
    }

    /// The place of the class that a type is made of, whatever its dimensions: None for a primitive type, and for a
    /// class that has no place.
    pub fn class_place(&self, kind: &Erased) -> Option<usize>
        ensures place { result ≡ class_place self.now.names kind.now.base }
    {
        match class_of(&kind.base) {
            Some(name) => self.place(name),
            None => None,
        }
    }

    /// Whether the class at one place stands above that at another.
    fn stands_at(&self, low: Option<usize>, high: Option<usize>) -> bool
        ensures sound { (a b : List ℕ) → place_of self.now.names a ≡ low → place_of self.now.names b ≡ high → result ≡ true → Stands self.now a b }
        ensures complete { (a b : List ℕ) → place_of self.now.names a ≡ low → place_of self.now.names b ≡ high → Stands self.now a b → result ≡ true }
    {
        let Some(from) = low else {
            return false;
        };
        let Some(to) = high else {
            return false;
        };
        match self.rows.get(from) {
            Some(row) => row.as_slice().binary_search(&to).is_ok(),
            None => false,
        }
    }

    /// Whether a class is below another.
    fn is_class_below(&self, a: &str, low: Option<usize>, b: &str, high: Option<usize>) -> bool
        requires low { low ≡ place_of self.now.names a.now }
        requires high { high ≡ place_of self.now.names b.now }
        ensures sound { result ≡ true → IsClassBelow (Stands self.now) a.now b.now }
        ensures complete { IsClassBelow (Stands self.now) a.now b.now → result ≡ true }
    {
        if b == OBJECT {
            if a != OBJECT {
                return true;
            }
        }
        self.stands_at(low, high)
    }

    /// Whether a type is below another, both without dimensions.
    fn is_base_below(&self, a: &Base, low: Option<usize>, b: &Base, high: Option<usize>) -> bool
        requires low { low ≡ class_place self.now.names a.now }
        requires high { high ≡ class_place self.now.names b.now }
        ensures sound { result ≡ true → IsBaseBelow (Stands self.now) a.now b.now }
        ensures complete { IsBaseBelow (Stands self.now) a.now b.now → result ≡ true }
    {
        let Some(lower) = class_of(a) else {
            return widens(a, b);
        };
        let Some(higher) = class_of(b) else {
            return false;
        };
        self.is_class_below(lower, low, higher, high)
    }

    /// Whether arrays of a type without dimensions are below those of another.
    fn is_element_below(&self, a: &Base, low: Option<usize>, b: &Base, high: Option<usize>) -> bool
        requires low { low ≡ class_place self.now.names a.now }
        requires high { high ≡ class_place self.now.names b.now }
        ensures sound { result ≡ true → IsReference 0 a.now × IsBaseBelow (Stands self.now) a.now b.now }
        ensures complete { IsReference 0 a.now → IsBaseBelow (Stands self.now) a.now b.now → result ≡ true }
    {
        if class_of(a).is_none() {
            return false;
        }
        self.is_base_below(a, low, b, high)
    }

    /// Whether each array is below a type without dimensions.
    fn is_array_below(&self, b: &Base, high: Option<usize>) -> bool
        requires { high ≡ class_place self.now.names b.now }
        ensures sound { result ≡ true → IsArrayBelow (Stands self.now) b.now }
        ensures complete { IsArrayBelow (Stands self.now) b.now → result ≡ true }
    {
        let Some(higher) = class_of(b) else {
            return false;
        };
        if is_of_arrays(higher) {
            return true;
        }
        if self.stands_at(self.place(CLONEABLE), high) {
            return true;
        }
        self.stands_at(self.place(SERIALIZABLE), high)
    }

    /// Whether a type is below another, by the ancestors.
    fn is_below(&self, a: &Erased, low: Option<usize>, b: &Erased, high: Option<usize>) -> bool
        requires low { low ≡ class_place self.now.names a.now.base }
        requires high { high ≡ class_place self.now.names b.now.base }
        ensures sound { result ≡ true → IsBelow (Stands self.now) a.now b.now }
        ensures complete { IsBelow (Stands self.now) a.now b.now → result ≡ true }
    {
        if a.dims < b.dims {
            return false;
        }
        if a.dims > b.dims {
            return self.is_array_below(&b.base, high);
        }
        if a.dims > 0 {
            return self.is_element_below(&a.base, low, &b.base, high);
        }
        self.is_base_below(&a.base, low, &b.base, high)
    }

    /// Whether one type is a strict subtype of another among the classes of `new`, where the places of their classes
    /// are known. It takes no memory, looks up no name of theirs, and takes time logarithmic in the classes.
    pub fn is_sub_at(&self, a: &Erased, low: Option<usize>, b: &Erased, high: Option<usize>) -> bool
        requires low { low ≡ class_place self.now.names a.now.base }
        requires high { high ≡ class_place self.now.names b.now.base }
        ensures exact { (known : KnownClasses) → IsAncestry known self.now → IsTrue result ↔ IsStrictSubtype known a.now b.now }
        ensures never_itself { (known : KnownClasses) → IsAncestry known self.now → a.now ≡ b.now → result ≡ false }
    {
        self.is_below(a, low, b, high)
    }

    /// Whether one type is a strict subtype of another among the classes of `new`. It takes no memory, and
    /// time logarithmic in the classes.
    pub fn is_sub(&self, a: &Erased, b: &Erased) -> bool
        ensures exact { (known : KnownClasses) → IsAncestry known self.now → IsTrue result ↔ IsStrictSubtype known a.now b.now }
        ensures never_itself { (known : KnownClasses) → IsAncestry known self.now → a.now ≡ b.now → result ≡ false }
    {
        self.is_sub_at(a, self.class_place(a), b, self.class_place(b))
    }
}
