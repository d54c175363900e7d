ghost use Rattle.std.specs.Prelude.{◌≡◌, ◌<◌, ◌∷◌, [], Some, IfOk, OnOk, length, map, drop, slice_get};
ghost use Rattle.std.specs.Arc.{arc_value};
ghost use Rattle.known_classes.specs.Known.{class_named, HasEachOnce, IsPlaceOf};
ghost use Rattle.decl_index.specs.History.{order, Rises, remove, put};
ghost use Rattle.decl_index.specs.Places.{heads, IsPlace, Leaves};

use known_classes::{ClassList, ClassSummary};
use lists::{Copies, Text};
use std::alloc::{AllocError, Global};
use std::cmp::Ordering;
use std::marker::Model;
use std::sync::Arc;

/// A class that several indexes may hold.
pub type Shared = Arc<ClassSummary, Global>;

/// Another list of the same classes.
pub fn share(alloc: Global, classes: &[Shared]) -> Result<Vec<Shared>, AllocError>
    ensures { IfOk result (λ all. map arc_value all.items ≡ map arc_value classes.now) }
{
    let mut all = Vec::new(alloc);
    for class in classes {
        all.push(Arc::try_clone(class)?)?;
    }
    Ok(all)
}

/// How a class's name stands to a name.
#[tactic(auto, unfolding(crate::specs::History::order))]
pub fn compare(class: &ClassSummary, name: &str) -> Ordering
    ensures { result ≡ order class.now.name name.now }
{
    class.name.as_str().cmp(name)
}

/// How many classes have lesser names.
fn place(classes: &[Shared], name: &str) -> usize
    requires { Rises (map arc_value classes.now) }
    ensures { IsPlace (map arc_value classes.now) name.now result }
{
    let mut low = 0;
    let mut high = classes.len();
    while low < high {
        let middle = low + (high - low) / 2;
        if compare(&*classes[middle], name) == Ordering::Less {
            low = middle + 1;
        } else {
            high = middle;
        }
    }
    low
}

/// Whether the class at a place has the name.
fn stands_at(classes: &[Shared], place: usize, name: &str) -> bool
    ensures { result ≡ heads name.now (drop place (map arc_value classes.now)) }
{
    match classes.get(place) {
        Some(class) => name == class.name.as_str(),
        None => false,
    }
}

/// The place of the class of this name.
fn find(classes: &[Shared], name: &str) -> Option<usize>
    requires { Rises (map arc_value classes.now) }
    ensures { IsPlaceOf (map arc_value classes.now) (class_named (map arc_value classes.now) name.now) result }
{
    let at = place(classes, name);
    if stands_at(classes, at, name) {
        return Some(at);
    }
    None
}

/// The class at a place.
fn class_at(classes: &[Shared], place: usize) -> &ClassSummary
    requires { place < length classes.now }
    ensures { slice_get (map arc_value classes.now) place ≡ Some result.now }
{
    &*classes[place]
}

/// Classes in rising order of names, which are looked up by halves.
#[derive(Drop)]
pub struct Sorted<'a> {
    classes: &'a [Shared],
}

impl<'a> Model for Sorted<'a> {
    ghost use Rattle.std.specs.Prelude.{map};
    ghost use Rattle.std.specs.Arc.{arc_value};
    ghost use Rattle.known_classes.specs.Known.{KnownClasses};
    ghost use Rattle.decl_index.specs.History.{Rises};

    ghost Value = { KnownClasses };

    ghost view = { λ s. map arc_value s.classes.now };

    ghost invariant = { λ s. Rises (map arc_value s.classes.now) };
}

impl<'a> Sorted<'a> {
    /// These classes.
    pub fn of(classes: &'a [Shared]) -> Sorted<'a>
        requires { Rises (map arc_value classes.now) }
        ensures { result ≡ map arc_value classes.now }
    {
        Sorted { classes }
    }
}

impl<'a> ClassList for Sorted<'a> {
    ghost listed = { λ classes. classes };

    fn count(&self) -> usize
        ensures size { result ≡ length self.now }
        ensures once { HasEachOnce self.now }
        ensures rises { Rises self.now }
    {
        self.classes.len()
    }

    fn at(&self, place: usize) -> &ClassSummary {
        class_at(self.classes, place)
    }

    fn find(&self, name: &str) -> Option<usize>
        ensures place { IsPlaceOf self.now (class_named self.now name.now) result }
        ensures rises { Rises self.now }
    {
        find(self.classes, name)
    }
}

/// Puts a class in, in place of the one of its name.
fn put(classes: &mut Vec<Shared>, class: Shared) -> Result<(), AllocError>
    requires { Rises (map arc_value classes.old.items) }
    ensures { OnOk result (Leaves (put (arc_value class) ∷ []) (map arc_value classes.old.items) (map arc_value classes.new.items)) }
{
    let at = place(classes, class.name.as_str());
    if stands_at(classes, at, class.name.as_str()) {
        classes[at] = class;
        return Ok(());
    }
    classes.insert(at, class)?;
    Ok(())
}

/// Takes the class of this name out.
fn take_out(classes: &mut Vec<Shared>, name: &str)
    requires { Rises (map arc_value classes.old.items) }
    ensures { Leaves (remove name.now ∷ []) (map arc_value classes.old.items) (map arc_value classes.new.items) }
{
    let at = place(classes, name);
    if stands_at(classes, at, name) {
        classes.remove(at);
    }
}

/// Takes the classes of these names out, one after the other.
pub fn take_each(classes: &mut Vec<Shared>, names: &[Text])
    requires { Rises (map arc_value classes.old.items) }
    ensures { Leaves (map remove names.now) (map arc_value classes.old.items) (map arc_value classes.new.items) }
{
    for name in names {
        take_out(classes, name.as_str());
    }
}

/// Puts copies of these classes in, one after the other.
pub fn put_each(
    alloc: Global,
    classes: &mut Vec<Shared>,
    puts: &[ClassSummary],
) -> Result<(), AllocError>
    requires { Rises (map arc_value classes.old.items) }
    ensures { OnOk result (Leaves (map put puts.now) (map arc_value classes.old.items) (map arc_value classes.new.items)) }
{
    for class in puts {
        let shared = Arc::new(alloc, class.copy(alloc)?).map_err(|_| AllocError)?;
        put(classes, shared)?;
    }
    Ok(())
}
