ghost use Rattle.std.specs.Prelude.{◌≡◌, ◌++◌, ◌∷◌, [], ◌&&◌, map, slice_get, Some, if◌then◌else◌, IfOk, OnOk};
ghost use Rattle.std.specs.List.{filter};
ghost use Rattle.offers.specs.Scenes.{of_class, at_or_below};
ghost use Rattle.offers.specs.Functional.{is_interface, is_face, faces_above, is_whole};
ghost use Rattle.subtyping.specs.Asked.{class_place};
ghost use Rattle.offers.specs.Kept.{AreInterfaces};
ghost use Rattle.offers.specs.Missing.{is_missing, missing, is_apart, interfaces};
ghost use Rattle.offers.specs.Views.{scene};

use crate::placed::Placed;
use crate::reach::{INTERFACE, has_flag};
use crate::view::{View, of_class};
use known_classes::ClassSummary;
use lists::{Copies, Items, Text};
use std::alloc::{AllocError, Global};
use type_names::{Erased, OBJECT};

/// Whether a class is an interface.
pub(crate) fn is_interface(class: &ClassSummary) -> bool
    ensures { result ≡ is_interface class.now }
{
    has_flag(class.flags, INTERFACE)
}

/// Whether a class is below another.
pub(crate) fn is_below(
    alloc: Global,
    view: &View<'_>,
    a: &Text,
    b: &Text,
) -> Result<bool, AllocError>
    ensures { IfOk result (λ yes. yes ≡ (scene view.now).below (of_class a.now) (of_class b.now)) }
{
    let low = of_class(alloc, a)?;
    let high = of_class(alloc, b)?;
    Ok(view.is_below(&low, &high))
}

/// Adds a copy of a class that is an interface.
fn add_interface(
    alloc: Global,
    class: &ClassSummary,
    all: &mut Items<ClassSummary>,
) -> Result<(), AllocError>
    ensures { OnOk result (all.new ≡ all.old ++ (if is_interface class.now then class.now ∷ [] else [])) }
{
    if is_interface(class) {
        all.push(class.copy(alloc)?)?;
    }
    Ok(())
}

/// Copies of the known interfaces.
fn interfaces(alloc: Global, view: &View<'_>) -> Result<Items<ClassSummary>, AllocError>
    ensures { IfOk result (λ all. all ≡ interfaces (scene view.now)) }
{
    let mut all = Items::new(alloc);
    for place in 0..view.count() {
        add_interface(alloc, view.at(place), &mut all)?;
    }
    Ok(all)
}

/// The types of classes.
fn kinds_of(alloc: Global, classes: &[ClassSummary]) -> Result<Items<Erased>, AllocError>
    ensures { IfOk result (λ all. all ≡ map (λ c. of_class c.name) classes.now) }
{
    let mut all = Items::new(alloc);
    for class in classes {
        all.push(of_class(alloc, &class.name)?)?;
    }
    Ok(all)
}

/// The known interfaces, with the places of their types among the ancestors.
#[derive(Drop)]
pub(crate) struct KnownInterfaces {
    classes: Items<ClassSummary>,
    kinds: Placed,
}

impl KnownInterfaces {
    /// The known interfaces with their places.
    pub fn new(alloc: Global, view: &View<'_>) -> Result<KnownInterfaces, AllocError>
        ensures { IfOk result (AreInterfaces view.now) }
    {
        let classes = interfaces(alloc, view)?;
        let kinds = kinds_of(alloc, classes.as_slice())?;
        let kinds = Placed::new(alloc, view, kinds)?;
        Ok(KnownInterfaces { classes, kinds })
    }

    /// Whether the class at a place is a type or above it.
    fn is_kind_over(
        &self,
        view: &View<'_>,
        low: &Erased,
        place: Option<usize>,
        other: &ClassSummary,
        at: usize,
    ) -> bool
        requires kept { AreInterfaces view.now self.now }
        requires place { place ≡ class_place view.now.ancestry.names low.now.base }
        requires there { slice_get self.now.classes at ≡ Some other.now }
        ensures { result ≡ at_or_below (scene view.now) low.now (of_class other.now.name) }
    {
        self.kinds.is_over(view, low, place, at)
    }

    /// Whether it is, and an interface.
    fn is_over(
        &self,
        view: &View<'_>,
        low: &Erased,
        place: Option<usize>,
        other: &ClassSummary,
        at: usize,
    ) -> bool
        requires kept { AreInterfaces view.now self.now }
        requires place { place ≡ class_place view.now.ancestry.names low.now.base }
        requires there { slice_get self.now.classes at ≡ Some other.now }
        ensures { result ≡ (is_interface other.now && at_or_below (scene view.now) low.now (of_class other.now.name)) }
    {
        is_interface(other) && self.is_kind_over(view, low, place, other, at)
    }

    /// Copies of those at or above a class.
    fn above(
        &self,
        alloc: Global,
        view: &View<'_>,
        class: &ClassSummary,
    ) -> Result<Items<ClassSummary>, AllocError>
        requires { AreInterfaces view.now self.now }
        ensures { IfOk result (λ all. all ≡ filter (is_face (scene view.now) class.now) self.now.classes) }
    {
        let low = of_class(alloc, &class.name)?;
        let place = view.class_place(&low);
        let mut all = Items::new(alloc);
        for (i, other) in self.classes.as_slice().iter().enumerate() {
            if self.is_over(view, &low, place, other, i) {
                all.push(other.copy(alloc)?)?;
            }
        }
        Ok(all)
    }
}

/// Copies of those of the known interfaces that are at or above a class.
pub(crate) fn faces_above(
    alloc: Global,
    view: &View<'_>,
    known: &KnownInterfaces,
    class: &ClassSummary,
) -> Result<Items<ClassSummary>, AllocError>
    requires { AreInterfaces view.now known.now }
    ensures { IfOk result (λ all. all ≡ faces_above (scene view.now) class.now) }
{
    let all = known.above(alloc, view, class)?;
    Ok(all)
}

/// Whether a class is neither java/lang/Object nor known.
fn is_missing(view: &View<'_>, name: &str) -> bool
    ensures { result ≡ is_missing (scene view.now) name.now }
{
    !(name == OBJECT || view.class(name).is_some())
}

/// Adds those of these names that are.
fn add_missing(
    alloc: Global,
    view: &View<'_>,
    names: &[Text],
    all: &mut Items<Text>,
) -> Result<(), AllocError>
    ensures { OnOk result (all.new ≡ all.old ++ filter (is_missing (scene view.now)) names.now) }
{
    for name in names {
        if is_missing(view, name.as_str()) {
            all.push(name.copy(alloc)?)?;
        }
    }
    Ok(())
}

/// The supers of known classes that are neither known nor java/lang/Object.
#[tactic(auto, unfolding(crate::specs::Missing::missing))]
pub(crate) fn missing(alloc: Global, view: &View<'_>) -> Result<Items<Text>, AllocError>
    ensures { IfOk result (λ all. all ≡ missing (scene view.now)) }
{
    let mut all = Items::new(alloc);
    for place in 0..view.count() {
        let supers = view.at(place).supers.as_slice();
        add_missing(alloc, view, supers, &mut all)?;
    }
    Ok(all)
}

/// Whether a class is below none of these.
fn is_apart(
    alloc: Global,
    view: &View<'_>,
    class: &ClassSummary,
    names: &[Text],
) -> Result<bool, AllocError>
    ensures { IfOk result (λ yes. yes ≡ is_apart (scene view.now) class.now names.now) }
{
    for name in names {
        let below = is_below(alloc, view, &class.name, name)?;
        if below {
            return Ok(false);
        }
    }
    Ok(true)
}

/// Whether what stands above a class is known, but for java/lang/Object. `names` are those of the missing classes.
pub(crate) fn is_whole(
    alloc: Global,
    view: &View<'_>,
    names: &[Text],
    class: &ClassSummary,
) -> Result<bool, AllocError>
    requires { names.now ≡ missing (scene view.now) }
    ensures { IfOk result (λ yes. yes ≡ is_whole (scene view.now) class.now) }
{
    let apart = is_apart(alloc, view, class, names)?;
    Ok(apart)
}
