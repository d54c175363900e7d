ghost use Rattle.std.specs.Prelude.{◌≡◌, ◌++◌, ◌∷◌, [], ◌<◌, length, slice_get, Some, IfOk, OnOk};
ghost use Rattle.subtyping.specs.Asked.{class_place};
ghost use Rattle.type_names.specs.declared.kinds.Erased.{Erased};
ghost use Rattle.offers.specs.Scenes.{at_or_below};
ghost use Rattle.offers.specs.Types.{is_below_at};
ghost use Rattle.offers.specs.Rivals.{types_under, has_under};
ghost use Rattle.offers.specs.Placing.{ArePlaces, head_in, AreHeads, IsPlaced};
ghost use Rattle.offers.specs.Views.{Outlook, scene};

use crate::types::same_type;
use crate::view::View;
use lists::{Copies, Items};
use std::alloc::{AllocError, Global};
use type_names::{Base, Erased};

/// Types, with the places of their classes among the ancestors: each class is looked up once, for many tests.
#[derive(Drop)]
pub(crate) struct Placed {
    types: Items<Erased>,
    places: Vec<Option<usize>>,
    /// The places again, of those that are classes without dimensions and have no arrays below them.
    heads: Vec<Option<usize>>,
}

/// Copies of types.
fn copies(alloc: Global, types: &[Erased]) -> Result<Items<Erased>, AllocError>
    ensures { IfOk result (λ all. all ≡ types.now) }
{
    let mut all = Items::new(alloc);
    for kind in types {
        all.push(kind.copy(alloc)?)?;
    }
    Ok(all)
}

/// The places of the classes of these types.
fn places_of(
    alloc: Global,
    view: &View<'_>,
    types: &[Erased],
) -> Result<Vec<Option<usize>>, AllocError>
    ensures { IfOk result (λ places. ArePlaces view.now types.now places.items) }
{
    let mut places = Vec::new(alloc);
    for kind in types {
        places.push(view.class_place(kind))?;
    }
    Ok(places)
}

/// The place of a type that is a class without dimensions and has no arrays below it.
fn head_of(view: &View<'_>, kind: &Erased, place: Option<usize>) -> Option<usize>
    requires { place ≡ class_place view.now.ancestry.names kind.now.base }
    ensures { result ≡ head_in view.now kind.now }
{
    if kind.dims > 0 {
        return None;
    }
    let array = Erased {
        dims: 1,
        base: Base::Int,
    };
    if view.is_below_at(&array, None, kind, place) {
        return None;
    }
    place
}

/// The places of those of these types that are such classes.
fn heads_of(
    alloc: Global,
    view: &View<'_>,
    types: &[Erased],
    places: &[Option<usize>],
) -> Result<Vec<Option<usize>>, AllocError>
    requires { ArePlaces view.now types.now places.now }
    ensures { IfOk result (λ heads. AreHeads view.now types.now heads.items) }
{
    let mut heads = Vec::new(alloc);
    for (i, kind) in types.iter().enumerate() {
        heads.push(head_of(view, kind, places[i]))?;
    }
    Ok(heads)
}

/// Whether a type is below a class that has no arrays below it, by the places of both.
fn is_below_head(view: &View<'_>, a: &Erased, low: Option<usize>, b: &Erased, head: usize) -> bool
    requires low { low ≡ class_place view.now.ancestry.names a.now.base }
    requires head { head_in view.now b.now ≡ Some head }
    ensures { result ≡ (scene view.now).below a.now b.now }
{
    if a.dims > 0 {
        return false;
    }
    match low {
        Some(place) => view.is_ancestor(place, head),
        None => false,
    }
}

/// Whether a type is such a class, or below it.
fn is_near_head(view: &View<'_>, a: &Erased, low: Option<usize>, b: &Erased, head: usize) -> bool
    requires low { low ≡ class_place view.now.ancestry.names a.now.base }
    requires head { head_in view.now b.now ≡ Some head }
    ensures { result ≡ at_or_below (scene view.now) a.now b.now }
{
    if a.dims > 0 {
        return false;
    }
    match low {
        Some(place) => place == head || view.is_ancestor(place, head),
        None => false,
    }
}

/// Whether a type is another, or a strict subtype of it, where the places of their classes are known.
fn at_or_below(
    view: &View<'_>,
    a: &Erased,
    low: Option<usize>,
    b: &Erased,
    high: Option<usize>,
    head: Option<usize>,
) -> bool
    requires low { low ≡ class_place view.now.ancestry.names a.now.base }
    requires high { high ≡ class_place view.now.ancestry.names b.now.base }
    requires head { head ≡ head_in view.now b.now }
    ensures { result ≡ at_or_below (scene view.now) a.now b.now }
{
    if let Some(place) = head {
        return is_near_head(view, a, low, b, place);
    }
    same_type(a, b) || view.is_below_at(a, low, b, high)
}

/// Whether a type is a strict subtype of another, where the places of their classes are known.
fn is_strictly_below(
    view: &View<'_>,
    a: &Erased,
    low: Option<usize>,
    b: &Erased,
    high: Option<usize>,
    head: Option<usize>,
) -> bool
    requires low { low ≡ class_place view.now.ancestry.names a.now.base }
    requires high { high ≡ class_place view.now.ancestry.names b.now.base }
    requires head { head ≡ head_in view.now b.now }
    ensures { result ≡ (scene view.now).below a.now b.now }
{
    if let Some(place) = head {
        return is_below_head(view, a, low, b, place);
    }
    view.is_below_at(a, low, b, high)
}

impl Placed {
    /// These types with their places.
    pub fn new(alloc: Global, view: &View<'_>, types: Items<Erased>) -> Result<Placed, AllocError>
        ensures types { IfOk result (λ placed. placed.types ≡ types) }
        ensures placed { IfOk result (IsPlaced view.now) }
    {
        let places = places_of(alloc, view, types.as_slice())?;
        let heads = heads_of(alloc, view, types.as_slice(), places.as_slice())?;
        Ok(Placed {
            types,
            places,
            heads,
        })
    }

    /// The types.
    pub fn types(&self) -> &[Erased]
        ensures { result.now ≡ self.now.types }
    {
        self.types.as_slice()
    }

    /// Copies of these types with their places.
    pub fn of(alloc: Global, view: &View<'_>, types: &[Erased]) -> Result<Placed, AllocError>
        ensures types { IfOk result (λ placed. placed.types ≡ types.now) }
        ensures placed { IfOk result (IsPlaced view.now) }
    {
        let all = copies(alloc, types)?;
        let placed = Placed::new(alloc, view, all)?;
        Ok(placed)
    }

    /// Whether the type of one number is a strict subtype of that of another.
    pub(crate) fn is_below(&self, view: &View<'_>, low: usize, high: usize) -> bool
        requires placed { IsPlaced view.now self.now }
        requires low { low < length self.now.types }
        requires high { high < length self.now.types }
        ensures { result ≡ is_below_at (scene view.now) self.now.types low high }
    {
        let types = self.types.as_slice();
        let (from, to) = (self.places[low], self.places[high]);
        is_strictly_below(view, &types[low], from, &types[high], to, self.heads[high])
    }

    /// Whether the type of a number is another type or above it.
    pub(crate) fn is_over(
        &self,
        view: &View<'_>,
        low: &Erased,
        place: Option<usize>,
        high: usize,
    ) -> bool
        requires placed { IsPlaced view.now self.now }
        requires place { place ≡ class_place view.now.ancestry.names low.now.base }
        requires within { high < length self.now.types }
        ensures { (kind : Erased) → slice_get self.now.types high ≡ Some kind → result ≡ at_or_below (scene view.now) low.now kind }
    {
        let (to, head) = (self.places[high], self.heads[high]);
        at_or_below(view, low, place, &self.types.as_slice()[high], to, head)
    }

    /// No types.
    fn empty(alloc: Global) -> Placed
        ensures types { result.types ≡ [] }
        ensures placed { (o : Outlook) → IsPlaced o result }
    {
        Placed {
            types: Items::new(alloc),
            places: Vec::new(alloc),
            heads: Vec::new(alloc),
        }
    }

    /// Adds a copy of a type, whose places are known.
    fn add(
        &mut self,
        alloc: Global,
        view: &View<'_>,
        kind: &Erased,
        place: Option<usize>,
        head: Option<usize>,
    ) -> Result<(), AllocError>
        requires placed { IsPlaced view.now self.old }
        requires place { place ≡ class_place view.now.ancestry.names kind.now.base }
        requires head { head ≡ head_in view.now kind.now }
        ensures types { OnOk result (self.new.types ≡ self.old.types ++ kind.now ∷ []) }
        ensures placed { OnOk result (IsPlaced view.now self.new) }
    {
        self.types.push(kind.copy(alloc)?)?;
        self.places.push(place)?;
        self.heads.push(head)?;
        Ok(())
    }

    /// Copies of the types that are at or below a type.
    pub(crate) fn under(
        &self,
        alloc: Global,
        view: &View<'_>,
        high: &Erased,
    ) -> Result<Placed, AllocError>
        requires placed { IsPlaced view.now self.now }
        ensures types { IfOk result (λ all. all.types ≡ types_under (scene view.now) self.now.types high.now) }
        ensures placed { IfOk result (IsPlaced view.now) }
    {
        let place = view.class_place(high);
        let head = head_of(view, high, place);
        let mut all = Placed::empty(alloc);
        let types = self.types.as_slice();
        for (i, kind) in types.iter().enumerate() {
            if at_or_below(view, kind, self.places[i], high, place, head) {
                all.add(alloc, view, kind, self.places[i], self.heads[i])?;
            }
        }
        Ok(all)
    }

    /// Whether one of the types is at or below a type.
    fn has_under(
        &self,
        view: &View<'_>,
        high: &Erased,
        place: Option<usize>,
        head: Option<usize>,
    ) -> bool
        requires placed { IsPlaced view.now self.now }
        requires place { place ≡ class_place view.now.ancestry.names high.now.base }
        requires head { head ≡ head_in view.now high.now }
        ensures { result ≡ has_under (scene view.now) self.now.types high.now }
    {
        let types = self.types.as_slice();
        for (i, kind) in types.iter().enumerate() {
            if at_or_below(view, kind, self.places[i], high, place, head) {
                return true;
            }
        }
        false
    }

    /// Whether one of the types is at or below the one at a place of others.
    pub(crate) fn meets(&self, view: &View<'_>, others: &Placed, at: usize) -> bool
        requires placed { IsPlaced view.now self.now }
        requires others { IsPlaced view.now others.now }
        requires within { at < length others.now.types }
        ensures { (high : Erased) → slice_get others.now.types at ≡ Some high → result ≡ has_under (scene view.now) self.now.types high }
    {
        let (place, head) = (others.places[at], others.heads[at]);
        self.has_under(view, &others.types.as_slice()[at], place, head)
    }
}
