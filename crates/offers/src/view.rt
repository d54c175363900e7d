ghost use Rattle.std.specs.Prelude.{◌≡◌, ◌+◌, ◌<◌, ◌^◌, map, length, slice_get, Some, IfOk};
ghost use Rattle.std.specs.List.{range_with_len};
ghost use Rattle.std.specs.Option.{option_copied, option_map};
ghost use Rattle.java_units.specs.Dimensions.{dims_of_bounds};
ghost use Rattle.known_classes.specs.Known.{HasEachOnce, class_named, class_by_canonical, outer_of, canonical};
ghost use Rattle.class_summary.specs.Sources.{internal_name, canonical_name};
ghost use Rattle.decl_index.specs.Weighing.{AreWeights};
ghost use Rattle.subtyping.specs.Places.{IsAncestry};
ghost use Rattle.subtyping.specs.Asked.{class_place};
ghost use Rattle.offers.specs.Sites.{IsSiteOf};
ghost use Rattle.offers.specs.Scenes.{of_class, denoted, edited, package_here, own_names};
ghost use Rattle.offers.specs.Order.{is_ancestor_at};
ghost use Rattle.offers.specs.Views.{scene};

use class_summary::{Resolver, internal_name, joined};
use decl_index::{Index, Weights};
use java_bodies::HoleSite;
use java_units::{TypeText, Unit};
use known_classes::{ClassSummary, Classes, Merged, canonical_named};
use lists::{Copies, Items, Text};
use std::alloc::{AllocError, Global};
use std::marker::Model;
use subtyping::Subtypes;
use type_names::{Base, Erased};

/// What is looked at from a hole, with tables of the unit that are made once.
#[derive(Drop)]
pub struct View<'a> {
    unit: &'a Unit,
    site: &'a HoleSite,
    index: &'a Index,
    known: &'a Merged<'a, Index>,
    subtypes: &'a Subtypes,
    resolver: Resolver<'a, Merged<'a, Index>>,
    weights: Weights,
    /// The internal name of the edited class.
    edited: Text,
    /// The unit's package.
    home: Text,
    /// The internal names of the unit's classes.
    own: Items<Text>,
}

impl<'a> Model for View<'a> {
    ghost use Rattle.offers.specs.Views.{Outlook, IsView};

    ghost Value = { Outlook };

    ghost view = { λ v. record { unit = v.unit.now; site = v.site.now; known = v.known.now; ancestry = v.subtypes.now; counts = v.index.now.counts; weights = v.weights } };

    ghost invariant = { λ v. IsView (record { unit = v.unit.now; site = v.site.now; known = v.known.now; ancestry = v.subtypes.now; counts = v.index.now.counts; weights = v.weights }) v.resolver v.edited v.home v.own };
}

/// The type of a class.
pub fn of_class(alloc: Global, name: &Text) -> Result<Erased, AllocError>
    ensures { IfOk result (λ kind. kind ≡ of_class name.now) }
{
    Ok(Erased {
        dims: 0,
        base: Base::Class(name.copy(alloc)?),
    })
}

/// The internal names of a unit's classes.
fn own_names(alloc: Global, unit: &Unit) -> Result<Items<Text>, AllocError>
    ensures { IfOk result (λ names. names ≡ map (internal_name unit.now) (range_with_len 0 (length unit.now.classes))) }
{
    let mut own = Items::new(alloc);
    for i in 0..unit.classes.len() {
        own.push(internal_name(alloc, unit, i)?)?;
    }
    Ok(own)
}

impl<'a> View<'a> {
    /// The view of a site. `known` are the classes of the index with those of the unit, `subtypes` their subtypes.
    pub fn new(
        alloc: Global,
        index: &'a Index,
        unit: &'a Unit,
        site: &'a HoleSite,
        known: &'a Merged<'a, Index>,
        subtypes: &'a Subtypes,
    ) -> Result<View<'a>, AllocError>
        requires site { IsSiteOf unit.now site.now }
        requires subtypes { IsAncestry known.now subtypes.now }
        ensures outlook { IfOk result (λ view. view ≡ record { unit = unit.now; site = site.now; known = known.now; ancestry = subtypes.now; counts = index.now.counts; weights = index.now.weights }) }
        ensures ranges { IfOk result (λ view. AreWeights view.weights) }
    {
        let resolver = Resolver::new(alloc, unit, known)?;
        let edited = internal_name(alloc, unit, site.class as usize)?;
        let home = joined(alloc, "/", unit.package.as_slice())?;
        let own = own_names(alloc, unit)?;
        Ok(View {
            unit,
            site,
            index,
            known,
            subtypes,
            resolver,
            weights: index.weights(),
            edited,
            home,
            own,
        })
    }

    /// How often the member of a key `owner.name:descriptor` was used.
    pub fn usage(&self, key: &str) -> u32
        ensures { result ≡ (scene self.now).usage key.now }
    {
        self.index.usage(key)
    }

    /// What weighs how much.
    pub fn weights(&self) -> &Weights
        ensures value { result.now ≡ self.now.weights }
        ensures ranges { AreWeights self.now.weights }
    {
        &self.weights
    }

    /// The internal name of the edited class.
    pub fn edited(&self) -> &Text
        ensures { result.now ≡ edited (scene self.now) }
    {
        &self.edited
    }

    /// The unit's package, with `/` between its parts.
    pub fn home(&self) -> &Text
        ensures { result.now ≡ package_here (scene self.now) }
    {
        &self.home
    }

    /// The internal names of the unit's classes.
    pub fn own(&self) -> &[Text]
        ensures { result.now ≡ own_names (scene self.now) }
    {
        self.own.as_slice()
    }

    /// The unit.
    pub fn unit(&self) -> &'a Unit
        ensures { result.now ≡ self.now.unit }
    {
        self.unit
    }

    /// The site.
    pub fn site(&self) -> &'a HoleSite
        ensures value { result.now ≡ self.now.site }
        ensures site { IsSiteOf self.now.unit self.now.site }
    {
        self.site
    }

    /// The internal name of the unit's class of this number.
    pub fn internal(&self, alloc: Global, number: usize) -> Result<Text, AllocError>
        ensures { IfOk result (λ name. name ≡ internal_name self.now.unit number) }
    {
        internal_name(alloc, self.unit, number)
    }

    /// The internal name of the known class of this canonical name; of several the least.
    pub fn called(&self, alloc: Global, name: &Text) -> Result<Option<Text>, AllocError>
        ensures { IfOk result (λ found. found ≡ option_map (λ c. c.name) (class_by_canonical self.now.known self.now.known name.now)) }
    {
        let Some(place) = self.known.by_canonical(name.as_str()) else {
            return Ok(None);
        };
        Ok(Some(self.known.at(place).name.copy(alloc)?))
    }

    /// How many classes are known.
    pub fn count(&self) -> usize
        ensures size { result ≡ length self.now.known }
        ensures once { HasEachOnce self.now.known }
    {
        self.known.count()
    }

    /// The class at a place.
    pub fn at(&self, place: usize) -> &ClassSummary
        requires { place < length self.now.known }
        ensures { slice_get self.now.known place ≡ Some result.now }
    {
        self.known.at(place)
    }

    /// The outer class of the class of this name, where it is known and has one.
    pub fn outer_of(&self, name: &str) -> Option<&Text>
        ensures { option_copied result ≡ outer_of self.now.known name.now }
    {
        let Some(class) = self.class(name) else {
            return None;
        };
        match &class.nesting {
            Some(nesting) => nesting.outer.as_ref(),
            None => None,
        }
    }

    /// The known class of this name.
    pub fn class(&self, name: &str) -> Option<&ClassSummary>
        ensures { option_copied result ≡ class_named self.now.known name.now }
    {
        let Some(place) = self.known.find(name) else {
            return None;
        };
        Some(self.known.at(place))
    }

    /// What a type of the text denotes at the site.
    pub fn denoted(&self, alloc: Global, kind: &TypeText) -> Result<Erased, AllocError>
        requires dims { kind.now.dims + dims_of_bounds self.now.unit.classes < 2 ^ 64 }
        ensures { IfOk result (λ t. t ≡ denoted (scene self.now) kind.now) }
    {
        self.resolver
            .resolve(alloc, self.site.class, Some(self.site.method), kind)
    }

    /// What the wanted type denotes.
    pub fn wanted(&self, alloc: Global) -> Result<Erased, AllocError>
        ensures { IfOk result (λ t. t ≡ denoted (scene self.now) self.now.site.wanted) }
    {
        let method = Some(self.site.method);
        let kind = self
            .resolver
            .resolve(alloc, self.site.class, method, &self.site.wanted)?;
        Ok(kind)
    }

    /// What the types of the variables denote, in order.
    pub fn locals(&self, alloc: Global) -> Result<Items<Erased>, AllocError>
        ensures { IfOk result (λ all. all ≡ map (λ l. denoted (scene self.now) l.kind) self.now.site.locals) }
    {
        let mut all = Items::new(alloc);
        let locals = self.site.locals.as_slice();
        let method = Some(self.site.method);
        for i in 0..locals.len() {
            let kind = self
                .resolver
                .resolve(alloc, self.site.class, method, &locals[i].kind)?;
            all.push(kind)?;
        }
        Ok(all)
    }

    /// What a type of one name denotes at the site.
    pub fn denoted_name(&self, alloc: Global, parts: Items<Text>) -> Result<Erased, AllocError>
        ensures { IfOk result (λ t. t ≡ denoted (scene self.now) (record { parts = parts; dims = 0 })) }
    {
        let text = TypeText { parts, dims: 0 };
        let method = Some(self.site.method);
        let kind = self
            .resolver
            .resolve(alloc, self.site.class, method, &text)?;
        Ok(kind)
    }

    /// Whether one type is a strict subtype of another.
    pub fn is_below(&self, a: &Erased, b: &Erased) -> bool
        ensures { result ≡ (scene self.now).below a.now b.now }
    {
        self.subtypes.is_sub(a, b)
    }

    /// The place of the class of a type among the ancestors.
    pub fn class_place(&self, kind: &Erased) -> Option<usize>
        ensures { result ≡ class_place self.now.ancestry.names kind.now.base }
    {
        self.subtypes.class_place(kind)
    }

    /// Whether one type is a strict subtype of another, where the places of their classes are known.
    pub fn is_below_at(
        &self,
        a: &Erased,
        low: Option<usize>,
        b: &Erased,
        high: Option<usize>,
    ) -> bool
        requires low { low ≡ class_place self.now.ancestry.names a.now.base }
        requires high { high ≡ class_place self.now.ancestry.names b.now.base }
        ensures { result ≡ (scene self.now).below a.now b.now }
    {
        self.subtypes.is_sub_at(a, low, b, high)
    }

    /// Whether the class at the place `high` among the ancestors stands above the class at the place `low`.
    pub fn is_ancestor(&self, low: usize, high: usize) -> bool
        ensures { result ≡ is_ancestor_at self.now.ancestry.rows (Some low) (Some high) }
    {
        self.subtypes.above(low).binary_search(&high).is_ok()
    }

    /// The canonical name of a class.
    pub fn canonical(&self, alloc: Global, name: &Text) -> Result<Text, AllocError>
        ensures { IfOk result (λ text. text ≡ canonical self.now.known name.now) }
    {
        canonical_named(alloc, self.known, name)
    }
}
