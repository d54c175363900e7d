ghost use Rattle.std.specs.Prelude.{◌≡◌, ◌+◌, ◌<◌, ◌^◌, IfOk};
ghost use Rattle.java_units.specs.UnitLaws.{IsNested};
ghost use Rattle.java_units.specs.Dimensions.{dims_of_bounds, greatest, type_dims};
ghost use Rattle.class_summary.specs.SourceSummaries.{summaries_of};
ghost use Rattle.offers.specs.Sites.{IsSiteOf};
ghost use Rattle.offers.specs.Offers.{IsOfferAt, IsOffer};
ghost use Rattle.offers.specs.Views.{scene};

use crate::functional::faces;
use crate::hidden::after_five;
use crate::member::{Face, Member};
use crate::mentioned::types_of;
use crate::names::taken_names;
use crate::offered::offered;
use crate::overrides::after_three;
use crate::pairs::pairs_of;
use crate::spellings::Spellings;
use crate::view::View;
use class_summary::Resolver;
use decl_index::Index;
use java_bodies::HoleSite;
use java_units::Unit;
use known_classes::{ClassSummary, Merged};
use lists::Items;
use std::alloc::{AllocError, Global};
use subtyping::Subtypes;
use type_names::Erased;

/// What the classes that a hole sees offer there.
#[derive(Debug, Drop)]
pub struct Offer {
    /// The types of values that are mentioned, in rising byte order of their descriptors.
    pub types: Items<Erased>,
    /// The numbers of types of which the first is a strict subtype of the second, in rising order.
    pub pairs: Items<(u32, u32)>,
    /// Fields, methods and constructors, by owner in byte order of internal names.
    pub members: Items<Member>,
    /// Functional interfaces, in byte order of internal names.
    pub faces: Items<Face>,
}

/// What a view sees offered.
fn offer_of(alloc: Global, view: &View<'_>) -> Result<Offer, AllocError>
    ensures { IfOk result (IsOffer (scene view.now)) }
{
    let classes = offered(alloc, view)?;
    let members = after_three(alloc, view, classes.as_slice())?;
    let faces = faces(alloc, view, classes.as_slice())?;
    let types = types_of(alloc, view, members.as_slice(), faces.as_slice())?;
    let pairs = pairs_of(alloc, view, &types)?;
    let names = taken_names(alloc, view)?;
    let spellings = Spellings::new(alloc, view, &types)?;
    let left = after_five(
        alloc,
        &spellings,
        &types,
        names.as_slice(),
        members.as_slice(),
    )?;
    Ok(Offer {
        types: Items::from_vec(types),
        pairs,
        members: left,
        faces,
    })
}

/// The summaries of a unit's classes.
pub fn own_summaries(
    alloc: Global,
    index: &Index,
    unit: &Unit,
) -> Result<Items<ClassSummary>, AllocError>
    requires nested { IsNested unit.now.classes }
    requires dims { greatest type_dims unit.now.classes + dims_of_bounds unit.now.classes < 2 ^ 64 }
    ensures { IfOk result (λ all. all ≡ summaries_of unit.now index.now.classes) }
{
    let resolver = Resolver::new(alloc, unit, index)?;
    let all = resolver.summaries(alloc)?;
    Ok(all)
}

/// The types, subtype pairs, members and functional interfaces that are offered at a hole, where `index` has the
/// classes that are published; those of the unit replace them. Its only refusal is want of memory, also where
/// there are 2^32 types or more.
pub fn offered_members(
    alloc: Global,
    index: &Index,
    unit: &Unit,
    site: &HoleSite,
) -> Result<Offer, AllocError>
    requires site { IsSiteOf unit.now site.now }
    ensures exact { IfOk result (IsOfferAt index.now unit.now site.now) }
{
    let own = own_summaries(alloc, index, unit)?;
    let known = Merged::new(alloc, index, own)?;
    let subtypes = Subtypes::new(alloc, &known)?;
    let view = View::new(alloc, index, unit, site, &known, &subtypes)?;
    let offer = offer_of(alloc, &view)?;
    Ok(offer)
}
