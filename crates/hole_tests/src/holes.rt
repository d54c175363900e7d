// Holes in small texts, and the environments at them among the classes of other texts.
ghost use Rattle.std.specs.Prelude.{◌≡◌, ◌+◌, ◌<◌, ◌≤◌, ◌^◌, length, Some, IfOk};
ghost use Rattle.std.specs.Str.{IsCharBoundary};
ghost use Rattle.decl_index.specs.History.{KeepsRanges};
ghost use Rattle.java_tokens.specs.Tokens.{AreTokensOf, Tile};
ghost use Rattle.java_bodies.specs.Sites.{hole_of};
ghost use Rattle.java_units.specs.Units.{IsUnit};
ghost use Rattle.java_units.specs.UnitLaws.{IsNested};
ghost use Rattle.java_units.specs.Dimensions.{dims_of_bounds, greatest, type_dims};
ghost use Rattle.scopes.specs.Holes.{IsHoleIn};

use class_summary::Resolver;
use decl_index::{Change, Index, Weights};
use java_bodies::{HoleSite, hole_at};
use java_tokens::{Token, tokens};
use java_units::{Unit, read_unit};
use lists::Items;
use scopes::environment;
use std::alloc::{AllocError, Global};
use std::test::Fail;
use terms::Env;

/// A text's unit, and the site of a hole in it.
#[derive(Drop)]
pub struct Hole {
    pub unit: Unit,
    pub site: HoleSite,
}

/// The site of the hole at a place of a text with these tokens and this unit.
fn site_in(
    alloc: Global,
    text: &str,
    tokens: &[Token],
    unit: &Unit,
    place: u32,
) -> Result<HoleSite, Fail>
    requires own_tokens { AreTokensOf text.now tokens.now }
    requires own_unit { IsUnit text.now tokens.now unit.now }
    requires boundary { IsCharBoundary text.now place }
    ensures { IfOk result (λ site. hole_of text.now tokens.now unit.now place ≡ Some site) }
{
    match hole_at(alloc, text, tokens, unit, place)? {
        Some(site) => Ok(site),
        None => Err(Fail::from("a hole")),
    }
}

/// The hole at a place of a text with these tokens.
fn hole_among(alloc: Global, text: &str, tokens: &[Token], place: u32) -> Result<Hole, Fail>
    requires short { length text.now ≤ 16777216 }
    requires own_tokens { AreTokensOf text.now tokens.now }
    requires tile { Tile 0 (length text.now) tokens.now }
    requires boundary { IsCharBoundary text.now place }
    ensures { IfOk result (λ hole. IsHoleIn hole.unit hole.site) }
{
    let unit = read_unit(alloc, text, tokens)?;
    let site = site_in(alloc, text, tokens, &unit, place)?;
    Ok(Hole { unit, site })
}

/// The hole at a place of a text.
pub fn hole_in(alloc: Global, text: &str, place: u32) -> Result<Hole, Fail>
    ensures { IfOk result (λ hole. IsHoleIn hole.unit hole.site) }
{
    if text.len() > 16_777_216 || !text.is_char_boundary(place as usize) {
        return Err(Fail::from("a place of a short text"));
    }
    let all = tokens(alloc, text)?;
    let hole = hole_among(alloc, text, all.as_slice(), place)?;
    Ok(hole)
}

/// The unit of a text.
fn unit_of(alloc: Global, text: &str) -> Result<Unit, AllocError>
    ensures nested { IfOk result (λ u. IsNested u.classes) }
    ensures dims { IfOk result (λ u. greatest type_dims u.classes + dims_of_bounds u.classes < 2 ^ 64) }
{
    if text.len() > 16_777_216 {
        return Err(AllocError);
    }
    let all = tokens(alloc, text)?;
    read_unit(alloc, text, all.as_slice())
}

/// The publication of the classes of a text, which sees those of an index.
fn publication(alloc: Global, index: &Index, text: &str) -> Result<Change, AllocError>
    ensures { IfOk result (λ change. KeepsRanges change) }
{
    let unit = unit_of(alloc, text)?;
    Ok(Change::Publish {
        puts: Resolver::new(alloc, &unit, index)?.summaries(alloc)?,
        removes: Items::new(alloc),
        counts: Items::new(alloc),
    })
}

/// The index after one more publication.
pub fn with_change(alloc: Global, index: &Index, change: &Change) -> Result<Index, Fail>
    requires { KeepsRanges change.now }
{
    if index.number() == u32::MAX {
        return Err(Fail::from("few texts"));
    }
    index
        .apply(alloc, change)
        .map_err(|_| Fail::from("an index"))
}

/// The index of the classes of these texts, each of which sees those of the texts before it.
pub fn published(alloc: Global, texts: &[&str]) -> Result<Index, Fail> {
    let mut index = Index::empty(alloc)?;
    for text in texts {
        let change = publication(alloc, &index, text)?;
        index = with_change(alloc, &index, &change)?;
    }
    Ok(index)
}

/// The index after a setting of these weights.
pub fn weighed(alloc: Global, index: &Index, weights: Weights) -> Result<Index, Fail> {
    match Weights::checked(weights) {
        Some(weights) => with_change(alloc, index, &Change::SetWeights(weights)),
        None => Err(Fail::from("weights in their ranges")),
    }
}

/// The environment at a place of a text.
pub fn made(alloc: Global, index: &Index, text: &str, place: u32, limit: u32) -> Result<Env, Fail>
    requires limit { (1 ≤ limit) × (limit ≤ 10000) }
{
    let hole = hole_in(alloc, text, place)?;
    Ok(environment(alloc, index, &hole.unit, &hole.site, limit, 1)?)
}
