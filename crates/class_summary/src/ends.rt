ghost use Rattle.std.specs.Prelude.{◌≡◌, ℕ, ◌+◌, ◌-◌, ◌<◌, ◌≤◌, All, false, List, length, slice_get, Option, Some, None, IfOk, IfSome, OnOk, MatchOption};
ghost use Rattle.std.specs.Option.{option_copied};
ghost use Rattle.class_summary.specs.Variables.{variable_of, end_at, end_of};
ghost use Rattle.class_summary.specs.VariableEnds.{Reach, IsFurther, IsEndOf, StandsAt, NextIs, AreTold, AreEnds, AreToldOutside, LeadsOn, IsClosed};

use crate::bound_order::in_order;
use crate::variables::{Declared, most_steps, variable_of};
use java_units::TypeText;
use lists::Text;
use std::alloc::{AllocError, Global};
use std::marker::Model;

/// Where a type ends after the bounds of its variables: its dimensions, the class at which its last name
/// stands, and the parts of that name, or None for `java/lang/Object`.
#[derive(Drop)]
pub struct Ending<'a> {
    pub dims: u64,
    pub class: usize,
    pub parts: Option<&'a [Text]>,
}

/// Where a variable ends: after this many bounds, with their dimensions where these can be counted, at this class,
/// and at these parts, or None for `java/lang/Object`.
#[derive(Drop)]
pub struct Reached<'a> {
    bounds: usize,
    dims: Option<u64>,
    class: usize,
    parts: Option<&'a [Text]>,
}

impl<'a> Model for Reached<'a> {
    ghost use Rattle.std.specs.Option.{option_copied};
    ghost use Rattle.class_summary.specs.VariableEnds.{Reach};

    ghost Value = { Reach };

    ghost view = { λ r. record { bounds = r.bounds; dims = r.dims; class = r.class; parts = option_copied r.parts } };
}

/// Where the variables of a declaration end, by their places; None of one that comes back to itself or to one that
/// does.
#[derive(Drop)]
pub struct Ends<'a> {
    reached: Vec<Option<Reached<'a>>>,
}

impl<'a> Model for Ends<'a> {
    ghost use Rattle.std.specs.Prelude.{List, Option};
    ghost use Rattle.class_summary.specs.VariableEnds.{Reach};

    ghost Value = { List (Option Reach) };

    ghost view = { λ e. e.reached.items };
}

/// The sum of dimensions, where it fits.
fn more_dims(dims: Option<u64>, own: u64) -> Option<u64>
    ensures { IfSome result (λ sum. (own ≤ sum) × (dims ≡ Some (sum - own))) }
{
    dims?.checked_add(own)
}

fn copy_of<'a>(told: &Option<Reached<'a>>) -> Option<Reached<'a>>
    ensures { result ≡ told.now }
{
    match told {
        Some(r) => Some(Reached {
            bounds: r.bounds,
            dims: r.dims,
            class: r.class,
            parts: r.parts,
        }),
        None => None,
    }
}

/// What is told of the variable at a place; want of memory where no such place is.
fn told_at<'a>(
    told: &[Option<Reached<'a>>],
    place: usize,
) -> Result<Option<Reached<'a>>, AllocError>
    ensures { IfOk result (λ r. slice_get told.now place ≡ Some r) }
{
    match told.get(place) {
        Some(r) => Ok(copy_of(r)),
        None => Err(AllocError),
    }
}

/// What is told of the variable at a place of a class; want of memory where no such place is.
fn told_of<'a>(
    tables: &[Ends<'a>],
    class: usize,
    place: usize,
) -> Result<Option<Reached<'a>>, AllocError>
    ensures { IfOk result (λ r. (ends : List (Option Reach)) × (slice_get tables.now class ≡ Some ends) × (slice_get ends place ≡ Some r)) }
{
    match tables.get(class) {
        Some(ends) => told_at(ends.reached.as_slice(), place),
        None => Err(AllocError),
    }
}

/// What is told of the variable that a type is, and None where it is none; `own` tells of the first scope, `tables` of
/// the others.
fn next_of<'a>(
    scopes: &[Declared<'_, 'a>],
    tables: &[Ends<'a>],
    own: &[Option<Reached<'a>>],
    parts: &[Text],
) -> Result<Option<Option<Reached<'a>>>, AllocError>
    requires outside { AreToldOutside scopes.now tables.now }
    requires own { AreTold scopes.now own.now }
    ensures { IfOk result (λ next. MatchOption next (variable_of parts.now scopes.now ≡ None) (λ told. NextIs scopes.now own.now parts.now told)) }
{
    let Some(met) = variable_of(scopes, parts) else {
        return Ok(None);
    };
    if met.level == 0 {
        return Ok(Some(told_at(own, met.place)?));
    }
    Ok(Some(told_of(tables, met.class, met.place)?))
}

fn one_more(bounds: usize) -> Option<usize>
    ensures { IfSome result (λ n. n ≡ bounds + 1) }
{
    bounds.checked_add(1)
}

/// One bound further; want of memory where the bounds can't be counted.
fn further<'a>(next: &Reached<'a>, dims: u64) -> Result<Reached<'a>, AllocError>
    ensures { IfOk result (λ r. IsFurther next.now dims r) }
{
    let Some(bounds) = one_more(next.bounds) else {
        return Err(AllocError);
    };
    let sum = more_dims(next.dims, dims);
    Ok(Reached {
        bounds,
        dims: sum,
        class: next.class,
        parts: next.parts,
    })
}

/// Where a variable with this bound ends, as far as that is told of the variable that its bound is.
fn reach_of<'a>(
    scopes: &[Declared<'_, 'a>],
    tables: &[Ends<'a>],
    own: &[Option<Reached<'a>>],
    class: usize,
    bound: Option<&'a TypeText>,
) -> Result<Option<Reached<'a>>, AllocError>
    requires outside { AreToldOutside scopes.now tables.now }
    requires own { AreTold scopes.now own.now }
    ensures right { IfOk result (λ o. IfSome o (λ r. IsEndOf (Some r) class (option_copied bound.entry) scopes.now)) }
    ensures open { IfOk result (λ o. o ≡ None → LeadsOn scopes.now own.now (option_copied bound.entry)) }
{
    let Some(bound) = bound else {
        return Ok(Some(Reached {
            bounds: 0,
            dims: Some(0),
            class,
            parts: None,
        }));
    };
    let parts = bound.parts.as_slice();
    let Some(told) = next_of(scopes, tables, own, parts)? else {
        return Ok(Some(Reached {
            bounds: 1,
            dims: Some(bound.dims),
            class,
            parts: Some(parts),
        }));
    };
    let Some(next) = told else {
        return Ok(None);
    };
    let reached = further(&next, bound.dims)?;
    Ok(Some(reached))
}

/// Tells where the variable at a place of the first scope ends, as far as that can be told.
fn tell<'a>(
    scopes: &[Declared<'_, 'a>],
    tables: &[Ends<'a>],
    own: &mut Vec<Option<Reached<'a>>>,
    place: usize,
) -> Result<(), AllocError>
    requires some { 0 < length scopes.now }
    requires outside { AreToldOutside scopes.now tables.now }
    requires own { AreTold scopes.now own.old.items }
    ensures { OnOk result (AreTold scopes.now own.new.items) }
{
    let first = &scopes[0];
    let Some(var) = first.at(place) else {
        return Ok(());
    };
    let class = first.class();
    let bound = var.bound.as_ref();
    let Some(reached) = reach_of(scopes, tables, own.as_slice(), class, bound)? else {
        return Ok(());
    };
    if place >= own.len() {
        return Ok(());
    }
    own[place] = Some(reached);
    Ok(())
}

/// Whether more can be told of the variable at a place of the first scope.
fn is_open<'a>(
    scopes: &[Declared<'_, 'a>],
    tables: &[Ends<'a>],
    own: &[Option<Reached<'a>>],
    place: usize,
) -> Result<bool, AllocError>
    requires some { 0 < length scopes.now }
    requires outside { AreToldOutside scopes.now tables.now }
    requires own { AreTold scopes.now own.now }
    ensures { IfOk result (λ more. more ≡ false → (class : ℕ) (bound : Option TypeText) → StandsAt scopes.now 0 place class bound → slice_get own.now place ≡ Some None → LeadsOn scopes.now own.now bound) }
{
    let first = &scopes[0];
    let Some(var) = first.at(place) else {
        return Ok(false);
    };
    let told = told_at(own, place)?;
    if let Some(_known) = told {
        return Ok(false);
    }
    let class = first.class();
    let bound = var.bound.as_ref();
    let reached = reach_of(scopes, tables, own, class, bound)?;
    Ok(reached.is_some())
}

/// The first place of the first scope of whose variable more can be told.
fn open_place<'a>(
    scopes: &[Declared<'_, 'a>],
    tables: &[Ends<'a>],
    own: &[Option<Reached<'a>>],
) -> Result<Option<usize>, AllocError>
    requires some { 0 < length scopes.now }
    requires outside { AreToldOutside scopes.now tables.now }
    requires own { AreTold scopes.now own.now }
    ensures { IfOk result (λ place. place ≡ None → IsClosed scopes.now own.now (length own.now)) }
{
    for place in 0..own.len() {
        if is_open(scopes, tables, own, place)? {
            return Ok(Some(place));
        }
    }
    Ok(None)
}

/// Nothing told yet, of this many variables.
fn untold<'a>(alloc: Global, count: usize) -> Result<Vec<Option<Reached<'a>>>, AllocError>
    ensures { IfOk result (λ told. All (λ t. t ≡ None) told.items) }
{
    let mut told = Vec::new(alloc);
    for _variable in 0..count {
        told.push(None)?;
    }
    Ok(told)
}

/// Tells where variables of the first scope end, in this order.
fn tell_all<'a>(
    scopes: &[Declared<'_, 'a>],
    tables: &[Ends<'a>],
    own: &mut Vec<Option<Reached<'a>>>,
    order: &[usize],
) -> Result<(), AllocError>
    requires some { 0 < length scopes.now }
    requires outside { AreToldOutside scopes.now tables.now }
    requires own { AreTold scopes.now own.old.items }
    ensures { OnOk result (AreTold scopes.now own.new.items) }
{
    for i in 0..order.len() {
        tell(scopes, tables, own, order[i])?;
    }
    Ok(())
}

/// Tells all that is open, of which nothing is left where the order was a good one.
fn tell_open<'a>(
    scopes: &[Declared<'_, 'a>],
    tables: &[Ends<'a>],
    mut own: Vec<Option<Reached<'a>>>,
) -> Result<Ends<'a>, AllocError>
    requires some { 0 < length scopes.now }
    requires outside { AreToldOutside scopes.now tables.now }
    requires own { AreTold scopes.now own.items }
    ensures { IfOk result (λ ends. AreEnds scopes.now ends) }
{
    for _told in 0..u64::MAX {
        let Some(place) = open_place(scopes, tables, own.as_slice())? else {
            return Ok(Ends { reached: own });
        };
        tell(scopes, tables, &mut own, place)?;
    }
    Err(AllocError)
}

/// Where the variables of the first scope end; `tables` tell it of the variables of each class further out.
pub fn ends_in<'a>(
    alloc: Global,
    scopes: &[Declared<'_, 'a>],
    tables: &[Ends<'a>],
) -> Result<Ends<'a>, AllocError>
    requires { AreToldOutside scopes.now tables.now }
    ensures { IfOk result (λ ends. AreEnds scopes.now ends) }
{
    if scopes.is_empty() {
        return Ok(Ends {
            reached: Vec::new(alloc),
        });
    }
    let first = &scopes[0];
    let order = in_order(alloc, first)?;
    let mut own = untold(alloc, first.count())?;
    tell_all(scopes, tables, &mut own, order.as_slice())?;
    tell_open(scopes, tables, own)
}

/// An end with these dimensions; want of memory where they don't fit.
fn ended<'a>(
    dims: Option<u64>,
    class: usize,
    parts: Option<&'a [Text]>,
) -> Result<Ending<'a>, AllocError>
    ensures { IfOk result (λ end. (dims ≡ Some end.dims) × (end.class ≡ class) × (option_copied end.parts ≡ option_copied parts.entry)) }
{
    let Some(dims) = dims else {
        return Err(AllocError);
    };
    Ok(Ending { dims, class, parts })
}

/// Where a type ends through the bounds of its variables; `own` tells where those of the first scope end, `tables`
/// where those of each class further out do. Want of memory also where the variables or the dimensions are too many
/// to be counted.
pub fn end_of<'a>(
    scopes: &[Declared<'_, 'a>],
    tables: &[Ends<'a>],
    own: &Ends<'a>,
    class: usize,
    kind: &'a TypeText,
) -> Result<Ending<'a>, AllocError>
    requires outside { AreToldOutside scopes.now tables.now }
    requires own { AreEnds scopes.now own.now }
    ensures { IfOk result (λ end. end_at end.dims end.class (option_copied end.parts) ≡ end_of scopes.now class kind.now) }
{
    let Some(steps) = most_steps(scopes) else {
        return Err(AllocError);
    };
    let parts = kind.parts.as_slice();
    let Some(told) = next_of(scopes, tables, own.reached.as_slice(), parts)? else {
        return ended(Some(kind.dims), class, Some(parts));
    };
    let Some(way) = told else {
        return ended(Some(kind.dims), class, None);
    };
    if way.bounds >= steps {
        return ended(Some(kind.dims), class, None);
    }
    ended(more_dims(way.dims, kind.dims), way.class, way.parts)
}
