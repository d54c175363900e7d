ghost use Rattle.std.specs.Prelude.{◌≡◌, ◌&&◌, not, IfOk, slice_get, Some, map};
ghost use Rattle.std.specs.List.{list_any, filter};
ghost use Rattle.offers.specs.declared.member.Kind.{Kind};
ghost use Rattle.offers.specs.Scenes.{of_class};
ghost use Rattle.offers.specs.Reach.{offered};
ghost use Rattle.offers.specs.Candidates.{same_outcome};
ghost use Rattle.offers.specs.Omissions.{is_instance, same_descriptor, overrides, left_of, after_two, after_three};
ghost use Rattle.offers.specs.Grouping.{AreGroups, at_place};
ghost use Rattle.offers.specs.Hashing.{call_hash};
ghost use Rattle.offers.specs.Kept.{AreOwned};
ghost use Rattle.offers.specs.Views.{scene};

use crate::candidates::same_kind;
use crate::crowds::OwnedMembers;
use crate::groups::Groups;
use crate::hashes::{call_groups, call_hash};
use crate::member::{Kind, Member};
use crate::repeats::{after_two, is_private, is_static, value};
use crate::types::{same_type, same_types};
use crate::view::View;
use known_classes::ClassSummary;
use lists::{Copies, Items};
use std::alloc::{AllocError, Global};
use type_names::Erased;

/// Whether a member is a method that isn't static.
pub(crate) fn is_instance(member: &Member) -> bool
    ensures { result ≡ is_instance member.now }
{
    same_kind(member.kind, Kind::Method) && !is_static(member)
}

/// Whether two outcomes are one type, or both none.
fn same_outcome(a: &Option<Erased>, b: &Option<Erased>) -> bool
    ensures { result ≡ same_outcome a.now b.now }
{
    match a {
        Some(kind) => match b {
            Some(other) => same_type(kind, other),
            None => false,
        },
        None => b.is_none(),
    }
}

/// Whether methods have one descriptor.
fn same_descriptor(alloc: Global, a: &Member, b: &Member) -> Result<bool, AllocError>
    ensures { IfOk result (λ same. same ≡ same_descriptor a.now b.now) }
{
    let left = value(alloc, a)?;
    let right = value(alloc, b)?;
    if !same_outcome(&left, &right) {
        return Ok(false);
    }
    Ok(same_types(a.params.as_slice(), b.params.as_slice()))
}

/// Whether the members at two places have one descriptor, the first in a strict subtype of the owner of the second.
fn is_same_below(
    alloc: Global,
    view: &View<'_>,
    members: &OwnedMembers<'_>,
    a: &Member,
    at: usize,
    b: &Member,
    place: usize,
) -> Result<bool, AllocError>
    requires owned { AreOwned view.now members.now }
    requires here { slice_get members.now.members at ≡ Some a.now }
    requires there { slice_get members.now.members place ≡ Some b.now }
    ensures { IfOk result (λ yes. yes ≡ (same_descriptor a.now b.now && (scene view.now).below (of_class a.now.owner) (of_class b.now.owner))) }
{
    if !members.is_owner_below(view, a, at, b, place) {
        return Ok(false);
    }
    let same = same_descriptor(alloc, a, b)?;
    Ok(same)
}

/// Whether the method at one place stands for the one at another, which is of its name and descriptor in a type above
/// its owner.
#[tactic(auto, unfolding(crate::specs::Omissions::overrides))]
fn overrides(
    alloc: Global,
    view: &View<'_>,
    members: &OwnedMembers<'_>,
    a: &Member,
    at: usize,
    b: &Member,
    place: usize,
) -> Result<bool, AllocError>
    requires owned { AreOwned view.now members.now }
    requires here { slice_get members.now.members at ≡ Some a.now }
    requires there { slice_get members.now.members place ≡ Some b.now }
    ensures { IfOk result (λ yes. yes ≡ overrides (scene view.now) a.now b.now) }
{
    if !is_instance(a) || !is_instance(b) || is_private(b) {
        return Ok(false);
    }
    if a.name.as_str() != b.name.as_str() {
        return Ok(false);
    }
    let over = is_same_below(alloc, view, members, a, at, b, place)?;
    Ok(over)
}

/// Whether a method stands for the one at a place.
fn is_over_at(
    alloc: Global,
    view: &View<'_>,
    members: &OwnedMembers<'_>,
    member: &Member,
    at: usize,
    place: usize,
) -> Result<bool, AllocError>
    requires owned { AreOwned view.now members.now }
    requires here { slice_get members.now.members at ≡ Some member.now }
    ensures { IfOk result (λ yes. yes ≡ at_place (overrides (scene view.now) member.now) members.now.members place) }
{
    match members.members().get(place) {
        Some(other) => overrides(alloc, view, members, member, at, other, place),
        None => Ok(false),
    }
}

/// Whether a method stands for one at these places.
fn is_over_any(
    alloc: Global,
    view: &View<'_>,
    members: &OwnedMembers<'_>,
    member: &Member,
    at: usize,
    places: &[usize],
) -> Result<bool, AllocError>
    requires owned { AreOwned view.now members.now }
    requires here { slice_get members.now.members at ≡ Some member.now }
    ensures { IfOk result (λ yes. yes ≡ list_any (at_place (overrides (scene view.now) member.now) members.now.members) places.now) }
{
    for place in places {
        let over = is_over_at(alloc, view, members, member, at, *place)?;
        if over {
            return Ok(true);
        }
    }
    Ok(false)
}

/// Whether the method at a place stands for one of these.
fn is_overriding(
    alloc: Global,
    view: &View<'_>,
    members: &OwnedMembers<'_>,
    groups: &Groups,
    member: &Member,
    at: usize,
) -> Result<bool, AllocError>
    requires owned { AreOwned view.now members.now }
    requires groups { AreGroups (map call_hash members.now.members) groups.now }
    requires here { slice_get members.now.members at ≡ Some member.now }
    ensures { IfOk result (λ yes. yes ≡ list_any (overrides (scene view.now) member.now) members.now.members) }
{
    if !is_instance(member) {
        return Ok(false);
    }
    let row = groups.row(call_hash(member));
    let over = is_over_any(alloc, view, members, member, at, row)?;
    Ok(over)
}

/// Copies of the members that stand for none of the others.
fn left_of(
    alloc: Global,
    view: &View<'_>,
    members: &OwnedMembers<'_>,
    groups: &Groups,
) -> Result<Items<Member>, AllocError>
    requires owned { AreOwned view.now members.now }
    requires groups { AreGroups (map call_hash members.now.members) groups.now }
    ensures { IfOk result (λ all. all ≡ left_of (scene view.now) members.now.members) }
{
    let mut all = Items::new(alloc);
    for (i, member) in members.members().iter().enumerate() {
        let over = is_overriding(alloc, view, members, groups, member, i)?;
        if !over {
            all.push(member.copy(alloc)?)?;
        }
    }
    Ok(all)
}

/// The candidates of the offered classes after the first three omissions.
#[tactic(auto, unfolding(crate::specs::Omissions::after_two, crate::specs::Omissions::after_three))]
pub fn after_three(
    alloc: Global,
    view: &View<'_>,
    classes: &[ClassSummary],
) -> Result<Items<Member>, AllocError>
    requires { classes.now ≡ offered (scene view.now) }
    ensures { IfOk result (λ all. all ≡ after_three (scene view.now)) }
{
    let all = after_two(alloc, view, classes)?;
    let members = OwnedMembers::new(alloc, view, all.as_slice())?;
    let groups = call_groups(alloc, all.as_slice())?;
    let left = left_of(alloc, view, &members, &groups)?;
    Ok(left)
}
