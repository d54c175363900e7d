ghost use Rattle.std.specs.Prelude.{◌≡◌, ◌||◌, not, is_some, [], fold, IfOk, OnOk};
ghost use Rattle.std.specs.List.{list_any, filter, flat_map};
ghost use Rattle.offers.specs.declared.member.Kind.{Kind};
ghost use Rattle.java_units.specs.Identifiers.{is_identifier};
ghost use Rattle.offers.specs.Candidates.{same_kind, is_static, is_private, value, candidates};
ghost use Rattle.offers.specs.Omissions.{is_kin, is_again, is_named, with_first, firsts};
ghost use Rattle.offers.specs.Grouping.{at_place};
ghost use Rattle.offers.specs.Hashing.{call_hash};
ghost use Rattle.offers.specs.Views.{scene};

use crate::candidates::{candidates, copy_type, same_kind};
use crate::groups::Groups;
use crate::hashes::call_hash;
use crate::member::{Kind, Member};
use crate::reach::{PRIVATE, STATIC, has_flag};
use crate::types::same_types;
use crate::view::{View, of_class};
use java_units::forms::is_identifier;
use known_classes::ClassSummary;
use lists::{Copies, Items};
use std::alloc::{AllocError, Global};
use std::marker::Model;
use type_names::Erased;

/// Whether a field or a method is static.
pub fn is_static(member: &Member) -> bool
    ensures { result ≡ is_static member.now }
{
    has_flag(member.flags, STATIC) && !same_kind(member.kind, Kind::Constructor)
}

/// Whether a member is private.
pub(crate) fn is_private(member: &Member) -> bool
    ensures { result ≡ is_private member.now }
{
    has_flag(member.flags, PRIVATE)
}

/// The type of what a member gives, none where it is a method without result.
pub fn value(alloc: Global, member: &Member) -> Result<Option<Erased>, AllocError>
    ensures { IfOk result (λ kind. kind ≡ value member.now) }
{
    match member.kind {
        Kind::Constructor => Ok(Some(of_class(alloc, &member.owner)?)),
        Kind::Field => copy_type(alloc, &member.result),
        Kind::Method => copy_type(alloc, &member.result),
    }
}

/// Whether a member is a method without result.
pub(crate) fn gives_nothing(member: &Member) -> bool
    ensures { result ≡ not (is_some (value member.now)) }
{
    match member.kind {
        Kind::Constructor => false,
        Kind::Field => member.result.is_none(),
        Kind::Method => member.result.is_none(),
    }
}

/// Whether a member is a constructor or its name an identifier.
fn is_named(member: &Member) -> bool
    ensures { result ≡ (same_kind member.now.kind Kind.Constructor || is_identifier member.now.name) }
{
    same_kind(member.kind, Kind::Constructor) || is_identifier(member.name.as_str())
}

/// Whether members are of one kind and name.
pub(crate) fn is_kin(a: &Member, b: &Member) -> bool
    ensures { result ≡ is_kin a.now b.now }
{
    same_kind(a.kind, b.kind) && a.name.as_str() == b.name.as_str()
}

/// Whether members are of one kind, name and parameter types.
fn is_again(a: &Member, b: &Member) -> bool
    ensures { result ≡ is_again a.now b.now }
{
    is_kin(a, b) && same_types(a.params.as_slice(), b.params.as_slice())
}

/// Those of these members that are constructors or whose names are identifiers.
fn named(view: &View<'_>, mut members: Vec<Member>) -> Vec<Member>
    ensures { result.items ≡ filter (is_named (scene view.now)) members.items }
{
    members.retain(|member| is_named(member));
    members
}

/// Members of which none is of another's kind, name and parameter types, in groups. Contracts see the members.
#[derive(Drop)]
struct FirstMembers {
    members: Items<Member>,
    groups: Groups,
}

impl Model for FirstMembers {
    ghost use Rattle.std.specs.Prelude.{◌≡◌, List, map};
    ghost use Rattle.offers.specs.declared.member.Member.{Member};
    ghost use Rattle.offers.specs.Grouping.{AreGroups};
    ghost use Rattle.offers.specs.Hashing.{call_hash};

    ghost Value = { List Member };

    ghost view = { λ f. f.members };

    ghost invariant = { λ f. AreGroups (map call_hash f.members) f.groups };
}

/// Whether there is a member at a place, of a member's kind, name and parameter types.
fn is_again_at(member: &Member, kept: &[Member], place: usize) -> bool
    ensures { result ≡ at_place (is_again member.now) kept.now place }
{
    match kept.get(place) {
        Some(other) => is_again(member, other),
        None => false,
    }
}

/// Whether there is one at these places.
fn is_again_in(member: &Member, kept: &[Member], places: &[usize]) -> bool
    ensures { result ≡ list_any (at_place (is_again member.now) kept.now) places.now }
{
    for place in places {
        if is_again_at(member, kept, *place) {
            return true;
        }
    }
    false
}

impl FirstMembers {
    /// No member, and groups for about so many.
    fn new(alloc: Global, count: usize) -> Result<FirstMembers, AllocError>
        ensures { IfOk result (λ kept. kept ≡ []) }
    {
        Ok(FirstMembers {
            members: Items::new(alloc),
            groups: Groups::new(alloc, count)?,
        })
    }

    /// Whether one of the members is of a member's kind, name and parameter types; `hash` is its call's.
    fn has(&self, member: &Member, hash: u64) -> bool
        requires { hash ≡ call_hash member.now }
        ensures { result ≡ list_any (is_again member.now) self.now }
    {
        is_again_in(member, self.members.as_slice(), self.groups.row(hash))
    }

    /// With a member more, unless one of its kind, name and parameter types is there.
    #[tactic(auto, unfolding(crate::specs::Omissions::with_first))]
    fn with(self, member: Member) -> Result<FirstMembers, AllocError>
        ensures { IfOk result (λ kept. kept ≡ with_first self member) }
    {
        let hash = call_hash(&member);
        if self.has(&member, hash) {
            return Ok(self);
        }
        let FirstMembers {
            mut members,
            groups,
        } = self;
        let groups = groups.with(hash, members.len())?;
        members.push(member)?;
        Ok(FirstMembers { members, groups })
    }
}

/// Of each kind, name and parameter types the first of these members.
fn firsts(alloc: Global, members: Vec<Member>) -> Result<Items<Member>, AllocError>
    ensures { IfOk result (λ all. all ≡ firsts members.items) }
{
    let mut kept = FirstMembers::new(alloc, members.len())?;
    for member in members {
        kept = kept.with(member)?;
    }
    let FirstMembers { members, groups: _ } = kept;
    Ok(members)
}

/// The candidates of a class after the first two omissions.
fn left_in(
    alloc: Global,
    view: &View<'_>,
    class: &ClassSummary,
) -> Result<Items<Member>, AllocError>
    ensures { IfOk result (λ all. all ≡ firsts (filter (is_named (scene view.now)) (candidates (scene view.now) class.now))) }
{
    let all = candidates(alloc, view, class)?;
    let named = named(view, all);
    let kept = firsts(alloc, named)?;
    Ok(kept)
}

/// The candidates of these classes after the first two omissions.
pub(crate) fn after_two(
    alloc: Global,
    view: &View<'_>,
    classes: &[ClassSummary],
) -> Result<Items<Member>, AllocError>
    ensures { IfOk result (λ all. all ≡ flat_map (λ c. firsts (filter (is_named (scene view.now)) (candidates (scene view.now) c))) classes.now) }
{
    let mut all = Items::new(alloc);
    for class in classes {
        all.append(left_in(alloc, view, class)?)?;
    }
    Ok(all)
}
