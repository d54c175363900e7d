ghost use Rattle.std.specs.Prelude.{◌≡◌, true, slice_get, Some, IfOk, IfSome, OnOk};
ghost use Rattle.std.specs.List.{list_any};
ghost use Rattle.offers.specs.Scenes.{of_class};
ghost use Rattle.offers.specs.Omissions.{is_other, is_crowded};
ghost use Rattle.offers.specs.Grouping.{at_place};
ghost use Rattle.offers.specs.Placing.{IsPlaced};
ghost use Rattle.offers.specs.Rivals.{is_rival, has_under, is_met, types_under};
ghost use Rattle.offers.specs.Kept.{IsKeptIn, AreOwners, AreOwned, IsKept, IsCrowding};
ghost use Rattle.offers.specs.Views.{scene};

use crate::groups::Groups;
use crate::hashes::{count_groups, count_hash};
use crate::member::Member;
use crate::member_list::MemberList;
use crate::placed::Placed;
use crate::repeats::{is_kin, is_private};
use crate::types::same_types;
use crate::view::{View, of_class};
use lists::{Copies, Items, Text};
use std::alloc::{AllocError, Global};
use type_names::{Base, Erased};

/// Whether members differ in their owners or their parameter types.
fn is_other(a: &Member, b: &Member) -> bool
    ensures { result ≡ is_other a.now b.now }
{
    !(a.owner.as_str() == b.owner.as_str() && same_types(a.params.as_slice(), b.params.as_slice()))
}

/// Whether a member is another of one kind, name and number of parameters.
fn is_rival(a: &Member, b: &Member) -> bool
    ensures { result ≡ is_rival a.now b.now }
{
    is_kin(a, b) && a.params.len() == b.params.len() && is_other(a, b)
}

/// Whether a type is the class of this name. Only that a yes is right is said: on a no hangs time alone.
fn is_of_class(kind: &Erased, name: &Text) -> bool
    ensures { result ≡ true → kind.now ≡ of_class name.now }
{
    match &kind.base {
        Base::Class(other) => kind.dims == 0 && other.as_str() == name.as_str(),
        _ => false,
    }
}

/// The place of the last of these types, if it is the class of this name.
fn last_place(kinds: &[Erased], name: &Text) -> Option<usize>
    ensures { IfSome result (λ at. slice_get kinds.now at ≡ Some (of_class name.now)) }
{
    if kinds.is_empty() {
        return None;
    }
    let at = kinds.len() - 1;
    if is_of_class(&kinds[at], name) {
        return Some(at);
    }
    None
}

/// The place of the class of this name, which is added unless it is the last one.
fn place_for(alloc: Global, kinds: &mut Items<Erased>, name: &Text) -> Result<usize, AllocError>
    ensures here { IfOk result (λ at. slice_get kinds.new at ≡ Some (of_class name.now)) }
    ensures kept { OnOk result (IsKeptIn kinds.old kinds.new) }
{
    if let Some(at) = last_place(kinds.as_slice(), name) {
        return Ok(at);
    }
    let at = kinds.len();
    kinds.push(of_class(alloc, name)?)?;
    Ok(at)
}

/// The types of owners, and for each member the place of its owner's.
#[derive(Drop)]
struct Owners {
    kinds: Items<Erased>,
    at: Vec<usize>,
}

/// The types of the owners of members, one for all members of an owner that stand beside each other.
fn owners_of(alloc: Global, members: &[Member]) -> Result<Owners, AllocError>
    ensures { IfOk result (λ all. AreOwners members.now all.kinds all.at.items) }
{
    let mut kinds = Items::new(alloc);
    let mut at = Vec::new(alloc);
    for member in members {
        at.push(place_for(alloc, &mut kinds, &member.owner)?)?;
    }
    Ok(Owners { kinds, at })
}

/// Members with the types of their owners.
#[derive(Drop)]
pub(crate) struct OwnedMembers<'a> {
    members: MemberList<'a>,
    owners: Placed,
    /// For each member the place of its owner's type.
    at: Vec<usize>,
}

impl<'a> OwnedMembers<'a> {
    /// These members with their owners.
    pub fn new(
        alloc: Global,
        view: &View<'_>,
        members: &'a [Member],
    ) -> Result<OwnedMembers<'a>, AllocError>
        ensures members { IfOk result (λ all. all.members ≡ members.now) }
        ensures owned { IfOk result (λ all. AreOwned view.now all) }
    {
        let Owners { kinds, at } = owners_of(alloc, members)?;
        let owners = Placed::new(alloc, view, kinds)?;
        let members = MemberList::new(members);
        Ok(OwnedMembers {
            members,
            owners,
            at,
        })
    }

    /// The members.
    pub fn members(&self) -> &'a [Member]
        ensures { result.now ≡ self.now.members }
    {
        self.members.members()
    }

    /// Whether the owner of the member at one place is a strict subtype of that of the one at another.
    pub fn is_owner_below(
        &self,
        view: &View<'_>,
        member: &Member,
        at: usize,
        other: &Member,
        place: usize,
    ) -> bool
        requires owned { AreOwned view.now self.now }
        requires here { slice_get self.now.members at ≡ Some member.now }
        requires there { slice_get self.now.members place ≡ Some other.now }
        ensures { result ≡ (scene view.now).below (of_class member.now.owner) (of_class other.now.owner) }
    {
        self.owners.is_below(view, self.at[at], self.at[place])
    }

    /// Whether one of these types is at or below the owner of the member at a place.
    fn is_owner_met(&self, view: &View<'_>, under: &Placed, other: &Member, place: usize) -> bool
        requires owned { AreOwned view.now self.now }
        requires under { IsPlaced view.now under.now }
        requires there { slice_get self.now.members place ≡ Some other.now }
        ensures { result ≡ has_under (scene view.now) under.now.types (of_class other.now.owner) }
    {
        under.meets(view, &self.owners, self.at[place])
    }

    /// Whether the member at a place is a rival of a member, with one of these types at or below its owner.
    fn is_met_by(
        &self,
        view: &View<'_>,
        under: &Placed,
        member: &Member,
        other: &Member,
        place: usize,
    ) -> bool
        requires owned { AreOwned view.now self.now }
        requires under { IsPlaced view.now under.now }
        requires there { slice_get self.now.members place ≡ Some other.now }
        ensures { result ≡ is_met (scene view.now) under.now.types member.now other.now }
    {
        // The owners are compared by numbers, so they are asked first.
        self.is_owner_met(view, under, other, place) && is_rival(member, other)
    }

    /// Whether there is a member at a place that is.
    fn is_met_at(&self, view: &View<'_>, under: &Placed, member: &Member, place: usize) -> bool
        requires owned { AreOwned view.now self.now }
        requires under { IsPlaced view.now under.now }
        ensures { result ≡ at_place (is_met (scene view.now) under.now.types member.now) self.now.members place }
    {
        match self.members.members().get(place) {
            Some(other) => self.is_met_by(view, under, member, other, place),
            None => false,
        }
    }

    /// Whether the member at one of these places is.
    fn is_met_in(&self, view: &View<'_>, under: &Placed, member: &Member, places: &[usize]) -> bool
        requires owned { AreOwned view.now self.now }
        requires under { IsPlaced view.now under.now }
        ensures { result ≡ list_any (at_place (is_met (scene view.now) under.now.types member.now) self.now.members) places.now }
    {
        for place in places {
            if self.is_met_at(view, under, member, *place) {
                return true;
            }
        }
        false
    }
}

/// An owner of members, and the types of an environment that are at or below it, kept for all of its members.
#[derive(Drop)]
pub(crate) struct BelowOwner {
    owner: Text,
    types: Placed,
}

/// Those of these types that are at or below an owner.
fn types_below(
    alloc: Global,
    view: &View<'_>,
    types: &Placed,
    owner: &Text,
) -> Result<Placed, AllocError>
    requires { IsPlaced view.now types.now }
    ensures types { IfOk result (λ all. all.types ≡ types_under (scene view.now) types.now.types (of_class owner.now)) }
    ensures placed { IfOk result (IsPlaced view.now) }
{
    let high = of_class(alloc, owner)?;
    types.under(alloc, view, &high)
}

impl BelowOwner {
    /// Those of these types that are at or below an owner.
    pub fn new(
        alloc: Global,
        view: &View<'_>,
        types: &Placed,
        owner: &Text,
    ) -> Result<BelowOwner, AllocError>
        requires { IsPlaced view.now types.now }
        ensures owner { IfOk result (λ below. below.owner ≡ owner.now) }
        ensures kept { IfOk result (IsKept view.now types.now.types) }
    {
        let types = types_below(alloc, view, types, owner)?;
        Ok(BelowOwner {
            owner: owner.copy(alloc)?,
            types,
        })
    }
}

/// Members, and the types of an environment, among which members are crowded or not.
#[derive(Drop)]
pub struct Crowding<'a> {
    types: Placed,
    members: OwnedMembers<'a>,
    groups: Groups,
    below: BelowOwner,
}

impl<'a> Crowding<'a> {
    /// These types and members.
    pub fn new(
        alloc: Global,
        view: &View<'_>,
        types: &[Erased],
        members: &'a [Member],
    ) -> Result<Crowding<'a>, AllocError>
        ensures types { IfOk result (λ all. all.types.types ≡ types.now) }
        ensures members { IfOk result (λ all. all.members.members ≡ members.now) }
        ensures kept { IfOk result (IsCrowding view.now) }
    {
        let types = Placed::of(alloc, view, types)?;
        let groups = count_groups(alloc, members)?;
        let members = OwnedMembers::new(alloc, view, members)?;
        let below = BelowOwner::new(alloc, view, &types, view.edited())?;
        Ok(Crowding {
            types,
            members,
            groups,
            below,
        })
    }

    /// Goes on to the types at or below an owner.
    fn turn(&mut self, alloc: Global, view: &View<'_>, owner: &Text) -> Result<(), AllocError>
        requires { IsCrowding view.now self.old }
        ensures owner { OnOk result (self.new.below.owner ≡ owner.now) }
        ensures types { self.new.types ≡ self.old.types }
        ensures members { self.new.members ≡ self.old.members }
        ensures kept { OnOk result (IsCrowding view.now self.new) }
    {
        if self.below.owner.as_str() != owner.as_str() {
            self.below = BelowOwner::new(alloc, view, &self.types, owner)?;
        }
        Ok(())
    }

    /// Whether one of the members is a rival of a member, with one of the kept types at or below its owner.
    fn is_met(&self, view: &View<'_>, member: &Member) -> bool
        requires { IsCrowding view.now self.now }
        ensures { result ≡ list_any (is_met (scene view.now) self.now.below.types.types member.now) self.now.members.members }
    {
        let row = self.groups.row(count_hash(member));
        self.members.is_met_in(view, &self.below.types, member, row)
    }

    /// Whether a member is crowded among the members and types. The types at or below its owner are kept for the next
    /// one.
    #[tactic(auto, unfolding(crate::specs::Omissions::is_crowded))]
    pub fn is_crowded(
        &mut self,
        alloc: Global,
        view: &View<'_>,
        member: &Member,
    ) -> Result<bool, AllocError>
        requires { IsCrowding view.now self.old }
        ensures exact { IfOk result (λ yes. yes ≡ is_crowded (scene view.now) self.old.types.types self.old.members.members member.now) }
        ensures types { self.new.types ≡ self.old.types }
        ensures members { self.new.members ≡ self.old.members }
        ensures kept { OnOk result (IsCrowding view.now self.new) }
    {
        if is_private(member) {
            return Ok(true);
        }
        self.turn(alloc, view, &member.owner)?;
        let met = self.is_met(view, member);
        Ok(met)
    }
}
