ghost use Rattle.std.specs.Prelude.{◌≡◌, ◌++◌, map, IfOk, OnOk, if◌then◌else◌, bytes_eq, codes};
ghost use Rattle.std.specs.List.{filter};
ghost use Rattle.offers.specs.declared.member.Kind.{Kind};
ghost use Rattle.offers.specs.Scenes.{edited, is_open};
ghost use Rattle.offers.specs.Candidates.{same_kind, field_of, method_of, is_static_in, is_made, gives, is_candidate, candidates};
ghost use Rattle.offers.specs.Views.{scene};

use crate::member::{Kind, Member};
use crate::reach::{ABSTRACT, INTERFACE, STATIC, has_flag, is_open};
use crate::view::View;
use known_classes::{ClassSummary, FieldSummary, MethodSummary, Nesting};
use lists::{Copies, Items, copy_all};
use std::alloc::{AllocError, Global};
use type_names::Erased;

/// Whether members are of one kind.
pub fn same_kind(a: Kind, b: Kind) -> bool
    ensures { result ≡ same_kind a b }
{
    match a {
        Kind::Field => matches!(b, Kind::Field),
        Kind::Method => matches!(b, Kind::Method),
        Kind::Constructor => matches!(b, Kind::Constructor),
    }
}

/// A copy of a type that may be missing.
pub fn copy_type(alloc: Global, kind: &Option<Erased>) -> Result<Option<Erased>, AllocError>
    ensures { IfOk result (λ copy. copy ≡ kind.now) }
{
    match kind {
        Some(kind) => Ok(Some(kind.copy(alloc)?)),
        None => Ok(None),
    }
}

/// The field of a class as a member.
fn field_of(alloc: Global, class: &ClassSummary, field: &FieldSummary) -> Result<Member, AllocError>
    ensures { IfOk result (λ member. member ≡ field_of class.now field.now) }
{
    Ok(Member {
        owner: class.name.copy(alloc)?,
        kind: Kind::Field,
        name: field.name.copy(alloc)?,
        flags: field.flags,
        params: Items::new(alloc),
        result: Some(field.kind.copy(alloc)?),
    })
}

/// Whether a method is a constructor.
fn method_kind(method: &MethodSummary) -> Kind
    ensures { result ≡ (if bytes_eq method.now.name (codes "<init>") then Kind.Constructor else Kind.Method) }
{
    if method.name.as_str() == "<init>" {
        Kind::Constructor
    } else {
        Kind::Method
    }
}

/// The method or constructor of a class as a member.
fn method_of(
    alloc: Global,
    class: &ClassSummary,
    method: &MethodSummary,
) -> Result<Member, AllocError>
    ensures { IfOk result (λ member. member ≡ method_of class.now method.now) }
{
    Ok(Member {
        owner: class.name.copy(alloc)?,
        kind: method_kind(method),
        name: method.name.copy(alloc)?,
        flags: method.flags,
        params: copy_all(alloc, &method.params)?,
        result: copy_type(alloc, &method.result)?,
    })
}

/// Whether a class stands in no other, or is static in it.
fn is_static_in(nesting: &Option<Nesting>) -> bool
    ensures { result ≡ is_static_in nesting.now }
{
    match nesting {
        Some(nesting) => has_flag(nesting.flags, STATIC),
        None => true,
    }
}

/// Whether `new` makes the class by its name alone.
fn is_made(class: &ClassSummary) -> bool
    ensures { result ≡ is_made class.now }
{
    !(has_flag(class.flags, ABSTRACT) || has_flag(class.flags, INTERFACE))
        && is_static_in(&class.nesting)
}

/// Whether a class gives a member: a constructor only where `new` makes the class.
fn gives(class: &ClassSummary, member: &Member) -> bool
    ensures { result ≡ gives class.now member.now member.now.kind }
{
    match member.kind {
        Kind::Field => true,
        Kind::Method => member.name.as_str() != "<clinit>",
        Kind::Constructor => is_made(class),
    }
}

/// Whether a member of a class is a candidate.
#[tactic(auto, unfolding(crate::specs::Candidates::is_candidate))]
fn is_candidate(view: &View<'_>, class: &ClassSummary, member: &Member) -> bool
    ensures { result ≡ is_candidate (scene view.now) class.now member.now }
{
    if !gives(class, member) {
        return false;
    }
    is_open(view, class.name.as_str(), member.flags)
        || class.name.as_str() == view.edited().as_str()
}

/// Adds the fields of a class.
fn add_fields(alloc: Global, class: &ClassSummary, all: &mut Vec<Member>) -> Result<(), AllocError>
    ensures { OnOk result (all.new.items ≡ all.old.items ++ map (field_of class.now) class.now.fields) }
{
    for field in class.fields.as_slice() {
        all.push(field_of(alloc, class, field)?)?;
    }
    Ok(())
}

/// Adds the methods and constructors of a class.
fn add_methods(alloc: Global, class: &ClassSummary, all: &mut Vec<Member>) -> Result<(), AllocError>
    ensures { OnOk result (all.new.items ≡ all.old.items ++ map (method_of class.now) class.now.methods) }
{
    for method in class.methods.as_slice() {
        all.push(method_of(alloc, class, method)?)?;
    }
    Ok(())
}

/// All members of a class: fields first, and then methods and constructors.
fn members(alloc: Global, class: &ClassSummary) -> Result<Vec<Member>, AllocError>
    ensures { IfOk result (λ all. all.items ≡ map (field_of class.now) class.now.fields ++ map (method_of class.now) class.now.methods) }
{
    let mut all = Vec::new(alloc);
    add_fields(alloc, class, &mut all)?;
    add_methods(alloc, class, &mut all)?;
    Ok(all)
}

/// Those of these members that are candidates.
fn usable(view: &View<'_>, class: &ClassSummary, mut members: Vec<Member>) -> Vec<Member>
    ensures { result.items ≡ filter (is_candidate (scene view.now) class.now) members.items }
{
    members.retain(|member| is_candidate(view, class, member));
    members
}

/// The candidates of a class.
#[tactic(auto, unfolding(crate::specs::Candidates::candidates))]
pub(crate) fn candidates(
    alloc: Global,
    view: &View<'_>,
    class: &ClassSummary,
) -> Result<Vec<Member>, AllocError>
    ensures { IfOk result (λ all. all.items ≡ candidates (scene view.now) class.now) }
{
    let all = members(alloc, class)?;
    Ok(usable(view, class, all))
}
