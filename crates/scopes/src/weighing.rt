ghost use Rattle.std.specs.Prelude.{◌≡◌, ◌++◌, ◌∷◌, IfOk};
ghost use Rattle.offers.specs.Candidates.{descriptor_by, key};
ghost use Rattle.offers.specs.Views.{scene};
ghost use Rattle.type_names.specs.Descriptors.{outcome};
ghost use Rattle.scopes.specs.Declarations.{weight_of};

use lists::{Copies, Text, copy_all};
use offers::{Kind, Member, View, copy_type, is_in_package};
use std::alloc::{AllocError, Global};
use type_names::{Erased, MethodKind, descriptor, method_descriptor};

/// The descriptor of an outcome, `V` where there is none.
fn outcome_descriptor(alloc: Global, kind: &Option<Erased>) -> Result<Text, AllocError>
    ensures { IfOk result (λ text. text ≡ outcome kind.now) }
{
    match kind {
        Some(kind) => descriptor(alloc, kind),
        None => Text::from_str(alloc, "V"),
    }
}

/// The descriptor of a call.
fn call_descriptor(alloc: Global, member: &Member) -> Result<Text, AllocError>
    ensures { IfOk result (λ text. text ≡ descriptor_by Kind.Method member.now) }
{
    let kind = MethodKind {
        params: copy_all(alloc, &member.params)?,
        result: copy_type(alloc, &member.result)?,
    };
    let text = method_descriptor(alloc, &kind)?;
    Ok(text)
}

/// The descriptor of a member.
fn member_descriptor(alloc: Global, member: &Member) -> Result<Text, AllocError>
    ensures { IfOk result (λ text. text ≡ descriptor_by member.now.kind member.now) }
{
    match member.kind {
        Kind::Field => outcome_descriptor(alloc, &member.result),
        Kind::Method => call_descriptor(alloc, member),
        Kind::Constructor => call_descriptor(alloc, member),
    }
}

/// The key of a member's usage count.
fn key(alloc: Global, member: &Member) -> Result<Text, AllocError>
    ensures { IfOk result (λ text. text ≡ key member.now) }
{
    let descriptor = member_descriptor(alloc, member)?;
    let mut text = member.owner.copy(alloc)?;
    text.push_str(".")?;
    text.push_str(member.name.as_str())?;
    text.push_str(":")?;
    text.push_str(descriptor.as_str())?;
    Ok(text)
}

/// The weight of a member.
#[tactic(auto, unfolding(crate::specs::Declarations::weight_of))]
pub(crate) fn weight_of(alloc: Global, view: &View<'_>, member: &Member) -> Result<u32, AllocError>
    ensures { IfOk result (λ weight. weight ≡ weight_of (scene view.now) member.now) }
{
    if member.owner.as_str() == view.edited().as_str() {
        return Ok(view.weights().own);
    }
    if is_in_package(member.owner.as_str(), view.home().as_str()) {
        return Ok(view.weights().package);
    }
    let key = key(alloc, member)?;
    let count = u64::from(view.usage(key.as_str()));
    let more = u64::from(view.weights().span) / (1 + count);
    Ok(view.weights().far + more as u32)
}
