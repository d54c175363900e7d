ghost use Rattle.std.specs.Prelude.{◌≡◌, ◌∷◌, [], codes, IfOk};
ghost use Rattle.std.specs.List.{list_any, list_all};
ghost use Rattle.type_names.specs.Descriptors.{outcome};
ghost use Rattle.type_names.specs.Names.{object_name};
ghost use Rattle.offers.specs.Scenes.{of_class};
ghost use Rattle.offers.specs.Functional.{has_call, is_body, of_base, is_bare, is_wait, is_of_object, is_same_call};

use crate::reach::{ABSTRACT, STATIC, has_flag};
use crate::types::same_types;
use crate::view::of_class;
use known_classes::MethodSummary;
use lists::{Items, Text};
use std::alloc::{AllocError, Global};
use type_names::{Base, Erased, OBJECT, descriptor};

/// Whether a method has this name and these parameter types.
fn has_call(name: &str, params: &[Erased], method: &MethodSummary) -> bool
    ensures { result ≡ has_call name.now params.now method.now }
{
    name == method.name.as_str() && same_types(params, method.params.as_slice())
}

/// Whether a method has a body for another.
fn is_body(method: &MethodSummary, other: &MethodSummary) -> bool
    ensures { result ≡ is_body method.now other.now }
{
    if has_flag(other.flags, ABSTRACT) || has_flag(other.flags, STATIC) {
        return false;
    }
    has_call(method.name.as_str(), method.params.as_slice(), other)
}

/// Whether one of these methods has a body for this one.
pub(crate) fn has_body(method: &MethodSummary, others: &[MethodSummary]) -> bool
    ensures { result ≡ list_any (is_body method.now) others.now }
{
    for other in others {
        if is_body(method, other) {
            return true;
        }
    }
    false
}

/// Whether a method is one of java/lang/Object's without parameters.
fn is_bare(method: &MethodSummary) -> bool
    ensures { result ≡ is_bare method.now }
{
    has_call("hashCode", &[], method)
        || has_call("toString", &[], method)
        || has_call("getClass", &[], method)
        || has_call("notify", &[], method)
        || has_call("notifyAll", &[], method)
        || has_call("wait", &[], method)
}

/// A type without dimensions.
pub fn of_base(base: Base) -> Erased
    ensures { result ≡ of_base base }
{
    Erased { dims: 0, base }
}

/// Whether a method is one of java/lang/Object's that wait for a time.
fn is_wait(alloc: Global, method: &MethodSummary) -> Result<bool, AllocError>
    ensures { IfOk result (λ yes. yes ≡ is_wait method.now) }
{
    let mut params = Items::new(alloc);
    params.push(of_base(Base::Long))?;
    let millis = has_call("wait", params.as_slice(), method);
    params.push(of_base(Base::Int))?;
    let nanos = has_call("wait", params.as_slice(), method);
    Ok(millis || nanos)
}

/// The parameter types of `equals` of java/lang/Object.
fn object_params(alloc: Global) -> Result<Items<Erased>, AllocError>
    ensures { IfOk result (λ all. all ≡ of_class object_name ∷ []) }
{
    let object = Text::from_str(alloc, OBJECT)?;
    let kind = of_class(alloc, &object)?;
    let mut params = Items::new(alloc);
    params.push(kind)?;
    Ok(params)
}

/// Whether a method is `equals` of java/lang/Object.
fn is_equals(alloc: Global, method: &MethodSummary) -> Result<bool, AllocError>
    ensures { IfOk result (λ yes. yes ≡ has_call (codes "equals") (of_class object_name ∷ []) method.now) }
{
    let params = object_params(alloc)?;
    Ok(has_call("equals", params.as_slice(), method))
}

/// Whether a method is one of java/lang/Object's.
#[tactic(auto, unfolding(crate::specs::Functional::is_of_object))]
pub(crate) fn is_of_object(alloc: Global, method: &MethodSummary) -> Result<bool, AllocError>
    ensures { IfOk result (λ yes. yes ≡ is_of_object method.now) }
{
    let equals = is_equals(alloc, method)?;
    let wait = is_wait(alloc, method)?;
    Ok(equals || is_bare(method) || wait)
}

/// The descriptor of a result, `V` where there is none.
fn outcome(alloc: Global, kind: &Option<Erased>) -> Result<Text, AllocError>
    ensures { IfOk result (λ text. text ≡ outcome kind.now) }
{
    match kind {
        Some(kind) => descriptor(alloc, kind),
        None => Text::from_str(alloc, "V"),
    }
}

/// Whether methods have one name and descriptor.
fn is_same_call(alloc: Global, a: &MethodSummary, b: &MethodSummary) -> Result<bool, AllocError>
    ensures { IfOk result (λ yes. yes ≡ is_same_call a.now b.now) }
{
    if !has_call(a.name.as_str(), a.params.as_slice(), b) {
        return Ok(false);
    }
    let left = outcome(alloc, &a.result)?;
    let right = outcome(alloc, &b.result)?;
    Ok(left.as_str() == right.as_str())
}

/// Whether all of these have the name and descriptor of a method.
pub(crate) fn are_same_calls(
    alloc: Global,
    method: &MethodSummary,
    others: &[MethodSummary],
) -> Result<bool, AllocError>
    ensures { IfOk result (λ yes. yes ≡ list_all (is_same_call method.now) others.now) }
{
    for other in others {
        let same = is_same_call(alloc, method, other)?;
        if !same {
            return Ok(false);
        }
    }
    Ok(true)
}
