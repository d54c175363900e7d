ghost use Rattle.std.specs.Prelude.{◌≡◌, ◌++◌, ◌∷◌, List, ℕ, IfOk, IfSome, Some};
ghost use Rattle.std.specs.List.{flat_map, AllByRecursion};
ghost use Rattle.std.specs.Option.{option_map};
ghost use Rattle.type_names.specs.Descriptors.{field, IsField, method, IsMethod};
ghost use Rattle.type_names.specs.Reading.{past, up_to, is_void, result_in, method_in};
ghost use Rattle.type_names.specs.declared.kinds.Erased.{Erased};
ghost use Rattle.type_names.specs.declared.kinds.MethodKind.{MethodKind};

use crate::fields::{field_at, read_field};
use crate::kinds::{Erased, MethodKind};
use lists::Items;
use std::alloc::{AllocError, Global};

/// The text after a `)` at the front.
fn closed(text: &str) -> Option<&str>
    ensures { option_map (λ rest. rest.now) result ≡ past 41 text.now }
{
    text.strip_prefix(')')
}

/// The text after a `(` at the front.
fn opened(text: &str) -> Option<&str>
    ensures { option_map (λ rest. rest.now) result ≡ past 40 text.now }
{
    text.strip_prefix('(')
}

/// The parameters up to a `)`, and the text after it.
fn params_at(alloc: Global, text: &str) -> Result<Option<(Items<Erased>, &str)>, AllocError>
    ensures found { IfOk result (λ o. IfSome o (λ x. AllByRecursion IsField x.0 × (text.now ≡ flat_map field x.0 ++ (41 ∷ x.1.now)))) }
    ensures only { (kinds : List Erased) (tail : List ℕ) → AllByRecursion IsField kinds → text.now ≡ flat_map field kinds ++ (41 ∷ tail) → IfOk result (λ o. option_map (λ x. (x.0, x.1.now)) o ≡ Some (up_to kinds tail)) }
{
    let mut params = Items::new(alloc);
    let mut rest = text;
    loop {
        if let Some(after) = closed(rest) {
            return Ok(Some((params, after)));
        }
        match field_at(alloc, rest) {
            Ok(Some((kind, next))) => {
                params.push(kind)?;
                rest = next;
            }
            Ok(None) => return Ok(None),
            Err(error) => return Err(error),
        }
    }
}

fn is_void(text: &str) -> bool
    ensures { result ≡ is_void text.now }
{
    matches!(text.as_bytes(), [b'V'])
}

/// What stands after the parameters: `V`, or the type of the result.
fn result_in(alloc: Global, text: &str) -> Result<Option<Option<Erased>>, AllocError>
    ensures { IfOk result (λ o. o ≡ result_in text.now) }
{
    if is_void(text) {
        return Ok(Some(None));
    }
    match read_field(alloc, text)? {
        Some(kind) => Ok(Some(Some(kind))),
        None => Ok(None),
    }
}

fn whole_method(alloc: Global, text: &str) -> Result<Option<MethodKind>, AllocError>
    ensures { IfOk result (λ o. o ≡ method_in text.now) }
{
    let Some(inner) = opened(text) else {
        return Ok(None);
    };
    let (params, rest) = match params_at(alloc, inner) {
        Ok(Some((params, rest))) => (params, rest),
        Ok(None) => return Ok(None),
        Err(error) => return Err(error),
    };
    match result_in(alloc, rest)? {
        Some(result) => Ok(Some(MethodKind { params, result })),
        None => Ok(None),
    }
}

/// The types that a method descriptor names (JVMS 4.3.3), and None exactly where the whole text is no
/// method descriptor. The limit of 255 parameters isn't tested.
pub fn read_method(alloc: Global, text: &str) -> Result<Option<MethodKind>, AllocError>
    ensures found { IfOk result (λ o. IfSome o (λ kind. IsMethod kind × (text.now ≡ method kind))) }
    ensures only { (kind : MethodKind) → IsMethod kind → text.now ≡ method kind → IfOk result (λ o. o ≡ Some kind) }
    ensures exact { IfOk result (λ o. o ≡ method_in text.now) }
{
    whole_method(alloc, text)
}
