ghost use Rattle.std.specs.Prelude.{◌≡◌, IfOk, bytes_eq};
ghost use Rattle.std.specs.List.{list_any};
ghost use Rattle.java_units.specs.Signs.{seen};
ghost use Rattle.java_bodies.specs.Wanted.{field_kind, local_kind, variable_kind, declared_kind, wanted};

use crate::names::Names;
use crate::site::Local;
use crate::statements::{Asking, asked_by, named, typed};
use crate::variables::usable;
use java_units::forms::{Lexeme, dims_len, first_text, same, tail, type_text};
use java_units::{SourceClass, SourceField, SourceMethod, TypeText};
use lists::{Copies, Text};
use std::alloc::{AllocError, Global};

/// The type of the first field of this name.
fn field_kind(
    alloc: Global,
    name: &str,
    fields: &[SourceField],
) -> Result<Option<TypeText>, AllocError>
    ensures { IfOk result (λ kind. kind ≡ field_kind name.now fields.now) }
{
    for i in 0..fields.len() {
        let field = &fields[i];
        if same(field.name.as_str(), name) {
            let kind = field.kind.copy(alloc)?;
            return Ok(Some(kind));
        }
    }
    Ok(None)
}

/// The type of the variable of this name, or else of the field.
fn local_kind(
    alloc: Global,
    name: &str,
    locals: &[Local],
    fields: &[SourceField],
) -> Result<Option<TypeText>, AllocError>
    ensures { IfOk result (λ kind. kind ≡ local_kind name.now locals.now fields.now) }
{
    for i in 0..locals.len() {
        let local = &locals[i];
        if same(local.name.as_str(), name) {
            let kind = local.kind.copy(alloc)?;
            return Ok(Some(kind));
        }
    }
    field_kind(alloc, name, fields)
}

/// Whether the name is hidden.
fn is_hidden(name: &str, hidden: &[Text]) -> bool
    ensures { result ≡ list_any (λ h. bytes_eq h name.now) hidden.now }
{
    for i in 0..hidden.len() {
        if same(hidden[i].as_str(), name) {
            return true;
        }
    }
    false
}

/// The type of the declaration, with the dimensions behind its name.
#[tactic(auto, unfolding(crate::specs::Wanted::declared_kind))]
fn declared_kind(alloc: Global, own: &[Lexeme<'_>]) -> Result<Option<TypeText>, AllocError>
    ensures { IfOk result (λ kind. kind ≡ declared_kind (seen own.now)) }
{
    let dims = dims_len(tail(named(own), 1)) / 2;
    let kind = type_text(alloc, dims as u64, typed(own))?;
    Ok(usable(kind))
}

/// The type of the variable of this name, unless it is hidden, or else of the field.
#[tactic(auto, unfolding(crate::specs::Wanted::variable_kind))]
fn variable_kind(
    alloc: Global,
    name: &str,
    names: &Names,
    fields: &[SourceField],
) -> Result<Option<TypeText>, AllocError>
    ensures { IfOk result (λ kind. kind ≡ variable_kind name.now names.now fields.now) }
{
    if is_hidden(name, names.hidden.as_slice()) {
        return Ok(None);
    }
    local_kind(alloc, name, names.locals.as_slice(), fields)
}

/// The result of a method.
fn result_kind(alloc: Global, method: &SourceMethod) -> Result<Option<TypeText>, AllocError>
    ensures { IfOk result (λ kind. kind ≡ method.now.result) }
{
    match &method.result {
        Some(kind) => {
            let copy = kind.copy(alloc)?;
            Ok(Some(copy))
        }
        None => Ok(None),
    }
}

/// The type that the hole's own statement asks for.
#[tactic(auto, unfolding(crate::specs::Wanted::wanted))]
pub fn wanted(
    alloc: Global,
    own: &[Lexeme<'_>],
    class: &SourceClass,
    method: &SourceMethod,
    names: &Names,
) -> Result<Option<TypeText>, AllocError>
    ensures { IfOk result (λ kind. kind ≡ wanted (seen own.now) class.now method.now names.now) }
{
    let fields = class.fields.as_slice();
    match asked_by(own) {
        Asking::Declaration => declared_kind(alloc, own),
        Asking::Return => result_kind(alloc, method),
        Asking::Variable => variable_kind(alloc, first_text(own), names, fields),
        Asking::Field => field_kind(alloc, first_text(tail(own, 2)), fields),
        Asking::Nothing => Ok(None),
    }
}
