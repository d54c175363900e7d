ghost use Rattle.std.specs.Prelude.{◌≡◌, map, IfOk};
ghost use Rattle.java_units.specs.Signs.{seen};
ghost use Rattle.java_bodies.specs.Variables.{is_var, usable, of_param, of_field, declared};

use crate::statements::typed;
use java_units::forms::{Lexeme, fields_of, same, type_len};
use java_units::{Param, SourceField, TypeText};
use lists::{Copies, Items, Text};
use std::alloc::{AllocError, Global};

/// A variable in scope; its type, or none where it is hidden.
#[derive(Debug, Drop)]
pub struct Variable {
    pub name: Text,
    pub kind: Option<TypeText>,
}

/// Whether a type of these parts is `var`.
fn is_var(parts: &[Text]) -> bool
    ensures { result ≡ is_var parts.now }
{
    match parts {
        [part] => same("var", part.as_str()),
        _ => false,
    }
}

/// The type that a variable has for its users.
#[tactic(auto, unfolding(crate::specs::Variables::usable))]
pub fn usable(kind: TypeText) -> Option<TypeText>
    ensures { result ≡ usable kind }
{
    if is_var(kind.parts.as_slice()) {
        return None;
    }
    Some(kind)
}

/// The variable of a parameter.
#[tactic(auto, unfolding(crate::specs::Variables::of_param))]
pub fn of_param(alloc: Global, param: &Param) -> Result<Variable, AllocError>
    ensures { IfOk result (λ v. v ≡ of_param param.now) }
{
    let name = param.name.copy(alloc)?;
    let kind = param.kind.copy(alloc)?;
    Ok(Variable {
        name,
        kind: usable(kind),
    })
}

/// The variable that is declared as a field would be.
#[tactic(auto, unfolding(crate::specs::Variables::of_field))]
fn of_field(alloc: Global, field: &SourceField) -> Result<Variable, AllocError>
    ensures { IfOk result (λ v. v ≡ of_field field.now) }
{
    let name = field.name.copy(alloc)?;
    let kind = field.kind.copy(alloc)?;
    Ok(Variable {
        name,
        kind: usable(kind),
    })
}

/// The variables of these.
fn of_fields(alloc: Global, fields: &[SourceField]) -> Result<Items<Variable>, AllocError>
    ensures { IfOk result (λ all. all ≡ map of_field fields.now) }
{
    let mut all = Items::new(alloc);
    for field in fields {
        all.push(of_field(alloc, field)?)?;
    }
    Ok(all)
}

/// The variables that a statement declares.
#[tactic(auto, unfolding(crate::specs::Variables::declared))]
pub fn declared(alloc: Global, lexemes: &[Lexeme<'_>]) -> Result<Items<Variable>, AllocError>
    ensures { IfOk result (λ all. all ≡ declared (seen lexemes.now)) }
{
    let typed = typed(lexemes);
    if type_len(typed) == 0 {
        return Ok(Items::new(alloc));
    }
    let fields = fields_of(alloc, 0, typed)?;
    of_fields(alloc, fields.as_slice())
}
