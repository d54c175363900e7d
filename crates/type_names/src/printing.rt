ghost use Rattle.std.specs.Prelude.{◌≡◌, ◌++◌, ◌∷◌, [], ◌<◌, ◌-◌, List, ℕ, IfOk, OnOk, replicate, Some};
ghost use Rattle.std.specs.List.{flat_map};
ghost use Rattle.type_names.specs.Descriptors.{base, field, IsField, outcome, method, IsMethod};
ghost use Rattle.type_names.specs.Reading.{field_in, method_in};

use crate::kinds::{Base, Erased, MethodKind};
use lists::{Items, Text};
use std::alloc::{AllocError, Global};

/// Adds a `[` for each dimension.
fn push_brackets(text: &mut Text, dims: u64) -> Result<(), AllocError>
    ensures { OnOk result (text.new ≡ text.old ++ replicate dims 91) }
{
    for _ in 0..dims {
        text.push_str("[")?;
    }
    Ok(())
}

/// Adds the spelling of a base at the end.
fn push_base(text: &mut Text, kind: &Base) -> Result<(), AllocError>
    ensures { OnOk result (text.new ≡ text.old ++ base kind.now) }
{
    let letter = match kind {
        Base::Byte => "B",
        Base::Char => "C",
        Base::Double => "D",
        Base::Float => "F",
        Base::Int => "I",
        Base::Long => "J",
        Base::Short => "S",
        Base::Boolean => "Z",
        Base::Class(name) => {
            text.push_str("L")?;
            text.push_str(name.as_str())?;
            ";"
        }
    };
    text.push_str(letter)
}

/// Adds the descriptor of a type at the end.
fn push_field(text: &mut Text, kind: &Erased) -> Result<(), AllocError>
    ensures { OnOk result (text.new ≡ text.old ++ field kind.now) }
{
    push_brackets(text, kind.dims)?;
    push_base(text, &kind.base)?;
    Ok(())
}

/// Adds the descriptors of types at the end, one after the other.
fn push_fields(text: &mut Text, kinds: &Items<Erased>) -> Result<(), AllocError>
    ensures { OnOk result (text.new ≡ text.old ++ flat_map field kinds.now) }
{
    for kind in kinds.as_slice() {
        push_field(text, kind)?;
    }
    Ok(())
}

/// Adds the descriptor of a result at the end.
fn push_outcome(text: &mut Text, kind: &Option<Erased>) -> Result<(), AllocError>
    ensures { OnOk result (text.new ≡ text.old ++ outcome kind.now) }
{
    match kind {
        Some(kind) => push_field(text, kind),
        None => text.push_str("V"),
    }
}

fn field_text(alloc: Global, kind: &Erased) -> Result<Text, AllocError>
    ensures { IfOk result (λ text. text ≡ field kind.now) }
{
    let mut text = Text::new(alloc);
    push_field(&mut text, kind)?;
    Ok(text)
}

/// The descriptor of a type: a `[` for each dimension, and then the letter of its base, or `L`, the name
/// and `;` of a class. Where that name is an internal name, it is the one text that `read_field` reads
/// as this type.
pub fn descriptor(alloc: Global, kind: &Erased) -> Result<Text, AllocError>
    ensures exact { IfOk result (λ text. text ≡ field kind.now) }
    ensures read_back { IsField kind.now → IfOk result (λ text. field_in text ≡ Some kind.now) }
    ensures only_one { (text : List ℕ) → field_in text ≡ Some kind.now → IfOk result (λ it. it ≡ text) }
{
    field_text(alloc, kind)
}

fn method_text(alloc: Global, kind: &MethodKind) -> Result<Text, AllocError>
    ensures { IfOk result (λ text. text ≡ method kind.now) }
{
    let mut text = Text::from_str(alloc, "(")?;
    push_fields(&mut text, &kind.params)?;
    text.push_str(")")?;
    push_outcome(&mut text, &kind.result)?;
    Ok(text)
}

/// The descriptor of a method: those of its parameters in brackets, and then that of its result, or `V`.
/// Where the names of classes are internal names, it is the one text that `read_method` reads as this.
pub fn method_descriptor(alloc: Global, kind: &MethodKind) -> Result<Text, AllocError>
    ensures exact { IfOk result (λ text. text ≡ method kind.now) }
    ensures read_back { IsMethod kind.now → IfOk result (λ text. method_in text ≡ Some kind.now) }
    ensures only_one { (text : List ℕ) → method_in text ≡ Some kind.now → IfOk result (λ it. it ≡ text) }
{
    method_text(alloc, kind)
}
