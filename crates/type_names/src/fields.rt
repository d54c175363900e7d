ghost use Rattle.std.specs.Prelude.{◌≡◌, ◌<◌, ◌≤◌, ◌+◌, List, ℕ, IfOk, IfSome, length, get_or, drop};
ghost use Rattle.std.specs.Option.{option_map};
ghost use Rattle.type_names.specs.Descriptors.{field, IsField};
ghost use Rattle.type_names.specs.Reading.{letter, letter_at, past, until, named, base_at, with_dims, field_at, ended, field_in};
ghost use Rattle.type_names.specs.declared.kinds.Erased.{Erased};

use crate::kinds::{Base, Erased};
use crate::names::is_internal_name;
use lists::Text;
use std::alloc::{AllocError, Global};

/// The base that one letter stands for.
fn letter(c: u8) -> Option<Base>
    ensures { result ≡ letter c }
{
    match c {
        b'B' => Some(Base::Byte),
        b'C' => Some(Base::Char),
        b'D' => Some(Base::Double),
        b'F' => Some(Base::Float),
        b'I' => Some(Base::Int),
        b'J' => Some(Base::Long),
        b'S' => Some(Base::Short),
        b'Z' => Some(Base::Boolean),
        _ => None,
    }
}

/// The text after its first character, which is one of ASCII.
fn after_first(text: &str) -> &str
    requires some { 0 < length text.now }
    requires ascii { get_or text.now 0 0 < 128 }
    ensures { result.now ≡ drop 1 text.now }
{
    &text[1..]
}

/// The base that the letter at the front stands for, and the text after it.
fn letter_at(text: &str) -> Option<(Base, &str)>
    ensures { option_map (λ x. (x.0, x.1.now)) result ≡ letter_at text.now }
{
    let [c, ..] = text.as_bytes() else {
        return None;
    };
    match letter(*c) {
        Some(base) => Some((base, after_first(text))),
        None => None,
    }
}

/// The text up to the first `;`, and the text after it.
fn until_semicolon(text: &str) -> Option<(&str, &str)>
    ensures { option_map (λ x. (x.0.now, x.1.now)) result ≡ until text.now }
{
    text.split_once(';')
}

/// The class whose name stands at the front, up to a `;`.
fn class_at(alloc: Global, text: &str) -> Result<Option<(Base, &str)>, AllocError>
    ensures { IfOk result (λ o. option_map (λ x. (x.0, x.1.now)) o ≡ named (until text.now)) }
{
    let Some((name, rest)) = until_semicolon(text) else {
        return Ok(None);
    };
    if !is_internal_name(name) {
        return Ok(None);
    }
    Ok(Some((Base::Class(Text::from_str(alloc, name)?), rest)))
}

/// The text after an `L` at the front.
fn after_l(text: &str) -> Option<&str>
    ensures { option_map (λ rest. rest.now) result ≡ past 76 text.now }
{
    text.strip_prefix('L')
}

/// The text after a `[` at the front.
fn after_bracket(text: &str) -> Option<&str>
    ensures { option_map (λ rest. rest.now) result ≡ past 91 text.now }
{
    text.strip_prefix('[')
}

/// The base at the front, and the text after it.
#[tactic(auto, unfolding(crate::specs::Reading::base_at))]
fn base_at(alloc: Global, text: &str) -> Result<Option<(Base, &str)>, AllocError>
    ensures { IfOk result (λ o. option_map (λ x. (x.0, x.1.now)) o ≡ base_at text.now) }
{
    match after_l(text) {
        Some(name) => class_at(alloc, name),
        None => Ok(letter_at(text)),
    }
}

/// How many `[` stand at the front, and the text after them.
fn dims_at(text: &str) -> (u64, &str)
    ensures { field_at 0 text.now ≡ with_dims result.0 (base_at result.1.now) }
{
    let mut dims = 0;
    let mut rest = text;
    loop {
        let Some(next) = after_bracket(rest) else {
            return (dims, rest);
        };
        dims += 1;
        rest = next;
    }
}

/// The field descriptor at the front, as its type, and the text after it.
pub fn field_at(alloc: Global, text: &str) -> Result<Option<(Erased, &str)>, AllocError>
    ensures { IfOk result (λ o. option_map (λ x. (x.0, x.1.now)) o ≡ field_at 0 text.now) }
{
    let (dims, rest) = dims_at(text);
    match base_at(alloc, rest) {
        Ok(Some((base, rest))) => Ok(Some((Erased { dims, base }, rest))),
        Ok(None) => Ok(None),
        Err(error) => Err(error),
    }
}

fn whole_field(alloc: Global, text: &str) -> Result<Option<Erased>, AllocError>
    ensures { IfOk result (λ o. o ≡ field_in text.now) }
{
    match field_at(alloc, text) {
        Ok(Some((kind, ""))) => Ok(Some(kind)),
        Ok(_) => Ok(None),
        Err(error) => Err(error),
    }
}

/// The type that a field descriptor names (JVMS 4.3.2), and None exactly where the whole text is no
/// field descriptor. The limit of 255 dimensions isn't tested.
pub fn read_field(alloc: Global, text: &str) -> Result<Option<Erased>, AllocError>
    ensures found { IfOk result (λ o. IfSome o (λ kind. IsField kind × (text.now ≡ field kind))) }
    ensures only { (kind : Erased) → IsField kind → text.now ≡ field kind → IfOk result (λ o. o ≡ Some kind) }
    ensures exact { IfOk result (λ o. o ≡ field_in text.now) }
{
    whole_field(alloc, text)
}
