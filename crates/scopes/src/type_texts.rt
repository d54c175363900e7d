ghost use Rattle.std.specs.Prelude.{◌≡◌, ◌∷◌, [], codes, map, unwrap_or, if◌then◌else◌, Some, IfOk};
ghost use Rattle.known_classes.specs.Known.{canonical};
ghost use Rattle.offers.specs.Spellings.{class_spelling, base_by, type_text};
ghost use Rattle.offers.specs.Views.{scene};
ghost use Rattle.scopes.specs.Kinds.{listed, kind_text};
ghost use Rattle.scopes.specs.Texts.{class_text};

use crate::numbers::Numbers;
use lists::{Items, Text};
use offers::{Spellings, with_dims};
use std::alloc::{AllocError, Global};
use type_names::{Base, Erased};

/// The spelling of a class, or its canonical name where it has none.
fn class_text(alloc: Global, spellings: &Spellings<'_>, name: &Text) -> Result<Text, AllocError>
    ensures { IfOk result (λ text. text ≡ class_text (scene spellings.now) name.now) }
{
    match spellings.of(alloc, name)? {
        Some(text) => Ok(text),
        None => spellings.view().canonical(alloc, name),
    }
}

/// The text of a type without its dimensions.
fn base_text(alloc: Global, spellings: &Spellings<'_>, base: &Base) -> Result<Text, AllocError>
    ensures { IfOk result (λ text. Some text ≡ base_by (λ name. Some (class_text (scene spellings.now) name)) base.now) }
{
    let word = match base {
        Base::Class(name) => {
            return class_text(alloc, spellings, name);
        }
        Base::Byte => "byte",
        Base::Char => "char",
        Base::Double => "double",
        Base::Float => "float",
        Base::Int => "int",
        Base::Long => "long",
        Base::Short => "short",
        Base::Boolean => "boolean",
    };
    Text::from_str(alloc, word)
}

/// The text of a type.
#[tactic(auto, unfolding(offers::specs::Spellings::type_text))]
fn type_text(alloc: Global, spellings: &Spellings<'_>, kind: &Erased) -> Result<Text, AllocError>
    ensures { IfOk result (λ text. text ≡ type_text (scene spellings.now) kind.now) }
{
    let text = base_text(alloc, spellings, &kind.base)?;
    let text = with_dims(text, kind.dims)?;
    Ok(text)
}

/// The texts of types of values.
fn type_texts(
    alloc: Global,
    spellings: &Spellings<'_>,
    kinds: &[Erased],
) -> Result<Items<Text>, AllocError>
    ensures { IfOk result (λ all. all ≡ map (type_text (scene spellings.now)) kinds.now) }
{
    let mut all = Items::new(alloc);
    for kind in kinds {
        all.push(type_text(alloc, spellings, kind)?)?;
    }
    Ok(all)
}

/// The text of a type without a value, if there is one.
fn void_texts(alloc: Global, void: bool) -> Result<Items<Text>, AllocError>
    ensures { IfOk result (λ all. all ≡ (if void then codes "void" ∷ [] else [])) }
{
    let mut all = Items::new(alloc);
    if void {
        all.push(Text::from_str(alloc, "void")?)?;
    }
    Ok(all)
}

/// The texts of all types of an environment.
pub(crate) fn kind_texts(
    alloc: Global,
    spellings: &Spellings<'_>,
    numbers: &Numbers<'_>,
) -> Result<Items<Text>, AllocError>
    ensures { IfOk result (λ all. all ≡ map (kind_text (scene spellings.now)) (listed numbers.now)) }
{
    let types = numbers.types();
    let place = numbers.place();
    let mut all = type_texts(alloc, spellings, &types[..place])?;
    all.append(void_texts(alloc, numbers.has_void())?)?;
    all.append(type_texts(alloc, spellings, &types[place..])?)?;
    Ok(all)
}
