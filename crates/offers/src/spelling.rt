ghost use Rattle.std.specs.Prelude.{◌≡◌, ◌≤◌, length, drop, IfOk};
ghost use Rattle.std.specs.List.{list_all};
ghost use Rattle.java_units.specs.Identifiers.{is_identifier};
ghost use Rattle.offers.specs.Spellings.{spells, shortest, class_spelling, base_by, with_dims, spelling, type_text};
ghost use Rattle.offers.specs.Views.{scene};

use crate::texts::parts;
use crate::types::same_type;
use crate::view::{View, of_class};
use class_summary::joined;
use java_units::forms::is_identifier;
use lists::{Copies, Items, Text};
use std::alloc::{AllocError, Global};
use type_names::{Base, Erased};

/// Whether each of these texts is an identifier.
fn are_identifiers(parts: &[Text]) -> bool
    ensures { result ≡ list_all is_identifier parts.now }
{
    parts.iter().all(|p| is_identifier(p.as_str()))
}

/// Copies of texts.
fn copies(alloc: Global, texts: &[Text]) -> Result<Items<Text>, AllocError>
    ensures { IfOk result (λ all. all ≡ texts.now) }
{
    let mut all = Items::new(alloc);
    for text in texts {
        all.push(text.copy(alloc)?)?;
    }
    Ok(all)
}

/// Whether these parts are identifiers and denote the class.
#[tactic(auto, unfolding(crate::specs::Spellings::spells))]
fn spells(alloc: Global, view: &View<'_>, name: &Text, parts: &[Text]) -> Result<bool, AllocError>
    ensures { IfOk result (λ yes. yes ≡ spells (scene view.now) name.now parts.now) }
{
    if !are_identifiers(parts) {
        return Ok(false);
    }
    let shown = copies(alloc, parts)?;
    let kind = view.denoted_name(alloc, shown)?;
    let class = of_class(alloc, name)?;
    let same = same_type(&kind, &class);
    Ok(same)
}

/// The texts from a place on.
fn suffix(texts: &[Text], from: usize) -> &[Text]
    requires { from ≤ length texts.now }
    ensures { result.now ≡ drop from texts.now }
{
    &texts[from..]
}

/// The shortest suffix of the parts that does.
fn shortest(
    alloc: Global,
    view: &View<'_>,
    name: &Text,
    parts: &[Text],
) -> Result<Option<Text>, AllocError>
    ensures { IfOk result (λ text. text ≡ shortest (scene view.now) name.now parts.now) }
{
    let mut left = parts.len();
    while left > 0 {
        left -= 1;
        let rest = suffix(parts, left);
        if spells(alloc, view, name, rest)? {
            let text = joined(alloc, ".", rest)?;
            return Ok(Some(text));
        }
    }
    Ok(None)
}

/// The spelling of a class at the site.
#[tactic(auto, unfolding(crate::specs::Spellings::class_spelling))]
pub fn class_spelling(
    alloc: Global,
    view: &View<'_>,
    name: &Text,
) -> Result<Option<Text>, AllocError>
    ensures { IfOk result (λ text. text ≡ class_spelling (scene view.now) name.now) }
{
    let canonical = view.canonical(alloc, name)?;
    let parts = parts(alloc, canonical.as_str())?;
    let text = shortest(alloc, view, name, parts.as_slice())?;
    Ok(text)
}

/// The spelling of a type without its dimensions.
fn base_spelling(alloc: Global, view: &View<'_>, base: &Base) -> Result<Option<Text>, AllocError>
    ensures { IfOk result (λ text. text ≡ base_by (class_spelling (scene view.now)) base.now) }
{
    let word = match base {
        Base::Class(name) => {
            let text = class_spelling(alloc, view, name)?;
            return Ok(text);
        }
        Base::Byte => "byte",
        Base::Char => "char",
        Base::Double => "double",
        Base::Float => "float",
        Base::Int => "int",
        Base::Long => "long",
        Base::Short => "short",
        Base::Boolean => "boolean",
    };
    Ok(Some(Text::from_str(alloc, word)?))
}

/// A text with `[]` behind it for each dimension.
pub fn with_dims(mut text: Text, dims: u64) -> Result<Text, AllocError>
    ensures { IfOk result (λ whole. whole ≡ with_dims dims text) }
{
    for _n in 0..dims {
        text.push_str("[]")?;
    }
    Ok(text)
}

/// The spelling of a type at the site, where it has one.
#[tactic(auto, unfolding(crate::specs::Spellings::spelling))]
pub(crate) fn spelling(
    alloc: Global,
    view: &View<'_>,
    kind: &Erased,
) -> Result<Option<Text>, AllocError>
    ensures { IfOk result (λ text. text ≡ spelling (scene view.now) kind.now) }
{
    let Some(base) = base_spelling(alloc, view, &kind.base)? else {
        return Ok(None);
    };
    let text = with_dims(base, kind.dims)?;
    Ok(Some(text))
}
