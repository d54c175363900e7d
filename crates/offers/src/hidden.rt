ghost use Rattle.std.specs.Prelude.{◌≡◌, ◌≤◌, ◌++◌, ◌||◌, ℕ, List, bytes_eq, map, take, length, not, get_or, [], if◌then◌else◌, codes, IfOk, OnOk};
ghost use Rattle.std.specs.List.{list_any, filter, flat_map, range_with_len};
ghost use Rattle.class_summary.specs.Sources.{joined, around, internal_name};
ghost use Rattle.known_classes.specs.Known.{class_named};
ghost use Rattle.offers.specs.Scenes.{is_among};
ghost use Rattle.offers.specs.Spellings.{parts};
ghost use Rattle.offers.specs.Omissions.{is_static_field, field_text, field_texts, prefixes, scope_names, field_names, names_around, names_above, taken_names, is_hidden, shown_of, after_five};
ghost use Rattle.offers.specs.Views.{scene};

use crate::candidates::same_kind;
use crate::member::{Kind, Member};
use crate::repeats::is_static;
use crate::spellings::Spellings;
use crate::texts::parts;
use crate::written::{after_four, owner_text, static_text};
use class_summary::joined;
use lists::{Copies, Items, Text};
use name_places::Names;
use std::alloc::{AllocError, Global};
use type_names::Erased;

/// Whether a member is a static field.
fn is_static_field(member: &Member) -> bool
    ensures { result ≡ is_static_field member.now }
{
    same_kind(member.kind, Kind::Field) && is_static(member)
}

/// Adds the text of a member that is a static field.
fn add_field_text(
    alloc: Global,
    spellings: &Spellings<'_>,
    member: &Member,
    all: &mut Items<Text>,
) -> Result<(), AllocError>
    ensures { OnOk result (all.new ≡ all.old ++ field_text (scene spellings.now) member.now) }
{
    if is_static_field(member) {
        all.push(static_text(alloc, spellings, member)?)?;
    }
    Ok(())
}

/// The texts of the static fields among these members.
fn field_texts(
    alloc: Global,
    spellings: &Spellings<'_>,
    members: &[Member],
) -> Result<Items<Text>, AllocError>
    ensures { IfOk result (λ all. all ≡ field_texts (scene spellings.now) members.now) }
{
    let mut all = Items::new(alloc);
    for member in members {
        add_field_text(alloc, spellings, member, &mut all)?;
    }
    Ok(all)
}

/// The first n parts, with dots between them.
fn prefix(alloc: Global, parts: &[Text], n: usize) -> Result<Text, AllocError>
    requires { n ≤ length parts.now }
    ensures { IfOk result (λ text. text ≡ joined (codes ".") (take n parts.now)) }
{
    let text = joined(alloc, ".", &parts[..n])?;
    Ok(text)
}

/// A text, whole and cut before each of its dots.
fn prefixes(alloc: Global, text: &Text) -> Result<Items<Text>, AllocError>
    ensures { IfOk result (λ all. all ≡ prefixes text.now) }
{
    let parts = parts(alloc, text.as_str())?;
    let mut all = Items::new(alloc);
    for i in 0..parts.len() {
        all.push(prefix(alloc, parts.as_slice(), i + 1)?)?;
    }
    Ok(all)
}

/// Whether a text is one of these names, by its hash.
fn is_name(names: &Names, text: &str) -> bool
    ensures { result ≡ is_among names.now text.now }
{
    names.place(text).is_some()
}

/// Whether one of these texts is one of the names.
fn is_any_name(texts: &[Text], names: &Names) -> bool
    ensures { result ≡ list_any (is_among names.now) texts.now }
{
    texts.iter().any(|t| is_name(names, t.as_str()))
}

/// Adds a name, if it isn't there.
fn add_name(alloc: Global, names: &mut Names, name: &Text) -> Result<(), AllocError>
    ensures { OnOk result ((text : List ℕ) → is_among names.new text ≡ (is_among names.old text || bytes_eq name.now text)) }
{
    if is_name(names, name.as_str()) {
        return Ok(());
    }
    if names.len() > u32::MAX as usize {
        return Err(AllocError);
    }
    names.push(alloc, name.as_str())
}

/// These texts, to be looked up by their hashes.
fn names_of(alloc: Global, texts: &[Text]) -> Result<Names, AllocError>
    ensures { IfOk result (λ names. (text : List ℕ) → is_among names text ≡ is_among texts.now text) }
{
    let mut names = Names::new(alloc);
    for text in texts {
        add_name(alloc, &mut names, text)?;
    }
    Ok(names)
}

/// The first of these texts, the empty one where there is none.
fn first_of(texts: &[Text]) -> &str
    ensures { result.now ≡ get_or texts.now 0 [] }
{
    match texts {
        [] => "",
        [first, ..] => first.as_str(),
    }
}

/// Whether a variable, a field or one of these static fields takes the text of a static member's owner.
#[tactic(auto, unfolding(crate::specs::Omissions::is_hidden))]
fn is_hidden(
    alloc: Global,
    spellings: &Spellings<'_>,
    names: &Names,
    fields: &Names,
    member: &Member,
) -> Result<bool, AllocError>
    ensures { IfOk result (λ yes. yes ≡ is_hidden (scene spellings.now) names.now fields.now member.now) }
{
    if !is_static(member) {
        return Ok(false);
    }
    let owner = owner_text(alloc, spellings, member)?;
    let parts = parts(alloc, owner.as_str())?;
    let prefixes = prefixes(alloc, &owner)?;
    Ok(is_name(names, first_of(parts.as_slice())) || is_any_name(prefixes.as_slice(), fields))
}

/// Copies of the members whose owners' texts neither these names nor these static fields take.
fn shown_by(
    alloc: Global,
    spellings: &Spellings<'_>,
    names: &Names,
    fields: &Names,
    members: &[Member],
) -> Result<Items<Member>, AllocError>
    ensures { IfOk result (λ all. all ≡ filter (λ m. not (is_hidden (scene spellings.now) names.now fields.now m)) members.now) }
{
    let mut all = Items::new(alloc);
    for member in members {
        let hidden = is_hidden(alloc, spellings, names, fields, member)?;
        if !hidden {
            all.push(member.copy(alloc)?)?;
        }
    }
    Ok(all)
}

/// Copies of the members that are left after the fifth omission.
fn shown_of(
    alloc: Global,
    spellings: &Spellings<'_>,
    names: &[Text],
    members: &[Member],
) -> Result<Items<Member>, AllocError>
    ensures { IfOk result (λ all. all ≡ shown_of (scene spellings.now) names.now members.now) }
{
    let fields = field_texts(alloc, spellings, members)?;
    let known = names_of(alloc, fields.as_slice())?;
    let taken = names_of(alloc, names)?;
    let all = shown_by(alloc, spellings, &taken, &known, members)?;
    Ok(all)
}

/// The members that are left after all five omissions; `names` are those that variables and fields take.
#[tactic(auto, unfolding(crate::specs::Omissions::after_five))]
pub fn after_five(
    alloc: Global,
    spellings: &Spellings<'_>,
    types: &[Erased],
    names: &[Text],
    members: &[Member],
) -> Result<Items<Member>, AllocError>
    requires { names.now ≡ taken_names (scene spellings.now) }
    ensures { IfOk result (λ all. all ≡ after_five (scene spellings.now) types.now members.now) }
{
    let left = after_four(alloc, spellings, types, members)?;
    let shown = shown_of(alloc, spellings, names, left.as_slice())?;
    Ok(shown)
}
