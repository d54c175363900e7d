ghost use Rattle.std.specs.Prelude.{◌≡◌, ◌++◌, ◌∷◌, [], if◌then◌else◌, is_some, IfOk, OnOk};
ghost use Rattle.std.specs.List.{list_all, filter};
ghost use Rattle.offers.specs.Spellings.{spelling};
ghost use Rattle.offers.specs.Omissions.{needs_owner, is_crowded, is_written, after_four, owner_text, static_text};
ghost use Rattle.offers.specs.Kept.{IsCrowding};
ghost use Rattle.offers.specs.Views.{scene};

use crate::candidates::same_kind;
use crate::crowds::Crowding;
use crate::member::{Kind, Member};
use crate::repeats::is_static;
use crate::spellings::Spellings;
use lists::{Copies, Items, Text};
use std::alloc::{AllocError, Global};
use type_names::Erased;

/// Whether a member is written behind its owner's spelling.
fn needs_owner(member: &Member) -> bool
    ensures { result ≡ needs_owner member.now }
{
    is_static(member) || same_kind(member.kind, Kind::Constructor)
}

/// Whether each of these types has a spelling.
fn are_spelled(
    alloc: Global,
    spellings: &Spellings<'_>,
    kinds: &[Erased],
) -> Result<bool, AllocError>
    ensures { IfOk result (λ yes. yes ≡ list_all (λ p. is_some (spelling (scene spellings.now) p)) kinds.now) }
{
    for kind in kinds {
        if !spellings.has_type(alloc, kind)? {
            return Ok(false);
        }
    }
    Ok(true)
}

/// Whether a member has the spellings that it needs.
#[tactic(auto, unfolding(crate::specs::Omissions::is_written))]
fn is_written(
    alloc: Global,
    spellings: &Spellings<'_>,
    crowded: bool,
    member: &Member,
) -> Result<bool, AllocError>
    ensures { IfOk result (λ yes. yes ≡ is_written (scene spellings.now) crowded member.now) }
{
    if needs_owner(member) || crowded {
        let spelled = spellings.has(alloc, &member.owner)?;
        if !spelled {
            return Ok(false);
        }
    }
    if !crowded {
        return Ok(true);
    }
    let all = are_spelled(alloc, spellings, member.params.as_slice())?;
    Ok(all)
}

/// Whether a member has them, crowded or not.
fn is_left(
    alloc: Global,
    spellings: &Spellings<'_>,
    crowding: &mut Crowding<'_>,
    member: &Member,
) -> Result<bool, AllocError>
    requires { IsCrowding spellings.now crowding.old }
    ensures exact { IfOk result (λ yes. yes ≡ is_written (scene spellings.now) (is_crowded (scene spellings.now) crowding.old.types.types crowding.old.members.members member.now) member.now) }
    ensures types { crowding.new.types ≡ crowding.old.types }
    ensures members { crowding.new.members ≡ crowding.old.members }
    ensures kept { OnOk result (IsCrowding spellings.now crowding.new) }
{
    let crowded = crowding.is_crowded(alloc, spellings.view(), member)?;
    let written = is_written(alloc, spellings, crowded, member)?;
    Ok(written)
}

/// Adds a copy of a member that is left.
fn add_left(
    alloc: Global,
    spellings: &Spellings<'_>,
    crowding: &mut Crowding<'_>,
    member: &Member,
    all: &mut Items<Member>,
) -> Result<(), AllocError>
    requires { IsCrowding spellings.now crowding.old }
    ensures all { OnOk result (all.new ≡ all.old ++ (if is_written (scene spellings.now) (is_crowded (scene spellings.now) crowding.old.types.types crowding.old.members.members member.now) member.now then member.now ∷ [] else [])) }
    ensures types { crowding.new.types ≡ crowding.old.types }
    ensures members { crowding.new.members ≡ crowding.old.members }
    ensures kept { OnOk result (IsCrowding spellings.now crowding.new) }
{
    let left = is_left(alloc, spellings, crowding, member)?;
    if left {
        all.push(member.copy(alloc)?)?;
    }
    Ok(())
}

/// Copies of the members that are left after the fourth omission.
#[tactic(auto, unfolding(crate::specs::Omissions::after_four))]
pub(crate) fn after_four(
    alloc: Global,
    spellings: &Spellings<'_>,
    types: &[Erased],
    members: &[Member],
) -> Result<Items<Member>, AllocError>
    ensures { IfOk result (λ all. all ≡ after_four (scene spellings.now) types.now members.now) }
{
    let mut crowding = Crowding::new(alloc, spellings.view(), types, members)?;
    let mut all = Items::new(alloc);
    for member in members {
        add_left(alloc, spellings, &mut crowding, member, &mut all)?;
    }
    Ok(all)
}

/// The spelling of a member's owner, the empty text where there is none.
pub fn owner_text(
    alloc: Global,
    spellings: &Spellings<'_>,
    member: &Member,
) -> Result<Text, AllocError>
    ensures { IfOk result (λ text. text ≡ owner_text (scene spellings.now) member.now) }
{
    match spellings.of(alloc, &member.owner)? {
        Some(text) => Ok(text),
        None => Ok(Text::new(alloc)),
    }
}

/// That spelling, `.` and the member's name.
pub fn static_text(
    alloc: Global,
    spellings: &Spellings<'_>,
    member: &Member,
) -> Result<Text, AllocError>
    ensures { IfOk result (λ text. text ≡ static_text (scene spellings.now) member.now) }
{
    let mut text = owner_text(alloc, spellings, member)?;
    text.push_str(".")?;
    text.push_str(member.name.as_str())?;
    Ok(text)
}
