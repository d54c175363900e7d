ghost use Rattle.std.specs.Prelude.{◌≡◌, ◌++◌, ◌∷◌, [], codes, map, length, not, is_some, IfOk, OnOk};
ghost use Rattle.std.specs.List.{list_any, flat_map};
ghost use Rattle.type_names.specs.declared.kinds.Base.TheVariants.{Int, Boolean};
ghost use Rattle.offers.specs.Scenes.{of_class, denoted, edited};
ghost use Rattle.offers.specs.Candidates.{value};
ghost use Rattle.offers.specs.Functional.{of_base};
ghost use Rattle.offers.specs.Types.{string_type, types_in, member_types, face_types, site_types, mentioned, types_of, mentions_void};
ghost use Rattle.offers.specs.Views.{scene};

use crate::calls::of_base;
use crate::candidates::copy_type;
use crate::key_order::sorted;
use crate::member::{Face, Member};
use crate::repeats::{gives_nothing, value};
use crate::view::{View, of_class};
use lists::{Copies, Items, Text, copy_all};
use std::alloc::{AllocError, Global};
use type_names::{Base, Erased};

/// The type of strings.
pub fn string_type(alloc: Global) -> Result<Erased, AllocError>
    ensures { IfOk result (λ kind. kind ≡ string_type) }
{
    let name = Text::from_str(alloc, "java/lang/String")?;
    let kind = of_class(alloc, &name)?;
    Ok(kind)
}

/// The types of the site, of literals and of variables.
fn site_types(alloc: Global, view: &View<'_>) -> Result<Items<Erased>, AllocError>
    ensures { IfOk result (λ all. all ≡ site_types (scene view.now)) }
{
    let mut all = Items::new(alloc);
    all.push(of_class(alloc, view.edited())?)?;
    all.push(view.wanted(alloc)?)?;
    all.push(of_base(Base::Int))?;
    all.push(of_base(Base::Boolean))?;
    all.push(string_type(alloc)?)?;
    all.append(view.locals(alloc)?)?;
    Ok(all)
}

/// Adds the type of a value, if there is one.
fn add_outcome(outcome: Option<Erased>, all: &mut Items<Erased>) -> Result<(), AllocError>
    ensures { OnOk result (all.new ≡ all.old ++ types_in outcome) }
{
    if let Some(kind) = outcome {
        all.push(kind)?;
    }
    Ok(())
}

/// Adds the types of a member.
fn add_member(alloc: Global, member: &Member, all: &mut Items<Erased>) -> Result<(), AllocError>
    ensures { OnOk result (all.new ≡ all.old ++ member_types member.now) }
{
    all.push(of_class(alloc, &member.owner)?)?;
    add_outcome(value(alloc, member)?, all)?;
    all.append(copy_all(alloc, &member.params)?)?;
    Ok(())
}

/// Adds the types of a functional interface.
fn add_face(alloc: Global, face: &Face, all: &mut Items<Erased>) -> Result<(), AllocError>
    ensures { OnOk result (all.new ≡ all.old ++ face_types face.now) }
{
    all.push(of_class(alloc, &face.name)?)?;
    add_outcome(copy_type(alloc, &face.result)?, all)?;
    all.append(copy_all(alloc, &face.params)?)?;
    Ok(())
}

/// Adds the types of members.
fn add_members(alloc: Global, members: &[Member], all: &mut Items<Erased>) -> Result<(), AllocError>
    ensures { OnOk result (all.new ≡ all.old ++ flat_map member_types members.now) }
{
    for member in members {
        add_member(alloc, member, all)?;
    }
    Ok(())
}

/// Adds the types of functional interfaces.
fn add_faces(alloc: Global, faces: &[Face], all: &mut Items<Erased>) -> Result<(), AllocError>
    ensures { OnOk result (all.new ≡ all.old ++ flat_map face_types faces.now) }
{
    for face in faces {
        add_face(alloc, face, all)?;
    }
    Ok(())
}

/// The types of values that the site, these members and functional interfaces mention.
fn mentioned(
    alloc: Global,
    view: &View<'_>,
    members: &[Member],
    faces: &[Face],
) -> Result<Items<Erased>, AllocError>
    ensures { IfOk result (λ all. all ≡ mentioned (scene view.now) members.now faces.now) }
{
    let mut all = site_types(alloc, view)?;
    add_members(alloc, members, &mut all)?;
    add_faces(alloc, faces, &mut all)?;
    Ok(all)
}

/// Whether one of these members gives no value.
fn has_void_member(members: &[Member]) -> bool
    ensures { result ≡ list_any (λ m. not (is_some (value m))) members.now }
{
    for member in members {
        if gives_nothing(member) {
            return true;
        }
    }
    false
}

/// Whether one of these functional interfaces gives no value.
fn has_void_face(faces: &[Face]) -> bool
    ensures { result ≡ list_any (λ f. not (is_some f.result)) faces.now }
{
    for face in faces {
        if face.result.is_none() {
            return true;
        }
    }
    false
}

/// Whether one of these members or functional interfaces has no result, so that `void` is mentioned.
#[tactic(auto, unfolding(crate::specs::Types::mentions_void))]
pub fn mentions_void(members: &[Member], faces: &[Face]) -> bool
    ensures { result ≡ mentions_void members.now faces.now }
{
    has_void_member(members) || has_void_face(faces)
}

/// These types in rising byte order of their descriptors, each once.
#[tactic(auto, unfolding(crate::specs::Types::types_of))]
pub fn types_of(
    alloc: Global,
    view: &View<'_>,
    members: &[Member],
    faces: &[Face],
) -> Result<Vec<Erased>, AllocError>
    ensures { IfOk result (λ all. all.items ≡ types_of (scene view.now) members.now faces.now) }
{
    let all = mentioned(alloc, view, members, faces)?;
    let types = sorted(alloc, all.as_slice())?;
    Ok(types)
}
