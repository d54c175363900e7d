ghost use Rattle.std.specs.Prelude.{◌≡◌, ◌++◌, [], map, IfOk, OnOk};
ghost use Rattle.offers.specs.Scenes.{of_class};
ghost use Rattle.offers.specs.Reach.{offered};
ghost use Rattle.offers.specs.Functional.{is_interface, faces_above, is_whole, is_giver, is_given, is_of_object, is_promise, promises, group, one_method, method_in, face_of, faces_by, faces};
ghost use Rattle.offers.specs.Kept.{AreInterfaces};
ghost use Rattle.offers.specs.Missing.{missing};
ghost use Rattle.offers.specs.Views.{scene};

use crate::calls::{are_same_calls, has_body, is_of_object};
use crate::candidates::copy_type;
use crate::interfaces::{KnownInterfaces, faces_above, is_below, is_interface, is_whole, missing};
use crate::member::Face;
use crate::reach::{ABSTRACT, has_flag};
use crate::spelling::class_spelling;
use crate::view::View;
use known_classes::{ClassSummary, MethodSummary};
use lists::{Copies, Items, Text, copy_all};
use std::alloc::{AllocError, Global};

/// Whether an interface has a body for a method; `below` says whether it is below the method's owner.
fn is_giver(
    view: &View<'_>,
    owner: &ClassSummary,
    method: &MethodSummary,
    other: &ClassSummary,
    below: bool,
) -> bool
    requires { below ≡ (scene view.now).below (of_class other.now.name) (of_class owner.now.name) }
    ensures { result ≡ is_giver (scene view.now) owner.now method.now other.now }
{
    below && has_body(method, other.methods.as_slice())
}

/// Which of these interfaces are below a class.
fn lower_ones(
    alloc: Global,
    view: &View<'_>,
    faces: &[ClassSummary],
    owner: &ClassSummary,
) -> Result<Vec<bool>, AllocError>
    ensures { IfOk result (λ all. all.items ≡ map (λ d. (scene view.now).below (of_class d.name) (of_class owner.now.name)) faces.now) }
{
    let mut all = Vec::new(alloc);
    for other in faces {
        all.push(is_below(alloc, view, &other.name, &owner.name)?)?;
    }
    Ok(all)
}

/// Whether one of these interfaces is; `lower` says which of them are below the method's owner.
#[tactic(auto, unfolding(crate::specs::Functional::is_given))]
fn is_given(
    view: &View<'_>,
    faces: &[ClassSummary],
    lower: &[bool],
    owner: &ClassSummary,
    method: &MethodSummary,
) -> bool
    requires { lower.now ≡ map (λ d. (scene view.now).below (of_class d.name) (of_class owner.now.name)) faces.now }
    ensures { result ≡ is_given (scene view.now) faces.now owner.now method.now }
{
    for i in 0..faces.len() {
        if is_giver(view, owner, method, &faces[i], lower[i]) {
            return true;
        }
    }
    false
}

/// Whether a method of an interface is abstract, with no body given, and none of java/lang/Object's.
fn is_promise(
    alloc: Global,
    view: &View<'_>,
    faces: &[ClassSummary],
    lower: &[bool],
    owner: &ClassSummary,
    method: &MethodSummary,
) -> Result<bool, AllocError>
    requires { lower.now ≡ map (λ d. (scene view.now).below (of_class d.name) (of_class owner.now.name)) faces.now }
    ensures { IfOk result (λ yes. yes ≡ is_promise (scene view.now) faces.now owner.now method.now) }
{
    if !has_flag(method.flags, ABSTRACT) {
        return Ok(false);
    }
    if is_given(view, faces, lower, owner, method) {
        return Ok(false);
    }
    let of_object = is_of_object(alloc, method)?;
    Ok(!of_object)
}

/// Copies of the methods of an interface that are.
fn promises(
    alloc: Global,
    view: &View<'_>,
    faces: &[ClassSummary],
    owner: &ClassSummary,
) -> Result<Items<MethodSummary>, AllocError>
    ensures { IfOk result (λ all. all ≡ promises (scene view.now) faces.now owner.now) }
{
    let lower = lower_ones(alloc, view, faces, owner)?;
    let mut all = Items::new(alloc);
    for method in owner.methods.as_slice() {
        let promise = is_promise(alloc, view, faces, &lower, owner, method)?;
        if promise {
            all.push(method.copy(alloc)?)?;
        }
    }
    Ok(all)
}

/// Copies of the methods of these interfaces that are.
fn group(
    alloc: Global,
    view: &View<'_>,
    faces: &[ClassSummary],
) -> Result<Items<MethodSummary>, AllocError>
    ensures { IfOk result (λ all. all ≡ group (scene view.now) faces.now) }
{
    let mut all = Items::new(alloc);
    for owner in faces {
        all.append(promises(alloc, view, faces, owner)?)?;
    }
    Ok(all)
}

/// A copy of the method that all of these are, where they are one.
fn one_method(alloc: Global, methods: &[MethodSummary]) -> Result<Option<MethodSummary>, AllocError>
    ensures { IfOk result (λ one. one ≡ one_method methods.now) }
{
    match methods {
        [] => Ok(None),
        [first, more @ ..] => {
            let same = are_same_calls(alloc, first, more)?;
            if !same {
                return Ok(None);
            }
            Ok(Some(first.copy(alloc)?))
        }
    }
}

/// The one method of a functional interface. `names` are those of the missing classes.
#[tactic(auto, unfolding(crate::specs::Functional::method_in))]
fn method_in(
    alloc: Global,
    view: &View<'_>,
    names: &[Text],
    known: &KnownInterfaces,
    class: &ClassSummary,
) -> Result<Option<MethodSummary>, AllocError>
    requires names { names.now ≡ missing (scene view.now) }
    requires known { AreInterfaces view.now known.now }
    ensures { IfOk result (λ one. one ≡ method_in (scene view.now) class.now) }
{
    if !is_interface(class) {
        return Ok(None);
    }
    if class_spelling(alloc, view, &class.name)?.is_none() {
        return Ok(None);
    }
    let whole = is_whole(alloc, view, names, class)?;
    if !whole {
        return Ok(None);
    }
    let faces = faces_above(alloc, view, known, class)?;
    let methods = group(alloc, view, faces.as_slice())?;
    let one = one_method(alloc, methods.as_slice())?;
    Ok(one)
}

/// What a lambda of a functional interface with this method takes and gives.
fn face_of(alloc: Global, name: &Text, method: &MethodSummary) -> Result<Face, AllocError>
    ensures { IfOk result (λ face. face ≡ face_of name.now method.now) }
{
    Ok(Face {
        name: name.copy(alloc)?,
        params: copy_all(alloc, &method.params)?,
        result: copy_type(alloc, &method.result)?,
    })
}

/// Adds a class that is a functional interface.
fn add_lambda(
    alloc: Global,
    view: &View<'_>,
    names: &[Text],
    known: &KnownInterfaces,
    class: &ClassSummary,
    all: &mut Items<Face>,
) -> Result<(), AllocError>
    requires names { names.now ≡ missing (scene view.now) }
    requires known { AreInterfaces view.now known.now }
    ensures { OnOk result (all.new ≡ all.old ++ faces_by class.now.name (method_in (scene view.now) class.now)) }
{
    let Some(method) = method_in(alloc, view, names, known, class)? else {
        return Ok(());
    };
    all.push(face_of(alloc, &class.name, &method)?)?;
    Ok(())
}

/// The functional interfaces among the offered classes.
#[tactic(auto, unfolding(crate::specs::Functional::faces))]
pub fn faces(
    alloc: Global,
    view: &View<'_>,
    classes: &[ClassSummary],
) -> Result<Items<Face>, AllocError>
    requires { classes.now ≡ offered (scene view.now) }
    ensures { IfOk result (λ all. all ≡ faces (scene view.now)) }
{
    let names = missing(alloc, view)?;
    let known = KnownInterfaces::new(alloc, view)?;
    let mut all = Items::new(alloc);
    for class in classes {
        add_lambda(alloc, view, names.as_slice(), &known, class, &mut all)?;
    }
    Ok(all)
}
