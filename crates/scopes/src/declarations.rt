ghost use Rattle.std.specs.Prelude.{◌≡◌, ◌++◌, [], ◌∷◌, map, codes, if◌then◌else◌, unwrap_or, IfOk, OnOk};
ghost use Rattle.terms.specs.declared.parts.Form.TheVariants as form;
ghost use Rattle.offers.specs.Omissions.{scope_names};
ghost use Rattle.offers.specs.Candidates.{value};
ghost use Rattle.offers.specs.Spellings.{class_spelling};
ghost use Rattle.offers.specs.Scenes.{of_class, denoted, edited};
ghost use Rattle.offers.specs.Kept.{IsCrowding};
ghost use Rattle.offers.specs.Views.{scene};
ghost use Rattle.scopes.specs.Kinds.{number_in, type_number};
ghost use Rattle.scopes.specs.Declarations.{member_decl, simple_decl, face_decl, literals, string_literal, site_decls};

use crate::forms::{args_of, form_of};
use crate::numbers::Numbers;
use crate::weighing::weight_of;
use lists::{Copies, Items, Text};
use offers::{Crowding, Face, Member, Spellings, View, of_base, of_class, string_type, value};
use std::alloc::{AllocError, Global};
use terms::{Arg, Decl, Form};
use type_names::{Base, Erased};

/// A declaration without arguments, never crowded.
fn simple_decl(alloc: Global, numbers: &Numbers<'_>, form: Form, kind: &Erased, weight: u32) -> Decl
    ensures { result ≡ simple_decl numbers.now form kind.now weight }
{
    Decl {
        args: Items::new(alloc),
        result: numbers.of(kind),
        weight,
        crowded: false,
        form,
    }
}

/// A declaration of a name.
fn named_decl(
    alloc: Global,
    numbers: &Numbers<'_>,
    name: &str,
    kind: &Erased,
    weight: u32,
) -> Result<Decl, AllocError>
    ensures { IfOk result (λ decl. decl ≡ simple_decl numbers.now (form.Name name.now) kind.now weight) }
{
    let form = Form::Name(Text::from_str(alloc, name)?);
    Ok(simple_decl(alloc, numbers, form, kind, weight))
}

/// `this`, where the method has one.
fn this_decls(
    alloc: Global,
    view: &View<'_>,
    numbers: &Numbers<'_>,
) -> Result<Items<Decl>, AllocError>
    ensures { IfOk result (λ all. all ≡ (if view.now.site.is_static then [] else simple_decl numbers.now form.This (of_class (edited (scene view.now))) view.now.weights.local ∷ [])) }
{
    let mut all = Items::new(alloc);
    if view.site().is_static {
        return Ok(all);
    }
    let kind = of_class(alloc, view.edited())?;
    all.push(simple_decl(alloc, numbers, Form::This, &kind, view.weights().local))?;
    Ok(all)
}

/// Adds the variables in scope.
fn add_locals(
    alloc: Global,
    view: &View<'_>,
    numbers: &Numbers<'_>,
    all: &mut Items<Decl>,
) -> Result<(), AllocError>
    ensures { OnOk result (all.new ≡ all.old ++ map (λ l. simple_decl numbers.now (form.Name l.name) (denoted (scene view.now) l.kind) view.now.weights.local) view.now.site.locals) }
{
    let locals = view.site().locals.as_slice();
    let weight = view.weights().local;
    for i in 0..locals.len() {
        let kind = view.denoted(alloc, &locals[i].kind)?;
        all.push(named_decl(alloc, numbers, locals[i].name.as_str(), &kind, weight)?)?;
    }
    Ok(())
}

/// Adds the literals of numbers and truth.
fn add_plain_literals(
    alloc: Global,
    view: &View<'_>,
    numbers: &Numbers<'_>,
    all: &mut Items<Decl>,
) -> Result<(), AllocError>
    ensures { OnOk result (all.new ++ string_literal (scene view.now) numbers.now ≡ all.old ++ literals (scene view.now) numbers.now) }
{
    let weight = view.weights().literal;
    let int = of_base(Base::Int);
    let boolean = of_base(Base::Boolean);
    all.push(named_decl(alloc, numbers, "0", &int, weight)?)?;
    all.push(named_decl(alloc, numbers, "true", &boolean, weight)?)?;
    all.push(named_decl(alloc, numbers, "false", &boolean, weight)?)?;
    Ok(())
}

/// Adds the empty text.
fn add_string_literal(
    alloc: Global,
    view: &View<'_>,
    numbers: &Numbers<'_>,
    all: &mut Items<Decl>,
) -> Result<(), AllocError>
    ensures { OnOk result (all.new ≡ all.old ++ string_literal (scene view.now) numbers.now) }
{
    let kind = string_type(alloc)?;
    all.push(named_decl(alloc, numbers, "\"\"", &kind, view.weights().literal)?)?;
    Ok(())
}

/// The declaration of a member among others. `scope` are the names in scope, hidden or not.
#[tactic(auto, unfolding(crate::specs::Declarations::member_decl))]
fn member_decl(
    alloc: Global,
    spellings: &Spellings<'_>,
    numbers: &Numbers<'_>,
    scope: &[Text],
    crowding: &mut Crowding<'_>,
    member: &Member,
) -> Result<Decl, AllocError>
    requires names { scope.now ≡ scope_names (scene spellings.now) }
    requires kept { IsCrowding spellings.now crowding.old }
    requires types { crowding.old.types.types ≡ numbers.now.types }
    ensures exact { IfOk result (λ decl. decl ≡ member_decl (scene spellings.now) numbers.now crowding.old.members.members member.now) }
    ensures types { crowding.new.types ≡ crowding.old.types }
    ensures members { crowding.new.members ≡ crowding.old.members }
    ensures kept { OnOk result (IsCrowding spellings.now crowding.new) }
{
    let result = result_of(alloc, numbers, member)?;
    let weight = weight_of(alloc, spellings.view(), member)?;
    let crowded = crowding.is_crowded(alloc, spellings.view(), member)?;
    let args = args_of(alloc, numbers, member)?;
    let form = form_of(alloc, spellings, scope, member)?;
    Ok(Decl {
        args,
        result,
        weight,
        crowded,
        form,
    })
}

/// The number of the type of what a member gives, that of `void` where it gives no value.
fn result_of(alloc: Global, numbers: &Numbers<'_>, member: &Member) -> Result<u32, AllocError>
    ensures { IfOk result (λ n. n ≡ number_in numbers.now (value member.now)) }
{
    let outcome = value(alloc, member)?;
    Ok(numbers.of_outcome(&outcome))
}

/// Adds the declarations of those of the members that are left.
pub(crate) fn add_members(
    alloc: Global,
    spellings: &Spellings<'_>,
    numbers: &Numbers<'_>,
    scope: &[Text],
    members: &[Member],
    left: &[Member],
    all: &mut Items<Decl>,
) -> Result<(), AllocError>
    requires names { scope.now ≡ scope_names (scene spellings.now) }
    ensures { OnOk result (all.new ≡ all.old ++ map (member_decl (scene spellings.now) numbers.now members.now) left.now) }
{
    let mut crowding = Crowding::new(alloc, spellings.view(), numbers.types(), members)?;
    for member in left {
        let decl = member_decl(alloc, spellings, numbers, scope, &mut crowding, member)?;
        all.push(decl)?;
    }
    Ok(())
}

/// The numbers of types.
fn numbers_of(
    alloc: Global,
    numbers: &Numbers<'_>,
    kinds: &[Erased],
) -> Result<Items<u32>, AllocError>
    ensures { IfOk result (λ all. all ≡ map (type_number numbers.now) kinds.now) }
{
    let mut all = Items::new(alloc);
    for kind in kinds {
        all.push(numbers.of(kind))?;
    }
    Ok(all)
}

/// The lambda that a functional interface is made from.
fn face_args(alloc: Global, numbers: &Numbers<'_>, face: &Face) -> Result<Items<Arg>, AllocError>
    ensures { IfOk result (λ args. args ≡ Arg.Fun (map (type_number numbers.now) face.now.params) (number_in numbers.now face.now.result) ∷ []) }
{
    let params = numbers_of(alloc, numbers, face.params.as_slice())?;
    let mut args = Items::new(alloc);
    args.push(Arg::Fun(params, numbers.of_outcome(&face.result)))?;
    Ok(args)
}

/// The spelling of a functional interface, the empty text where there is none.
fn face_text(alloc: Global, spellings: &Spellings<'_>, face: &Face) -> Result<Text, AllocError>
    ensures { IfOk result (λ text. text ≡ unwrap_or (class_spelling (scene spellings.now) face.now.name) []) }
{
    match spellings.of(alloc, &face.name)? {
        Some(text) => Ok(text),
        None => Ok(Text::new(alloc)),
    }
}

/// The number of the type of a functional interface.
fn face_number(alloc: Global, numbers: &Numbers<'_>, face: &Face) -> Result<u32, AllocError>
    ensures { IfOk result (λ n. n ≡ type_number numbers.now (of_class face.now.name)) }
{
    let kind = of_class(alloc, &face.name)?;
    Ok(numbers.of(&kind))
}

/// The declaration of a functional interface.
#[tactic(auto, unfolding(crate::specs::Declarations::face_decl))]
fn face_decl(
    alloc: Global,
    spellings: &Spellings<'_>,
    numbers: &Numbers<'_>,
    face: &Face,
) -> Result<Decl, AllocError>
    ensures { IfOk result (λ decl. decl ≡ face_decl (scene spellings.now) numbers.now face.now) }
{
    let result = face_number(alloc, numbers, face)?;
    let text = face_text(alloc, spellings, face)?;
    let args = face_args(alloc, numbers, face)?;
    Ok(Decl {
        args,
        result,
        weight: spellings.view().weights().lambda,
        crowded: false,
        form: Form::Lambda(text),
    })
}

/// Adds the declarations of functional interfaces.
pub(crate) fn add_faces(
    alloc: Global,
    spellings: &Spellings<'_>,
    numbers: &Numbers<'_>,
    faces: &[Face],
    all: &mut Items<Decl>,
) -> Result<(), AllocError>
    ensures { OnOk result (all.new ≡ all.old ++ map (face_decl (scene spellings.now) numbers.now) faces.now) }
{
    for face in faces {
        all.push(face_decl(alloc, spellings, numbers, face)?)?;
    }
    Ok(())
}

/// `this`, the variables in scope and the literals.
pub(crate) fn site_decls(
    alloc: Global,
    view: &View<'_>,
    numbers: &Numbers<'_>,
) -> Result<Items<Decl>, AllocError>
    ensures { IfOk result (λ all. all ≡ site_decls (scene view.now) numbers.now) }
{
    let mut all = this_decls(alloc, view, numbers)?;
    add_locals(alloc, view, numbers, &mut all)?;
    add_plain_literals(alloc, view, numbers, &mut all)?;
    add_string_literal(alloc, view, numbers, &mut all)?;
    Ok(all)
}
