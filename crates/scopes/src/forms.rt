ghost use Rattle.std.specs.Prelude.{◌≡◌, [], ◌∷◌, map, unwrap_or, IfOk};
ghost use Rattle.terms.specs.declared.parts.Arg.TheVariants.{Plain};
ghost use Rattle.offers.specs.Candidates.{is_static};
ghost use Rattle.offers.specs.Omissions.{scope_names};
ghost use Rattle.offers.specs.Scenes.{of_class};
ghost use Rattle.offers.specs.Views.{scene};
ghost use Rattle.scopes.specs.Kinds.{type_number};
ghost use Rattle.scopes.specs.Declarations.{form_by, wants_by};

use crate::numbers::Numbers;
use lists::{Copies, Items, Text, copy_all};
use offers::{Kind, Member, Spellings, is_among, is_static, of_class, owner_text, static_text};
use std::alloc::{AllocError, Global};
use terms::{Arg, Form};
use type_names::Erased;

/// How a field or a method of an instance is written, or a static one, or a constructor. `scope` are the names in
/// scope, hidden or not.
pub(crate) fn form_of(
    alloc: Global,
    spellings: &Spellings<'_>,
    scope: &[Text],
    member: &Member,
) -> Result<Form, AllocError>
    requires { scope.now ≡ scope_names (scene spellings.now) }
    ensures { IfOk result (λ form. form ≡ form_by (scene spellings.now) member.now member.now.kind (is_static member.now)) }
{
    match member.kind {
        Kind::Field => field_form(alloc, spellings, scope, member),
        Kind::Method => method_form(alloc, spellings, member),
        Kind::Constructor => Ok(Form::New(owner_text(alloc, spellings, member)?)),
    }
}

fn field_form(
    alloc: Global,
    spellings: &Spellings<'_>,
    scope: &[Text],
    member: &Member,
) -> Result<Form, AllocError>
    requires { scope.now ≡ scope_names (scene spellings.now) }
    ensures { IfOk result (λ form. form ≡ form_by (scene spellings.now) member.now Kind.Field (is_static member.now)) }
{
    if is_static(member) {
        return Ok(Form::Name(static_text(alloc, spellings, member)?));
    }
    let hidden = is_among(scope, member.name.as_str());
    Ok(Form::Field(member.name.copy(alloc)?, hidden))
}

fn method_form(
    alloc: Global,
    spellings: &Spellings<'_>,
    member: &Member,
) -> Result<Form, AllocError>
    ensures { IfOk result (λ form. form ≡ form_by (scene spellings.now) member.now Kind.Method (is_static member.now)) }
{
    if is_static(member) {
        return Ok(Form::Call(static_text(alloc, spellings, member)?));
    }
    Ok(Form::Method(member.name.copy(alloc)?))
}

/// The type of a member's owner, and the types behind it.
fn with_owner(
    alloc: Global,
    member: &Member,
    more: Items<Erased>,
) -> Result<Items<Erased>, AllocError>
    ensures { IfOk result (λ all. all ≡ of_class member.now.owner ∷ more) }
{
    let mut all = Items::new(alloc);
    all.push(of_class(alloc, &member.owner)?)?;
    all.append(more)?;
    Ok(all)
}

/// The types of what a method wants.
fn method_wants(alloc: Global, member: &Member) -> Result<Items<Erased>, AllocError>
    ensures { IfOk result (λ all. all ≡ wants_by member.now Kind.Method (is_static member.now)) }
{
    let params = copy_all(alloc, &member.params)?;
    if is_static(member) {
        return Ok(params);
    }
    with_owner(alloc, member, params)
}

/// The types of what a field wants.
fn field_wants(alloc: Global, member: &Member) -> Result<Items<Erased>, AllocError>
    ensures { IfOk result (λ all. all ≡ wants_by member.now Kind.Field (is_static member.now)) }
{
    if is_static(member) {
        return Ok(Items::new(alloc));
    }
    with_owner(alloc, member, Items::new(alloc))
}

/// The types of what a member wants: its owner, where it is an instance's, and its parameters.
fn wants(alloc: Global, member: &Member) -> Result<Items<Erased>, AllocError>
    ensures { IfOk result (λ all. all ≡ wants_by member.now member.now.kind (is_static member.now)) }
{
    match member.kind {
        Kind::Field => field_wants(alloc, member),
        Kind::Method => method_wants(alloc, member),
        Kind::Constructor => copy_all(alloc, &member.params),
    }
}

/// Plain arguments of these types.
fn plain_args(
    alloc: Global,
    numbers: &Numbers<'_>,
    kinds: &[Erased],
) -> Result<Items<Arg>, AllocError>
    ensures { IfOk result (λ args. args ≡ map (λ t. Plain (type_number numbers.now t)) kinds.now) }
{
    let mut args = Items::new(alloc);
    for kind in kinds {
        args.push(Arg::Plain(numbers.of(kind)))?;
    }
    Ok(args)
}

/// What a member wants at its places.
pub(crate) fn args_of(
    alloc: Global,
    numbers: &Numbers<'_>,
    member: &Member,
) -> Result<Items<Arg>, AllocError>
    ensures { IfOk result (λ args. args ≡ map (λ t. Plain (type_number numbers.now t)) (wants_by member.now member.now.kind (is_static member.now))) }
{
    let kinds = wants(alloc, member)?;
    let args = plain_args(alloc, numbers, kinds.as_slice())?;
    Ok(args)
}
