ghost use Rattle.std.specs.Prelude.{◌≡◌, ◌∷◌, [], Option, Some, None, IfOk};
ghost use Rattle.std.specs.List.{flat_map, list_any};
ghost use Rattle.java_units.specs.Signs.{seen, seens};
ghost use Rattle.java_units.specs.Members.{number_of, closed, held_len, body_of, result_of, method_of, constructor_of, default_constructor, fields_by, fields_in, methods_by, methods_in, constructs, has_constructor};

use crate::access::{
    Modifiers, access, constructor_flags, field_flags, flags_of, method_flags, modifiers_of,
};
use crate::lexemes::{Lexeme, begins, tail};
use crate::pieces::{Form, bare, end};
use crate::table::{form_of, past_vars, result_len};
use crate::types::{ClassKind, SourceField, SourceMethod, TypeText};
use crate::values::{fields_of, first_text, params_of, type_text, vars_of};
use lists::{Items, Text};
use std::alloc::{AllocError, Global};

/// A number of 32 bits. A text of at most 16 MiB has no larger one.
pub fn short(number: usize) -> Result<u32, AllocError>
    ensures { IfOk result (λ n. n ≡ number) }
{
    u32::try_from(number).map_err(|_| AllocError)
}

/// The number of the lexeme at the front.
fn number_of(lexemes: &[Lexeme<'_>]) -> usize
    ensures { result ≡ number_of (seen lexemes.now) }
{
    if lexemes.is_empty() {
        return 0;
    }
    lexemes[0].number
}

/// How many lexemes the block at the front holds.
pub fn held_len(lexemes: &[Lexeme<'_>]) -> usize
    ensures { result ≡ held_len (seen lexemes.now) }
{
    if lexemes.is_empty() {
        return 0;
    }
    lexemes[0].holds
}

/// The number after the last token of a block, from behind what it holds.
fn closed(count: usize, lexemes: &[Lexeme<'_>]) -> Result<u32, AllocError>
    ensures { IfOk result (λ n. n ≡ closed count (seen lexemes.now)) }
{
    if lexemes.is_empty() {
        let end = short(count)?;
        return Ok(end);
    }
    let last = lexemes[0].number;
    if last == usize::MAX {
        return Err(AllocError);
    }
    let end = short(last + 1)?;
    Ok(end)
}

/// The range of the block that ends a piece, in tokens.
#[tactic(auto, unfolding(crate::specs::Members::body_of))]
fn body_of(count: usize, end: &[Lexeme<'_>]) -> Result<Option<(u32, u32)>, AllocError>
    ensures { IfOk result (λ body. body ≡ body_of count (seen end.now)) }
{
    if !begins("{", end) {
        return Ok(None);
    }
    let first = short(number_of(end))?;
    let last = closed(count, tail(tail(end, 1), held_len(end)))?;
    Ok(Some((first, last)))
}

/// The result of a method, None for `void`.
#[tactic(auto, unfolding(crate::specs::Members::result_of))]
fn result_of(alloc: Global, lexemes: &[Lexeme<'_>]) -> Result<Option<TypeText>, AllocError>
    ensures { IfOk result (λ kind. kind ≡ result_of (seen lexemes.now)) }
{
    if begins("void", lexemes) {
        return Ok(None);
    }
    let kind = type_text(alloc, 0, lexemes)?;
    Ok(Some(kind))
}

/// The method that a piece of its form declares.
#[tactic(auto, unfolding(crate::specs::Members::method_of))]
fn method_of(
    alloc: Global,
    around: ClassKind,
    count: usize,
    piece: &[Lexeme<'_>],
) -> Result<SourceMethod, AllocError>
    ensures { IfOk result (λ method. method ≡ method_of around count (seen piece.now)) }
{
    let bare = bare(piece);
    let end = end(piece);
    let typed = past_vars(bare);
    let named = tail(typed, result_len(typed));
    let modifiers = modifiers_of(alloc, piece)?;
    let name = Text::from_str(alloc, first_text(named))?;
    let vars = vars_of(alloc, bare)?;
    let params = params_of(alloc, tail(named, 1))?;
    let result = result_of(alloc, typed)?;
    let body = body_of(count, end)?;
    Ok(SourceMethod {
        name,
        flags: method_flags(around, begins("{", end), &modifiers),
        vars,
        params,
        result,
        body,
    })
}

/// The constructor that a piece of its form declares.
#[tactic(auto, unfolding(crate::specs::Members::constructor_of))]
fn constructor_of(
    alloc: Global,
    around: ClassKind,
    count: usize,
    piece: &[Lexeme<'_>],
) -> Result<SourceMethod, AllocError>
    ensures { IfOk result (λ method. method ≡ constructor_of around count (seen piece.now)) }
{
    let bare = bare(piece);
    let modifiers = modifiers_of(alloc, piece)?;
    let name = Text::from_str(alloc, "<init>")?;
    let vars = vars_of(alloc, bare)?;
    let params = params_of(alloc, tail(past_vars(bare), 1))?;
    let body = body_of(count, end(piece))?;
    Ok(SourceMethod {
        name,
        flags: constructor_flags(around, &modifiers),
        vars,
        params,
        result: None,
        body,
    })
}

/// The constructor that a plain class without one gets.
#[tactic(auto, unfolding(crate::specs::Members::default_constructor))]
pub fn default_constructor(alloc: Global, modifiers: &Modifiers) -> Result<SourceMethod, AllocError>
    ensures { IfOk result (λ method. method ≡ default_constructor modifiers.now) }
{
    let name = Text::from_str(alloc, "<init>")?;
    Ok(SourceMethod {
        name,
        flags: flags_of(&access(modifiers)),
        vars: Items::new(alloc),
        params: Items::new(alloc),
        result: None,
        body: None,
    })
}

/// The fields that a piece of a class of this kind and name declares.
#[tactic(auto, unfolding(crate::specs::Members::fields_in))]
fn fields_in(
    alloc: Global,
    around: ClassKind,
    name: &str,
    piece: &[Lexeme<'_>],
) -> Result<Items<SourceField>, AllocError>
    ensures { IfOk result (λ fields. fields ≡ fields_in around name.now (seen piece.now)) }
{
    match form_of(name, piece) {
        Form::Field => {
            let modifiers = modifiers_of(alloc, piece)?;
            fields_of(alloc, field_flags(around, &modifiers), bare(piece))
        }
        Form::Package => Ok(Items::new(alloc)),
        Form::Import => Ok(Items::new(alloc)),
        Form::Class => Ok(Items::new(alloc)),
        Form::Constructor => Ok(Items::new(alloc)),
        Form::Method => Ok(Items::new(alloc)),
        Form::Nothing => Ok(Items::new(alloc)),
    }
}

/// A list of one method.
fn single(alloc: Global, method: SourceMethod) -> Result<Items<SourceMethod>, AllocError>
    ensures { IfOk result (λ all. all ≡ method ∷ []) }
{
    let mut all = Items::new(alloc);
    all.push(method)?;
    Ok(all)
}

/// The methods that it declares.
#[tactic(auto, unfolding(crate::specs::Members::methods_in))]
fn methods_in(
    alloc: Global,
    around: ClassKind,
    name: &str,
    count: usize,
    piece: &[Lexeme<'_>],
) -> Result<Items<SourceMethod>, AllocError>
    ensures { IfOk result (λ methods. methods ≡ methods_in around name.now count (seen piece.now)) }
{
    match form_of(name, piece) {
        Form::Constructor => single(alloc, constructor_of(alloc, around, count, piece)?),
        Form::Method => single(alloc, method_of(alloc, around, count, piece)?),
        Form::Package => Ok(Items::new(alloc)),
        Form::Import => Ok(Items::new(alloc)),
        Form::Class => Ok(Items::new(alloc)),
        Form::Field => Ok(Items::new(alloc)),
        Form::Nothing => Ok(Items::new(alloc)),
    }
}

/// Whether a piece is a constructor.
#[tactic(auto, unfolding(crate::specs::Members::has_constructor))]
fn has_constructor(name: &str, piece: &[Lexeme<'_>]) -> bool
    ensures { result ≡ has_constructor name.now (seen piece.now) }
{
    match form_of(name, piece) {
        Form::Constructor => true,
        Form::Package => false,
        Form::Import => false,
        Form::Class => false,
        Form::Method => false,
        Form::Field => false,
        Form::Nothing => false,
    }
}

/// The fields of a class of this kind and name, from its pieces.
pub fn all_fields(
    alloc: Global,
    around: ClassKind,
    name: &str,
    places: &[&[Lexeme<'_>]],
) -> Result<Items<SourceField>, AllocError>
    ensures { IfOk result (λ all. all ≡ flat_map (fields_in around name.now) (seens places.now)) }
{
    let mut all = Items::new(alloc);
    for i in 0..places.len() {
        let fields = fields_in(alloc, around, name, places[i])?;
        all.append(fields)?;
    }
    Ok(all)
}

/// The methods that these declare.
pub fn all_methods(
    alloc: Global,
    around: ClassKind,
    name: &str,
    count: usize,
    places: &[&[Lexeme<'_>]],
) -> Result<Items<SourceMethod>, AllocError>
    ensures { IfOk result (λ all. all ≡ flat_map (methods_in around name.now count) (seens places.now)) }
{
    let mut all = Items::new(alloc);
    for i in 0..places.len() {
        let methods = methods_in(alloc, around, name, count, places[i])?;
        all.append(methods)?;
    }
    Ok(all)
}

/// Whether one of these is a constructor.
pub fn any_constructor(name: &str, places: &[&[Lexeme<'_>]]) -> bool
    ensures { result ≡ list_any (has_constructor name.now) (seens places.now) }
{
    for i in 0..places.len() {
        if has_constructor(name, places[i]) {
            return true;
        }
    }
    false
}
