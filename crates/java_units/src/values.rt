ghost use Rattle.std.specs.Prelude.{◌≡◌, ◌≤◌, ◌<◌, ◌+◌, ◌++◌, length, map, IfOk, OnOk};
ghost use Rattle.std.specs.List.{flat_map};
ghost use Rattle.java_units.specs.Words.{texts};
ghost use Rattle.java_units.specs.Signs.{sign, seen, seens};
ghost use Rattle.java_units.specs.Values.{first_text, angled, takes, parts_of, type_text, bound_of, var_of, vars_of, typed_param, param_of, kept, params_of, field_of, fields_of, types_of};

use crate::entries::{Entry, vars_len};
use crate::forms::{ahead_len, bounds_len, dots_len, wide_len};
use crate::lexemes::{Lexeme, begins_any, is, prefix, same, tail};
use crate::names::{base_len, dims_len, type_len};
use crate::starts::entries;
use crate::types::{Param, SourceField, TypeText, TypeVar};
use lists::{Items, Text};
use std::alloc::{AllocError, Global};

/// The text of the lexeme at the front, or an empty one.
pub fn first_text<'a>(lexemes: &[Lexeme<'a>]) -> &'a str
    ensures value { result.now ≡ first_text (seen lexemes.now) }
{
    if lexemes.is_empty() {
        return "";
    }
    lexemes[0].word
}

/// How deep the next lexeme stands in `<` and `>`.
#[tactic(auto, unfolding(crate::specs::Values::angled))]
fn angled(depth: usize, lexeme: &Lexeme<'_>) -> usize
    requires { depth < 9223372036854775807 }
    ensures value { result ≡ angled depth (sign lexeme.now) }
    ensures within { result ≤ depth + 1 }
{
    if is("<", lexeme) {
        return depth + 1;
    }
    if is(">", lexeme) {
        return depth.saturating_sub(1);
    }
    depth
}

/// Whether the lexeme is a part of a name or type.
#[tactic(auto, unfolding(crate::specs::Values::takes))]
fn takes(depth: usize, lexeme: &Lexeme<'_>) -> bool
    ensures { result ≡ takes depth (sign lexeme.now) }
{
    depth == 0 && !(is(".", lexeme) || is("<", lexeme) || is(">", lexeme))
}

/// The parts of a name, or of a type without its dimensions.
#[tactic(auto, using(crate::proofs::Walks::walks))]
pub fn parts(alloc: Global, lexemes: &[Lexeme<'_>]) -> Result<Items<Text>, AllocError>
    ensures { IfOk result (λ all. all ≡ parts_of 0 (seen lexemes.now)) }
{
    let mut all = Items::new(alloc);
    let mut depth: usize = 0;
    for i in 0..lexemes.len() {
        let here = depth;
        depth = angled(here, &lexemes[i]);
        if !takes(here, &lexemes[i]) {
            continue;
        }
        all.push(Text::from_str(alloc, lexemes[i].word)?)?;
    }
    Ok(all)
}

/// The type at the front, with so many further dimensions.
#[tactic(auto, unfolding(crate::specs::Values::type_text))]
pub fn type_text(alloc: Global, extra: u64, lexemes: &[Lexeme<'_>]) -> Result<TypeText, AllocError>
    requires few { extra ≤ 9223372036854775808 }
    ensures exact { IfOk result (λ all. all ≡ type_text extra (seen lexemes.now)) }
{
    let n = base_len(lexemes);
    let parts = parts(alloc, prefix(lexemes, n))?;
    let own = dims_len(tail(lexemes, n)) / 2;
    Ok(TypeText {
        parts,
        dims: own as u64 + extra,
    })
}

/// The first bound of a type variable, from behind its name.
#[tactic(auto, unfolding(crate::specs::Values::bound_of))]
fn bound_of(alloc: Global, lexemes: &[Lexeme<'_>]) -> Result<Option<TypeText>, AllocError>
    ensures { IfOk result (λ all. all ≡ bound_of (seen lexemes.now)) }
{
    if bounds_len(lexemes) == 0 {
        return Ok(None);
    }
    let bound = type_text(alloc, 0, tail(lexemes, 1))?;
    Ok(Some(bound))
}

/// A type variable.
#[tactic(auto, unfolding(crate::specs::Values::var_of))]
fn var_of(alloc: Global, lexemes: &[Lexeme<'_>]) -> Result<TypeVar, AllocError>
    ensures { IfOk result (λ all. all ≡ var_of (seen lexemes.now)) }
{
    let name = Text::from_str(alloc, first_text(lexemes))?;
    let bound = bound_of(alloc, tail(lexemes, 1))?;
    Ok(TypeVar { name, bound })
}

/// Some type variables.
fn all_vars(alloc: Global, places: &[&[Lexeme<'_>]]) -> Result<Items<TypeVar>, AllocError>
    ensures { IfOk result (λ all. all ≡ map var_of (seens places.now)) }
{
    let mut all = Items::new(alloc);
    for i in 0..places.len() {
        all.push(var_of(alloc, places[i])?)?;
    }
    Ok(all)
}

/// The type variables at the front, or none.
#[tactic(auto, unfolding(crate::specs::Values::vars_of))]
pub fn vars_of(alloc: Global, lexemes: &[Lexeme<'_>]) -> Result<Items<TypeVar>, AllocError>
    ensures { IfOk result (λ all. all ≡ vars_of (seen lexemes.now)) }
{
    if vars_len(lexemes) == 0 {
        return Ok(Items::new(alloc));
    }
    let places = entries(alloc, Entry::Var, tail(lexemes, 1))?;
    all_vars(alloc, places.as_slice())
}

/// A parameter, from its type on.
#[tactic(auto, unfolding(crate::specs::Values::typed_param))]
fn typed_param(alloc: Global, lexemes: &[Lexeme<'_>]) -> Result<Param, AllocError>
    ensures { IfOk result (λ all. all ≡ typed_param (seen lexemes.now)) }
{
    let n = wide_len(lexemes);
    let named = tail(lexemes, n);
    let dots = dots_len(tail(lexemes, type_len(lexemes))) / 3;
    let after = dims_len(tail(named, 1)) / 2;
    let name = Text::from_str(alloc, first_text(named))?;
    let kind = type_text(alloc, dots as u64 + after as u64, lexemes)?;
    Ok(Param { name, kind })
}

/// A parameter.
#[tactic(auto, unfolding(crate::specs::Values::param_of))]
fn param_of(alloc: Global, lexemes: &[Lexeme<'_>]) -> Result<Param, AllocError>
    ensures { IfOk result (λ all. all ≡ param_of (seen lexemes.now)) }
{
    typed_param(alloc, tail(lexemes, ahead_len(lexemes)))
}

/// Adds a parameter that isn't named `this`.
#[tactic(auto, unfolding(crate::specs::Values::kept))]
fn keep(all: &mut Items<Param>, param: Param) -> Result<(), AllocError>
    ensures { OnOk result (all.new ≡ all.old ++ kept param) }
{
    if same("this", param.name.as_str()) {
        return Ok(());
    }
    all.push(param)
}

/// Some parameters but those named `this`.
fn all_params(alloc: Global, places: &[&[Lexeme<'_>]]) -> Result<Items<Param>, AllocError>
    ensures { IfOk result (λ all. all ≡ flat_map (λ x. kept (param_of x)) (seens places.now)) }
{
    let mut all = Items::new(alloc);
    for i in 0..places.len() {
        let param = param_of(alloc, places[i])?;
        keep(&mut all, param)?;
    }
    Ok(all)
}

/// The parameters, from their `(` on.
#[tactic(auto, unfolding(crate::specs::Values::params_of))]
pub fn params_of(alloc: Global, lexemes: &[Lexeme<'_>]) -> Result<Items<Param>, AllocError>
    ensures { IfOk result (λ all. all ≡ params_of (seen lexemes.now)) }
{
    let places = entries(alloc, Entry::Param, tail(lexemes, 1))?;
    all_params(alloc, places.as_slice())
}

/// A field of the type that stands at the front of `lexemes`.
#[tactic(auto, unfolding(crate::specs::Values::field_of))]
fn field_of(
    alloc: Global,
    flags: u16,
    lexemes: &[Lexeme<'_>],
    place: &[Lexeme<'_>],
) -> Result<SourceField, AllocError>
    ensures { IfOk result (λ all. all ≡ field_of flags (seen lexemes.now) (seen place.now)) }
{
    let name = Text::from_str(alloc, first_text(place))?;
    let dims = dims_len(tail(place, 1)) / 2;
    let kind = type_text(alloc, dims as u64, lexemes)?;
    Ok(SourceField { name, flags, kind })
}

/// Some fields of that type.
fn all_fields(
    alloc: Global,
    flags: u16,
    lexemes: &[Lexeme<'_>],
    places: &[&[Lexeme<'_>]],
) -> Result<Items<SourceField>, AllocError>
    ensures { IfOk result (λ all. all ≡ map (field_of flags (seen lexemes.now)) (seens places.now)) }
{
    let mut all = Items::new(alloc);
    for i in 0..places.len() {
        all.push(field_of(alloc, flags, lexemes, places[i])?)?;
    }
    Ok(all)
}

/// The fields that a type and their names declare.
#[tactic(auto, unfolding(crate::specs::Values::fields_of))]
pub fn fields_of(
    alloc: Global,
    flags: u16,
    lexemes: &[Lexeme<'_>],
) -> Result<Items<SourceField>, AllocError>
    ensures { IfOk result (λ all. all ≡ fields_of flags (seen lexemes.now)) }
{
    let places = entries(alloc, Entry::Field, tail(lexemes, type_len(lexemes)))?;
    all_fields(alloc, flags, lexemes, places.as_slice())
}

/// Some types.
fn all_types(alloc: Global, places: &[&[Lexeme<'_>]]) -> Result<Items<TypeText>, AllocError>
    ensures { IfOk result (λ all. all ≡ map (type_text 0) (seens places.now)) }
{
    let mut all = Items::new(alloc);
    for i in 0..places.len() {
        all.push(type_text(alloc, 0, places[i])?)?;
    }
    Ok(all)
}

/// The types of a list in the head of a class, where one of these words begins it.
#[tactic(auto, unfolding(crate::specs::Values::types_of))]
pub fn types_of(
    alloc: Global,
    words: &[&str],
    lexemes: &[Lexeme<'_>],
) -> Result<Items<TypeText>, AllocError>
    ensures { IfOk result (λ all. all ≡ types_of (texts words.now) (seen lexemes.now)) }
{
    if !begins_any(words, lexemes) {
        return Ok(Items::new(alloc));
    }
    let places = entries(alloc, Entry::Type, tail(lexemes, 1))?;
    all_types(alloc, places.as_slice())
}
