ghost use Rattle.std.specs.Prelude.{◌≡◌, ◌∷◌, ◌&&◌, ◌≤◌, [], if◌then◌else◌, codes, IfOk, None, drop, length};
ghost use Rattle.java_units.specs.Signs.{seen};
ghost use Rattle.java_units.specs.Forms.{begins, span};
ghost use Rattle.java_units.specs.Values.{type_text};
ghost use Rattle.java_bodies.specs.Statements.{typed, named};
ghost use Rattle.java_bodies.specs.Kept.{keeps};
ghost use Rattle.java_bodies.specs.declared.mark.Brackets.TheVariants.{Blocks};
ghost use Rattle.java_bodies.specs.Variables.{usable, is_each, each, for_header, alternative_len, caught, is_catch, catching, catch_header, begins_at, inside, header_signs, resource_at, try_header, header_variables};

use crate::blocks::follows;
use crate::body::Body;
use crate::statements::{is_just, may_begin, named, statement, typed};
use crate::variables::{Variable, declared, usable};
use java_units::TypeText;
use java_units::forms::{
    Lexeme, begins, begins_name, first_text, prefix, tail, type_len, type_text,
};
use lists::{Items, Text};
use std::alloc::{AllocError, Global};

/// A list of one variable.
fn single(alloc: Global, variable: Variable) -> Result<Items<Variable>, AllocError>
    ensures { IfOk result (λ all. all ≡ variable ∷ []) }
{
    let mut all = Items::new(alloc);
    all.push(variable)?;
    Ok(all)
}

/// Whether `TYPE N :` stands in the header of a `for`.
#[tactic(auto, unfolding(crate::specs::Variables::is_each))]
fn is_each(header: &[Lexeme<'_>]) -> bool
    ensures { result ≡ is_each (seen header.now) }
{
    if type_len(typed(header)) == 0 {
        return false;
    }
    let named = named(header);
    begins_name(named) && begins(":", tail(named, 1))
}

/// The variable of the type and the name there.
#[tactic(auto, unfolding(crate::specs::Variables::each))]
fn each(alloc: Global, header: &[Lexeme<'_>]) -> Result<Variable, AllocError>
    ensures { IfOk result (λ v. v ≡ each (seen header.now)) }
{
    let name = Text::from_str(alloc, first_text(named(header)))?;
    let kind = type_text(alloc, 0, typed(header))?;
    Ok(Variable {
        name,
        kind: usable(kind),
    })
}

/// What the header of a `for` declares.
#[tactic(auto, unfolding(crate::specs::Variables::for_header))]
fn for_header(alloc: Global, header: &[Lexeme<'_>]) -> Result<Items<Variable>, AllocError>
    ensures { IfOk result (λ all. all ≡ for_header (seen header.now)) }
{
    if is_each(header) {
        let variable = each(alloc, header)?;
        return single(alloc, variable);
    }
    declared(alloc, statement(header))
}

/// `| TYPE`
#[tactic(auto, using(crate::proofs::Lengths::lengths), unfolding(crate::specs::Variables::alternative_len))]
fn alternative_len(lexemes: &[Lexeme<'_>]) -> usize
    ensures value { result ≡ alternative_len (seen lexemes.now) }
    ensures within { result ≤ length (seen lexemes.now) }
{
    if !begins("|", lexemes) {
        return 0;
    }
    let n = type_len(tail(lexemes, 1));
    if n == 0 {
        return 0;
    }
    1 + n
}

/// Such alternatives, one after the other.
#[tactic(auto, using(crate::proofs::Lengths::lengths))]
fn alternatives_len(lexemes: &[Lexeme<'_>]) -> usize
    ensures value { result ≡ span alternative_len (seen lexemes.now) }
    ensures within { result ≤ length (seen lexemes.now) }
{
    let mut n = 0;
    loop {
        let len = alternative_len(tail(lexemes, n));
        if len == 0 {
            return n;
        }
        n += len;
    }
}

/// What follows the types of a `catch` header.
#[tactic(auto, unfolding(crate::specs::Variables::caught))]
fn caught<'a, 'b>(header: &'b [Lexeme<'a>]) -> &'b [Lexeme<'a>]
    ensures { seen result.now ≡ caught (seen header.now) }
{
    let named = named(header);
    tail(named, alternatives_len(named))
}

/// Whether a `catch` header names a variable.
#[tactic(auto, unfolding(crate::specs::Variables::is_catch))]
fn is_catch(header: &[Lexeme<'_>]) -> bool
    ensures { result ≡ is_catch (seen header.now) }
{
    if type_len(typed(header)) == 0 {
        return false;
    }
    let caught = caught(header);
    begins_name(caught) && is_just(")", tail(caught, 1))
}

/// The type of that variable; none where there are several.
fn caught_kind(alloc: Global, header: &[Lexeme<'_>]) -> Result<Option<TypeText>, AllocError>
    ensures { IfOk result (λ kind. kind ≡ (if begins (codes "|") (named (seen header.now)) then None else usable (type_text 0 (typed (seen header.now))))) }
{
    if begins("|", named(header)) {
        return Ok(None);
    }
    let kind = type_text(alloc, 0, typed(header))?;
    Ok(usable(kind))
}

/// That variable.
#[tactic(auto, unfolding(crate::specs::Variables::catching))]
fn catching(alloc: Global, header: &[Lexeme<'_>]) -> Result<Variable, AllocError>
    ensures { IfOk result (λ v. v ≡ catching (seen header.now)) }
{
    let name = Text::from_str(alloc, first_text(caught(header)))?;
    let kind = caught_kind(alloc, header)?;
    Ok(Variable { name, kind })
}

/// What the header of a `catch` declares.
#[tactic(auto, unfolding(crate::specs::Variables::catch_header))]
fn catch_header(alloc: Global, header: &[Lexeme<'_>]) -> Result<Items<Variable>, AllocError>
    ensures { IfOk result (λ all. all ≡ catch_header (seen header.now)) }
{
    if !is_catch(header) {
        return Ok(Items::new(alloc));
    }
    let variable = catching(alloc, header)?;
    single(alloc, variable)
}

/// Whether a statement begins at a place.
#[tactic(auto, unfolding(crate::specs::Variables::begins_at))]
pub fn begins_at(body: &Body<'_, '_>, k: usize) -> bool
    ensures { result ≡ begins_at body.now.before body.now.whole k }
{
    may_begin(body.before(), k) && body.keeps_rounds(k)
}

/// What the statement at a place of a `try` header declares; `inside` is the header without its `)`.
#[tactic(auto, unfolding(crate::specs::Variables::resource_at))]
fn resource_at(
    alloc: Global,
    header: &[Lexeme<'_>],
    inside: &Body<'_, '_>,
    k: usize,
) -> Result<Items<Variable>, AllocError>
    requires { inside.now ≡ header_signs (seen header.now) }
    ensures { IfOk result (λ all. all ≡ resource_at (seen header.now) k) }
{
    if !body_begins_at(inside, k) {
        return Ok(Items::new(alloc));
    }
    declared(alloc, statement(tail(header, k)))
}

/// Whether a statement that a hole at the end sees begins at a place.
pub fn body_begins_at(body: &Body<'_, '_>, k: usize) -> bool
    ensures { result ≡ (keeps Blocks (drop k body.now.before) && begins_at body.now.before body.now.whole k) }
{
    body.keeps_blocks(k) && begins_at(body, k)
}

/// A header without its `)`.
fn inside<'a, 'b>(alloc: Global, header: &'b [Lexeme<'a>]) -> Result<Body<'a, 'b>, AllocError>
    ensures { IfOk result (λ b. b ≡ header_signs (seen header.now)) }
{
    let len = header.len().saturating_sub(1);
    Body::new(alloc, prefix(header, len), len)
}

/// What the header of a `try` declares.
fn try_header(alloc: Global, header: &[Lexeme<'_>]) -> Result<Items<Variable>, AllocError>
    ensures { IfOk result (λ all. all ≡ try_header (seen header.now)) }
{
    let mut all = Items::new(alloc);
    let inside = inside(alloc, header)?;
    for k in 0..inside.before().len() {
        let more = resource_at(alloc, header, &inside, k)?;
        all.append(more)?;
    }
    Ok(all)
}

/// What the header behind the `(` at this place declares, by the word before it.
#[tactic(auto, unfolding(crate::specs::Variables::header_variables))]
pub fn header_variables(
    alloc: Global,
    lexemes: &[Lexeme<'_>],
    opening: usize,
    header: &[Lexeme<'_>],
) -> Result<Items<Variable>, AllocError>
    ensures { IfOk result (λ all. all ≡ header_variables (seen lexemes.now) opening (seen header.now)) }
{
    if follows(&["for"], lexemes, opening) {
        return for_header(alloc, header);
    }
    if follows(&["catch"], lexemes, opening) {
        return catch_header(alloc, header);
    }
    if follows(&["try"], lexemes, opening) {
        return try_header(alloc, header);
    }
    Ok(Items::new(alloc))
}
