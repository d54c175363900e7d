ghost use Rattle.std.specs.Prelude.{◌≡◌, IfOk};
ghost use Rattle.std.specs.Str.{IsCharBoundary};
ghost use Rattle.java_tokens.specs.Tokens.{AreTokensOf};
ghost use Rattle.java_units.specs.Signs.{seen};
ghost use Rattle.java_units.specs.Units.{IsUnit};
ghost use Rattle.java_bodies.specs.Sites.{sight_in, body_signs, is_static, site_by, in_body, in_method, hole_behind, hole_of};

use crate::blocks::is_in_blocks;
use crate::body::Body;
use crate::methods::{MethodPlace, Split, method_at, signs_before, signs_from};
use crate::names::{Names, names_of};
use crate::places::{is_free, passed, prefix_start, touched};
use crate::scope::variables_of;
use crate::statements::own_statement;
use crate::wanted::wanted;
use java_tokens::Token;
use java_units::forms::{lexemes, tail};
use java_units::{SourceClass, SourceMethod, TypeText, Unit};
use lists::{Items, Text};
use std::alloc::{AllocError, Global};

/// A local variable or a parameter, with its type as the text spells it.
#[derive(Debug, Drop)]
pub struct Local {
    pub name: Text,
    pub kind: TypeText,
}

/// A hole: a place of a text at which a value is asked for. `wanted` is the type that it is to have, as the
/// text spells it. `class` and `method` are the numbers of the class in the unit and of the method in the
/// class; `is_static` tells whether the method has `static`. `locals` are the variables and parameters in
/// scope, each name once; `hidden` are the names in scope that have no type which can be used, as those of
/// `var`. `prefix` are the places of the first byte of the word that ends at the hole, and of the hole.
#[derive(Debug, Drop)]
pub struct HoleSite {
    pub wanted: TypeText,
    pub class: u32,
    pub method: u32,
    pub is_static: bool,
    pub locals: Items<Local>,
    pub hidden: Items<Text>,
    pub prefix: (u32, u32),
}

/// The type that a hole asks for, and the names in its scope.
#[derive(Debug, Drop)]
struct Sight {
    wanted: TypeText,
    names: Names,
}

/// A number of 32 bits. A text of at most 16 MiB has no larger one.
fn short(number: usize) -> Result<u32, AllocError>
    ensures { IfOk result (λ n. n ≡ number) }
{
    u32::try_from(number).map_err(|_| AllocError)
}

/// What a hole in a body asks for and which names are in its scope.
#[tactic(auto, unfolding(crate::specs::Sites::sight_in))]
fn sight_in(
    alloc: Global,
    class: &SourceClass,
    method: &SourceMethod,
    body: &Body<'_, '_>,
) -> Result<Option<Sight>, AllocError>
    ensures { IfOk result (λ s. s ≡ sight_in class.now method.now body.now) }
{
    if !is_in_blocks(body) {
        return Ok(None);
    }
    let variables = variables_of(alloc, method.params.as_slice(), body)?;
    let names = names_of(alloc, variables.as_slice())?;
    let Some(wanted) = wanted(alloc, own_statement(body.before()), class, method, &names)? else {
        return Ok(None);
    };
    Ok(Some(Sight { wanted, names }))
}

/// What stands behind the `{` of this number, with the hole.
#[tactic(auto, unfolding(crate::specs::Sites::body_signs))]
fn body_of<'a, 'b>(
    alloc: Global,
    split: &Split<'a, 'b>,
    number: usize,
) -> Result<Body<'a, 'b>, AllocError>
    ensures { IfOk result (λ b. b ≡ body_signs split.now.passed (seen split.now.lexemes.now) number) }
{
    let whole = tail(signs_from(number, split.lexemes), 1);
    Body::new(alloc, whole, signs_before(split.passed, whole))
}

/// Whether the flags have STATIC.
fn is_static(flags: u16) -> bool
    ensures { result ≡ is_static flags }
{
    flags & 0x0008 == 0x0008
}

/// The site of what is seen in a method.
fn site_by(
    place: MethodPlace,
    is_static: bool,
    prefix: (u32, u32),
    sight: Option<Sight>,
) -> Result<Option<HoleSite>, AllocError>
    ensures { IfOk result (λ site. site ≡ site_by place is_static prefix sight) }
{
    let Some(sight) = sight else {
        return Ok(None);
    };
    let Sight { wanted, names } = sight;
    let Names { locals, hidden } = names;
    Ok(Some(HoleSite {
        wanted,
        class: short(place.class)?,
        method: short(place.method)?,
        is_static,
        locals,
        hidden,
        prefix,
    }))
}

/// The hole in a method.
fn in_method(
    alloc: Global,
    split: &Split<'_, '_>,
    prefix: (u32, u32),
    place: MethodPlace,
    class: &SourceClass,
    method: &SourceMethod,
) -> Result<Option<HoleSite>, AllocError>
    ensures { IfOk result (λ site. site ≡ in_body split.now.passed (seen split.now.lexemes.now) prefix place class.now method.now method.now.body) }
{
    let Some((first, _)) = method.body else {
        return Ok(None);
    };
    let body = body_of(alloc, split, first as usize)?;
    let seen = sight_in(alloc, class, method, &body)?;
    site_by(place, is_static(method.flags), prefix, seen)
}

/// The hole with this prefix.
#[tactic(auto, unfolding(crate::specs::Sites::hole_behind))]
fn hole_behind(
    alloc: Global,
    split: &Split<'_, '_>,
    prefix: (u32, u32),
    classes: &[SourceClass],
) -> Result<Option<HoleSite>, AllocError>
    ensures { IfOk result (λ site. site ≡ hole_behind split.now.passed split.now.count (seen split.now.lexemes.now) prefix classes.now) }
{
    let Some(place) = method_at(split, classes) else {
        return Ok(None);
    };
    let Some(class) = classes.get(place.class) else {
        return Ok(None);
    };
    let Some(method) = class.methods.get(place.method) else {
        return Ok(None);
    };
    in_method(alloc, split, prefix, place, class, method)
}

/// The hole at a place of a text, which is counted in bytes and lies at a whole character; `tokens` and `unit`
/// are those of the text. None comes exactly where there is no hole. It takes time linear in the text, but for
/// a look-up of each name in scope, whatever is nested in it. An Err is want of memory.
#[tactic(auto, unfolding(crate::specs::Sites::hole_of))]
pub fn hole_at(
    alloc: Global,
    text: &str,
    tokens: &[Token],
    unit: &Unit,
    place: u32,
) -> Result<Option<HoleSite>, AllocError>
    requires own_tokens { AreTokensOf text.now tokens.now }
    requires own_unit { IsUnit text.now tokens.now unit.now }
    requires boundary { IsCharBoundary text.now place }
    ensures exact { IfOk result (λ site. site ≡ hole_of text.now tokens.now unit.now place) }
{
    let touched = touched(tokens, place);
    if !is_free(text, place, touched) {
        return Ok(None);
    }
    let start = prefix_start(place, touched);
    let all = lexemes(alloc, text, tokens)?;
    let split = Split {
        passed: passed(tokens, start),
        count: tokens.len(),
        lexemes: all.as_slice(),
    };
    hole_behind(alloc, &split, (start, place), unit.classes.as_slice())
}
