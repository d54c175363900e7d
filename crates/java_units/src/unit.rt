ghost use Rattle.std.specs.Prelude.{◌≡◌, [], IfOk, length, take};
ghost use Rattle.std.specs.List.{flat_map};
ghost use Rattle.java_tokens.specs.Tokens.{AreTokensOf};
ghost use Rattle.java_units.specs.Signs.{seen, seens, signs_of};
ghost use Rattle.java_units.specs.Pieces.{pieces, form_of};
ghost use Rattle.java_units.specs.Units.{is_class, packages, imports, package_of, import_of, import_in, AreClasses, IsUnit};
ghost use Rattle.java_units.specs.UnitLaws.{AreFew, HasUnit, IsNested, IsOnlyUnit};
ghost use Rattle.java_units.specs.Dimensions.{HasFewDims};

use crate::class::{Around, class_of, members_of};
use crate::lexemes::{Lexeme, prefix, tail};
use crate::members::short;
use crate::names::name_len;
use crate::pieces::{Form, bare, piece_len};
use crate::reading::lexemes;
use crate::starts::{Run, starts};
use crate::table::{form_of, star_len};
use crate::types::{Import, SourceClass, Unit};
use crate::values::parts;
use java_tokens::Token;
use lists::{Items, Text};
use std::alloc::{AllocError, Global};

/// Whether a piece is a class.
#[tactic(auto, unfolding(crate::specs::Units::is_class))]
fn is_class(piece: &[Lexeme<'_>]) -> bool
    ensures { result ≡ is_class (seen piece.now) }
{
    match form_of("", piece) {
        Form::Class => true,
        Form::Package => false,
        Form::Import => false,
        Form::Constructor => false,
        Form::Method => false,
        Form::Field => false,
        Form::Nothing => false,
    }
}

/// A body of which some is left: the class that it is of, if any, and what is left.
#[derive(Clone, Copy)]
pub struct Frame<'a, 'b> {
    around: Option<Around>,
    rest: &'b [Lexeme<'a>],
}

/// The classes of a text, in its order.
fn classes(
    alloc: Global,
    count: usize,
    lexemes: &[Lexeme<'_>],
) -> Result<Items<SourceClass>, AllocError>
    ensures { IfOk result (λ classes. AreClasses count (seen lexemes.now) classes) }
{
    let mut classes = Items::new(alloc);
    let mut frames = Vec::new(alloc);
    frames.push(Frame {
        around: None,
        rest: lexemes,
    })?;
    for _ in 0..u64::MAX {
        let Some(frame) = frames.pop() else {
            return Ok(classes);
        };
        if frame.rest.is_empty() {
            continue;
        }
        let after = tail(frame.rest, piece_len(frame.rest));
        frames.push(Frame {
            around: frame.around,
            rest: after,
        })?;
        if !is_class(frame.rest) {
            continue;
        }
        let number = short(classes.len())?;
        let class = class_of(alloc, frame.around, count, frame.rest)?;
        let kind = class.kind;
        classes.push(class)?;
        frames.push(Frame {
            around: Some(Around { number, kind }),
            rest: members_of(kind, frame.rest),
        })?;
    }
    Err(AllocError)
}

/// Whether a piece names the package.
fn is_package(piece: &[Lexeme<'_>]) -> bool
    ensures { result ≡ packages (form_of [] (seen piece.now)) }
{
    match form_of("", piece) {
        Form::Package => true,
        Form::Import => false,
        Form::Class => false,
        Form::Constructor => false,
        Form::Method => false,
        Form::Field => false,
        Form::Nothing => false,
    }
}

/// Whether a piece is an import.
fn is_import(piece: &[Lexeme<'_>]) -> bool
    ensures { result ≡ imports (form_of [] (seen piece.now)) }
{
    match form_of("", piece) {
        Form::Import => true,
        Form::Package => false,
        Form::Class => false,
        Form::Constructor => false,
        Form::Method => false,
        Form::Field => false,
        Form::Nothing => false,
    }
}

/// The first package that the pieces name.
fn package_of(alloc: Global, places: &[&[Lexeme<'_>]]) -> Result<Items<Text>, AllocError>
    ensures { IfOk result (λ all. all ≡ package_of (seens places.now)) }
{
    for i in 0..places.len() {
        if is_package(places[i]) {
            let name = parts(alloc, tail(bare(places[i]), 1))?;
            return Ok(name);
        }
    }
    Ok(Items::new(alloc))
}

/// An import, from behind its word.
#[tactic(auto, unfolding(crate::specs::Units::import_of))]
fn import_of(alloc: Global, lexemes: &[Lexeme<'_>]) -> Result<Import, AllocError>
    ensures { IfOk result (λ import. import ≡ import_of (seen lexemes.now)) }
{
    let n = name_len(lexemes);
    let parts = parts(alloc, prefix(lexemes, n))?;
    Ok(Import {
        parts,
        star: star_len(tail(lexemes, n)) != 0,
    })
}

/// What a piece imports.
#[tactic(auto, unfolding(crate::specs::Units::import_in))]
fn import_in(alloc: Global, piece: &[Lexeme<'_>]) -> Result<Items<Import>, AllocError>
    ensures { IfOk result (λ all. all ≡ import_in (seen piece.now)) }
{
    let mut all = Items::new(alloc);
    if !is_import(piece) {
        return Ok(all);
    }
    all.push(import_of(alloc, tail(bare(piece), 1))?)?;
    Ok(all)
}

/// What the pieces import.
fn imports_of(alloc: Global, places: &[&[Lexeme<'_>]]) -> Result<Items<Import>, AllocError>
    ensures { IfOk result (λ all. all ≡ flat_map import_in (seens places.now)) }
{
    let mut all = Items::new(alloc);
    for i in 0..places.len() {
        let imports = import_in(alloc, places[i])?;
        all.append(imports)?;
    }
    Ok(all)
}

/// Reads what a text declares; `tokens` are its tokens. Nothing is refused: what isn't recognised gives
/// nothing. It takes time linear in the text, whatever is nested in it. Each text has exactly one unit. There
/// are no more classes than tokens, and no more methods in a class. Each class stands after the class around
/// it, and the dimensions of types are few: those of a super, or of the type of a field, a parameter or a
/// result, and those of all bounds of type variables, added up, are at most twice as many as the tokens. An
/// Err is want of memory.
pub fn read_unit(alloc: Global, text: &str, tokens: &[Token]) -> Result<Unit, AllocError>
    requires own_tokens { AreTokensOf text.now tokens.now }
    ensures exact { IfOk result (λ unit. IsUnit text.now tokens.now unit) }
    ensures total { HasUnit text.now tokens.now }
    ensures only { IfOk result (λ unit. IsOnlyUnit text.now tokens.now unit) }
    ensures counts { IfOk result (λ unit. AreFew tokens.now unit.classes) }
    ensures outers { IfOk result (λ unit. IsNested unit.classes) }
    ensures dims { IfOk result (λ unit. HasFewDims text.now tokens.now unit.classes) }
{
    let all = lexemes(alloc, text, tokens)?;
    let signs = all.as_slice();
    let pieces = starts(alloc, Run::Pieces, signs)?;
    let places = pieces.as_slice();
    let package = package_of(alloc, places)?;
    let imports = imports_of(alloc, places)?;
    let classes = classes(alloc, tokens.len(), signs)?;
    Ok(Unit {
        package,
        imports,
        classes,
    })
}
