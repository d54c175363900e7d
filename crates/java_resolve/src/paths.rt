ghost use Rattle.std.specs.Prelude.{◌≡◌, ◌⊎◌, ℕ, List, [], Option, true, ◌++◌, IfOk};
ghost use Rattle.java_tokens.specs.Words.{is_word};
ghost use Rattle.java_shapes.specs.Words.{spells_identifier};
ghost use Rattle.java_shapes.specs.Shape.{named};
ghost use Rattle.java_shapes.specs.Reader.{Around, call_opened, later_step, is_sign, is_this_dot};
ghost use Rattle.java_resolve.specs.View.{around, place_part, spot_option, shape_view, before_view};

use crate::closing::close;
use crate::names::is_sign;
use crate::place::{Frame, Path, Place, Spot, here, later};
use crate::shape::{Before, Shape};
use crate::word::Word;
use lists::Items;
use std::alloc::{AllocError, Global};

/// Whether only `this` stands before a word.
fn is_this_dot(before: &Before, done: &Word) -> bool
    ensures { result ≡ is_this_dot (before_view before.now) done.now }
{
    match before {
        Before::Nothing => done.is("this."),
        _ => false,
    }
}

/// A name that ends with the word.
pub fn named(path: Path) -> Result<Shape, AllocError>
    ensures { IfOk result (λ s. shape_view s ≡ named (before_view path.before) (path.done ++ path.word)) }
{
    let Path {
        before,
        mut done,
        word,
    } = path;
    done.push_word(&word)?;
    Ok(Shape::Named(before, done))
}

/// The name that ends with the word, in a bracket behind it: a call.
fn called(path: Path) -> Result<Place, AllocError>
    ensures { (a : Around) (c : Option (List ℕ)) → IfOk result (λ p. place_part a c p ≡ call_opened a c (before_view path.before) (path.done ++ path.word)) }
{
    let Path {
        before,
        mut done,
        word,
    } = path;
    done.push_word(&word)?;
    Ok(Place::CallOpened(before, done))
}

/// A bracket behind an identifier.
fn later_bracket(cast: Option<Word>, path: Path) -> Result<Option<Spot>, AllocError>
    requires { spells_identifier path.word ≡ true }
    ensures { (a : Around) → IfOk result (λ r. spot_option a r ≡ later_step a cast (before_view path.before) path.done path.word 40) }
{
    if is_this_dot(&path.before, &path.done) {
        return Ok(None);
    }
    Ok(Some(here(cast, called(path)?)))
}

/// A dot behind an identifier.
fn later_dot(alloc: Global, cast: Option<Word>, path: Path) -> Result<Option<Spot>, AllocError>
    requires { spells_identifier path.word ≡ true }
    ensures { (a : Around) → IfOk result (λ r. spot_option a r ≡ later_step a cast (before_view path.before) path.done path.word 46) }
{
    let Path {
        before,
        mut done,
        mut word,
    } = path;
    word.push('.')?;
    done.push_word(&word)?;
    Ok(Some(here(cast, later(alloc, before, done))))
}

/// A sign behind a later word.
fn later_sign(
    alloc: Global,
    frames: &mut Items<Frame>,
    cast: Option<Word>,
    path: Path,
    k: char,
) -> Result<Option<Spot>, AllocError>
    requires { is_sign k ≡ true }
    ensures { IfOk result (λ r. spot_option (around frames.new) r ≡ later_step (around frames.old) cast (before_view path.before) path.done path.word k) }
{
    if !path.word.is_identifier() {
        return Ok(None);
    }
    match k {
        '(' => later_bracket(cast, path),
        '.' => later_dot(alloc, cast, path),
        _ => {
            if matches!(path.before, Before::Fresh) {
                return Ok(None);
            }
            let name = named(path)?;
            close(alloc, frames, cast, name, k)
        }
    }
}

/// A character in a later word.
pub fn later_step(
    alloc: Global,
    frames: &mut Items<Frame>,
    cast: Option<Word>,
    mut path: Path,
    k: char,
) -> Result<Option<Spot>, AllocError>
    requires { (path.word ≡ []) ⊎ (is_word path.word ≡ true) }
    ensures { IfOk result (λ r. spot_option (around frames.new) r ≡ later_step (around frames.old) cast (before_view path.before) path.done path.word k) }
{
    if is_sign(k) {
        return later_sign(alloc, frames, cast, path, k);
    }
    if !path.word.goes_on(k) {
        return Ok(None);
    }
    path.word.push(k)?;
    Ok(Some(here(cast, Place::Later(path))))
}
