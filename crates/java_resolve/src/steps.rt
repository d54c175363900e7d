ghost use Rattle.std.specs.Prelude.{◌≡◌, ℕ, List, ◌++◌, ◌&&◌, not, chars, IfOk};
ghost use Rattle.java_shapes.specs.Words.{spells_identifier};
ghost use Rattle.java_shapes.specs.Shape.{named};
ghost use Rattle.java_shapes.specs.Reader.{Around, step, first, later, call_opened, call_closed, either, binders_opened, due, is_fresh, unwrapped, ended};
ghost use Rattle.java_shapes.proofs.Ends.{IsPart};
ghost use Rattle.java_resolve.specs.View.{around, spot_part, spot_option, place_part, due_all, shape_option, before_view, args_view};

use crate::binders::{arrow, binder_step};
use crate::closing::{close, unwrapped};
use crate::names::first_step;
use crate::nesting::{as_before, as_shape, enter, plain};
use crate::openings::{either_closed_step, either_opened_step, either_word_step, opened_step};
use crate::paths::{later_step, named};
use crate::place::{Binders, Call, Frame, Path, Place, Spot, behind, here, later, when};
use crate::shape::{Before, Shape};
use crate::types::{sized_step, typing_step};
use crate::word::Word;
use lists::Items;
use std::alloc::{AllocError, Global};

/// A character behind the `(` of a call: its `)`, or one that begins an argument.
#[tactic(auto, unfolding(java_shapes::specs::Reader::step))]
fn call_opened_step(
    alloc: Global,
    frames: &mut Items<Frame>,
    cast: Option<Word>,
    before: Before,
    name: Word,
    k: char,
) -> Result<Option<Spot>, AllocError>
    ensures { (p : List ℕ) → IfOk result (λ r. spot_option (around frames.new) r ≡ step p (call_opened (around frames.old) cast (before_view before) name) k) }
{
    let call = Call {
        before,
        name,
        args: Items::new(alloc),
    };
    if k == ')' {
        return Ok(Some(here(cast, Place::CallClosed(call))));
    }
    enter(frames, Frame::Call(cast, call))?;
    first_step(alloc, frames, None, Word::new(alloc), k)
}

/// A character behind the `)` of a call.
#[tactic(auto, unfolding(java_shapes::specs::Reader::step))]
fn call_closed_step(
    alloc: Global,
    frames: &mut Items<Frame>,
    cast: Option<Word>,
    call: Call,
    k: char,
) -> Result<Option<Spot>, AllocError>
    ensures { (p : List ℕ) → IfOk result (λ r. spot_option (around frames.new) r ≡ step p (call_closed (around frames.old) cast (before_view call.before) call.name (args_view call.args)) k) }
{
    if k == '.' {
        let before = as_before(alloc, call)?;
        return Ok(Some(here(cast, later(alloc, before, Word::new(alloc)))));
    }
    let expression = as_shape(call)?;
    close(alloc, frames, cast, expression, k)
}

/// A character behind `(T) `, which may be a cast or the interface of a lambda.
#[tactic(auto, unfolding(java_shapes::specs::Reader::step))]
fn either_step(
    alloc: Global,
    frames: &mut Items<Frame>,
    text: Word,
    k: char,
) -> Result<Option<Spot>, AllocError>
    ensures { (p : List ℕ) → IfOk result (λ r. spot_option (around frames.new) r ≡ step p (either (around frames.old) text) k) }
{
    if k == '(' {
        return Ok(Some(here(None, Place::EitherOpened(text))));
    }
    first_step(alloc, frames, Some(text), Word::new(alloc), k)
}

/// A character behind the `(` of binders.
#[tactic(auto, unfolding(java_shapes::specs::Reader::step))]
fn binders_opened_step(
    alloc: Global,
    frames: &mut Items<Frame>,
    binder: &str,
    cast: Option<Word>,
    interface: Word,
    k: char,
) -> Result<Option<Spot>, AllocError>
    ensures { IfOk result (λ r. spot_option (around frames.new) r ≡ step (chars binder.now) (binders_opened (around frames.old) cast interface) k) }
{
    if k == ')' {
        return Ok(Some(arrow(alloc, frames, cast, interface, Items::new(alloc))?));
    }
    let binders = Binders {
        interface,
        done: Items::new(alloc),
        word: Word::new(alloc),
    };
    binder_step(alloc, frames, binder, cast, binders, k)
}

/// A character at a place with nothing due before it.
#[tactic(auto, unfolding(java_shapes::specs::Reader::step))]
fn place_step(
    alloc: Global,
    frames: &mut Items<Frame>,
    binder: &str,
    cast: Option<Word>,
    place: Place,
    k: char,
) -> Result<Option<Spot>, AllocError>
    requires { IsPart (chars binder.now) (place_part (around frames.old) cast place) }
    ensures { IfOk result (λ r. spot_option (around frames.new) r ≡ step (chars binder.now) (place_part (around frames.old) cast place) k) }
{
    match place {
        Place::First(word) => first_step(alloc, frames, cast, word, k),
        Place::Later(path) => later_step(alloc, frames, cast, path, k),
        Place::Opened => opened_step(alloc, frames, cast, k),
        Place::Typing(typing) => typing_step(alloc, frames.as_slice(), cast, typing, k),
        Place::Sized(text) => sized_step(alloc, text, k),
        Place::Either(text) => either_step(alloc, frames, text, k),
        Place::EitherOpened(text) => either_opened_step(alloc, frames, text, k),
        Place::EitherWord(text, word) => either_word_step(alloc, binder, text, word, k),
        Place::EitherClosed(text, word) => {
            either_closed_step(alloc, frames, binder, text, word, k)
        }
        Place::BindersOpened(interface) => {
            binders_opened_step(alloc, frames, binder, cast, interface, k)
        }
        Place::InBinder(binders) => binder_step(alloc, frames, binder, cast, binders, k),
        Place::CallOpened(before, name) => call_opened_step(alloc, frames, cast, before, name, k),
        Place::CallClosed(call) => call_closed_step(alloc, frames, cast, call, k),
    }
}

/// A character more.
#[tactic(auto, unfolding(java_shapes::specs::Reader::step))]
pub fn step(
    alloc: Global,
    frames: &mut Items<Frame>,
    binder: &str,
    spot: Spot,
    k: char,
) -> Result<Option<Spot>, AllocError>
    requires { IsPart (chars binder.now) (spot_part (around frames.old) spot) }
    ensures { IfOk result (λ r. spot_option (around frames.new) r ≡ step (chars binder.now) (spot_part (around frames.old) spot) k) }
{
    let Spot { due, cast, place } = spot;
    match due {
        [] => place_step(alloc, frames, binder, cast, place, k),
        [first, more @ ..] => Ok(due_step(*first, more, cast, place, k)),
    }
}

/// A character where one is due.
#[tactic(auto, unfolding(java_shapes::specs::Reader::step))]
fn due_step(
    first: char,
    more: &'static [char],
    cast: Option<Word>,
    place: Place,
    k: char,
) -> Option<Spot>
    ensures { (p : List ℕ) (a : Around) → spot_option a result ≡ step p (due first (due_all more.now (place_part a cast place))) k }
{
    when(first == k, behind(more, cast, place))
}

/// Whether a name may end with the word.
fn may_end(path: &Path) -> bool
    ensures { result ≡ (spells_identifier path.now.word && not (is_fresh (before_view path.now.before))) }
{
    if is_fresh(&path.before) {
        return false;
    }
    path.word.is_identifier()
}

/// Whether `new ` stands before a name.
fn is_fresh(before: &Before) -> bool
    ensures { result ≡ is_fresh (before_view before.now) }
{
    match before {
        Before::Nothing => false,
        Before::Fresh => true,
        Before::Behind(_, _, _, _) => false,
        Before::InBrackets(_, _, _) => false,
    }
}

/// The expression that ends with a later word.
fn path_unwrapped(
    alloc: Global,
    frames: &mut Items<Frame>,
    cast: Option<Word>,
    path: Path,
) -> Result<Option<Shape>, AllocError>
    ensures { IfOk result (λ r. shape_option r ≡ unwrapped (around frames.old) cast (named (before_view path.before) (path.done ++ path.word))) }
{
    let name = named(path)?;
    unwrapped(alloc, frames, cast, name)
}

/// The expression that was read, where one ends behind a later word.
fn later_ended(
    alloc: Global,
    frames: &mut Items<Frame>,
    cast: Option<Word>,
    path: Path,
) -> Result<Option<Shape>, AllocError>
    ensures { IfOk result (λ r. shape_option r ≡ ended (later (around frames.old) cast (before_view path.before) path.done path.word)) }
{
    if may_end(&path) {
        path_unwrapped(alloc, frames, cast, path)
    } else {
        Ok(None)
    }
}

/// The expression that was read, where one ends behind the first word.
fn first_ended(
    alloc: Global,
    frames: &mut Items<Frame>,
    cast: Option<Word>,
    word: Word,
) -> Result<Option<Shape>, AllocError>
    ensures { IfOk result (λ r. shape_option r ≡ ended (first (around frames.old) cast word)) }
{
    if word.begins_name() {
        unwrapped(alloc, frames, cast, plain(word))
    } else {
        Ok(None)
    }
}

/// The expression that was read, where one ends behind the `)` of a call.
fn call_ended(
    alloc: Global,
    frames: &mut Items<Frame>,
    cast: Option<Word>,
    call: Call,
) -> Result<Option<Shape>, AllocError>
    ensures { IfOk result (λ r. shape_option r ≡ ended (call_closed (around frames.old) cast (before_view call.before) call.name (args_view call.args))) }
{
    let expression = as_shape(call)?;
    unwrapped(alloc, frames, cast, expression)
}

/// The expression that was read, where one ends at this place.
fn place_ended(
    alloc: Global,
    frames: &mut Items<Frame>,
    cast: Option<Word>,
    place: Place,
) -> Result<Option<Shape>, AllocError>
    ensures { IfOk result (λ r. shape_option r ≡ ended (place_part (around frames.old) cast place)) }
{
    match place {
        Place::First(word) => first_ended(alloc, frames, cast, word),
        Place::Later(path) => later_ended(alloc, frames, cast, path),
        Place::CallClosed(call) => call_ended(alloc, frames, cast, call),
        _ => Ok(None),
    }
}

/// The expression that was read, where one ends here.
pub fn ended(
    alloc: Global,
    frames: &mut Items<Frame>,
    spot: Spot,
) -> Result<Option<Shape>, AllocError>
    ensures { IfOk result (λ r. shape_option r ≡ ended (spot_part (around frames.old) spot)) }
{
    let Spot { due, cast, place } = spot;
    match due {
        [] => place_ended(alloc, frames, cast, place),
        [_, ..] => Ok(None),
    }
}
