ghost use Rattle.std.specs.Prelude.{◌≡◌, ℕ, List, [], ◌∷◌, Some, None, true, chars, IfOk, if◌then◌else◌};
ghost use Rattle.java_tokens.specs.Words.{is_word};
ghost use Rattle.java_shapes.specs.Reader.{Around, step, opened, either_opened, either_word, either_closed};
ghost use Rattle.java_resolve.specs.View.{around, spot_option};

use crate::binders::arrow;
use crate::nesting::{enter, is_barred};
use crate::place::{Binders, Frame, Place, Spot, Typing, behind, here, start};
use crate::word::Word;
use lists::Items;
use std::alloc::{AllocError, Global};

/// The word that begins with this character, where one may.
fn word_from(alloc: Global, k: char) -> Result<Option<Word>, AllocError>
    ensures { IfOk result (λ r. r ≡ (if is_word (k ∷ []) then Some (k ∷ []) else None)) }
{
    let mut word = Word::new(alloc);
    if !word.goes_on(k) {
        return Ok(None);
    }
    word.push(k)?;
    Ok(Some(word))
}

/// A character behind the `(` that begins an expression.
#[tactic(auto, unfolding(java_shapes::specs::Reader::step))]
pub fn opened_step(
    alloc: Global,
    frames: &mut Items<Frame>,
    cast: Option<Word>,
    k: char,
) -> Result<Option<Spot>, AllocError>
    ensures { (p : List ℕ) → IfOk result (λ r. spot_option (around frames.new) r ≡ step p (opened (around frames.old) cast) k) }
{
    if k == '(' {
        if is_barred(frames.as_slice(), &cast) {
            return Ok(None);
        }
        enter(frames, Frame::Group(cast))?;
        return Ok(Some(here(None, Place::Opened)));
    }
    let Some(word) = word_from(alloc, k)? else {
        return Ok(None);
    };
    let done = Word::new(alloc);
    Ok(Some(here(cast, Place::Typing(Typing { done, word }))))
}

/// A character behind `(T) (`.
#[tactic(auto, unfolding(java_shapes::specs::Reader::step))]
pub fn either_opened_step(
    alloc: Global,
    frames: &mut Items<Frame>,
    text: Word,
    k: char,
) -> Result<Option<Spot>, AllocError>
    ensures { (p : List ℕ) → IfOk result (λ r. spot_option (around frames.new) r ≡ step p (either_opened (around frames.old) text) k) }
{
    match k {
        ')' => Ok(Some(arrow(alloc, frames, None, text, Items::new(alloc))?)),
        '(' => {
            enter(frames, Frame::Group(Some(text)))?;
            Ok(Some(here(None, Place::Opened)))
        }
        _ => {
            let Some(word) = word_from(alloc, k)? else {
                return Ok(None);
            };
            Ok(Some(here(None, Place::EitherWord(text, word))))
        }
    }
}

/// The binders of a lambda that begin with this one.
fn binders_from(alloc: Global, interface: Word, first: Word) -> Result<Binders, AllocError>
    ensures { IfOk result (λ b. b ≡ record { interface = interface; done = first ∷ []; word = [] }) }
{
    let mut done = Items::new(alloc);
    done.push(first)?;
    Ok(Binders {
        interface,
        done,
        word: Word::new(alloc),
    })
}

/// The `.` behind a word behind `(T) (`: the word begins a type.
#[tactic(auto, unfolding(java_shapes::specs::Reader::step))]
fn either_dot(alloc: Global, text: Word, mut word: Word) -> Result<Option<Spot>, AllocError>
    ensures { (p : List ℕ) (a : Around) → IfOk result (λ r. spot_option a r ≡ step p (either_word a text word) 46) }
{
    if !word.is_identifier() {
        return Ok(None);
    }
    word.push('.')?;
    let typing = Typing {
        done: word,
        word: Word::new(alloc),
    };
    Ok(Some(here(Some(text), Place::Typing(typing))))
}

/// The `,` behind a word behind `(T) (`: the word is a binder.
#[tactic(auto, unfolding(java_shapes::specs::Reader::step))]
fn either_comma(
    alloc: Global,
    binder: &str,
    text: Word,
    word: Word,
) -> Result<Option<Spot>, AllocError>
    ensures { (a : Around) → IfOk result (λ r. spot_option a r ≡ step (chars binder.now) (either_word a text word) 44) }
{
    if !word.is_binder(binder) {
        return Ok(None);
    }
    let binders = binders_from(alloc, text, word)?;
    Ok(Some(behind(&[' '], None, Place::InBinder(binders))))
}

/// A character in a word behind `(T) (`.
#[tactic(auto, unfolding(java_shapes::specs::Reader::step))]
pub fn either_word_step(
    alloc: Global,
    binder: &str,
    text: Word,
    mut word: Word,
    k: char,
) -> Result<Option<Spot>, AllocError>
    requires { is_word word ≡ true }
    ensures { (a : Around) → IfOk result (λ r. spot_option a r ≡ step (chars binder.now) (either_word a text word) k) }
{
    match k {
        '.' => either_dot(alloc, text, word),
        ',' => either_comma(alloc, binder, text, word),
        ')' => {
            if !word.is_identifier() && !word.is_binder(binder) {
                return Ok(None);
            }
            Ok(Some(behind(&[' '], None, Place::EitherClosed(text, word))))
        }
        _ => {
            if !word.goes_on(k) {
                return Ok(None);
            }
            word.push(k)?;
            Ok(Some(here(None, Place::EitherWord(text, word))))
        }
    }
}

/// A character behind `(T) (w) `: `-` says that w is a binder, `(` that it is the interface of a cast lambda.
#[tactic(auto, unfolding(java_shapes::specs::Reader::step))]
pub fn either_closed_step(
    alloc: Global,
    frames: &mut Items<Frame>,
    binder: &str,
    text: Word,
    word: Word,
    k: char,
) -> Result<Option<Spot>, AllocError>
    ensures { IfOk result (λ r. spot_option (around frames.new) r ≡ step (chars binder.now) (either_closed (around frames.old) text word) k) }
{
    match k {
        '-' => {
            if !word.is_binder(binder) {
                return Ok(None);
            }
            let Binders {
                interface,
                done,
                word: _,
            } = binders_from(alloc, text, word)?;
            enter(frames, Frame::Body(None, interface, done))?;
            Ok(Some(behind(&['>', ' '], None, start(alloc))))
        }
        '(' => {
            if !word.is_identifier() {
                return Ok(None);
            }
            Ok(Some(here(Some(text), Place::BindersOpened(word))))
        }
        _ => Ok(None),
    }
}
