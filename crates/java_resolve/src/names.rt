ghost use Rattle.std.specs.Prelude.{◌≡◌, ◌⊎◌, [], true, IfOk};
ghost use Rattle.java_shapes.specs.Reader.{Around, begins_first, first_sign, first_step, is_sign};
ghost use Rattle.java_resolve.specs.View.{around, spot_option};

use crate::closing::close;
use crate::nesting::is_barred;
use crate::place::{Frame, Place, Spot, here, later, when};
use crate::shape::{Before, Shape};
use crate::word::Word;
use lists::Items;
use std::alloc::{AllocError, Global};

/// Whether a character is a sign that stands between words.
pub fn is_sign(k: char) -> bool
    ensures { result ≡ is_sign k }
{
    k == '(' || k == ')' || k == ',' || k == '.' || k == ' ' || k == '['
}

/// The first word with its dot, which a name may begin with.
fn first_dot(alloc: Global, cast: Option<Word>, mut word: Word) -> Result<Option<Spot>, AllocError>
    ensures { (a : Around) → IfOk result (λ r. spot_option a r ≡ first_sign a cast word 46) }
{
    if !word.begins_name() {
        return Ok(None);
    }
    word.push('.')?;
    let place = later(alloc, Before::Nothing, word);
    Ok(Some(here(cast, place)))
}

/// A bracket behind the first word, or before it.
fn first_bracket(cast: Option<Word>, word: Word) -> Option<Spot>
    ensures { (a : Around) → spot_option a result ≡ first_sign a cast word 40 }
{
    if word.is_empty() {
        return Some(here(cast, Place::Opened));
    }
    let may_call = word.is_identifier();
    when(
        may_call,
        here(cast, Place::CallOpened(Before::Nothing, word)),
    )
}

/// A space behind the first word.
fn first_space(alloc: Global, cast: Option<Word>, word: Word) -> Option<Spot>
    ensures { (a : Around) → spot_option a result ≡ first_sign a cast word 32 }
{
    let place = later(alloc, Before::Fresh, Word::new(alloc));
    when(word.is("new"), here(cast, place))
}

/// A sign behind the first word.
fn first_sign(
    alloc: Global,
    frames: &mut Items<Frame>,
    cast: Option<Word>,
    word: Word,
    k: char,
) -> Result<Option<Spot>, AllocError>
    ensures { IfOk result (λ r. spot_option (around frames.new) r ≡ first_sign (around frames.old) cast word k) }
{
    match k {
        '(' => Ok(first_bracket(cast, word)),
        '.' => first_dot(alloc, cast, word),
        ' ' => Ok(first_space(alloc, cast, word)),
        _ => {
            if !word.begins_name() {
                return Ok(None);
            }
            close(alloc, frames, cast, Shape::Named(Before::Nothing, word), k)
        }
    }
}

/// A character in the first word, or before it.
pub fn first_step(
    alloc: Global,
    frames: &mut Items<Frame>,
    cast: Option<Word>,
    mut word: Word,
    k: char,
) -> Result<Option<Spot>, AllocError>
    requires { (word ≡ []) ⊎ (begins_first word ≡ true) }
    ensures { IfOk result (λ r. spot_option (around frames.new) r ≡ first_step (around frames.old) cast word k) }
{
    if is_sign(k) {
        return first_sign(alloc, frames, cast, word, k);
    }
    if word.is_empty() && is_barred(frames.as_slice(), &cast) {
        return Ok(None);
    }
    if !word.begins_first_with(k) {
        return Ok(None);
    }
    word.push(k)?;
    Ok(Some(here(cast, Place::First(word))))
}
