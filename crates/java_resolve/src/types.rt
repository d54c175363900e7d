ghost use Rattle.std.specs.Prelude.{◌≡◌, ◌⊎◌, ℕ, List, [], ◌++◌, ◌&&◌, true, Some, IfOk};
ghost use Rattle.java_tokens.specs.Words.{is_word};
ghost use Rattle.java_units.specs.Signs.{has};
ghost use Rattle.java_units.specs.Forms.{primitives};
ghost use Rattle.java_shapes.specs.Words.{spells_identifier};
ghost use Rattle.java_shapes.specs.Reader.{Around, is_empty, type_closed, typing_step, sized, step};
ghost use Rattle.java_resolve.specs.View.{around, spot_part, spot_option};

use crate::nesting::may_cast;
use crate::place::{Frame, Place, Spot, Typing, behind, here, start};
use crate::word::Word;
use lists::Items;
use std::alloc::{AllocError, Global};

impl Typing {
    /// The words and the last one, as one text.
    fn joined(self) -> Result<Word, AllocError>
        ensures { IfOk result (λ r. r ≡ self.done ++ self.word) }
    {
        let Typing { mut done, word } = self;
        done.push_word(&word)?;
        Ok(done)
    }

    /// Whether it is one primitive type.
    fn is_primitive(&self) -> bool
        ensures { result ≡ (is_empty self.now.done && has primitives self.now.word) }
    {
        self.done.is_empty() && self.word.is_primitive()
    }
}

/// Behind the interface of a lambda or the type of a cast, which ends with an identifier.
fn closed_name(frames: &[Frame], cast: Option<Word>, typing: Typing) -> Result<Spot, AllocError>
    requires { spells_identifier typing.word ≡ true }
    ensures { IfOk result (λ r. Some (spot_part (around frames.now) r) ≡ type_closed (around frames.now) cast typing.done typing.word) }
{
    let is_cast = may_cast(frames, &cast);
    let text = typing.joined()?;
    Ok(if is_cast {
        behind(&[' '], None, Place::Either(text))
    } else {
        behind(&[' ', '('], cast, Place::BindersOpened(text))
    })
}

/// The `)` of a cast or an interface.
fn type_closed(
    alloc: Global,
    frames: &[Frame],
    cast: Option<Word>,
    typing: Typing,
) -> Result<Option<Spot>, AllocError>
    ensures { IfOk result (λ r. spot_option (around frames.now) r ≡ type_closed (around frames.now) cast typing.done typing.word) }
{
    if typing.word.is_identifier() {
        return Ok(Some(closed_name(frames, cast, typing)?));
    }
    if !may_cast(frames, &cast) || !typing.is_primitive() {
        return Ok(None);
    }
    Ok(Some(behind(&[' '], Some(typing.word), start(alloc))))
}

/// The `[` of a cast's type.
fn type_sized(
    frames: &[Frame],
    cast: Option<Word>,
    typing: Typing,
) -> Result<Option<Spot>, AllocError>
    ensures { IfOk result (λ r. spot_option (around frames.now) r ≡ typing_step (around frames.now) cast typing.done typing.word 91) }
{
    if !may_cast(frames, &cast) {
        return Ok(None);
    }
    if !typing.word.is_identifier() && !typing.is_primitive() {
        return Ok(None);
    }
    let mut text = typing.joined()?;
    text.push('[')?;
    text.push(']')?;
    Ok(Some(behind(&[']'], None, Place::Sized(text))))
}

/// The `.` behind a word of a type.
fn type_dot(alloc: Global, cast: Option<Word>, typing: Typing) -> Result<Option<Spot>, AllocError>
    ensures { (a : Around) → IfOk result (λ r. spot_option a r ≡ typing_step a cast typing.done typing.word 46) }
{
    if !typing.word.is_identifier() {
        return Ok(None);
    }
    let mut done = typing.joined()?;
    done.push('.')?;
    Ok(Some(here(
        cast,
        Place::Typing(Typing {
            done,
            word: Word::new(alloc),
        }),
    )))
}

/// A character in the type of a cast or in the interface of a lambda.
pub fn typing_step(
    alloc: Global,
    frames: &[Frame],
    cast: Option<Word>,
    mut typing: Typing,
    k: char,
) -> Result<Option<Spot>, AllocError>
    requires { (typing.word ≡ []) ⊎ (is_word typing.word ≡ true) }
    ensures { IfOk result (λ r. spot_option (around frames.now) r ≡ typing_step (around frames.now) cast typing.done typing.word k) }
{
    match k {
        '.' => type_dot(alloc, cast, typing),
        '[' => type_sized(frames, cast, typing),
        ')' => type_closed(alloc, frames, cast, typing),
        _ => {
            if !typing.word.goes_on(k) {
                return Ok(None);
            }
            typing.word.push(k)?;
            Ok(Some(here(cast, Place::Typing(typing))))
        }
    }
}

/// A character behind the dimensions of a cast's type.
#[tactic(auto, unfolding(java_shapes::specs::Reader::step))]
pub fn sized_step(alloc: Global, mut text: Word, k: char) -> Result<Option<Spot>, AllocError>
    ensures { (p : List ℕ) (a : Around) → IfOk result (λ r. spot_option a r ≡ step p (sized a text) k) }
{
    match k {
        '[' => {
            text.push('[')?;
            text.push(']')?;
            Ok(Some(behind(&[']'], None, Place::Sized(text))))
        }
        ')' => Ok(Some(behind(&[' '], Some(text), start(alloc)))),
        _ => Ok(None),
    }
}
