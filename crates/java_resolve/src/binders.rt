ghost use Rattle.std.specs.Prelude.{◌≡◌, true, chars, IfOk};
ghost use Rattle.java_shapes.specs.Reader.{Around, begins_binder, arrow, binder_step};
ghost use Rattle.java_resolve.specs.View.{around, spot_part, spot_option};

use crate::nesting::enter;
use crate::place::{Binders, Frame, Place, Spot, behind, here, start};
use crate::word::Word;
use lists::Items;
use std::alloc::{AllocError, Global};

/// Behind the binders of a lambda.
pub fn arrow(
    alloc: Global,
    frames: &mut Items<Frame>,
    cast: Option<Word>,
    interface: Word,
    binders: Items<Word>,
) -> Result<Spot, AllocError>
    ensures { IfOk result (λ r. spot_part (around frames.new) r ≡ arrow (around frames.old) cast interface binders) }
{
    enter(frames, Frame::Body(cast, interface, binders))?;
    Ok(behind(&[' ', '-', '>', ' '], None, start(alloc)))
}

/// The `,` behind a binder.
fn next_binder(
    alloc: Global,
    binder: &str,
    cast: Option<Word>,
    binders: Binders,
) -> Result<Option<Spot>, AllocError>
    ensures { (a : Around) → IfOk result (λ r. spot_option a r ≡ binder_step (chars binder.now) a cast binders.interface binders.done binders.word 44) }
{
    if !binders.word.is_binder(binder) {
        return Ok(None);
    }
    let Binders {
        interface,
        mut done,
        word,
    } = binders;
    done.push(word)?;
    let binders = Binders {
        interface,
        done,
        word: Word::new(alloc),
    };
    Ok(Some(behind(&[' '], cast, Place::InBinder(binders))))
}

/// The `)` behind the last binder.
fn last_binder(
    alloc: Global,
    frames: &mut Items<Frame>,
    binder: &str,
    cast: Option<Word>,
    binders: Binders,
) -> Result<Option<Spot>, AllocError>
    ensures { IfOk result (λ r. spot_option (around frames.new) r ≡ binder_step (chars binder.now) (around frames.old) cast binders.interface binders.done binders.word 41) }
{
    if !binders.word.is_binder(binder) {
        return Ok(None);
    }
    let Binders {
        interface,
        mut done,
        word,
    } = binders;
    done.push(word)?;
    Ok(Some(arrow(alloc, frames, cast, interface, done)?))
}

/// A character in a binder.
pub fn binder_step(
    alloc: Global,
    frames: &mut Items<Frame>,
    binder: &str,
    cast: Option<Word>,
    mut binders: Binders,
    k: char,
) -> Result<Option<Spot>, AllocError>
    requires { begins_binder (chars binder.now) binders.word ≡ true }
    ensures { IfOk result (λ r. spot_option (around frames.new) r ≡ binder_step (chars binder.now) (around frames.old) cast binders.interface binders.done binders.word k) }
{
    match k {
        ',' => next_binder(alloc, binder, cast, binders),
        ')' => last_binder(alloc, frames, binder, cast, binders),
        _ => {
            if !binders.word.begins_binder_with(binder, k) {
                return Ok(None);
            }
            binders.word.push(k)?;
            Ok(Some(here(cast, Place::InBinder(binders))))
        }
    }
}
