ghost use Rattle.std.specs.Prelude.{◌≡◌, ℕ, List, [], Option, Some, IfOk};
ghost use Rattle.java_shapes.specs.Shape.{in_brackets};
ghost use Rattle.java_shapes.specs.Reader.{Around, in_call, in_group, due, later, close, unwrapped, grouped};
ghost use Rattle.java_resolve.specs.View.{shape_view, shape_option, before_view, args_view, around, spot_option, needs_brackets, argument_closed};

use crate::nesting::{bracketed, enter, lambda};
use crate::place::{Call, Frame, Place, Spot, behind, here, later, start};
use crate::shape::{Argument, Shape};
use crate::word::Word;
use lists::Items;
use std::alloc::{AllocError, Global};

/// Behind an argument, which is the last one of the call so far.
fn close_argument(
    alloc: Global,
    frames: &mut Items<Frame>,
    cast: Option<Word>,
    call: Call,
    k: char,
) -> Result<Option<Spot>, AllocError>
    ensures { IfOk result (λ r. spot_option (around frames.new) r ≡ argument_closed (around frames.old) cast (before_view call.before) call.name (args_view call.args) k) }
{
    match k {
        ')' => Ok(Some(here(cast, Place::CallClosed(call)))),
        ',' => {
            enter(frames, Frame::Call(cast, call))?;
            Ok(Some(behind(&[' '], None, start(alloc))))
        }
        _ => Ok(None),
    }
}

/// A call with one argument more.
fn with_argument(mut call: Call, cast: Option<Word>, shape: Shape) -> Result<Call, AllocError>
    ensures { (a : Around) (d : Option (List ℕ)) (k : ℕ) → IfOk result (λ c. argument_closed a d (before_view c.before) c.name (args_view c.args) k ≡ close (in_call a d (before_view call.before) call.name (args_view call.args)) cast (shape_view shape) k) }
{
    call.args.push(Argument { cast, shape })?;
    Ok(call)
}

/// Behind a receiver in brackets.
fn close_group(
    alloc: Global,
    outer: Option<Word>,
    cast: Option<Word>,
    receiver: Shape,
    k: char,
) -> Result<Option<Spot>, AllocError>
    ensures { (a : Around) → IfOk result (λ r. spot_option a r ≡ close (in_group a outer) cast (shape_view receiver) k) }
{
    if k == ')' {
        grouped(alloc, outer, cast, receiver)
    } else {
        Ok(None)
    }
}

/// A receiver in brackets, where it needs them.
fn grouped(
    alloc: Global,
    outer: Option<Word>,
    cast: Option<Word>,
    receiver: Shape,
) -> Result<Option<Spot>, AllocError>
    ensures { (a : Around) → IfOk result (λ r. spot_option a r ≡ grouped a outer cast (shape_view receiver)) }
{
    if needs_brackets(&cast, &receiver) {
        in_brackets(alloc, outer, cast, receiver)
    } else {
        Ok(None)
    }
}

/// A receiver in brackets.
fn in_brackets(
    alloc: Global,
    outer: Option<Word>,
    cast: Option<Word>,
    receiver: Shape,
) -> Result<Option<Spot>, AllocError>
    ensures { (a : Around) → IfOk result (λ r. spot_option a r ≡ Some (due 46 (later a outer (in_brackets cast (shape_view receiver)) [] []))) }
{
    let before = bracketed(alloc, cast, receiver)?;
    let place = later(alloc, before, Word::new(alloc));
    Ok(Some(behind(&['.'], outer, place)))
}

/// Whether a receiver stands in brackets: where it has a cast or is a lambda.
fn needs_brackets(cast: &Option<Word>, receiver: &Shape) -> bool
    ensures { result ≡ needs_brackets cast.now (shape_view receiver.now) }
{
    if cast.is_some() {
        return true;
    }
    matches!(receiver, Shape::Lambda(_, _, _, _, _))
}

/// Behind an expression with its cast.
pub fn close(
    alloc: Global,
    frames: &mut Items<Frame>,
    mut cast: Option<Word>,
    mut expression: Shape,
    k: char,
) -> Result<Option<Spot>, AllocError>
    ensures { IfOk result (λ r. spot_option (around frames.new) r ≡ close (around frames.old) cast (shape_view expression) k) }
{
    'frames: loop {
        match frames.pop() {
            None => return Ok(None),
            Some(frame) => match frame {
                Frame::Body(outer, interface, binders) => {
                    expression = lambda(alloc, interface, binders, cast, expression)?;
                    cast = outer;
                }
                Frame::Call(outer, call) => {
                    let call = with_argument(call, cast, expression)?;
                    return close_argument(alloc, frames, outer, call, k);
                }
                Frame::Group(outer) => return close_group(alloc, outer, cast, expression, k),
            },
        }
    }
}

/// The expression, where no bracket is open around it.
pub fn unwrapped(
    alloc: Global,
    frames: &mut Items<Frame>,
    mut cast: Option<Word>,
    mut expression: Shape,
) -> Result<Option<Shape>, AllocError>
    ensures { IfOk result (λ r. shape_option r ≡ unwrapped (around frames.old) cast (shape_view expression)) }
{
    'frames: loop {
        match frames.pop() {
            None => return Ok(Some(expression)),
            Some(frame) => match frame {
                Frame::Body(outer, interface, binders) => {
                    expression = lambda(alloc, interface, binders, cast, expression)?;
                    cast = outer;
                }
                Frame::Call(_, _) => return Ok(None),
                Frame::Group(_) => return Ok(None),
            },
        }
    }
}
