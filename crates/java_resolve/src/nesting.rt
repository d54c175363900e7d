ghost use Rattle.std.specs.Prelude.{◌≡◌, ◌++◌, ◌∷◌, OnOk, IfOk};
ghost use Rattle.java_shapes.specs.Shape.{named, called, lambda, nothing, behind, in_brackets};
ghost use Rattle.java_shapes.specs.Reader.{may_cast, is_barred};
ghost use Rattle.java_resolve.specs.View.{shape_view, before_view, args_view, framed, around};

use crate::place::{Call, Frame};
use crate::shape::{Argument, Before, Shape};
use crate::word::Word;
use lists::Items;
use sqlite_items::Boxed;
use std::alloc::{AllocError, Global};

/// How deep expressions nest at most: they are made, read and dropped by recursion.
const MOST: u32 = 4000;

/// One deeper than the deeper of both. Beyond the bound there is no memory.
fn deeper(a: u32, b: u32) -> Result<u32, AllocError> {
    let depth = if a < b { b } else { a };
    if depth < MOST {
        Ok(depth + 1)
    } else {
        Err(AllocError)
    }
}

/// How deep what stands before a name nests.
fn depth_before(before: &Before) -> u32 {
    match before {
        Before::Nothing => 0,
        Before::Fresh => 0,
        Before::Behind(_, _, _, depth) => *depth,
        Before::InBrackets(_, _, depth) => *depth,
    }
}

/// How deep an expression nests.
fn depth_of(expression: &Shape) -> u32 {
    match expression {
        Shape::Named(before, _) => depth_before(before),
        Shape::Called(_, _, _, depth) => *depth,
        Shape::Lambda(_, _, _, _, depth) => *depth,
    }
}

/// How deep the deepest argument nests.
fn depth_of_all(args: &[Argument]) -> u32 {
    let mut most = 0;
    for arg in args {
        let depth = depth_of(&arg.shape);
        if most < depth {
            most = depth;
        }
    }
    most
}

/// How deep a call nests.
fn depth_of_call(call: &Call) -> Result<u32, AllocError> {
    deeper(
        depth_before(&call.before),
        depth_of_all(call.args.as_slice()),
    )
}

/// A name behind nothing.
pub fn plain(word: Word) -> Shape
    ensures { shape_view result ≡ named nothing word }
{
    Shape::Named(Before::Nothing, word)
}

/// A call as an expression.
pub fn as_shape(call: Call) -> Result<Shape, AllocError>
    ensures { IfOk result (λ s. shape_view s ≡ called (before_view call.before) call.name (args_view call.args)) }
{
    let depth = depth_of_call(&call)?;
    let Call { before, name, args } = call;
    Ok(Shape::Called(before, name, args, depth))
}

/// A call before a dot.
pub fn as_before(alloc: Global, call: Call) -> Result<Before, AllocError>
    ensures { IfOk result (λ b. before_view b ≡ behind (before_view call.before) call.name (args_view call.args)) }
{
    let depth = depth_of_call(&call)?;
    let Call { before, name, args } = call;
    Ok(Before::Behind(Boxed::new(alloc, before)?, name, args, depth))
}

/// A lambda.
pub fn lambda(
    alloc: Global,
    interface: Word,
    binders: Items<Word>,
    cast: Option<Word>,
    body: Shape,
) -> Result<Shape, AllocError>
    ensures { IfOk result (λ s. shape_view s ≡ lambda interface binders cast (shape_view body)) }
{
    let depth = deeper(depth_of(&body), 0)?;
    let body = Boxed::new(alloc, body)?;
    Ok(Shape::Lambda(interface, binders, cast, body, depth))
}

/// A receiver in brackets.
pub fn bracketed(alloc: Global, cast: Option<Word>, receiver: Shape) -> Result<Before, AllocError>
    ensures { IfOk result (λ b. before_view b ≡ in_brackets cast (shape_view receiver)) }
{
    let depth = deeper(depth_of(&receiver), 0)?;
    let receiver = Boxed::new(alloc, receiver)?;
    Ok(Before::InBrackets(cast, receiver, depth))
}

/// Puts a frame around the place. Beyond the bound there is no memory.
#[tactic(auto, using(crate::proofs::Frames::around_append))]
pub fn enter(frames: &mut Items<Frame>, frame: Frame) -> Result<(), AllocError>
    ensures { OnOk result (around frames.new ≡ framed frame (around frames.old)) }
{
    if frames.len() >= MOST as usize {
        return Err(AllocError);
    }
    frames.push(frame)?;
    Ok(())
}

/// Whether a cast may stand at a place.
pub fn may_cast(frames: &[Frame], cast: &Option<Word>) -> bool
    ensures { result ≡ may_cast (around frames.now) cast.now }
{
    match frames.last() {
        None => false,
        Some(_) => cast.is_none(),
    }
}

/// Whether only a cast or a lambda may stand at a place.
pub fn is_barred(frames: &[Frame], cast: &Option<Word>) -> bool
    ensures { result ≡ is_barred (around frames.now) cast.now }
{
    match frames.last() {
        None => false,
        Some(frame) => match frame {
            Frame::Call(_, _) => false,
            Frame::Body(_, _, _) => false,
            Frame::Group(_) => cast.is_none(),
        },
    }
}
