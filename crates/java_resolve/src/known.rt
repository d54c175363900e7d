ghost use Rattle.std.specs.Prelude.{◌≡◌, true, [], chars, OnOk, IfOk, IfErr, IfNone, IfSome};
ghost use Rattle.java_shapes.specs.Words.{spells_identifier};
ghost use Rattle.java_shapes.specs.Shape.{shown};
ghost use Rattle.java_shapes.specs.Grammar.{IsShape};
ghost use Rattle.java_resolve.specs.View.{shape_view};
ghost use Rattle.java_resolve.specs.Pieces.{shape_pieces};
ghost use Rattle.java_resolve.specs.Known.{is_declared, AreKnown, IsUnknownPlace};
ghost use Rattle.java_resolve.specs.Faults.{FaultAt, UnknownAt};

use crate::declared::declared_words;
use crate::expressions::pass_shape;
use crate::fault::{TextFault, text_fault};
use crate::passing::Passing;
use crate::reader::read_shape;
use crate::shape::Shape;
use java_units::forms::is_identifier;
use std::alloc::{AllocError, Global};
use terms::{Env, Parts};

/// Whether the binder of an environment is an identifier, so that texts can be read back in it.
pub fn may_read(env: &Env) -> bool
    ensures { result ≡ spells_identifier (chars env.now.binder) }
{
    is_identifier(env.parts().binder.as_str())
}

/// The bytes before the first identifier of an expression that is not known.
fn first_unknown(alloc: Global, parts: &Parts, shape: &Shape) -> Result<Option<usize>, AllocError>
    ensures known { IfOk result (λ r. IfNone r (AreKnown (is_declared parts.now) (shape_pieces [] (shape_view shape.now)))) }
    ensures unknown { IfOk result (λ r. IfSome r (IsUnknownPlace (is_declared parts.now) (shape_pieces [] (shape_view shape.now)))) }
{
    let set = declared_words(alloc, parts)?;
    let mut passing = Passing { set, at: 0 };
    let are_known = pass_shape(alloc, &mut passing, shape)?;
    if are_known {
        return Ok(None);
    }
    Ok(Some(passing.at))
}

/// The shape, where each identifier in it is known.
fn known_in(alloc: Global, parts: &Parts, shape: Shape) -> Result<Shape, TextFault>
    ensures same { IfOk result (λ s. s ≡ shape) }
    ensures known { OnOk result (AreKnown (is_declared parts.now) (shape_pieces [] (shape_view shape))) }
    ensures fault { IfErr result (UnknownAt parts.now (shape_view shape)) }
{
    let found = first_unknown(alloc, parts, &shape)?;
    match found {
        None => Ok(shape),
        Some(at) => Err(TextFault::Unknown(at)),
    }
}

/// The shape of the expression that has this text, where each identifier in it is known.
fn read_in(alloc: Global, parts: &Parts, text: &str) -> Result<Shape, TextFault>
    requires { spells_identifier (chars parts.now.binder) ≡ true }
    ensures shape { IfOk result (λ s. IsShape (chars parts.now.binder) (shape_view s) × (shown (shape_view s) ≡ chars text.now)) }
    ensures known { IfOk result (λ s. AreKnown (is_declared parts.now) (shape_pieces [] (shape_view s))) }
    ensures fault { IfErr result (FaultAt parts.now (chars parts.now.binder) (chars text.now)) }
{
    match read_shape(alloc, parts.binder.as_str(), text) {
        Ok(shape) => known_in(alloc, parts, shape),
        Err(fault) => Err(text_fault(fault)),
    }
}

/// The shape of the expression that has this text in UTF-8, where each identifier in it is declared or is a binder of
/// a lambda around it. Identifiers are declared by the text of any form, and by that of any type that a crowded
/// declaration wants; all of a lambda's own text is within it. `Unknown` comes only where `Syntax` doesn't.
pub fn read_known(alloc: Global, env: &Env, text: &str) -> Result<Shape, TextFault>
    requires { spells_identifier (chars env.now.binder) ≡ true }
    ensures shape { IfOk result (λ s. IsShape (chars env.now.binder) (shape_view s) × (shown (shape_view s) ≡ chars text.now)) }
    ensures known { IfOk result (λ s. AreKnown (is_declared env.now) (shape_pieces [] (shape_view s))) }
    ensures fault { IfErr result (FaultAt env.now (chars env.now.binder) (chars text.now)) }
{
    read_in(alloc, env.parts(), text)
}
