ghost use Rattle.std.specs.Prelude.{◌≡◌, ◌++◌, ◌∷◌, ℕ, List, Bool, true, [], OnOk, IfOk, codes};
ghost use Rattle.java_resolve.specs.Pieces.{cut, cast_pieces, shape_pieces, before_pieces, call_pieces, args_pieces, header_pieces, sign};
ghost use Rattle.java_resolve.specs.View.{shape_view, before_view, args_view};
ghost use Rattle.java_resolve.specs.Known.{Passes, Goes, Knows, Begins};

use crate::declared::add_word;
use crate::passing::{Passing, pass_cast, pass_header, pass_name, pass_sign, separator};
use crate::shape::{Argument, Before, Shape};
use crate::word::Word;
use std::alloc::{AllocError, Global};

/// Adds binders to the words that are known.
fn bind(alloc: Global, passing: &mut Passing, binders: &[Word]) -> Result<(), AllocError>
    ensures known { (d : List ℕ → Bool) (bound : List (List ℕ)) → Knows passing.old.set d bound → OnOk result (Knows passing.new.set d (bound ++ binders.now)) }
    ensures kept { OnOk result (Begins passing.old.set.keys passing.new.set.keys) }
    ensures place { OnOk result (passing.new.at ≡ passing.old.at) }
{
    for binder in binders {
        add_word(alloc, &mut passing.set, binder)?;
    }
    Ok(())
}

/// Goes over an expression. Calls nest as deep as it does.
#[cycle(passing)]
pub fn pass_shape(alloc: Global, passing: &mut Passing, shape: &Shape) -> Result<bool, AllocError>
    ensures { (d : List ℕ → Bool) (bound : List (List ℕ)) → Knows passing.old.set d bound → IfOk result (Goes d (shape_pieces bound (shape_view shape.now)) passing.old passing.new) }
{
    match shape {
        Shape::Named(before, name) => pass_named(alloc, passing, before, name),
        Shape::Called(before, name, args, _) => {
            pass_called(alloc, passing, before, name, args.as_slice())
        }
        Shape::Lambda(interface, binders, cast, body, _) => {
            pass_lambda(
                alloc,
                passing,
                interface,
                binders.as_slice(),
                cast,
                body.get(),
            )
        }
    }
}

/// Goes over a name behind what stands before it.
#[cycle(passing)]
fn pass_named(
    alloc: Global,
    passing: &mut Passing,
    before: &Before,
    name: &Word,
) -> Result<bool, AllocError>
    ensures { (d : List ℕ → Bool) (bound : List (List ℕ)) → Knows passing.old.set d bound → IfOk result (Goes d (before_pieces bound (before_view before.now) ++ cut bound [] name.now) passing.old passing.new) }
{
    let is_known = pass_before(alloc, passing, before)?;
    if !is_known {
        return Ok(false);
    }
    pass_name(alloc, &passing.set, &mut passing.at, name)
}

/// Goes over a call.
#[cycle(passing)]
fn pass_called(
    alloc: Global,
    passing: &mut Passing,
    before: &Before,
    name: &Word,
    args: &[Argument],
) -> Result<bool, AllocError>
    ensures { (d : List ℕ → Bool) (bound : List (List ℕ)) → Knows passing.old.set d bound → IfOk result (Goes d ((before_pieces bound (before_view before.now) ++ cut bound [] name.now) ++ call_pieces bound (args_view args.now)) passing.old passing.new) }
{
    let is_known = pass_named(alloc, passing, before, name)?;
    if !is_known {
        return Ok(false);
    }
    pass_call(alloc, passing, args)
}

/// Goes over the arguments of a call in their brackets.
#[cycle(passing)]
fn pass_call(alloc: Global, passing: &mut Passing, args: &[Argument]) -> Result<bool, AllocError>
    ensures { (d : List ℕ → Bool) (bound : List (List ℕ)) → Knows passing.old.set d bound → IfOk result (Goes d (call_pieces bound (args_view args.now)) passing.old passing.new) }
{
    pass_sign(&mut passing.at, "(")?;
    let are_known = pass_args(alloc, passing, args)?;
    if !are_known {
        return Ok(false);
    }
    pass_sign(&mut passing.at, ")")?;
    Ok(true)
}

/// Goes over what stands before a name.
#[cycle(passing)]
fn pass_before(alloc: Global, passing: &mut Passing, before: &Before) -> Result<bool, AllocError>
    ensures { (d : List ℕ → Bool) (bound : List (List ℕ)) → Knows passing.old.set d bound → IfOk result (Goes d (before_pieces bound (before_view before.now)) passing.old passing.new) }
{
    match before {
        Before::Nothing => Ok(true),
        Before::Fresh => pass_fresh(&mut passing.at),
        Before::Behind(before, name, args, _) => {
            pass_behind(alloc, passing, before.get(), name, args.as_slice())
        }
        Before::InBrackets(cast, receiver, _) => {
            pass_bracketed(alloc, passing, cast, receiver.get())
        }
    }
}

/// Goes over `new `.
fn pass_fresh(at: &mut usize) -> Result<bool, AllocError>
    ensures { (d : List ℕ → Bool) → IfOk result (Passes d (sign (codes "new ") ∷ []) at.old at.new) }
{
    pass_sign(at, "new ")?;
    Ok(true)
}

/// Goes over a call and its dot.
#[cycle(passing)]
fn pass_behind(
    alloc: Global,
    passing: &mut Passing,
    before: &Before,
    name: &Word,
    args: &[Argument],
) -> Result<bool, AllocError>
    ensures { (d : List ℕ → Bool) (bound : List (List ℕ)) → Knows passing.old.set d bound → IfOk result (Goes d (((before_pieces bound (before_view before.now) ++ cut bound [] name.now) ++ call_pieces bound (args_view args.now)) ++ sign (codes ".") ∷ []) passing.old passing.new) }
{
    let is_known = pass_called(alloc, passing, before, name, args)?;
    if !is_known {
        return Ok(false);
    }
    pass_sign(&mut passing.at, ".")?;
    Ok(true)
}

/// Goes over a receiver in brackets.
#[cycle(passing)]
fn pass_bracketed(
    alloc: Global,
    passing: &mut Passing,
    cast: &Option<Word>,
    receiver: &Shape,
) -> Result<bool, AllocError>
    ensures { (d : List ℕ → Bool) (bound : List (List ℕ)) → Knows passing.old.set d bound → IfOk result (Goes d (sign (codes "(") ∷ ((cast_pieces bound cast.now ++ shape_pieces bound (shape_view receiver.now)) ++ sign (codes ").") ∷ [])) passing.old passing.new) }
{
    pass_sign(&mut passing.at, "(")?;
    let is_known = pass_with_cast(alloc, passing, cast, receiver)?;
    if !is_known {
        return Ok(false);
    }
    pass_sign(&mut passing.at, ").")?;
    Ok(true)
}

/// Goes over an expression behind its cast.
#[cycle(passing)]
fn pass_with_cast(
    alloc: Global,
    passing: &mut Passing,
    cast: &Option<Word>,
    shape: &Shape,
) -> Result<bool, AllocError>
    ensures { (d : List ℕ → Bool) (bound : List (List ℕ)) → Knows passing.old.set d bound → IfOk result (Goes d (cast_pieces bound cast.now ++ shape_pieces bound (shape_view shape.now)) passing.old passing.new) }
{
    let is_known = pass_cast(alloc, &passing.set, &mut passing.at, cast)?;
    if !is_known {
        return Ok(false);
    }
    pass_shape(alloc, passing, shape)
}

/// Goes over the arguments of a call.
#[cycle(passing)]
fn pass_args(alloc: Global, passing: &mut Passing, args: &[Argument]) -> Result<bool, AllocError>
    ensures { (d : List ℕ → Bool) (bound : List (List ℕ)) → Knows passing.old.set d bound → IfOk result (Goes d (args_pieces bound true (args_view args.now)) passing.old passing.new) }
{
    for i in 0..args.len() {
        let is_known = pass_arg(alloc, passing, i == 0, &args[i])?;
        if !is_known {
            return Ok(false);
        }
    }
    Ok(true)
}

/// Goes over an argument behind its separator.
#[cycle(passing)]
fn pass_arg(
    alloc: Global,
    passing: &mut Passing,
    is_first: bool,
    arg: &Argument,
) -> Result<bool, AllocError>
    ensures { (d : List ℕ → Bool) (bound : List (List ℕ)) → Knows passing.old.set d bound → IfOk result (Goes d (args_pieces bound is_first (args_view (arg.now ∷ []))) passing.old passing.new) }
{
    pass_sign(&mut passing.at, separator(is_first))?;
    pass_with_cast(alloc, passing, &arg.cast, &arg.shape)
}

/// Goes over a lambda, whose binders are known in all of its text.
#[cycle(passing)]
fn pass_lambda(
    alloc: Global,
    passing: &mut Passing,
    interface: &Word,
    binders: &[Word],
    cast: &Option<Word>,
    body: &Shape,
) -> Result<bool, AllocError>
    ensures { (d : List ℕ → Bool) (bound : List (List ℕ)) → Knows passing.old.set d bound → IfOk result (Goes d (header_pieces (bound ++ binders.now) interface.now binders.now ++ (cast_pieces (bound ++ binders.now) cast.now ++ shape_pieces (bound ++ binders.now) (shape_view body.now))) passing.old passing.new) }
{
    let outer = passing.set.len();
    bind(alloc, passing, binders)?;
    let are_known = pass_within(alloc, passing, interface, binders, cast, body)?;
    passing.set.truncate(outer);
    Ok(are_known)
}

/// Goes over the text of a lambda whose binders are known.
#[cycle(passing)]
fn pass_within(
    alloc: Global,
    passing: &mut Passing,
    interface: &Word,
    binders: &[Word],
    cast: &Option<Word>,
    body: &Shape,
) -> Result<bool, AllocError>
    ensures { (d : List ℕ → Bool) (bound : List (List ℕ)) → Knows passing.old.set d bound → IfOk result (Goes d (header_pieces bound interface.now binders.now ++ (cast_pieces bound cast.now ++ shape_pieces bound (shape_view body.now))) passing.old passing.new) }
{
    let is_known = pass_header(alloc, &passing.set, &mut passing.at, interface, binders)?;
    if !is_known {
        return Ok(false);
    }
    pass_with_cast(alloc, passing, cast, body)
}
