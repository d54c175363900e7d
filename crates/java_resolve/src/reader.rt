ghost use Rattle.std.specs.Prelude.{◌≡◌, ◌≤◌, ◌-◌, [], true, length, chars, IfOk, IfErr};
ghost use Rattle.java_shapes.specs.Words.{spells_identifier};
ghost use Rattle.java_shapes.specs.Shape.{shown};
ghost use Rattle.java_shapes.specs.Grammar.{IsShape};
ghost use Rattle.java_resolve.specs.View.{shape_view, around, spot_part};
ghost use Rattle.java_resolve.specs.Places.{SyntaxAt, IsReadTo};

use crate::chars::first;
use crate::fault::ReadFault;
use crate::place::{Frame, Spot, here, start};
use crate::shape::Shape;
use crate::steps::{ended, step};
use lists::Items;
use std::alloc::Global;

/// The fault at the place where this rest of a text begins.
fn syntax_at(text: &str, rest: &str) -> ReadFault
    requires { length rest.now ≤ length text.now }
    ensures { result ≡ ReadFault.Syntax (length text.now - length rest.now) }
{
    ReadFault::Syntax(text.len() - rest.len())
}

/// Goes over the text, as far as an expression may begin so.
fn read_text(
    alloc: Global,
    frames: &mut Items<Frame>,
    binder: &str,
    text: &str,
) -> Result<Spot, ReadFault>
    requires binder { spells_identifier (chars binder.now) ≡ true }
    requires none { frames.old ≡ [] }
    ensures read { IfOk result (λ s. IsReadTo (chars binder.now) text.now [] (spot_part (around frames.new) s)) }
    ensures syntax { IfErr result (SyntaxAt (chars binder.now) (chars text.now)) }
{
    let mut spot = here(None, start(alloc));
    let mut rest = text;
    while let Some((c, more)) = first(rest) {
        match step(alloc, frames, binder, spot, c)? {
            Some(next) => spot = next,
            None => return Err(syntax_at(text, rest)),
        }
        rest = more;
    }
    Ok(spot)
}

/// The shape of the expression that has this text in UTF-8. The binder's text is what the variables of lambdas
/// begin with.
pub fn read_shape(alloc: Global, binder: &str, text: &str) -> Result<Shape, ReadFault>
    requires { spells_identifier (chars binder.now) ≡ true }
    ensures shape { IfOk result (λ s. IsShape (chars binder.now) (shape_view s) × (shown (shape_view s) ≡ chars text.now)) }
    ensures syntax { IfErr result (SyntaxAt (chars binder.now) (chars text.now)) }
{
    let mut frames = Items::new(alloc);
    let spot = read_text(alloc, &mut frames, binder, text)?;
    match ended(alloc, &mut frames, spot)? {
        Some(shape) => Ok(shape),
        None => Err(ReadFault::Syntax(text.len())),
    }
}
