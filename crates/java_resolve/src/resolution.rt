ghost use Rattle.std.specs.Prelude.{◌≡◌, [], ℕ, List, OnOk, IfOk, IfErr, IsUtf8, chars};
ghost use Rattle.terms.specs.View.{expr};
ghost use Rattle.java_shapes.specs.Shape.{shown};
ghost use Rattle.java_shapes.specs.Grammar.{IsShape};
ghost use Rattle.java_shapes.specs.Readable.{IsReadable};
ghost use Rattle.java_resolve.specs.Found.{IsFound};
ghost use Rattle.java_resolve.specs.Trees.{found_view, row_view};
ghost use Rattle.java_resolve.specs.Reading.{IsRow, IsReading, IsTellable};
ghost use Rattle.java_resolve.specs.Resolved.{IsKnownText, ResolvesTo, IsFaultOf};
ghost use Rattle.java_resolve.specs.View.{shape_view};

use crate::fault::TextFault;
use crate::found::{Found, Row, pick};
use crate::index::Index;
use crate::known::read_known;
use crate::lengths::short_rows;
use crate::readings::shape_row;
use crate::setting::Setting;
use crate::shape::Shape;
use crate::tree::term_of;
use std::alloc::{AllocError, Global};
use terms::{Ctx, Env, Term};

/// The terms of an expression, outside of all lambdas.
fn row_of(alloc: Global, env: &Env, shape: &Shape) -> Result<Row, AllocError>
    requires { IsReadable env.now }
    ensures tellable { OnOk result (IsTellable env.now) }
    ensures right { IsShape (chars env.now.binder) (shape_view shape.now) → IfOk result (λ row. IsRow env.now [] (shape_view shape.now) (row_view row)) }
{
    let parts = env.parts();
    short_rows(parts);
    let index = Index::of(alloc, parts)?;
    let ctx = Ctx::empty();
    let setting = Setting {
        env,
        index: &index,
        ctx,
    };
    shape_row(alloc, &setting, shape)
}

/// What is found for an expression at the goal.
fn found_for(alloc: Global, env: &Env, shape: &Shape) -> Result<Found, AllocError>
    requires { IsReadable env.now }
    ensures right { (text : List ℕ) → IsUtf8 text → IsShape (chars env.now.binder) (shape_view shape.now) → shown (shape_view shape.now) ≡ chars text → IfOk result (λ found. IsFound (IsReading env.now text) (found_view found)) }
{
    let row = row_of(alloc, env, shape)?;
    let goal = env.parts().goal;
    pick(env, false, &None, goal, row.entries.as_slice())
}

/// What is found for the expression that has a text.
fn found_of(alloc: Global, env: &Env, text: &str, shape: &Shape) -> Result<Found, TextFault>
    requires { IsReadable env.now }
    ensures right { IsShape (chars env.now.binder) (shape_view shape.now) → shown (shape_view shape.now) ≡ chars text.now → IfOk result (λ found. IsFound (IsReading env.now text.now) (found_view found)) }
    ensures fault { IfErr result (IsFaultOf env.now text.now) }
{
    match found_for(alloc, env, shape) {
        Ok(found) => Ok(found),
        Err(_) => Err(TextFault::OutOfMemory),
    }
}

/// What is found for a text at the goal.
fn found_at_goal(alloc: Global, env: &Env, text: &str) -> Result<Found, TextFault>
    requires { IsReadable env.now }
    ensures known { OnOk result (IsKnownText env.now text.now) }
    ensures right { IfOk result (λ found. IsFound (IsReading env.now text.now) (found_view found)) }
    ensures fault { IfErr result (IsFaultOf env.now text.now) }
{
    match read_known(alloc, env, text) {
        Ok(shape) => found_of(alloc, env, text, &shape),
        Err(fault) => Err(fault),
    }
}

/// The term that is well typed at the goal and has this text in UTF-8. The faults are tried in the order `Syntax`,
/// `Unknown`, `WrongType`, `TwoWays`, so each comes just where it says, but for want of memory, which also comes for a
/// text whose brackets and links nest deeper than 4,000. Takes time about linear in the text, times the declarations
/// that share its words, and one pass over the declarations.
pub fn resolve(alloc: Global, env: &Env, text: &str) -> Result<Term, TextFault>
    requires { IsReadable env.now }
    ensures right { IfOk result (λ term. ResolvesTo env.now text.now (expr term)) }
    ensures fault { IfErr result (IsFaultOf env.now text.now) }
{
    let found = found_at_goal(alloc, env, text)?;
    match found {
        Found::Nothing => Err(TextFault::WrongType),
        Found::One(tree) => {
            let term = term_of(alloc, &tree)?;
            Ok(term)
        }
        Found::Two => Err(TextFault::TwoWays),
    }
}
