ghost use Rattle.std.specs.Prelude.{◌≡◌, ◌≤◌, ◌<◌, ◌∷◌, [], ℕ, List, false, map, IfOk, IsUtf8, chars};
ghost use Rattle.terms.specs.Typing.{rows};
ghost use Rattle.java_shapes.specs.Shape.{Before as BeforeShape, named, called, lambda, nothing, Shapes};
ghost use Rattle.java_shapes.specs.Grammar.{IsShape, IsBefore, AreShapes};
ghost use Rattle.java_shapes.specs.Readable.{IsContext};
ghost use Rattle.java_resolve.specs.View.{shape_view, before_view, args_view};
ghost use Rattle.java_resolve.specs.Index.{bucket};
ghost use Rattle.java_resolve.specs.Lambdas.{IsLambdaRow};
ghost use Rattle.java_resolve.specs.Reading.{IsRow, AreSpots, IsSet};
ghost use Rattle.java_resolve.specs.Naming.{IsBare, IsLink, IsStart};
ghost use Rattle.java_resolve.specs.Trees.{row_view, place_view};

use crate::found::{Place, Row};
use crate::lambdas::{lambda_decl, lambda_over};
use crate::links::{Link, Name, call_row, left_out, new_row, receiver};
use crate::setting::Setting;
use crate::shape::{Argument, Before, Shape};
use crate::word::Word;
use lists::Items;
use std::alloc::{AllocError, Global};
use terms::MOST_ROWS;

/// What stands before the first word of a name.
#[derive(Drop)]
enum Start {
    Fresh,
    Bare(Link),
    Behind(Link),
}

/// A cast in memory of its own.
fn copy_cast(alloc: Global, cast: &Option<Word>) -> Result<Option<Word>, AllocError>
    ensures same { IfOk result (λ copy. copy ≡ cast.now) }
{
    match cast {
        None => Ok(None),
        Some(word) => Ok(Some(Word::from_str(alloc, word.as_str())?)),
    }
}

/// The terms of an expression.
#[cycle(reading)]
pub fn shape_row(alloc: Global, setting: &Setting<'_>, shape: &Shape) -> Result<Row, AllocError>
    ensures right { IsSet setting.now.env.now setting.now.index.now → IsContext (rows setting.now.ctx) → IsShape (chars setting.now.env.now.binder) (shape_view shape.now) → IfOk result (λ row. IsRow setting.now.env.now (rows setting.now.ctx) (shape_view shape.now) (row_view row)) }
{
    match shape {
        Shape::Named(before, name) => named_row(alloc, setting, before, name),
        Shape::Called(before, name, args, _) => {
            called_row(alloc, setting, before, name, args.as_slice())
        }
        Shape::Lambda(interface, binders, cast, body, _) => lambda_rows(
            alloc,
            setting,
            setting.index.find(interface.as_str()),
            binders.as_slice(),
            cast,
            body.get(),
        ),
    }
}

/// The terms of a name behind what stands before it.
#[cycle(reading)]
fn named_row(
    alloc: Global,
    setting: &Setting<'_>,
    before: &Before,
    name: &Word,
) -> Result<Row, AllocError>
    ensures right { IsSet setting.now.env.now setting.now.index.now → IsContext (rows setting.now.ctx) → IsShape (chars setting.now.env.now.binder) (named (before_view before.now) name.now) → IfOk result (λ row. IsRow setting.now.env.now (rows setting.now.ctx) (named (before_view before.now) name.now) (row_view row)) }
{
    let start = start_of(alloc, setting, before)?;
    match start {
        Start::Fresh => Ok(Row::none(alloc)),
        Start::Bare(link) => bare_name(alloc, setting, link, name),
        Start::Behind(link) => name_behind(alloc, setting, link, name),
    }
}

/// The terms of a name behind nothing.
fn bare_name(
    alloc: Global,
    setting: &Setting<'_>,
    link: Link,
    name: &Word,
) -> Result<Row, AllocError>
    ensures right { IsSet setting.now.env.now setting.now.index.now → IsContext (rows setting.now.ctx) → IsLink setting.now.env.now (rows setting.now.ctx) nothing [] [] link → IfOk result (λ row. IsRow setting.now.env.now (rows setting.now.ctx) (named nothing name.now) (row_view row)) }
{
    let first = Name::new(alloc, link);
    let all = first.read(alloc, setting, true, name.as_str())?;
    all.row(alloc, setting, true)
}

/// The terms of a name behind a receiver.
fn name_behind(
    alloc: Global,
    setting: &Setting<'_>,
    link: Link,
    name: &Word,
) -> Result<Row, AllocError>
    ensures right { (b : BeforeShape) → IsSet setting.now.env.now setting.now.index.now → IsContext (rows setting.now.ctx) → IsBare false b → IsLink setting.now.env.now (rows setting.now.ctx) b [] [] link → IfOk result (λ row. IsRow setting.now.env.now (rows setting.now.ctx) (named b name.now) (row_view row)) }
{
    let first = Name::new(alloc, link);
    let all = first.read(alloc, setting, false, name.as_str())?;
    all.row(alloc, setting, false)
}

/// The terms of a call.
#[cycle(reading)]
fn called_row(
    alloc: Global,
    setting: &Setting<'_>,
    before: &Before,
    name: &Word,
    args: &[Argument],
) -> Result<Row, AllocError>
    ensures right { IsSet setting.now.env.now setting.now.index.now → IsContext (rows setting.now.ctx) → IsBefore (chars setting.now.env.now.binder) (before_view before.now) → AreShapes (chars setting.now.env.now.binder) (args_view args.now) → IfOk result (λ row. IsRow setting.now.env.now (rows setting.now.ctx) (called (before_view before.now) name.now (args_view args.now)) (row_view row)) }
{
    let start = start_of(alloc, setting, before)?;
    let places = places_of(alloc, setting, args)?;
    match start {
        Start::Fresh => new_row(alloc, setting, name, &places),
        Start::Bare(link) => bare_call(alloc, setting, link, name, places),
        Start::Behind(link) => call_behind(alloc, setting, link, name, places),
    }
}

/// The terms of a call behind nothing.
fn bare_call(
    alloc: Global,
    setting: &Setting<'_>,
    link: Link,
    name: &Word,
    places: Items<Place>,
) -> Result<Row, AllocError>
    ensures right { (shapes : Shapes) → IsSet setting.now.env.now setting.now.index.now → IsContext (rows setting.now.ctx) → IsLink setting.now.env.now (rows setting.now.ctx) nothing [] [] link → AreSpots setting.now.env.now (rows setting.now.ctx) shapes (map place_view places) → IfOk result (λ row. IsRow setting.now.env.now (rows setting.now.ctx) (called nothing name.now shapes) (row_view row)) }
{
    let first = Name::new(alloc, link);
    let all = first.read(alloc, setting, true, name.as_str())?;
    call_row(alloc, setting, true, all, places)
}

/// The terms of a call behind a receiver.
fn call_behind(
    alloc: Global,
    setting: &Setting<'_>,
    link: Link,
    name: &Word,
    places: Items<Place>,
) -> Result<Row, AllocError>
    ensures right { (b : BeforeShape) (shapes : Shapes) → IsSet setting.now.env.now setting.now.index.now → IsContext (rows setting.now.ctx) → IsBare false b → IsLink setting.now.env.now (rows setting.now.ctx) b [] [] link → AreSpots setting.now.env.now (rows setting.now.ctx) shapes (map place_view places) → IfOk result (λ row. IsRow setting.now.env.now (rows setting.now.ctx) (called b name.now shapes) (row_view row)) }
{
    let first = Name::new(alloc, link);
    let all = first.read(alloc, setting, false, name.as_str())?;
    call_row(alloc, setting, false, all, places)
}

/// What stands before the first word of a name.
#[cycle(reading)]
fn start_of(alloc: Global, setting: &Setting<'_>, before: &Before) -> Result<Start, AllocError>
    ensures right { IsSet setting.now.env.now setting.now.index.now → IsContext (rows setting.now.ctx) → IsBefore (chars setting.now.env.now.binder) (before_view before.now) → IfOk result (IsStart setting.now.env.now (rows setting.now.ctx) (before_view before.now)) }
{
    match before {
        Before::Nothing => {
            let link = left_out(alloc, setting)?;
            Ok(Start::Bare(link))
        }
        Before::Fresh => Ok(Start::Fresh),
        Before::Behind(before, name, args, _) => {
            let row = called_row(alloc, setting, before.get(), name, args.as_slice())?;
            Ok(Start::Behind(receiver(Place { cast: None, row })))
        }
        Before::InBrackets(cast, shape, _) => {
            let place = place_of(alloc, setting, cast, shape.get())?;
            Ok(Start::Behind(receiver(place)))
        }
    }
}

/// What is found at a place.
#[cycle(reading)]
fn place_of(
    alloc: Global,
    setting: &Setting<'_>,
    cast: &Option<Word>,
    shape: &Shape,
) -> Result<Place, AllocError>
    ensures cast { IfOk result (λ place. place.cast ≡ cast.now) }
    ensures right { IsSet setting.now.env.now setting.now.index.now → IsContext (rows setting.now.ctx) → IsShape (chars setting.now.env.now.binder) (shape_view shape.now) → IfOk result (λ place. IsRow setting.now.env.now (rows setting.now.ctx) (shape_view shape.now) (row_view place.row)) }
{
    let row = shape_row(alloc, setting, shape)?;
    let cast = copy_cast(alloc, cast)?;
    Ok(Place { cast, row })
}

/// What is found for the arguments of a call.
#[cycle(reading)]
fn places_of(
    alloc: Global,
    setting: &Setting<'_>,
    args: &[Argument],
) -> Result<Items<Place>, AllocError>
    ensures right { IsSet setting.now.env.now setting.now.index.now → IsContext (rows setting.now.ctx) → AreShapes (chars setting.now.env.now.binder) (args_view args.now) → IfOk result (λ places. AreSpots setting.now.env.now (rows setting.now.ctx) (args_view args.now) (map place_view places)) }
{
    let mut places = Items::new(alloc);
    for i in 0..args.len() {
        let place = argument_place(alloc, setting, &args[i])?;
        places.push(place)?;
    }
    Ok(places)
}

/// What is found for an argument.
#[cycle(reading)]
fn argument_place(alloc: Global, setting: &Setting<'_>, arg: &Argument) -> Result<Place, AllocError>
    ensures right { IsSet setting.now.env.now setting.now.index.now → IsContext (rows setting.now.ctx) → AreShapes (chars setting.now.env.now.binder) (args_view (arg.now ∷ [])) → IfOk result (λ place. AreSpots setting.now.env.now (rows setting.now.ctx) (args_view (arg.now ∷ [])) (place_view place ∷ [])) }
{
    place_of(alloc, setting, &arg.cast, &arg.shape)
}

/// The terms of a lambda, by these declarations.
#[cycle(reading)]
fn lambda_rows(
    alloc: Global,
    setting: &Setting<'_>,
    numbers: &[u32],
    binders: &[Word],
    cast: &Option<Word>,
    body: &Shape,
) -> Result<Row, AllocError>
    ensures right { (name : List ℕ) → IsSet setting.now.env.now setting.now.index.now → IsContext (rows setting.now.ctx) → IsShape (chars setting.now.env.now.binder) (shape_view body.now) → IsUtf8 name → numbers.now ≡ bucket setting.now.index.now name → IfOk result (λ row. IsRow setting.now.env.now (rows setting.now.ctx) (lambda (chars name) binders.now cast.now (shape_view body.now)) (row_view row)) }
{
    let mut row = Row::none(alloc);
    let nested = setting.ctx.used;
    if nested >= MOST_ROWS {
        return Ok(row);
    }
    for i in 0..numbers.len() {
        let more = lambda_row(alloc, setting, numbers[i], binders, cast, body)?;
        row = row.with(more)?;
    }
    Ok(row)
}

/// The terms of a lambda, by this declaration.
#[cycle(reading)]
fn lambda_row(
    alloc: Global,
    setting: &Setting<'_>,
    number: u32,
    binders: &[Word],
    cast: &Option<Word>,
    body: &Shape,
) -> Result<Row, AllocError>
    requires { setting.now.ctx.used < 3 }
    ensures right { IsSet setting.now.env.now setting.now.index.now → IsContext (rows setting.now.ctx) → IsShape (chars setting.now.env.now.binder) (shape_view body.now) → IfOk result (λ row. IsLambdaRow setting.now.env.now (rows setting.now.ctx) number binders.now cast.now (shape_view body.now) (row_view row)) }
{
    let found = lambda_decl(alloc, setting, number, binders)?;
    match found {
        None => Ok(Row::none(alloc)),
        Some(wanted) => {
            let ctx = setting.ctx.with(wanted.row);
            let inner = Setting {
                env: setting.env,
                index: setting.index,
                ctx,
            };
            let under = shape_row(alloc, &inner, body)?;
            lambda_over(alloc, setting.env, number, wanted, cast, &under)
        }
    }
}
