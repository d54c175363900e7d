ghost use Rattle.std.specs.Prelude.{◌≡◌, ℕ, List, [], Option};
ghost use Rattle.java_shapes.specs.Reader.{Around, start, later, when};
ghost use Rattle.java_resolve.specs.View.{before_view, spot_part, place_part, due_all, spot_option};

use crate::shape::{Argument, Before};
use crate::word::Word;
use lists::Items;
use std::alloc::Global;

/// A call: what stands before its name, its name, its arguments.
#[derive(Drop)]
pub struct Call {
    pub before: Before,
    pub name: Word,
    pub args: Items<Argument>,
}

/// A name that is read: what stands before it, its words with their dots, the word that is read.
#[derive(Drop)]
pub struct Path {
    pub before: Before,
    pub done: Word,
    pub word: Word,
}

/// A type, or the beginning of one: its words with their dots, the word that is read.
#[derive(Drop)]
pub struct Typing {
    pub done: Word,
    pub word: Word,
}

/// The binders of a lambda: its interface, the binders before the one that is read, and that one.
#[derive(Drop)]
pub struct Binders {
    pub interface: Word,
    pub done: Items<Word>,
    pub word: Word,
}

/// What stands around an expression, innermost last; each with the cast before the expression that it is a part of.
#[derive(Drop)]
pub enum Frame {
    /// An argument of a call, with the arguments before it.
    Call(Option<Word>, Call),
    /// The body of a lambda: its interface and its binders.
    Body(Option<Word>, Word, Items<Word>),
    /// The brackets of a receiver.
    Group(Option<Word>),
}

/// Where the reader is.
#[derive(Drop)]
pub enum Place {
    /// In the first word of a name, maybe before it.
    First(Word),
    /// In a later word.
    Later(Path),
    /// Behind the `(` that begins an expression.
    Opened,
    /// In the type of a cast or the interface of a lambda.
    Typing(Typing),
    /// Behind the dimensions of a cast's type.
    Sized(Word),
    /// Behind `(T) `, which may be a cast or the interface of a lambda.
    Either(Word),
    /// Behind `(T) (`.
    EitherOpened(Word),
    /// In a word behind `(T) (`.
    EitherWord(Word, Word),
    /// Behind `(T) (w) `.
    EitherClosed(Word, Word),
    /// Behind the `(` of binders.
    BindersOpened(Word),
    /// In a binder.
    InBinder(Binders),
    /// Behind the `(` of a call.
    CallOpened(Before, Word),
    /// Behind the `)` of a call.
    CallClosed(Call),
}

/// A place behind characters that are due, with the cast before the expression that it is in.
#[derive(Drop)]
pub struct Spot {
    pub due: &'static [char],
    pub cast: Option<Word>,
    pub place: Place,
}

/// A place with nothing due before it.
pub fn here(cast: Option<Word>, place: Place) -> Spot
    ensures { (a : Around) → spot_part a result ≡ place_part a cast place }
{
    Spot {
        due: &[],
        cast,
        place,
    }
}

/// Before an expression.
pub fn start(alloc: Global) -> Place
    ensures { (a : Around) (c : Option (List ℕ)) → place_part a c result ≡ start a c }
{
    Place::First(Word::new(alloc))
}

/// A place with these characters due before it.
pub fn behind(due: &'static [char], cast: Option<Word>, place: Place) -> Spot
    ensures { (a : Around) → spot_part a result ≡ due_all due.now (place_part a cast place) }
{
    Spot { due, cast, place }
}

/// The place, where a test passes.
pub fn when(passes: bool, spot: Spot) -> Option<Spot>
    ensures { (a : Around) → spot_option a result ≡ when passes (spot_part a spot) }
{
    if passes { Some(spot) } else { None }
}

/// Before a word behind this text with its dot.
pub fn later(alloc: Global, before: Before, done: Word) -> Place
    ensures { (a : Around) (c : Option (List ℕ)) → place_part a c result ≡ later a c (before_view before) done [] }
{
    Place::Later(Path {
        before,
        done,
        word: Word::new(alloc),
    })
}
