ghost use Rattle.std.specs.Prelude.{◌≡◌, ◌&&◌, ◌∷◌, [], map, IfOk, Some};
ghost use Rattle.terms.specs.Text.{differs};
ghost use Rattle.java_shapes.specs.ShapeOf.{cast_shape};
ghost use Rattle.java_resolve.specs.Found.{join, is_two, same_cast, suits, pick};
ghost use Rattle.java_resolve.specs.Trees.{found_view, entry_view};

use crate::texts::type_text;
use crate::tree::Tree;
use crate::word::Word;
use java_units::forms::same;
use lists::Items;
use std::alloc::{AllocError, Global};
use std::rc::Rc;
use terms::{Env, Parts};

/// Which terms there are: none, this one alone, or two and more.
#[derive(Drop)]
pub enum Found {
    Nothing,
    One(Rc<Tree>),
    Two,
}

/// The terms that one declaration or variable heads, and their type.
#[derive(Drop)]
pub struct Entry {
    pub kind: u32,
    pub found: Found,
}

/// What is found for an expression, whatever type is wanted, and how deep the terms nest at most.
#[derive(Drop)]
pub struct Row {
    pub entries: Items<Entry>,
    pub depth: u32,
}

/// An argument or a receiver: the cast before it, and what is found for it.
#[derive(Drop)]
pub struct Place {
    pub cast: Option<Word>,
    pub row: Row,
}

/// What is found with one more.
fn join(found: Found, more: &Found) -> Result<Found, AllocError>
    ensures joined { IfOk result (λ f. found_view f ≡ join (found_view found) (found_view more.now)) }
{
    match found {
        Found::Nothing => match more {
            Found::Nothing => Ok(Found::Nothing),
            Found::One(tree) => Ok(Found::One(tree.clone()?)),
            Found::Two => Ok(Found::Two),
        },
        Found::One(tree) => match more {
            Found::Nothing => Ok(Found::One(tree)),
            Found::One(_) => Ok(Found::Two),
            Found::Two => Ok(Found::Two),
        },
        Found::Two => Ok(Found::Two),
    }
}

impl Found {
    /// Whether two and more are found.
    fn is_two(&self) -> bool
        ensures { result ≡ is_two (found_view self.now) }
    {
        matches!(self, Found::Two)
    }
}

/// Whether a cast is printed before a term.
fn is_printed(crowded: bool, kind: u32, wanted: u32) -> bool
    ensures { result ≡ (crowded && differs (Some kind) wanted) }
{
    if !crowded {
        return false;
    }
    kind != wanted
}

/// Whether the cast that is printed before a term of this type is the one that is read.
fn is_cast(parts: &Parts, crowded: bool, kind: u32, wanted: u32, cast: &Option<Word>) -> bool
    ensures value { result ≡ same_cast (cast_shape parts.now crowded (Some kind) wanted) cast.now }
{
    let is_printed = is_printed(crowded, kind, wanted);
    match cast {
        None => !is_printed,
        Some(word) => {
            if !is_printed {
                return false;
            }
            same(type_text(parts, wanted), word.as_str())
        }
    }
}

/// Whether a term of this type, behind this cast, may stand where the other type is wanted.
#[tactic(auto, unfolding(crate::specs::Found::suits))]
pub fn suits(env: &Env, crowded: bool, cast: &Option<Word>, wanted: u32, kind: u32) -> bool
    ensures value { result ≡ suits env.now crowded cast.now wanted kind }
{
    if !env.is_below(kind, wanted) {
        return false;
    }
    is_cast(env.parts(), crowded, kind, wanted, cast)
}

/// What is found with the terms of an entry, where their type suits.
fn join_entry(
    env: &Env,
    crowded: bool,
    cast: &Option<Word>,
    wanted: u32,
    found: Found,
    entry: &Entry,
) -> Result<Found, AllocError>
    ensures joined { IfOk result (λ f. found_view f ≡ join (found_view found) (pick (suits env.now crowded cast.now wanted) (entry_view entry.now ∷ []))) }
{
    if !suits(env, crowded, cast, wanted, entry.kind) {
        return Ok(found);
    }
    join(found, &entry.found)
}

/// The terms of a row that may stand at a place.
pub fn pick(
    env: &Env,
    crowded: bool,
    cast: &Option<Word>,
    wanted: u32,
    entries: &[Entry],
) -> Result<Found, AllocError>
    ensures value { IfOk result (λ f. found_view f ≡ pick (suits env.now crowded cast.now wanted) (map entry_view entries.now)) }
{
    let mut found = Found::Nothing;
    for entry in entries {
        found = join_entry(env, crowded, cast, wanted, found, entry)?;
        if found.is_two() {
            return Ok(found);
        }
    }
    Ok(found)
}
