ghost use Rattle.std.specs.Prelude.{◌≡◌, ◌<◌, ◌∷◌, ◌++◌, length, IfOk, OnOk, MatchOption};
ghost use Rattle.std.specs.Option.{option_copied, option_map};
ghost use Rattle.std.specs.Str.{IsUtf8};
ghost use Rattle.known_classes.specs.Known.{class_named, nesting_at, outer_of, simple_in, cycles, dotted, canonical};
ghost use Rattle.known_classes.specs.Outwards.{outwards};

use crate::classes::ClassList;
use crate::nested::same;
use crate::summary::Nesting;
use lists::{Copies, Text};
use std::alloc::{AllocError, Global};

/// The text before the first `/`, and the text after it.
fn cut_at_slash(text: &str) -> Option<(&str, &str)>
    ensures { MatchOption result (dotted text.now ≡ text.now) (λ x. (dotted text.now ≡ x.0.now ++ (46 ∷ dotted x.1.now)) × (length x.1.now < length text.now) × IsUtf8 x.1.now) }
{
    text.split_once('/')
}

/// Adds a name to a text, with `.` in place of `/`.
pub fn push_dotted(text: &mut Text, name: &str) -> Result<(), AllocError>
    ensures { OnOk result (text.new ≡ text.old ++ dotted name.now) }
{
    let mut rest = name;
    while let Some((prefix, more)) = cut_at_slash(rest) {
        text.push_str(prefix)?;
        text.push_str(".")?;
        rest = more;
    }
    text.push_str(rest)?;
    Ok(())
}

/// How the class of this name stands in another, where that is known.
fn nesting_of<'a, L: ClassList>(known: &'a L, name: &Text) -> Option<&'a Nesting>
    ensures { option_copied result ≡ nesting_at (class_named (L.listed known.now) name.now) }
{
    let Some(place) = known.find(name.as_str()) else {
        return None;
    };
    known.at(place).nesting.as_ref()
}

/// The outer class of the class of this name, where that is known and has one.
fn outer_of<'a, L: ClassList>(known: &'a L, name: &Text) -> Option<&'a Text>
    ensures { option_copied result ≡ outer_of (L.listed known.now) name.now }
{
    match nesting_of(known, name) {
        Some(nesting) => nesting.outer.as_ref(),
        None => None,
    }
}

/// The simple name of the class of this name, where that is known and has one.
fn simple_of<'a, L: ClassList>(known: &'a L, name: &Text) -> Option<&'a Text>
    ensures { option_copied result ≡ simple_in (nesting_at (class_named (L.listed known.now) name.now)) }
{
    match nesting_of(known, name) {
        Some(nesting) => nesting.simple.as_ref(),
        None => None,
    }
}

/// Whether a class reaches itself by outer classes.
fn cycles<L: ClassList>(known: &L, name: &Text) -> bool
    ensures { result ≡ cycles (L.listed known.now) name.now }
{
    let mut next = outer_of(known, name);
    for _step in 0..known.count() {
        let Some(outer) = next else {
            return false;
        };
        if same(name, outer) {
            return true;
        }
        let further = outer_of(known, outer);
        next = further;
    }
    false
}

/// The outer class and the simple name of a class.
#[derive(Drop)]
struct Step<'a> {
    outer: &'a Text,
    simple: &'a Text,
}

/// The outer class and the simple name of a class, where it has both and doesn't reach itself.
#[tactic(auto, unfolding(crate::specs::Outwards::outwards))]
fn outwards<'a, L: ClassList>(known: &'a L, name: &Text) -> Option<Step<'a>>
    ensures { option_map (λ x. (x.outer.now, x.simple.now)) result ≡ outwards (L.listed known.now) name.now }
{
    if cycles(known, name) {
        return None;
    }
    let Some(outer) = outer_of(known, name) else {
        return None;
    };
    let Some(simple) = simple_of(known, name) else {
        return None;
    };
    Some(Step { outer, simple })
}

/// The name with `.` in place of `/`, and what follows it.
fn ended(alloc: Global, name: &Text, tail: &Text) -> Result<Text, AllocError>
    ensures { IfOk result (λ text. text ≡ dotted name.now ++ tail.now) }
{
    let mut text = Text::new(alloc);
    push_dotted(&mut text, name.as_str())?;
    text.push_str(tail.as_str())?;
    Ok(text)
}

/// A simple name behind `.`, and what follows it.
fn longer(alloc: Global, simple: &Text, tail: &Text) -> Result<Text, AllocError>
    ensures { IfOk result (λ text. text ≡ (46 ∷ simple.now) ++ tail.now) }
{
    let mut text = Text::from_str(alloc, ".")?;
    text.push_str(simple.as_str())?;
    text.push_str(tail.as_str())?;
    Ok(text)
}

/// The canonical name of the class of this internal name (JLS 6.7).
pub fn canonical<L: ClassList>(alloc: Global, known: &L, name: &Text) -> Result<Text, AllocError>
    ensures { IfOk result (λ text. text ≡ canonical (L.listed known.now) name.now) }
{
    let mut here = name.copy(alloc)?;
    let mut tail = Text::new(alloc);
    for _step in 0..known.count() {
        let Some(step) = outwards(known, &here) else {
            let text = ended(alloc, &here, &tail)?;
            return Ok(text);
        };
        let further = longer(alloc, step.simple, &tail)?;
        let next = step.outer.copy(alloc)?;
        tail = further;
        here = next;
    }
    let whole = ended(alloc, &here, &tail)?;
    Ok(whole)
}
