ghost use Rattle.std.specs.Prelude.{◌≡◌, ◌<◌};
ghost use Rattle.std.specs.List.{position_from};
ghost use Rattle.java_units.specs.Signs.{seen};
ghost use Rattle.java_bodies.specs.Methods.{signs_before, signs_from, is_unclosed, holds, holds_hole, method_at};

use java_units::forms::{Lexeme, held_len, tail};
use java_units::{SourceClass, SourceMethod};

/// A method, by the number of its class in the unit and its own number in the class.
#[derive(Clone, Copy, Debug, PartialEq, Eq)]
pub struct MethodPlace {
    pub class: usize,
    pub method: usize,
}

/// How many lexemes stand before the token of this number.
pub fn signs_before(number: usize, lexemes: &[Lexeme<'_>]) -> usize
    ensures { result ≡ signs_before number (seen lexemes.now) }
{
    lexemes
        .iter()
        .filter(|lexeme| lexeme.number < number)
        .count()
}

/// What stands from the token of this number on.
#[tactic(auto, unfolding(crate::specs::Methods::signs_from))]
pub fn signs_from<'a, 'b>(number: usize, lexemes: &'b [Lexeme<'a>]) -> &'b [Lexeme<'a>]
    ensures { seen result.now ≡ signs_from number (seen lexemes.now) }
{
    tail(lexemes, signs_before(number, lexemes))
}

/// Whether all lexemes behind the `{` of this number stand in its block.
#[tactic(auto, using(crate::proofs::Lengths::lengths), unfolding(crate::specs::Methods::is_unclosed))]
fn is_unclosed(number: usize, lexemes: &[Lexeme<'_>]) -> bool
    ensures { result ≡ is_unclosed number (seen lexemes.now) }
{
    let from = signs_from(number, lexemes);
    held_len(from) == tail(from, 1).len()
}

/// A text split at a hole: how many tokens stand before it, how many there are, and those that count.
#[derive(Clone, Copy)]
pub struct Split<'a, 'b> {
    pub passed: usize,
    pub count: usize,
    pub lexemes: &'b [Lexeme<'a>],
}

/// Whether the hole stands in the block that these tokens spell.
fn holds(split: &Split<'_, '_>, body: Option<(u32, u32)>) -> bool
    ensures { result ≡ holds split.now.passed split.now.count (seen split.now.lexemes.now) body }
{
    let Some((first, end)) = body else {
        return false;
    };
    let (first, end) = (first as usize, end as usize);
    if first >= split.passed {
        return false;
    }
    split.passed < end || end == split.count && is_unclosed(first, split.lexemes)
}

/// The first of these methods in whose body the hole stands.
fn method_in(split: &Split<'_, '_>, methods: &[SourceMethod]) -> Option<usize>
    ensures { result ≡ position_from (holds_hole split.now.passed split.now.count (seen split.now.lexemes.now)) 0 methods.now }
{
    for i in 0..methods.len() {
        if holds(split, methods[i].body) {
            return Some(i);
        }
    }
    None
}

/// The method in whose body the hole stands.
pub fn method_at(split: &Split<'_, '_>, classes: &[SourceClass]) -> Option<MethodPlace>
    ensures { result ≡ method_at split.now.passed split.now.count (seen split.now.lexemes.now) classes.now }
{
    for class in 0..classes.len() {
        if let Some(method) = method_in(split, classes[class].methods.as_slice()) {
            return Some(MethodPlace { class, method });
        }
    }
    None
}
