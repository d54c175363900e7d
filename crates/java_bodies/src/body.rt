ghost use Rattle.std.specs.Prelude.{◌≡◌, ◌<◌, IfOk, Some, true, drop, take, length, slice_get, unwrap_or};
ghost use Rattle.java_units.specs.Signs.{seen};
ghost use Rattle.java_bodies.specs.Kept.{keeps};
ghost use Rattle.java_bodies.specs.Openers.{opener};
ghost use Rattle.java_bodies.specs.declared.mark.Brackets.TheVariants.{Blocks, Rounds};

use crate::kept::kept_marks;
use crate::mark::Brackets;
use crate::openers::openers;
use java_units::forms::{Lexeme, prefix};
use std::alloc::{AllocError, Global};
use std::marker::Model;

/// What stands behind the `{` of a method's body, up to the prefix of the hole and up to the end of the text,
/// or in a header up to its `)`; with tables by place.
#[derive(Drop)]
pub struct Body<'a, 'b> {
    before: &'b [Lexeme<'a>],
    whole: &'b [Lexeme<'a>],
    blocks: Vec<bool>,
    rounds: Vec<bool>,
    openers: Vec<Option<usize>>,
}

impl<'a, 'b> Model for Body<'a, 'b> {
    ghost use Rattle.std.specs.Prelude.{◌≡◌};
    ghost use Rattle.java_units.specs.Signs.{seen};
    ghost use Rattle.java_bodies.specs.Bodies.{BodySigns};
    ghost use Rattle.java_bodies.specs.Kept.{kept_marks};
    ghost use Rattle.java_bodies.specs.Openers.{openers as all_openers};
    ghost use Rattle.java_bodies.specs.declared.mark.Brackets.TheVariants.{Blocks, Rounds};

    ghost Value = { BodySigns };

    ghost view = { λ b. record { before = seen b.before.now; whole = seen b.whole.now } };

    ghost invariant = { λ b. (b.blocks.items ≡ kept_marks Blocks (seen b.before.now)) × (b.rounds.items ≡ kept_marks Rounds (seen b.whole.now)) × (b.openers.items ≡ all_openers (seen b.before.now)) };
}

/// Whether a mark is set; where there is none, nothing follows the place.
fn is_marked(marks: &[bool], k: usize) -> bool
    ensures { result ≡ unwrap_or (slice_get marks.now k) true }
{
    match marks.get(k) {
        Some(mark) => *mark,
        None => true,
    }
}

/// The opener at a place.
fn opener_in(openers: &[Option<usize>], k: usize) -> Option<usize>
    requires { k < length openers.now }
    ensures { slice_get openers.now k ≡ Some result }
{
    openers[k]
}

impl<'a, 'b> Body<'a, 'b> {
    /// The first `len` of some lexemes, followed by the others.
    pub fn new(
        alloc: Global,
        whole: &'b [Lexeme<'a>],
        len: usize,
    ) -> Result<Body<'a, 'b>, AllocError>
        ensures { IfOk result (λ b. b ≡ record { before = take len (seen whole.now); whole = seen whole.now }) }
    {
        let before = prefix(whole, len);
        Ok(Body {
            before,
            whole,
            blocks: kept_marks(alloc, Brackets::Blocks, before)?,
            rounds: kept_marks(alloc, Brackets::Rounds, whole)?,
            openers: openers(alloc, before)?,
        })
    }

    /// What stands before the hole.
    pub fn before(&self) -> &'b [Lexeme<'a>]
        ensures { seen result.now ≡ self.now.before }
    {
        self.before
    }

    /// Whether no block that is open at the place is closed before the hole.
    pub fn keeps_blocks(&self, k: usize) -> bool
        ensures { result ≡ keeps Blocks (drop k self.now.before) }
    {
        is_marked(self.blocks.as_slice(), k)
    }

    /// Whether no round bracket that is open at the place is closed before the next brace.
    pub fn keeps_rounds(&self, k: usize) -> bool
        ensures { result ≡ keeps Rounds (drop k self.now.whole) }
    {
        is_marked(self.rounds.as_slice(), k)
    }

    /// The place of the `(` that a `)` at this place closes.
    pub fn opener(&self, k: usize) -> Option<usize>
        requires { k < length self.now.before }
        ensures { result ≡ opener self.now.before k }
    {
        opener_in(self.openers.as_slice(), k)
    }
}
