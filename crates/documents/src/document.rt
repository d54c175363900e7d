ghost use Rattle.std.specs.Prelude.{◌≡◌, ◌≤◌, ◌<◌, ◌+◌, ℕ, ◌-◌, length, drop, take, ◌++◌, ◌∷◌, [], None, Some, IfSome, MatchOption, MatchResult, string_bytes, if◌then◌else◌, List};
ghost use Rattle.std.specs.Str.{chars, IsCharBoundary};
ghost use Rattle.documents.specs.Places.{offset_of, position_of, from_line, IsPlaceIn, IsRest, splits_newline};
ghost use Rattle.documents.specs.Edits.{edit_between, within, edited, document_after, Refuses};

use crate::change::{EditFault, TextChange};
use crate::lines::from_line;
use crate::starts::{known_line, learn, line_before, update};
use crate::text::{from_unit, position_from};
use std::alloc::Global;
use std::marker::Model;

const LONGEST: u64 = 16_777_216;

/// The text of an open document, which changes are applied to. Contracts see its bytes in UTF-8.
/// The first change that has a range looks for where lines begin. From then on that is known: a change
/// looks at its own text and its neighbours alone, and moves what stands after it.
#[derive(Drop)]
pub struct Document {
    text: String,
    starts: Vec<u32>,
}

impl Model for Document {
    ghost use Rattle.std.specs.Prelude.{List, ℕ, ◌≤◌, length, string_bytes};
    ghost use Rattle.documents.specs.Places.{AreStarts};

    ghost Value = { List ℕ };

    ghost view = { λ d. string_bytes d.text };

    ghost invariant = { λ d. (length (string_bytes d.text) ≤ 16777216) × AreStarts (string_bytes d.text) d.starts.items };
}

impl Document {
    /// A document with this text, of at most 16 MiB. It takes no memory of its own.
    pub fn from_text(alloc: Global, text: String) -> Document
        requires at_most_16_mib { length (string_bytes text) ≤ 16777216 }
        ensures text { result ≡ string_bytes text }
    {
        Document {
            text,
            starts: Vec::new(alloc),
        }
    }

    /// The whole text.
    pub fn text(&self) -> &str
        ensures value { result.now ≡ self.now }
        ensures at_most_16_mib { length self.now ≤ 16777216 }
    {
        self.text.as_str()
    }

    /// The text from a line on.
    #[tactic(auto, using(crate::proofs::LineStarts::places))]
    fn line(&self, line: u32) -> Option<&str>
        ensures value { MatchOption result (from_line line (chars self.now) ≡ None) (λ r. from_line line (chars self.now) ≡ Some (chars r.now)) }
        ensures rest { IfSome result (λ r. IsRest self.now r.now) }
    {
        if self.starts.is_empty() {
            return from_line(self.text(), line);
        }
        known_line(self.text(), self.starts.as_slice(), line)
    }

    /// The line that an offset is on, and the text from its start on, or from the text's start where it
    /// isn't known where lines begin.
    #[tactic(auto, using(crate::proofs::LineStarts::places))]
    fn line_before(&self, offset: u32) -> (u32, &str)
        ensures before { length self.now - length result.1.now ≤ offset }
        ensures few { result.0 ≤ length self.now }
        ensures value { from_line result.0 (chars self.now) ≡ Some (chars result.1.now) }
        ensures rest { IsRest self.now result.1.now }
    {
        if self.starts.is_empty() {
            return (0, self.text());
        }
        line_before(self.text(), self.starts.as_slice(), offset)
    }

    /// The offset of a position.
    #[tactic(auto, using(crate::proofs::Edits::edits))]
    fn place(&self, line: u32, unit: u32) -> Option<u32>
        ensures value { result ≡ offset_of (chars self.now) line unit }
        ensures boundary { IfSome result (λ n. IsCharBoundary self.now n) }
    {
        match self.line(line) {
            Some(start) => {
                let rest = from_unit(start, unit);
                Some((self.text().len() - rest.len()) as u32)
            }
            None => None,
        }
    }

    /// How many bytes stand before a UTF-16 unit of a line, both counted from 0; None where the document
    /// has no such line. A unit past the line's end means its end, one inside a character its start.
    pub fn offset(&self, line: u32, unit: u32) -> Option<u32>
        ensures value { result ≡ offset_of (chars self.now) line unit }
        ensures boundary { IfSome result (λ n. IsCharBoundary self.now n) }
        ensures line { IfSome result (λ n. (position_of (chars self.now) n).0 ≡ line) }
        ensures unit { IfSome result (λ n. (position_of (chars self.now) n).1 ≤ unit) }
        ensures back { IfSome result (λ n. (before after : List ℕ) → IsPlaceIn (chars self.now) line unit before after → position_of (chars self.now) n ≡ (line, unit)) }
    {
        self.place(line, unit)
    }

    /// The line and UTF-16 unit that the first `offset` bytes stand before, both counted from 0.
    #[tactic(auto, using(crate::proofs::LineStarts::places, crate::proofs::Laws::laws))]
    pub fn position(&self, offset: u32) -> (u32, u32)
        requires boundary { IsCharBoundary self.now offset }
        ensures value { result ≡ position_of (chars self.now) offset }
        ensures back { offset_of (chars self.now) result.0 result.1 ≡ Some (if splits_newline (chars (take offset self.now)) (chars (drop offset self.now)) then offset - 1 else offset) }
    {
        let (line, rest) = self.line_before(offset);
        let before = self.text().len() - rest.len();
        position_from(rest, line, offset as usize - before)
    }

    /// Puts a text in place of the bytes of a range.
    #[tactic(auto, unfolding(crate::specs::Edits::within), using(crate::proofs::Edits::edits))]
    fn replace(&mut self, from: u32, to: u32, new: &str) -> Result<(), EditFault>
        requires range { from ≤ to }
        requires from { IsCharBoundary self.old from }
        requires to { IsCharBoundary self.old to }
        ensures { MatchResult result
            (λ _. within ((take from self.old ++ new.now) ++ drop to self.old) ≡ edited self.new)
            (λ e. Refuses (within ((take from self.old ++ new.now) ++ drop to self.old)) e × (self.new ≡ self.old)) }
    {
        let kept = self.text.len() - (to - from) as usize;
        let len = kept as u64 + new.len() as u64;
        if len > LONGEST {
            return Err(EditFault::TooLong(len));
        }
        self.text.replace_range(from as usize..to as usize, new)?;
        let end = (from as u64 + new.len() as u64) as u32;
        let edge = from.saturating_sub(1);
        update(self.text.as_str(), &mut self.starts, edge, to, end);
        Ok(())
    }

    /// Puts a text in place of the whole text.
    #[tactic(auto, using(crate::proofs::Edits::edits))]
    fn replace_all(&mut self, new: &str) -> Result<(), EditFault>
        ensures { MatchResult result
            (λ _. within new.now ≡ edited self.new)
            (λ e. Refuses (within new.now) e × (self.new ≡ self.old)) }
    {
        let len = self.text().len() as u32;
        self.replace(0, len, new)
    }

    /// Puts a text in place of the text between two positions.
    #[tactic(auto, using(crate::proofs::Edits::edits))]
    fn replace_range(
        &mut self,
        start: (u32, u32),
        end: (u32, u32),
        new: &str,
    ) -> Result<(), EditFault>
        ensures { MatchResult result
            (λ _. edit_between self.old new.now (offset_of (chars self.old) start.0 start.1) (offset_of (chars self.old) end.0 end.1) ≡ edited self.new)
            (λ e. Refuses (edit_between self.old new.now (offset_of (chars self.old) start.0 start.1) (offset_of (chars self.old) end.0 end.1)) e × (self.new ≡ self.old)) }
    {
        let Some(from) = self.place(start.0, start.1) else {
            return Err(EditFault::Range);
        };
        let Some(to) = self.place(end.0, end.1) else {
            return Err(EditFault::Range);
        };
        if to < from {
            return Err(EditFault::Range);
        }
        self.replace(from, to, new)
    }

    /// Finds where lines begin, where it isn't known.
    fn learn(&mut self)
        ensures { self.new ≡ self.old }
    {
        learn(self.text.as_str(), &mut self.starts);
    }

    /// Makes a change, or none where it is refused.
    #[tactic(auto, using(crate::proofs::Edits::edits))]
    pub fn apply(&mut self, change: &TextChange) -> Result<(), EditFault>
        ensures change { MatchResult result
            (λ _. document_after (edited self.old) (change.now ∷ []) ≡ edited self.new)
            (λ e. Refuses (document_after (edited self.old) (change.now ∷ [])) e × (self.new ≡ self.old)) }
    {
        match change.range {
            Some((start, end)) => {
                self.learn();
                self.replace_range(start, end, change.text.as_str())
            }
            None => self.replace_all(change.text.as_str()),
        }
    }
}
