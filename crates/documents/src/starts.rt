ghost use Rattle.std.specs.Prelude.{◌≡◌, ◌≤◌, ◌<◌, ◌+◌, ◌-◌, ◌^◌, IsTrue, IfSome, MatchOption, None, Some, All, map, length, drop, take};
ghost use Rattle.std.specs.Str.{chars, IsCharBoundary};
ghost use Rattle.documents.specs.Places.{from_line, line_starts, AreStarts, IsEdited, IsRest, IsRising};

use crate::lines::find_ends;

/// The text from a byte on.
#[tactic(auto, using(crate::proofs::LineStarts::places))]
pub fn from_byte(text: &str, at: u32) -> &str
    requires { IsCharBoundary text.now at }
    ensures value { result.now ≡ drop at text.now }
    ensures rest { IsRest text.now result.now }
{
    &text[at as usize..]
}

/// How many starts are at or before an offset, by halving.
fn count_upto(starts: &[u32], offset: u32) -> usize
    requires { IsRising starts.now }
    ensures within { result ≤ length starts.now }
    ensures before { All (λ a. a ≤ offset) (take result starts.now) }
    ensures after { All (λ a. offset < a) (drop result starts.now) }
{
    let mut low = 0;
    let mut high = starts.len();
    while low < high {
        let middle = low + (high - low) / 2;
        if starts[middle] <= offset {
            low = middle + 1;
        } else {
            high = middle;
        }
    }
    low
}

/// The text from a line on.
pub fn known_line<'a>(text: &'a str, starts: &[u32], line: u32) -> Option<&'a str>
    requires some { 0 < length starts.now }
    requires starts { AreStarts text.now starts.now }
    ensures value { MatchOption result (from_line line (chars text.now) ≡ None) (λ r. from_line line (chars text.now) ≡ Some (chars r.now)) }
    ensures rest { IfSome result (λ r. IsRest text.now r.now) }
{
    if line as usize >= starts.len() {
        return None;
    }
    Some(from_byte(text, starts[line as usize]))
}

/// The line that an offset is on, and the text from its start on.
pub fn line_before<'a>(text: &'a str, starts: &[u32], offset: u32) -> (u32, &'a str)
    requires some { 0 < length starts.now }
    requires starts { AreStarts text.now starts.now }
    requires size { length text.now ≤ 16777216 }
    ensures before { length text.now - length result.1.now ≤ offset }
    ensures few { result.0 ≤ length text.now }
    ensures value { from_line result.0 (chars text.now) ≡ Some (chars result.1.now) }
    ensures rest { IsRest text.now result.1.now }
{
    let line = count_upto(starts, offset) - 1;
    (line as u32, from_byte(text, starts[line]))
}

/// Finds where the lines of a text begin, unless it is known already or memory is wanting.
pub fn learn(text: &str, starts: &mut Vec<u32>)
    requires starts { AreStarts text.now starts.old.items }
    requires size { length text.now ≤ 16777216 }
    ensures { AreStarts text.now starts.new.items }
{
    if !starts.is_empty() {
        return;
    }
    if starts.push(0).is_err() {
        return;
    }
    if !find_ends(text.as_bytes(), 0, text.len() as u32, starts) {
        starts.truncate(0);
    }
}

/// Moves starts as the text before them grows or shrinks: what ended at `from` ends at `to`.
fn shift(starts: &mut [u32], from: u32, to: u32)
    requires low { All (λ a. from ≤ a) starts.old }
    requires high { All (λ a. a - from + to < 2 ^ 32) starts.old }
    ensures { starts.new ≡ map (λ a. a - from + to) starts.old }
{
    for start in starts.iter_mut() {
        *start = *start - from + to;
    }
}

/// The starts of the lines of an edited text, made of the old ones; false where memory was wanting.
fn move_starts(text: &str, starts: &mut Vec<u32>, edge: u32, to: u32, end: u32) -> bool
    requires some { 0 < length starts.old.items }
    requires edited { IsEdited starts.old.items text.now edge to end }
    requires size { length text.now ≤ 16777216 }
    ensures { IsTrue result → starts.new.items ≡ line_starts text.now }
{
    let low = count_upto(starts.as_slice(), edge);
    let high = count_upto(starts.as_slice(), to);
    let Ok(mut later) = starts.split_off(high) else {
        return false;
    };
    starts.truncate(low);
    if !find_ends(text.as_bytes(), edge, end, starts) {
        return false;
    }
    shift(later.as_mut_slice(), to, end);
    starts.append(&mut later).is_ok()
}

/// Brings the starts of lines up to date with an edit, or forgets them where memory is wanting. It looks
/// at what was put in and at the line ends next to it alone.
pub fn update(text: &str, starts: &mut Vec<u32>, edge: u32, to: u32, end: u32)
    requires edited { IsEdited starts.old.items text.now edge to end }
    requires size { length text.now ≤ 16777216 }
    ensures { AreStarts text.now starts.new.items }
{
    if starts.is_empty() {
        return;
    }
    if !move_starts(text, starts, edge, to, end) {
        starts.truncate(0);
    }
}
