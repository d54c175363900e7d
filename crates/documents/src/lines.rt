ghost use Rattle.std.specs.Prelude.{◌≡◌, ◌≤◌, ◌++◌, IsTrue, IfSome, MatchOption, None, Some, drop, length, slice_range};
ghost use Rattle.std.specs.Str.{chars};
ghost use Rattle.documents.specs.Places.{starts_with_lf, from_line, ends_in, EndsAfter, EndsNever, IsRest};

use memchr::memchr2;

/// Whether an LF stands at a place.
fn has_lf(text: &[u8], at: usize) -> bool
    ensures { result ≡ starts_with_lf (drop at text.now) }
{
    match text.get(at) {
        Some(byte) => *byte == b'\n',
        None => false,
    }
}

/// How many bytes the first line takes with its end; None where it has none.
fn first_end(text: &[u8]) -> Option<usize>
    ensures { MatchOption result (EndsNever text.now) (λ n. EndsAfter text.now n) }
{
    let Some(at) = memchr2(b'\r', b'\n', text) else {
        return None;
    };
    if text[at] == b'\r' && has_lf(text, at + 1) {
        return Some(at + 2);
    }
    Some(at + 1)
}

/// The text from its second line on.
fn second_line(text: &str) -> Option<&str>
    ensures value { MatchOption result (from_line 1 (chars text.now) ≡ None) (λ r. from_line 1 (chars text.now) ≡ Some (chars r.now)) }
    ensures rest { IfSome result (λ r. IsRest text.now r.now) }
{
    let Some(end) = first_end(text.as_bytes()) else {
        return None;
    };
    Some(&text[end..])
}

/// The text from a line on.
#[tactic(auto, using(crate::proofs::Rests::rests))]
pub fn from_line(text: &str, line: u32) -> Option<&str>
    ensures value { MatchOption result (from_line line (chars text.now) ≡ None) (λ r. from_line line (chars text.now) ≡ Some (chars r.now)) }
    ensures rest { IfSome result (λ r. IsRest text.now r.now) }
{
    let mut rest = text;
    let mut lines = line;
    while lines > 0 {
        let Some(more) = second_line(rest) else {
            return None;
        };
        rest = more;
        lines -= 1;
    }
    Some(rest)
}

/// Puts down where lines end from one place of a text up to another; false where there was no room.
pub fn find_ends(text: &[u8], from: u32, to: u32, ends: &mut Vec<u32>) -> bool
    requires range { from ≤ to }
    requires to { to ≤ length text.now }
    requires size { length text.now ≤ 16777216 }
    ensures { IsTrue result → ends.new.items ≡ ends.old.items ++ ends_in from (slice_range text.now from to) (drop to text.now) }
{
    let mut at = from as usize;
    while let Some(end) = first_end(&text[at..]) {
        at += end;
        if at > to as usize {
            return true;
        }
        if ends.push(at as u32).is_err() {
            return false;
        }
    }
    true
}
