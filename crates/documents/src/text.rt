ghost use Rattle.std.specs.Prelude.{◌≡◌, ◌<◌, false, ◌≤◌, ◌+◌, ◌^◌, ◌++◌, ◌∷◌, [], MatchOption, length};
ghost use Rattle.std.specs.Str.{chars};
ghost use Rattle.std.specs.Char.{len_utf8};
ghost use Rattle.documents.specs.Places.{is_newline, units, ends_line, starts_with_lf, from_unit, position_from, IsRest};
ghost use lib.Utf8.{encode};

/// Whether the character is CR or LF.
#[tactic(auto, unfolding(crate::specs::Places::is_newline))]
fn is_newline(c: char) -> bool
    ensures { result ≡ is_newline c }
{
    c == '\r' || c == '\n'
}

/// How many UTF-16 units a character takes.
#[tactic(auto, unfolding(crate::specs::Places::units))]
fn units(c: char) -> u32
    ensures value { result ≡ units c }
    ensures bound { result ≤ 2 }
{
    if (c as u32) < 0x1_0000 { 1 } else { 2 }
}

/// The first character, and what follows it.
fn first(text: &str) -> Option<(char, &str)>
    ensures { MatchOption result ((text.now ≡ []) × (chars text.now ≡ [])) (λ r.
        (chars text.now ≡ r.0 ∷ chars r.1.now) × (text.now ≡ encode r.0 ++ r.1.now) × (length text.now ≡ len_utf8 r.0 + length r.1.now) × (0 < len_utf8 r.0)) }
{
    let mut cs = text.chars();
    match cs.next() {
        Some(c) => Some((c, cs.as_str())),
        None => None,
    }
}

/// Whether the text begins with LF.
fn starts_with_lf(text: &str) -> bool
    ensures { result ≡ starts_with_lf (chars text.now) }
{
    match first(text) {
        Some((c, _)) => c == '\n',
        None => false,
    }
}

/// Whether a line ends with the character, which this text follows.
#[tactic(auto, unfolding(crate::specs::Places::ends_line))]
fn ends_line(c: char, more: &str) -> bool
    ensures { result ≡ ends_line c (chars more.now) }
{
    c == '\n' || c == '\r' && !starts_with_lf(more)
}

/// The text from a unit of its first line on.
#[tactic(auto, using(crate::proofs::Rests::rests))]
pub fn from_unit(text: &str, unit: u32) -> &str
    ensures value { chars result.now ≡ from_unit unit (chars text.now) }
    ensures rest { IsRest text.now result.now }
{
    let mut rest = text;
    let mut left = unit;
    while let Some((c, more)) = first(rest) {
        if is_newline(c) {
            return rest;
        }
        if left < units(c) {
            return rest;
        }
        left -= units(c);
        rest = more;
    }
    rest
}

/// The line and unit `bytes` bytes further on, where the text begins with line `line`.
#[tactic(auto, using(crate::proofs::Rests::rests))]
pub fn position_from(text: &str, line: u32, bytes: usize) -> (u32, u32)
    requires text { length text.now ≤ 16777216 }
    requires line { line ≤ 16777216 }
    ensures { result ≡ position_from line 0 bytes (chars text.now) }
{
    let mut rest = text;
    let mut left = bytes;
    let mut line = line;
    let mut unit = 0;
    while let Some((c, more)) = first(rest) {
        if left == 0 {
            return (line, unit);
        }
        left = left.saturating_sub(c.len_utf8());
        rest = more;
        if ends_line(c, more) {
            line += 1;
            unit = 0;
            continue;
        }
        unit += units(c);
    }
    (line, unit)
}
