ghost use Rattle.std.specs.Prelude.{◌≡◌, false, drop, length};
ghost use Rattle.java_tokens.specs.Classes.{is_newline};
ghost use Rattle.java_tokens.specs.Rules.{begins, has_mark, has_quote, has_quote_in_line, is_closed_at};
ghost use Rattle.java_tokens.specs.Tokens.{IsWithin, is_closed};

use crate::token::Token;

/// What follows the first n bytes, or nothing.
fn rest(bytes: &[u8], n: usize) -> &[u8]
    ensures { result.now ≡ drop n bytes.now }
{
    if n >= bytes.len() {
        return &[];
    }
    &bytes[n..]
}

/// Whether the mark begins these bytes.
#[tactic(auto, using(crate::proofs::Runs::runs))]
fn begins(mark: &[u8], bytes: &[u8]) -> bool
    ensures { result ≡ begins mark.now bytes.now }
{
    if bytes.len() < mark.len() {
        return false;
    }
    for i in 0..mark.len() {
        if mark[i] != bytes[i] {
            return false;
        }
    }
    true
}

/// Whether the mark stands among these bytes.
#[tactic(auto, using(crate::proofs::Runs::runs, crate::proofs::Closed::marks))]
fn has_mark(mark: &[u8], bytes: &[u8]) -> bool
    ensures { result ≡ has_mark mark.now bytes.now }
{
    for i in 0..bytes.len() {
        if begins(mark, rest(bytes, i)) {
            return true;
        }
    }
    false
}

/// The same, where a backslash takes the next byte with it.
#[tactic(auto, using(crate::proofs::Runs::runs, crate::proofs::Closed::marks))]
fn has_quote(mark: &[u8], bytes: &[u8]) -> bool
    ensures { result ≡ has_quote mark.now false bytes.now }
{
    let mut taken = false;
    for i in 0..bytes.len() {
        if taken {
            taken = false;
            continue;
        }
        if bytes[i] == b'\\' {
            taken = true;
            continue;
        }
        if begins(mark, rest(bytes, i)) {
            return true;
        }
    }
    false
}

/// Whether the byte is CR or LF.
#[tactic(auto, unfolding(crate::specs::Classes::is_newline))]
fn is_newline(byte: u8) -> bool
    ensures { result ≡ is_newline byte }
{
    byte == b'\r' || byte == b'\n'
}

/// The same for one quote before the end of the line.
#[tactic(auto, using(crate::proofs::Runs::runs, crate::proofs::Closed::marks))]
fn has_quote_in_line(mark: u8, bytes: &[u8]) -> bool
    ensures { result ≡ has_quote_in_line mark false bytes.now }
{
    let mut taken = false;
    for i in 0..bytes.len() {
        let byte = bytes[i];
        if is_newline(byte) {
            return false;
        }
        if taken {
            taken = false;
            continue;
        }
        if byte == b'\\' {
            taken = true;
            continue;
        }
        if byte == mark {
            return true;
        }
    }
    false
}

/// Whether the token that begins these bytes is closed.
#[tactic(auto, using(crate::proofs::Runs::runs), unfolding(crate::specs::Rules::is_closed_at))]
fn is_closed_at(bytes: &[u8]) -> bool
    ensures { result ≡ is_closed_at bytes.now }
{
    if begins(b"/*", bytes) {
        return has_mark(b"*/", rest(bytes, 2));
    }
    if begins(b"\"\"\"", bytes) {
        return has_quote(b"\"\"\"", rest(bytes, 3));
    }
    if begins(b"\"", bytes) {
        return has_quote_in_line(b'"', rest(bytes, 1));
    }
    if begins(b"'", bytes) {
        return has_quote_in_line(b'\'', rest(bytes, 1));
    }
    true
}

/// Whether a comment, a text or a character text has the mark that closes it. It is told by the rule that
/// made the token: of `"\"` the last quote is taken by the backslash, so it isn't closed. A comment that a
/// line ends counts as closed, and so does every other token. It takes time linear in the token.
pub fn is_closed(text: &str, token: &Token) -> bool
    requires whole { IsWithin text.now token.now }
    ensures by_the_rule { result ≡ is_closed text.now token.now }
{
    let from = &text[token.start as usize..];
    is_closed_at(from.as_bytes())
}
