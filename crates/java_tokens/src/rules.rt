ghost use Rattle.std.specs.Prelude.{◌≡◌, IsTrue, ◌≤◌, ◌<◌, ◌∷◌, drop, take, length, slice_index, false};
ghost use Rattle.java_tokens.specs.Rules.{run_of, begins, up_to, quoted, quoted_in_line, rule};
ghost use Rattle.java_tokens.specs.Tokens.{byte_len};

use crate::char_class::{CharClass, is_digit, is_in_class, is_newline, is_white, is_word_start};
use crate::token::TokenKind;

/// What follows the first n characters.
pub fn tail(cs: &[char], n: usize) -> &[char]
    requires { n ≤ length cs.now }
    ensures { result.now ≡ drop n cs.now }
{
    &cs[n..]
}

/// How many characters at the front are of the class.
#[tactic(auto, using(crate::proofs::Runs::runs))]
fn run_of(class: CharClass, cs: &[char]) -> usize
    ensures value { result ≡ run_of class cs.now }
    ensures within { result ≤ length cs.now }
{
    for i in 0..cs.len() {
        if !is_in_class(class, cs[i]) {
            return i;
        }
    }
    cs.len()
}

/// Whether the mark begins these characters.
#[tactic(auto, using(crate::proofs::Runs::runs))]
fn begins(mark: &[char], cs: &[char]) -> bool
    ensures value { result ≡ begins mark.now cs.now }
    ensures within { IsTrue result → length mark.now ≤ length cs.now }
{
    if cs.len() < mark.len() {
        return false;
    }
    for i in 0..mark.len() {
        if mark[i] != cs[i] {
            return false;
        }
    }
    true
}

/// How many characters there are up to and with the first mark.
#[tactic(auto, using(crate::proofs::Runs::runs))]
fn up_to(mark: &[char], cs: &[char]) -> usize
    ensures value { result ≡ up_to mark.now cs.now }
    ensures within { result ≤ length cs.now }
{
    for i in 0..cs.len() {
        if begins(mark, tail(cs, i)) {
            return i + mark.len();
        }
    }
    cs.len()
}

/// The same, where a backslash takes the next character with it.
#[tactic(auto, using(crate::proofs::Runs::runs))]
fn quoted(mark: &[char], cs: &[char]) -> usize
    ensures value { result ≡ quoted mark.now false cs.now }
    ensures within { result ≤ length cs.now }
{
    let mut taken = false;
    for i in 0..cs.len() {
        if taken {
            taken = false;
            continue;
        }
        if cs[i] == '\\' {
            taken = true;
            continue;
        }
        if begins(mark, tail(cs, i)) {
            return i + mark.len();
        }
    }
    cs.len()
}

/// The same for one quote within a line.
#[tactic(auto, using(crate::proofs::Runs::runs))]
fn quoted_in_line(mark: char, cs: &[char]) -> usize
    ensures value { result ≡ quoted_in_line mark false cs.now }
    ensures within { result ≤ length cs.now }
{
    let mut taken = false;
    for i in 0..cs.len() {
        let c = cs[i];
        if is_newline(c) {
            return i;
        }
        if taken {
            taken = false;
            continue;
        }
        if c == '\\' {
            taken = true;
            continue;
        }
        if c == mark {
            return i + 1;
        }
    }
    cs.len()
}

/// How many bytes the first n characters take.
#[tactic(auto, using(crate::proofs::Runs::runs))]
pub fn byte_len(cs: &[char], n: usize) -> u32
    requires n { n ≤ length cs.now }
    requires bytes { byte_len cs.now ≤ 16777216 }
    ensures { result ≡ byte_len (take n cs.now) }
{
    let mut bytes = 0;
    for i in 0..n {
        bytes += cs[i].len_utf8() as u32;
    }
    bytes
}

/// The kind and the length of the token at the front.
#[tactic(auto, using(crate::proofs::Runs::runs), unfolding(crate::specs::Rules::rule))]
pub fn rule(cs: &[char]) -> (TokenKind, usize)
    requires { 0 < length cs.now }
    ensures value { result ≡ rule (slice_index cs.now 0) (drop 1 cs.now) }
    ensures some { 0 < result.1 }
    ensures within { result.1 ≤ length cs.now }
{
    let c = cs[0];
    let more = tail(cs, 1);
    if is_white(c) {
        return (TokenKind::White, 1 + run_of(CharClass::White, more));
    }
    if begins(&['/', '/'], cs) {
        return (
            TokenKind::Comment,
            2 + run_of(CharClass::InLine, tail(more, 1)),
        );
    }
    if begins(&['/', '*'], cs) {
        return (TokenKind::Comment, 2 + up_to(&['*', '/'], tail(more, 1)));
    }
    if begins(&['"', '"', '"'], cs) {
        return (TokenKind::Text, 3 + quoted(&['"', '"', '"'], tail(more, 2)));
    }
    if c == '"' {
        return (TokenKind::Text, 1 + quoted_in_line('"', more));
    }
    if c == '\'' {
        return (TokenKind::CharText, 1 + quoted_in_line('\'', more));
    }
    if is_word_start(c) {
        return (TokenKind::Word, 1 + run_of(CharClass::WordPart, more));
    }
    if is_digit(c) {
        return (TokenKind::Number, 1 + run_of(CharClass::NumberPart, more));
    }
    (TokenKind::Symbol, 1)
}
