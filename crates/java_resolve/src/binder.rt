ghost use Rattle.std.specs.Prelude.{◌≡◌, ◌≢◌, ℕ, List, ◌++◌, ◌∷◌, [], true, chars, MatchOption};
ghost use Rattle.std.specs.List.{list_all};
ghost use Rattle.java_tokens.specs.Classes.{is_digit};
ghost use Rattle.java_shapes.specs.Words.{are_digits, is_binder};
ghost use Rattle.java_shapes.specs.Reader.{begins_binder};

use crate::chars::{first, is_digit};

/// Whether each character is an ASCII digit.
fn are_all_digits(text: &str) -> bool
    ensures { result ≡ list_all is_digit (chars text.now) }
{
    text.chars().all(|c| is_digit(c))
}

/// Whether a text is one or more ASCII digits.
fn are_digits(text: &str) -> bool
    ensures { result ≡ are_digits (chars text.now) }
{
    if text.is_empty() {
        return false;
    }
    are_all_digits(text)
}

/// The text behind a prefix.
pub fn after_prefix<'a>(prefix: &str, text: &'a str) -> Option<&'a str>
    ensures { MatchOption result ((rest : List ℕ) → chars text.now ≢ chars prefix.now ++ rest) (λ rest. chars text.now ≡ chars prefix.now ++ chars rest.now) }
{
    text.strip_prefix(prefix)
}

/// Whether a word is the binder's text and digits.
pub fn is_binder(binder: &str, word: &str) -> bool
    ensures { result ≡ is_binder (chars binder.now) (chars word.now) }
{
    match after_prefix(binder, word) {
        Some(digits) => are_digits(digits),
        None => false,
    }
}

/// Whether, of the beginning of a binder, a binder begins so with one character more.
pub fn begins_binder_with(binder: &str, word: &str, c: char) -> bool
    requires { begins_binder (chars binder.now) (chars word.now) ≡ true }
    ensures { result ≡ begins_binder (chars binder.now) (chars word.now ++ c ∷ []) }
{
    match after_prefix(word, binder) {
        Some(rest) => match first(rest) {
            Some((next, _)) => next == c,
            None => is_digit(c),
        },
        None => is_digit(c),
    }
}
