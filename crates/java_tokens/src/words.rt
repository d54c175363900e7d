ghost use Rattle.std.specs.Prelude.{◌≡◌};
ghost use Rattle.std.specs.List.{list_all};
ghost use Rattle.std.specs.Str.{chars};
ghost use Rattle.java_tokens.specs.Classes.{is_word_start, is_word_part};
ghost use Rattle.java_tokens.specs.Words.{is_word, begins_word};

use crate::char_class::{is_word_part, is_word_start};

/// Whether a word goes on with each character.
fn are_word_parts(text: &str) -> bool
    ensures { result ≡ list_all is_word_part (chars text.now) }
{
    text.chars().all(|c| is_word_part(c))
}

/// Whether a word begins with the first character.
fn begins_word(text: &str) -> bool
    ensures { result ≡ begins_word (chars text.now) }
{
    match text.chars().next() {
        Some(first) => is_word_start(first),
        None => false,
    }
}

/// Whether the text is one word, an identifier or a reserved word (JLS 3.8, 3.9).
pub fn is_word(text: &str) -> bool
    ensures value { result ≡ is_word (chars text.now) }
{
    begins_word(text) && are_word_parts(text)
}
