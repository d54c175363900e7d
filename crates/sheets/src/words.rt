ghost use Rattle.std.specs.Prelude.{◌≡◌, ◌==◌, IfOk, bytes_eq, drop, take};
ghost use Rattle.std.specs.List.{list_any};
ghost use Rattle.std.specs.Str.Lines.{lines};
ghost use Rattle.std.specs.Str.{all_ascii_digits};
ghost use Rattle.sheets.specs.Words.{texts, word, words_of, is_word, is_number, number};

use std::alloc::{AllocError, Global};

/// So many words of a line have room from the start; few lines have more.
const ROOM: usize = 8;

/// The lines of a text. Each ends at a line feed, and a carriage return before it is dropped; the last
/// line feed may be missing.
pub fn lines_of(alloc: Global, text: &str) -> Result<Vec<&str>, AllocError>
    ensures { IfOk result (λ found. texts found.items ≡ lines text.now) }
{
    text.lines().collect(alloc)
}

/// What stands between the spaces of a line.
pub fn words_of(alloc: Global, line: &str) -> Result<Vec<&str>, AllocError>
    ensures { IfOk result (λ found. texts found.items ≡ words_of line.now) }
{
    let mut words = Vec::with_capacity(alloc, ROOM)?;
    words.extend(line.split(' '))?;
    Ok(words)
}

/// One of some words, the empty one where there is none.
#[tactic(auto, using(crate::proofs::Walks::words))]
pub fn word<'a>(words: &[&'a str], number: usize) -> &'a str
    ensures { result.now ≡ word (texts words.now) number }
{
    if number >= words.len() {
        return "";
    }
    words[number]
}

/// Whether two texts are the same.
pub fn same(left: &str, right: &str) -> bool
    ensures { result ≡ bytes_eq left.now right.now }
{
    left == right
}

/// Whether a text is a word: it has a character, and no carriage return.
#[tactic(auto, unfolding(crate::specs::Words::is_word))]
pub fn is_word(text: &str) -> bool
    ensures { result ≡ is_word text.now }
{
    if text.is_empty() {
        return false;
    }
    !has_return(text.as_bytes())
}

/// Whether a carriage return is among some bytes.
fn has_return(bytes: &[u8]) -> bool
    ensures { result ≡ list_any (λ b. b == 13) bytes.now }
{
    bytes.iter().any(|byte| *byte == b'\r')
}

/// Whether a word is a number: one to nine digits.
#[tactic(auto, unfolding(crate::specs::Words::is_number))]
pub fn is_number(word: &str) -> bool
    ensures { result ≡ is_number word.now }
{
    if word.len() < 1 {
        return false;
    }
    if word.len() > 9 {
        return false;
    }
    all_digits(word.as_bytes())
}

/// Whether each of some bytes is a decimal digit.
fn all_digits(bytes: &[u8]) -> bool
    ensures { result ≡ all_ascii_digits bytes.now }
{
    for byte in bytes {
        if !byte.is_ascii_digit() {
            return false;
        }
    }
    true
}

/// The value of a number, 0 where it is none.
#[tactic(auto, using(crate::proofs::Numbers::values), unfolding(crate::specs::Words::number))]
pub fn number(word: &str) -> u32
    ensures { result ≡ number word.now }
{
    if !is_number(word) {
        return 0;
    }
    match word.parse::<u32>() {
        Ok(value) => value,
        Err(_) => 0,
    }
}

/// What follows the first words.
#[tactic(auto, using(crate::proofs::Walks::words))]
pub fn tail<'w, 'a>(words: &'w [&'a str], count: usize) -> &'w [&'a str]
    ensures { texts result.now ≡ drop count (texts words.now) }
{
    if count > words.len() {
        return &[];
    }
    &words[count..]
}

/// The first words.
#[tactic(auto, using(crate::proofs::Walks::words))]
pub fn prefix<'w, 'a>(words: &'w [&'a str], count: usize) -> &'w [&'a str]
    ensures { texts result.now ≡ take count (texts words.now) }
{
    if count > words.len() {
        return words;
    }
    &words[..count]
}
