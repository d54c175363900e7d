ghost use Rattle.std.specs.Prelude.{◌≡◌, ◌≤◌, ◌<◌, ◌&&◌, not, length, reverse, IfOk, OnOk, IsTrue};
ghost use Rattle.java_tokens.specs.Tokens.{AreTokensOf, IsWithin, AreWithin};
ghost use Rattle.java_units.specs.Identifiers.{is_identifier};
ghost use Rattle.java_units.specs.Signs.{Sign, sign, seen, has, reserved, is_blank, is_word, text_of, signs_of};
ghost use Rattle.java_units.specs.Blocks.{block_len, closers_after, seen_back};

use crate::lexemes::{Lexeme, same};
use crate::words::is_reserved;
use java_tokens::{Token, TokenKind};
use std::alloc::{AllocError, Global};

/// Whether a token is white space or a comment.
fn is_blank(kind: TokenKind) -> bool
    ensures { result ≡ is_blank kind }
{
    match kind {
        TokenKind::White => true,
        TokenKind::Comment => true,
        TokenKind::Text => false,
        TokenKind::CharText => false,
        TokenKind::Number => false,
        TokenKind::Word => false,
        TokenKind::Symbol => false,
    }
}

/// Whether a token is a word.
fn is_word(kind: TokenKind) -> bool
    ensures { result ≡ is_word kind }
{
    match kind {
        TokenKind::White => false,
        TokenKind::Comment => false,
        TokenKind::Text => false,
        TokenKind::CharText => false,
        TokenKind::Number => false,
        TokenKind::Word => true,
        TokenKind::Symbol => false,
    }
}

/// Whether a token of this kind and text is an identifier.
pub fn is_name(kind: TokenKind, word: &str) -> bool
    ensures value { result ≡ (is_word kind && not (has reserved word.now)) }
{
    is_word(kind) && !is_reserved(word)
}

/// Whether a text is an identifier: one word that is not reserved (JLS 3.8).
#[tactic(auto, unfolding(crate::specs::Identifiers::is_identifier))]
pub fn is_identifier(text: &str) -> bool
    ensures value { result ≡ is_identifier text.now }
{
    java_tokens::is_word(text) && !is_reserved(text)
}

/// The text of a token.
fn word<'a>(text: &'a str, token: &Token) -> &'a str
    requires { IsWithin text.now token.now }
    ensures { result.now ≡ text_of text.now token.now }
{
    &text[token.start as usize..token.end as usize]
}

/// How many lexemes stand in the block of this one, where so many follow it; `closers` are kept for those
/// before it.
fn block(closers: &mut Vec<usize>, count: usize, word: &str) -> Result<usize, AllocError>
    requires { count < 18446744073709551615 }
    ensures len { IfOk result (λ n. n ≡ block_len word.now count (reverse closers.old.items)) }
    ensures kept { OnOk result (reverse closers.new.items ≡ closers_after word.now count (reverse closers.old.items)) }
{
    if same("}", word) {
        closers.push(count + 1)?;
        return Ok(0);
    }
    if !same("{", word) {
        return Ok(0);
    }
    match closers.pop() {
        Some(after) => Ok(count.saturating_sub(after)),
        None => Ok(count),
    }
}

/// The lexemes of a text, the last one first.
fn lexemes_back<'a>(
    alloc: Global,
    text: &'a str,
    tokens: &[Token],
) -> Result<Vec<Lexeme<'a>>, AllocError>
    requires { AreWithin text.now tokens.now }
    ensures { IfOk result (λ back. seen_back back.items ≡ signs_of text.now tokens.now) }
{
    let mut back = Vec::new(alloc);
    let mut closers = Vec::new(alloc);
    let mut number = tokens.len();
    while number > 0 {
        number -= 1;
        let token = tokens[number];
        if is_blank(token.kind) {
            continue;
        }
        let word = word(text, &token);
        let holds = block(&mut closers, back.len(), word)?;
        let is_name = is_name(token.kind, word);
        back.push(Lexeme {
            word,
            is_name,
            number,
            holds,
        })?;
    }
    Ok(back)
}

/// The tokens of a text other than white space and comments, in order. It takes time linear in the text.
pub fn lexemes<'a>(
    alloc: Global,
    text: &'a str,
    tokens: &[Token],
) -> Result<Vec<Lexeme<'a>>, AllocError>
    requires own_tokens { AreTokensOf text.now tokens.now }
    ensures exact { IfOk result (λ all. seen all.items ≡ signs_of text.now tokens.now) }
{
    let mut back = lexemes_back(alloc, text, tokens)?;
    let mut all = Vec::new(alloc);
    while let Some(lexeme) = back.pop() {
        all.push(lexeme)?;
    }
    Ok(all)
}
