ghost use Rattle.std.specs.Prelude.{◌≡◌, ◌≤◌, length, IfOk};
ghost use Rattle.java_tokens.specs.Tokens.{AreTokens, AreTokensOf, AreOnlyTokens, AreWithin, HasTokens, Tile, byte_len};

use crate::rules::{byte_len, rule, tail};
use lists::Items;
use std::alloc::{AllocError, Global};

/// What a token is.
#[derive(Clone, Copy, Debug, PartialEq, Eq)]
pub enum TokenKind {
    /// A run of white space (JLS 3.6).
    White,
    /// A comment of either form (JLS 3.7), to the end of the text where it isn't closed.
    Comment,
    /// A text block or a string literal (JLS 3.10.5, 3.10.6), closed or not.
    Text,
    /// A character literal (JLS 3.10.4), closed or not.
    CharText,
    /// What begins with an ASCII digit.
    Number,
    /// An identifier or a reserved word (JLS 3.8, 3.9).
    Word,
    /// Any other character, alone.
    Symbol,
}

/// One token, with its places in the text counted in bytes of UTF-8.
#[derive(Clone, Copy, Debug, PartialEq, Eq)]
pub struct Token {
    pub kind: TokenKind,
    /// The place of its first byte.
    pub start: u32,
    /// The place after its last byte.
    pub end: u32,
}

/// The tokens of these characters.
#[tactic(auto, using(crate::proofs::Runs::runs))]
fn tokens_of_chars(alloc: Global, cs: &[char]) -> Result<Items<Token>, AllocError>
    requires { byte_len cs.now ≤ 16777216 }
    ensures by_the_rules { IfOk result (λ ts. AreTokens 0 cs.now ts) }
    ensures tiling { IfOk result (λ ts. Tile 0 (byte_len cs.now) ts) }
{
    let mut tokens = Items::new(alloc);
    let mut rest = cs;
    let mut at = 0;
    while !rest.is_empty() {
        let (kind, n) = rule(rest);
        let end = at + byte_len(rest, n);
        tokens.push(Token {
            kind,
            start: at,
            end,
        })?;
        rest = tail(rest, n);
        at = end;
    }
    Ok(tokens)
}

/// The tokens of a text of at most 16 MiB, white space and comments included. No text is refused.
/// Each text has exactly one list of tokens, and each token stands at whole characters. It takes time linear
/// in the text, and four bytes for each character while it runs.
#[tactic(auto, using(crate::proofs::Runs::runs))]
pub fn tokens(alloc: Global, text: &str) -> Result<Items<Token>, AllocError>
    requires at_most_16_mib { length text.now ≤ 16777216 }
    ensures by_the_rules { IfOk result (λ ts. AreTokensOf text.now ts) }
    ensures total { HasTokens text.now }
    ensures only { IfOk result (λ ts. AreOnlyTokens text.now ts) }
    ensures tiling { IfOk result (λ ts. Tile 0 (length text.now) ts) }
    ensures whole { IfOk result (λ ts. AreWithin text.now ts) }
{
    let cs: Vec<char> = text.chars().collect(alloc)?;
    let all = tokens_of_chars(alloc, cs.as_slice())?;
    Ok(all)
}
