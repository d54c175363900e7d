ghost use Rattle.std.specs.Prelude.{◌≡◌, IfSome};
ghost use Rattle.java_tokens.specs.Tokens.{IsWithin};
ghost use Rattle.java_units.specs.Signs.{is_word};
ghost use Rattle.java_bodies.specs.Places.{touches, touched, is_line_comment, may_end, is_white, is_free, prefix_start, passed};

use java_tokens::{Token, TokenKind, is_closed};

/// Whether the place lies inside the token or right behind it.
#[tactic(auto, unfolding(crate::specs::Places::touches))]
fn touches(place: u32, token: &Token) -> bool
    ensures { result ≡ touches place token.now }
{
    token.start < place && place <= token.end
}

/// The token inside or right behind which the place lies.
pub fn touched(tokens: &[Token], place: u32) -> Option<Token>
    ensures { result ≡ touched tokens.now place }
{
    for i in 0..tokens.len() {
        let token = tokens[i];
        if touches(place, &token) {
            return Some(token);
        }
    }
    None
}

/// Whether a token is a comment that the end of its line ends.
#[tactic(auto, unfolding(crate::specs::Places::is_line_comment))]
fn is_line_comment(text: &str, token: &Token) -> bool
    requires { IsWithin text.now token.now }
    ensures { result ≡ is_line_comment text.now token.now }
{
    text[token.start as usize..].starts_with("//")
}

/// Whether a hole may stand right behind a token.
fn may_end(text: &str, token: &Token) -> bool
    requires { IsWithin text.now token.now }
    ensures { result ≡ may_end token.now.kind text.now token.now }
{
    match token.kind {
        TokenKind::Comment => !is_line_comment(text, token) && is_closed(text, token),
        TokenKind::Text | TokenKind::CharText => is_closed(text, token),
        TokenKind::White | TokenKind::Number | TokenKind::Word | TokenKind::Symbol => true,
    }
}

fn is_white(kind: TokenKind) -> bool
    ensures { result ≡ is_white kind }
{
    matches!(kind, TokenKind::White)
}

fn is_word(kind: TokenKind) -> bool
    ensures { result ≡ is_word kind }
{
    matches!(kind, TokenKind::Word)
}

/// Whether a hole may be at the place, by the token that it touches.
#[tactic(auto, unfolding(crate::specs::Places::is_free))]
pub fn is_free(text: &str, place: u32, touched: Option<Token>) -> bool
    requires { IfSome touched (λ t. IsWithin text.now t) }
    ensures { result ≡ is_free text.now place touched }
{
    let Some(token) = touched else {
        return true;
    };
    if token.end == place {
        return may_end(text, &token);
    }
    is_white(token.kind)
}

/// Where the prefix of the hole begins.
#[tactic(auto, unfolding(crate::specs::Places::prefix_start))]
pub fn prefix_start(place: u32, touched: Option<Token>) -> u32
    ensures { result ≡ prefix_start place touched }
{
    let Some(token) = touched else {
        return place;
    };
    if token.end == place && is_word(token.kind) {
        return token.start;
    }
    place
}

/// How many tokens end at the place or before it.
#[tactic(auto, unfolding(crate::specs::Places::passed))]
pub fn passed(tokens: &[Token], place: u32) -> usize
    ensures { result ≡ passed tokens.now place }
{
    tokens.iter().filter(|token| token.end <= place).count()
}
