ghost use Rattle.std.specs.Prelude.{◌≡◌, [], ◌∷◌, ◌++◌, MatchOption, chars, encode_utf8};
ghost use Rattle.java_tokens.specs.Classes.{is_word_start, is_word_part, is_digit};

/// Whether a word may begin with the character.
#[tactic(auto, unfolding(java_tokens::specs::Classes::is_word_start))]
pub fn is_word_start(c: char) -> bool
    ensures { result ≡ is_word_start c }
{
    unicode_ident::is_xid_start(c) || c == '_' || c == '$'
}

/// Whether a word may go on with the character.
#[tactic(auto, unfolding(java_tokens::specs::Classes::is_word_part))]
pub fn is_word_part(c: char) -> bool
    ensures { result ≡ is_word_part c }
{
    unicode_ident::is_xid_continue(c) || c == '$'
}

/// Whether the character is an ASCII digit.
#[tactic(auto, unfolding(java_tokens::specs::Classes::is_digit))]
pub fn is_digit(c: char) -> bool
    ensures { result ≡ is_digit c }
{
    c >= '0' && c <= '9'
}

/// The first character, and what follows it.
pub fn first(text: &str) -> Option<(char, &str)>
    ensures { MatchOption result (text.now ≡ []) (λ r. (chars text.now ≡ r.0 ∷ chars r.1.now) × (text.now ≡ encode_utf8 r.0 ++ r.1.now)) }
{
    let mut characters = text.chars();
    match characters.next() {
        Some(c) => Some((c, characters.as_str())),
        None => None,
    }
}
