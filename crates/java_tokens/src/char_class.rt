ghost use Rattle.std.specs.Prelude.{◌≡◌};
ghost use Rattle.java_tokens.specs.Classes.{is_in_class, is_white, is_newline, is_word_start, is_word_part, is_number_part, is_digit};

/// A class of characters of which a token may have a run.
#[derive(Clone, Copy, Debug)]
pub enum CharClass {
    /// Space, tab, form feed, CR and LF.
    White,
    /// Every character but CR and LF.
    InLine,
    /// What may follow the first character of a word.
    WordPart,
    /// What may follow the first digit of a number.
    NumberPart,
}

/// Whether the character is white space.
#[tactic(auto, unfolding(crate::specs::Classes::is_white))]
pub fn is_white(c: char) -> bool
    ensures { result ≡ is_white c }
{
    c == ' ' || c == '\t' || c == '\x0C' || c == '\r' || c == '\n'
}

/// Whether the character is CR or LF.
#[tactic(auto, unfolding(crate::specs::Classes::is_newline))]
pub fn is_newline(c: char) -> bool
    ensures { result ≡ is_newline c }
{
    c == '\r' || c == '\n'
}

/// Whether a word may begin with the character.
#[tactic(auto, unfolding(crate::specs::Classes::is_word_start))]
pub fn is_word_start(c: char) -> bool
    ensures { result ≡ is_word_start c }
{
    unicode_ident::is_xid_start(c) || c == '_' || c == '$'
}

/// Whether a word may go on with the character.
#[tactic(auto, unfolding(crate::specs::Classes::is_word_part))]
pub fn is_word_part(c: char) -> bool
    ensures { result ≡ is_word_part c }
{
    unicode_ident::is_xid_continue(c) || c == '$'
}

/// Whether a number may go on with the character.
#[tactic(auto, unfolding(crate::specs::Classes::is_number_part))]
pub fn is_number_part(c: char) -> bool
    ensures { result ≡ is_number_part c }
{
    is_word_part(c) || c == '.'
}

/// Whether the character is an ASCII digit.
#[tactic(auto, unfolding(crate::specs::Classes::is_digit))]
pub fn is_digit(c: char) -> bool
    ensures { result ≡ is_digit c }
{
    c >= '0' && c <= '9'
}

/// Whether the character is of the class.
pub fn is_in_class(class: CharClass, c: char) -> bool
    ensures { result ≡ is_in_class class c }
{
    match class {
        CharClass::White => is_white(c),
        CharClass::InLine => !is_newline(c),
        CharClass::WordPart => is_word_part(c),
        CharClass::NumberPart => is_number_part(c),
    }
}
