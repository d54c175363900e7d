// The lexical tokens of a Java source text. `tokens` cuts any text into tokens that tile it; the main
// definition is `AreTokensOf`: each token is the longest that the first fitting rule allows, and the
// next begins where it ends. Words are made of the characters of the kit's `unicode_ident`, and of ASCII
// texts tests that compute tell them. It stands on `lists` and `unicode_ident`.
#![tactic(auto)]

mod char_class;
mod closing;
mod laws;
mod rules;
mod token;
mod words;

pub use closing::is_closed;
pub use laws::word_laws;
pub use token::{Token, TokenKind, tokens};
pub use words::is_word;

#[cfg(test)]
mod tests;
