ghost use Rattle.std.specs.Prelude.{◌≡◌, ◌∷◌, [], ◌++◌, ◌==◌, ◌||◌, true, OnOk, OnErr, IfOk, chars, ◌⊎◌};
ghost use Rattle.std.specs.List.{list_all};
ghost use Rattle.std.specs.Char.{is_ascii};
ghost use Rattle.java_tokens.specs.Classes.{is_word_start};
ghost use Rattle.java_tokens.specs.Words.{is_word};
ghost use Rattle.java_units.specs.Signs.{has};
ghost use Rattle.java_units.specs.Words.{texts};
ghost use Rattle.java_units.specs.Forms.{primitives};
ghost use Rattle.java_shapes.specs.Words.{spells_identifier, begins_name, is_binder};
ghost use Rattle.java_shapes.specs.Reader.{is_empty, begins_first, begins_binder};

use crate::binder::{begins_binder_with, is_binder};
use crate::chars::{is_word_part, is_word_start};
use java_units::forms::{is_identifier, same};
use std::alloc::{AllocError, Global};
use std::marker::Model;

/// The words other than identifiers with which a name may begin.
const NAME_STARTS: [&str; 5] = ["this", "0", "true", "false", "\"\""];

/// The primitive types.
const PRIMITIVES: [&str; 8] = [
    "byte", "short", "char", "int", "long", "float", "double", "boolean",
];

/// A part of a text. Contracts see its characters.
#[derive(Drop)]
pub struct Word {
    inner: String,
}

impl Model for Word {
    ghost use Rattle.std.specs.Prelude.{List, ℕ, string_bytes, chars};

    ghost Value = { List ℕ };

    ghost view = { λ w. chars (string_bytes w.inner) };
}

/// Whether a table has the text.
pub fn has(table: &[&str], word: &str) -> bool
    ensures { result ≡ has (texts table.now) word.now }
{
    for i in 0..table.len() {
        if same(table[i], word) {
            return true;
        }
    }
    false
}

/// Whether a name may begin with the character.
fn begins_name(c: char) -> bool
    ensures { result ≡ ((is_word_start c || (c == 48)) || (c == 34)) }
{
    is_word_start(c) || c == '0' || c == '"'
}

impl Word {
    /// The empty text.
    pub fn new(alloc: Global) -> Word
        ensures { result ≡ [] }
    {
        Word {
            inner: String::new(alloc),
        }
    }

    /// A copy of a text.
    pub fn from_str(alloc: Global, text: &str) -> Result<Word, AllocError>
        ensures value { IfOk result (λ w. w ≡ chars text.now) }
    {
        Ok(Word {
            inner: String::from_str(alloc, text)?,
        })
    }

    /// The text in UTF-8, borrowed.
    pub fn as_str(&self) -> &str
        ensures { chars result.now ≡ self.now }
    {
        self.inner.as_str()
    }

    /// Adds a character at the end.
    pub fn push(&mut self, c: char) -> Result<(), AllocError>
        ensures added { OnOk result (self.new ≡ self.old ++ c ∷ []) }
        ensures unchanged { OnErr result (self.new ≡ self.old) }
    {
        self.inner.push(c)?;
        Ok(())
    }

    /// Adds a text at the end.
    pub fn push_word(&mut self, more: &Word) -> Result<(), AllocError>
        ensures added { OnOk result (self.new ≡ self.old ++ more.now) }
        ensures unchanged { OnErr result (self.new ≡ self.old) }
    {
        self.inner.push_str(more.as_str())?;
        Ok(())
    }

    /// Whether it has no character.
    pub fn is_empty(&self) -> bool
        ensures { result ≡ is_empty self.now }
    {
        self.as_str().is_empty()
    }

    /// Whether this ASCII text is all of it.
    pub fn is(&self, text: &str) -> bool
        requires { list_all is_ascii text.now ≡ true }
        ensures { result ≡ has (text.now ∷ []) self.now }
    {
        has(&[text], self.as_str())
    }

    /// Whether it is an identifier.
    pub fn is_identifier(&self) -> bool
        ensures { result ≡ spells_identifier self.now }
    {
        is_identifier(self.as_str())
    }

    /// Whether it is a primitive type.
    pub fn is_primitive(&self) -> bool
        ensures { result ≡ has primitives self.now }
    {
        has(&PRIMITIVES, self.as_str())
    }

    /// Whether a name may begin with it.
    pub fn begins_name(&self) -> bool
        ensures { result ≡ begins_name self.now }
    {
        self.is_identifier() || has(&NAME_STARTS, self.as_str())
    }

    /// Whether, of a part of a word, a word goes on with the character.
    pub fn goes_on(&self, c: char) -> bool
        requires { (self.now ≡ []) ⊎ (is_word self.now ≡ true) }
        ensures { result ≡ is_word (self.now ++ c ∷ []) }
    {
        if self.is_empty() {
            is_word_start(c)
        } else {
            is_word_part(c)
        }
    }

    /// Whether, of characters with which a name may begin, it may begin with one more.
    pub fn begins_first_with(&self, c: char) -> bool
        requires { (self.now ≡ []) ⊎ (begins_first self.now ≡ true) }
        ensures { result ≡ begins_first (self.now ++ c ∷ []) }
    {
        if self.is_empty() {
            return begins_name(c);
        }
        if self.is("\"") {
            return c == '"';
        }
        if self.is("0") {
            return false;
        }
        if self.is("\"\"") {
            return false;
        }
        is_word_part(c)
    }

    /// Whether it is a binder: the binder's text and digits.
    pub fn is_binder(&self, binder: &str) -> bool
        ensures { result ≡ is_binder (chars binder.now) self.now }
    {
        is_binder(binder, self.as_str())
    }

    /// Whether, of the beginning of a binder, a binder begins so with one character more.
    pub fn begins_binder_with(&self, binder: &str, c: char) -> bool
        requires { begins_binder (chars binder.now) self.now ≡ true }
        ensures { result ≡ begins_binder (chars binder.now) (self.now ++ c ∷ []) }
    {
        begins_binder_with(binder, self.as_str(), c)
    }
}
