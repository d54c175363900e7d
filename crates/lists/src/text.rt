ghost use Rattle.std.specs.Prelude.{◌≡◌, ◌↔◌, ◌++◌, [], IsTrue, IfOk, OnOk, OnErr, length, string_bytes};
ghost use Rattle.std.specs.Ordering.{nat_cmp};
ghost use Rattle.std.specs.Cmp.Lexicographic.{slice_cmp};

use crate::copies::Copies;
use std::alloc::{AllocError, Global};
use std::cmp::Ordering;
use std::marker::Model;

/// An owned text in UTF-8. Contracts see its bytes.
#[derive(Debug, Drop)]
pub struct Text {
    inner: String,
}

impl Model for Text {
    ghost use Rattle.std.specs.Prelude.{List, ℕ, string_bytes};

    ghost Value = { List ℕ };

    ghost view = { λ t. string_bytes t.inner };
}

impl Text {
    /// The empty text.
    pub fn new(alloc: Global) -> Text
        ensures { result ≡ [] }
    {
        Text {
            inner: String::new(alloc),
        }
    }

    /// A copy of a borrowed text.
    pub fn from_str(alloc: Global, text: &str) -> Result<Text, AllocError>
        ensures { IfOk result (λ t. t ≡ text.now) }
    {
        Ok(Text {
            inner: String::from_str(alloc, text)?,
        })
    }

    /// The same text, without a copy.
    pub fn from_string(text: String) -> Text
        ensures { result ≡ string_bytes text }
    {
        Text { inner: text }
    }

    /// The same text as a `String`, without a copy.
    pub fn into_string(self) -> String
        ensures { string_bytes result ≡ self }
    {
        self.inner
    }

    /// The text, borrowed.
    pub fn as_str(&self) -> &str
        ensures { result.now ≡ self.now }
    {
        self.inner.as_str()
    }

    /// The bytes of the text, borrowed.
    pub fn as_bytes(&self) -> &[u8]
        ensures { result.now ≡ self.now }
    {
        self.inner.as_bytes()
    }

    /// The number of bytes.
    pub fn len(&self) -> usize
        ensures { result ≡ length self.now }
    {
        self.inner.len()
    }

    /// Whether the text has no byte.
    pub fn is_empty(&self) -> bool
        ensures { IsTrue result ↔ (self.now ≡ []) }
    {
        self.inner.is_empty()
    }

    /// The order by bytes, which is the order by characters.
    pub fn compare(&self, other: &Text) -> Ordering
        ensures { result ≡ slice_cmp nat_cmp self.now other.now }
    {
        self.as_str().cmp(other.as_str())
    }

    /// Whether both have the same bytes.
    pub fn same(&self, other: &Text) -> bool
        ensures { IsTrue result ↔ (self.now ≡ other.now) }
    {
        self.as_str() == other.as_str()
    }

    /// Adds a text at the end. After want of memory the text is as before.
    pub fn push_str(&mut self, text: &str) -> Result<(), AllocError>
        ensures ok { OnOk result (self.new ≡ self.old ++ text.now) }
        ensures err { OnErr result (self.new ≡ self.old) }
    {
        self.inner.push_str(text)
    }
}

impl Copies for Text {
    fn copy(&self, alloc: Global) -> Result<Text, AllocError> {
        Text::from_str(alloc, self.as_str())
    }
}
