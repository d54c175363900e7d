use documents::Document;
use fingerprint::Fingerprinted;
use listing::Item;
use lists::{Items, Text};

/// A place in a Java text, by its byte offset, with the greatest weight and the depth of lambdas that terms may
/// have there. The text has at most 16,777,216 bytes.
#[derive(Drop)]
pub struct Hole {
    pub text: Text,
    pub place: u32,
    pub limit: u32,
    pub depth: u32,
}

/// Items of a list, whether the list ends with them, and how many items were found for them, beyond those that
/// the listing had.
#[derive(Drop)]
pub struct Page {
    pub items: Items<Item>,
    pub last: bool,
    pub grown: u64,
}

/// A list that a client pages through: its environment, with the fingerprint that is made once for it, the version from which that was made, how many items
/// were answered, and the range of the text that an item replaces. `start` and `end` are each a line and a
/// UTF-16 unit of it, both counted from 0, as the text was when the cursor was made.
#[derive(Drop)]
pub struct Cursor {
    pub number: u32,
    pub env: Fingerprinted,
    pub version: u32,
    pub start: (u32, u32),
    pub end: (u32, u32),
    pub answered: u64,
}

/// What a publication names: the paths of class files, those of source files, and the internal names of classes that
/// names in the source files may mean.
#[derive(Drop)]
pub struct NamedFiles {
    pub puts: Items<Text>,
    pub sources: Items<Text>,
    pub known: Items<Text>,
}

/// How far a session has come: before `initialize` was answered, between, and after `shutdown` was answered.
#[derive(Clone, Copy, Debug)]
pub enum Phase {
    Fresh,
    Running,
    Stopped,
}

/// What a session knows of the text of an open document. It is unsure after a change that couldn't be made, and
/// has no memory after one for which memory was wanting, until a change sends the whole text.
#[derive(Drop)]
pub enum DocumentState {
    Sure(Document),
    Unsure,
    NoMemory,
}

/// A document that a client has open. Documents are told apart by the bytes of their URI.
#[derive(Drop)]
pub struct OpenDocument {
    pub uri: Text,
    pub state: DocumentState,
}
