ghost use Rattle.std.specs.Prelude.{◌≡◌, [], position, bytes_eq, Some, None, Option, OnOk, OnErr, IfNone, IfSome, option_map};
ghost use Rattle.documents.specs.Edits.{within};
ghost use Rattle.answers.specs.declared.types.DocumentState.TheVariants.{NoMemory};
ghost use Rattle.answers.specs.Sessions.{document_of, with_document, without_document, state_of, state_by};
ghost use Rattle.sessions.specs.Edited.{IsSetTo, IsSetBy};

use crate::edits::{change_all, forget, opened};
use answers::{DocumentState, OpenDocument};
use lists::{Items, Text};
use lsp_forms::ChangeForm;
use std::alloc::{AllocError, Global};
use std::marker::Model;

/// The documents that a client has open, in the order in which they were opened.
#[derive(Drop)]
pub struct OpenDocuments {
    items: Vec<OpenDocument>,
}

impl Model for OpenDocuments {
    ghost use Rattle.std.specs.Prelude.{List};
    ghost use Rattle.answers.specs.declared.types.OpenDocument.{OpenDocument};

    ghost Value = { List OpenDocument };

    ghost view = { λ d. d.items.items };
}

impl OpenDocuments {
    /// No document. It takes no memory.
    pub fn new(alloc: Global) -> OpenDocuments
        ensures none { result ≡ [] }
    {
        OpenDocuments {
            items: Vec::new(alloc),
        }
    }

    /// Where a document stands.
    fn place(&self, uri: &str) -> Option<usize>
        ensures first { result ≡ position (λ d. bytes_eq d.uri uri.now) self.now }
    {
        self.items
            .iter()
            .position(|document| document.uri.as_str() == uri)
    }

    /// The state of a document, where it is open.
    #[tactic(auto, using(crate::proofs::OpenDocs::places))]
    pub fn state(&self, uri: &str) -> Option<&DocumentState>
        ensures found { option_map (λ s. s.now) result ≡ document_of uri.now self.now }
    {
        match self.place(uri) {
            Some(place) => Some(&self.items[place].state),
            None => None,
        }
    }

    /// Puts a document into a state, where it is open; else the state comes back.
    #[tactic(auto, using(crate::proofs::OpenDocs::places))]
    fn set(&mut self, uri: &str, state: DocumentState) -> Option<DocumentState>
        ensures set { IfNone result (self.new ≡ with_document uri.now state self.old) }
        ensures back { IfSome result (λ back. (back ≡ state) × (self.new ≡ self.old) × (document_of uri.now self.old ≡ None)) }
    {
        match self.place(uri) {
            Some(place) => {
                self.items[place].state = state;
                None
            }
            None => Some(state),
        }
    }

    /// Adds a document that isn't open.
    #[tactic(auto, using(crate::proofs::OpenDocs::places))]
    fn add(&mut self, alloc: Global, uri: &str, state: DocumentState) -> Result<(), AllocError>
        requires new { document_of uri.now self.old ≡ None }
        ensures added { OnOk result (self.new ≡ with_document uri.now state self.old) }
        ensures unchanged { OnErr result (self.new ≡ self.old) }
    {
        let uri = Text::from_str(alloc, uri)?;
        self.items.push(OpenDocument { uri, state })?;
        Ok(())
    }

    /// Opens a document, or sets its text anew where it is open. Where there is no memory for the text the document
    /// has the state "no memory"; an Err is want of memory for its name.
    #[tactic(auto, using(crate::proofs::OpenDocs::places))]
    pub fn open(&mut self, alloc: Global, uri: &str, text: &str) -> Result<(), AllocError>
        ensures opened { OnOk result (IsSetTo uri.now (state_of (within text.now)) self.old self.new) }
        ensures unchanged { OnErr result (self.new ≡ self.old) }
    {
        let state = opened(alloc, text);
        match self.set(uri, state) {
            None => Ok(()),
            Some(state) => self.add(alloc, uri, state),
        }
    }

    /// Makes changes of an open document, one after the other; None are changes that aren't well formed. Where there
    /// is no memory for one of them the document has the state "no memory". A document that isn't open stays so.
    #[tactic(auto, using(crate::proofs::OpenDocs::places))]
    pub fn change(&mut self, alloc: Global, uri: &str, changes: Option<Items<ChangeForm>>)
        ensures changed { IsSetBy uri.now (λ state. state_by state changes) self.old self.new (document_of uri.now self.old) }
    {
        if let Some(place) = self.place(uri) {
            change_all(alloc, &mut self.items[place].state, changes);
        }
    }

    /// Puts an open document into the state "no memory".
    #[tactic(auto, using(crate::proofs::OpenDocs::places))]
    pub fn lose(&mut self, uri: &str)
        ensures lost { IsSetBy uri.now (λ state. NoMemory) self.old self.new (document_of uri.now self.old) }
    {
        if let Some(place) = self.place(uri) {
            forget(&mut self.items[place].state);
        }
    }

    /// Closes a document.
    pub fn close(&mut self, uri: &str)
        ensures left { self.new ≡ without_document uri.now self.old }
    {
        self.items.retain(|document| document.uri.as_str() != uri);
    }
}
