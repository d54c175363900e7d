use answers::DocumentState;
use json_rpc::Id;
use lists::{Items, Text};
use lsp_forms::ChangeForm;
use serde_json::Value;
use sessions::{Cursors, Failure, OpenDocuments, failure_reply, result_reply, text_in, uri_in};
use std::alloc::{AllocError, Global};
use std::test::Fail;

const NULL_REPLY: &str = "{\"id\":2,\"jsonrpc\":\"2.0\",\"result\":null}";

const PARSE_REPLY: &str =
    "{\"error\":{\"code\":-32700,\"message\":\"parse error\"},\"id\":null,\"jsonrpc\":\"2.0\"}";

const EARLY_REPLY: &str =
    "{\"error\":{\"code\":-32002,\"message\":\"not initialized\"},\"id\":1,\"jsonrpc\":\"2.0\"}";

const CAUSE_REPLY: &str =
    "{\"error\":{\"code\":-32602,\"data\":{\"cause\":6,\"index\":0},\"message\":\"invalid params\"},\"id\":1,\"jsonrpc\":\"2.0\"}";

const WITHDRAWN_REPLY: &str =
    "{\"error\":{\"code\":-32801,\"data\":{\"number\":3,\"version\":1},\"message\":\"version withdrawn\"},\"id\":1,\"jsonrpc\":\"2.0\"}";

#[test]
fn a_result_is_told(rt: HostRuntime) -> Result<(), Fail> {
    let reply = result_reply(rt.alloc(), &Id::Number(2), Value::Null)?;
    assert_eq!(rt; reply.as_slice(), NULL_REPLY.as_bytes());
    assert_eq!(rt; reply.len(), 38);
    Ok(())
}

#[test]
fn a_failure_without_an_id_is_told(rt: HostRuntime) -> Result<(), Fail> {
    let reply = failure_reply(rt.alloc(), None, Failure::ParseError)?;
    assert_eq!(rt; reply.as_slice(), PARSE_REPLY.as_bytes());
    assert_eq!(rt; reply.len(), 75);
    Ok(())
}

#[test]
fn failures_are_told(rt: HostRuntime) -> Result<(), Fail> {
    let id = Id::Number(1);
    let early = failure_reply(rt.alloc(), Some(&id), Failure::NotInitialized)?;
    assert_eq!(rt; early.as_slice(), EARLY_REPLY.as_bytes());
    let withdrawn = Failure::VersionWithdrawn {
        number: 3,
        version: 1,
    };
    let reply = failure_reply(rt.alloc(), Some(&id), withdrawn)?;
    assert_eq!(rt; reply.as_slice(), WITHDRAWN_REPLY.as_bytes());
    Ok(())
}

#[test]
fn a_cursor_that_is_not_kept_is_not_closed(rt: HostRuntime) -> Result<(), Fail> {
    let mut cursors = Cursors::new(rt.alloc());
    let reply = cursors.shut(rt.alloc(), &Id::Number(1), 1)?;
    assert_eq!(rt; reply.as_slice(), CAUSE_REPLY.as_bytes());
    assert_eq!(rt; cursors.made(), 0);
    assert!(rt; !cursors.has(1));
    assert!(rt; !cursors.is_used_up());
    Ok(())
}

/// The text of an open document that is sure, the empty text else.
fn text_of<'a>(documents: &'a OpenDocuments, uri: &str) -> &'a str {
    match documents.state(uri) {
        Some(DocumentState::Sure(document)) => document.text(),
        _ => "",
    }
}

/// Whether a document is open and its text unsure.
fn is_unsure(documents: &OpenDocuments, uri: &str) -> bool {
    match documents.state(uri) {
        Some(DocumentState::Unsure) => true,
        _ => false,
    }
}

/// One change, from a character of the first line to another, or of the whole text.
fn one_change(
    alloc: Global,
    range: Option<((u32, u32), (u32, u32))>,
    text: &str,
) -> Result<Option<Items<ChangeForm>>, AllocError> {
    let mut changes = Items::new(alloc);
    let text = Text::from_str(alloc, text)?;
    changes.push(ChangeForm { range, text })?;
    Ok(Some(changes))
}

#[test]
fn documents_are_opened_changed_and_closed(rt: HostRuntime) -> Result<(), Fail> {
    let mut documents = OpenDocuments::new(rt.alloc());
    documents.open(rt.alloc(), "file:///A", "ab")?;
    documents.open(rt.alloc(), "file:///B", "cd")?;
    let change = one_change(rt.alloc(), Some(((0, 1), (0, 1))), "x")?;
    documents.change(rt.alloc(), "file:///A", change);
    assert_eq!(rt; text_of(&documents, "file:///A"), "axb");
    assert_eq!(rt; text_of(&documents, "file:///B"), "cd");
    documents.close("file:///A");
    assert!(rt; documents.state("file:///A").is_none());
    assert_eq!(rt; text_of(&documents, "file:///B"), "cd");
    Ok(())
}

#[test]
fn a_document_is_unsure_until_its_whole_text_is_sent(rt: HostRuntime) -> Result<(), Fail> {
    let mut documents = OpenDocuments::new(rt.alloc());
    documents.open(rt.alloc(), "file:///A", "ab")?;
    let past = one_change(rt.alloc(), Some(((7, 0), (7, 0))), "x")?;
    documents.change(rt.alloc(), "file:///A", past);
    assert!(rt; is_unsure(&documents, "file:///A"));
    let within = one_change(rt.alloc(), Some(((0, 0), (0, 0))), "x")?;
    documents.change(rt.alloc(), "file:///A", within);
    assert!(rt; is_unsure(&documents, "file:///A"));
    let whole = one_change(rt.alloc(), None, "ef")?;
    documents.change(rt.alloc(), "file:///A", whole);
    assert_eq!(rt; text_of(&documents, "file:///A"), "ef");
    Ok(())
}

#[test]
fn changes_that_are_not_well_formed_leave_a_document_unsure(rt: HostRuntime) -> Result<(), Fail> {
    let mut documents = OpenDocuments::new(rt.alloc());
    documents.open(rt.alloc(), "file:///A", "ab")?;
    documents.change(rt.alloc(), "file:///A", None);
    documents.change(rt.alloc(), "file:///C", None);
    assert!(rt; is_unsure(&documents, "file:///A"));
    assert!(rt; documents.state("file:///C").is_none());
    documents.lose("file:///A");
    assert!(rt; !is_unsure(&documents, "file:///A"));
    documents.open(rt.alloc(), "file:///A", "cd")?;
    assert_eq!(rt; text_of(&documents, "file:///A"), "cd");
    Ok(())
}

const OPENED: &[u8] = b"{\"textDocument\":{\"uri\":\"file:///A\",\"text\":\"ab\"}}";

#[test]
fn parameters_are_looked_at(rt: HostRuntime) -> Result<(), Fail> {
    let opened = Value::from_slice(rt.alloc(), OPENED)?;
    assert_eq!(rt; uri_in(&opened), Some("file:///A"));
    assert_eq!(rt; text_in(&opened), Some("ab"));
    let withdraw = Value::from_slice(rt.alloc(), b"{\"command\":\"insynth.withdraw\"}")?;
    assert_eq!(rt; text_in(&withdraw), None);
    Ok(())
}
