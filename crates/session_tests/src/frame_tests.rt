use crate::client_tests::serve;
use outside::{FaultPlan, MemSink, MemSource};
use std::alloc::{AllocError, Global};
use std::sync::Wait;
use std::test::Fail;
use std::thread::Threads;

// Bodies of messages, each after its length in bytes.

pub(crate) const INITIALIZE: (usize, &str) = (
    58,
    r#"{"jsonrpc":"2.0","id":1,"method":"initialize","params":{}}"#,
);

pub(crate) const INITIALIZE_TO_30: (usize, &str) = (
    94,
    r#"{"jsonrpc":"2.0","id":1,"method":"initialize","params":{"initializationOptions":{"limit":30}}}"#,
);

pub(crate) const SHUTDOWN: (usize, &str) = (44, r#"{"jsonrpc":"2.0","id":2,"method":"shutdown"}"#);

pub(crate) const EXIT: (usize, &str) = (33, r#"{"jsonrpc":"2.0","method":"exit"}"#);

const EARLY: (usize, &str) = (
    149,
    r#"{"jsonrpc":"2.0","id":1,"method":"textDocument/completion","params":{"textDocument":{"uri":"file:///Demo.java"},"position":{"line":0,"character":0}}}"#,
);

pub(crate) const FIELD_AND_PARAMETER: (usize, &str) = (
    186,
    r#"{"jsonrpc":"2.0","method":"textDocument/didOpen","params":{"textDocument":{"uri":"file:///Demo.java","languageId":"java","version":1,"text":"class P { int k; void f(int k) { int z = "}}}"#,
);

pub(crate) const AFTER_FIELD: (usize, &str) = (
    150,
    r#"{"jsonrpc":"2.0","id":3,"method":"textDocument/completion","params":{"textDocument":{"uri":"file:///Demo.java"},"position":{"line":0,"character":41}}}"#,
);

const WIDE_CHARACTER: (usize, &str) = (
    207,
    r#"{"jsonrpc":"2.0","method":"textDocument/didOpen","params":{"textDocument":{"uri":"file:///Demo.java","languageId":"java","version":1,"text":"class D {\r\n  void f() {\r\n    /*😀*/ int k = \r\n  }\r\n}"}}}"#,
);

const AFTER_WIDE: (usize, &str) = (
    150,
    r#"{"jsonrpc":"2.0","id":3,"method":"textDocument/completion","params":{"textDocument":{"uri":"file:///Demo.java"},"position":{"line":2,"character":19}}}"#,
);

const PAST_THE_LINE: (usize, &str) = (
    151,
    r#"{"jsonrpc":"2.0","id":3,"method":"textDocument/completion","params":{"textDocument":{"uri":"file:///Demo.java"},"position":{"line":2,"character":100}}}"#,
);

const VAR: (usize, &str) = (
    174,
    r#"{"jsonrpc":"2.0","method":"textDocument/didOpen","params":{"textDocument":{"uri":"file:///Demo.java","languageId":"java","version":1,"text":"class A { void f() { var x = "}}}"#,
);

const AFTER_VAR: (usize, &str) = (
    150,
    r#"{"jsonrpc":"2.0","id":3,"method":"textDocument/completion","params":{"textDocument":{"uri":"file:///Demo.java"},"position":{"line":0,"character":29}}}"#,
);

const COMMENT: (usize, &str) = (
    150,
    r#"{"jsonrpc":"2.0","method":"textDocument/didOpen","params":{"textDocument":{"uri":"file:///Demo.java","languageId":"java","version":1,"text":"/* */"}}}"#,
);

const IN_COMMENT: (usize, &str) = (
    149,
    r#"{"jsonrpc":"2.0","id":3,"method":"textDocument/completion","params":{"textDocument":{"uri":"file:///Demo.java"},"position":{"line":0,"character":3}}}"#,
);

const PAST_THE_END: (usize, &str) = (
    149,
    r#"{"jsonrpc":"2.0","id":3,"method":"textDocument/completion","params":{"textDocument":{"uri":"file:///Demo.java"},"position":{"line":9,"character":0}}}"#,
);

const CHANGE_PAST_THE_END: (usize, &str) = (
    223,
    r#"{"jsonrpc":"2.0","method":"textDocument/didChange","params":{"textDocument":{"uri":"file:///Demo.java","version":2},"contentChanges":[{"range":{"start":{"line":9,"character":0},"end":{"line":9,"character":0}},"text":"x"}]}}"#,
);

const WHOLE_CHANGE: (usize, &str) = (
    153,
    r#"{"jsonrpc":"2.0","method":"textDocument/didChange","params":{"textDocument":{"uri":"file:///Demo.java","version":3},"contentChanges":[{"text":"/* */"}]}}"#,
);

const CLOSE: (usize, &str) = (
    104,
    r#"{"jsonrpc":"2.0","method":"textDocument/didClose","params":{"textDocument":{"uri":"file:///Demo.java"}}}"#,
);

pub(crate) const PAGE: (usize, &str) = (
    133,
    r#"{"jsonrpc":"2.0","id":4,"method":"workspace/executeCommand","params":{"command":"insynth.page","arguments":[{"cursor":1,"count":1}]}}"#,
);

const CLOSE_LIST: (usize, &str) = (
    124,
    r#"{"jsonrpc":"2.0","id":4,"method":"workspace/executeCommand","params":{"command":"insynth.close","arguments":[{"cursor":1}]}}"#,
);

const PUBLISH: (usize, &str) = (
    148,
    r#"{"jsonrpc":"2.0","id":4,"method":"workspace/executeCommand","params":{"command":"insynth.publish","arguments":[{"put":[],"remove":[],"counts":[]}]}}"#,
);

const UNKNOWN: (usize, &str) = (
    66,
    r#"{"jsonrpc":"2.0","id":4,"method":"textDocument/hover","params":{}}"#,
);

// Bodies of replies.

pub(crate) const CAPABILITIES: (usize, &str) = (
    330,
    r#"{"id":1,"jsonrpc":"2.0","result":{"capabilities":{"completionProvider":{},"executeCommandProvider":{"commands":["insynth.close","insynth.explain","insynth.page","insynth.publish","insynth.weights","insynth.withdraw"]},"positionEncoding":"utf-16","textDocumentSync":{"change":2,"openClose":true}},"serverInfo":{"name":"insynthd"}}}"#,
);

const NULL: (usize, &str) = (38, r#"{"id":3,"jsonrpc":"2.0","result":null}"#);

pub(crate) const STOPPED: (usize, &str) = (38, r#"{"id":2,"jsonrpc":"2.0","result":null}"#);

const NO_JSON: (usize, &str) = (
    75,
    r#"{"error":{"code":-32700,"message":"parse error"},"id":null,"jsonrpc":"2.0"}"#,
);

const TOO_EARLY: (usize, &str) = (
    76,
    r#"{"error":{"code":-32002,"message":"not initialized"},"id":1,"jsonrpc":"2.0"}"#,
);

const NOT_OPEN: (usize, &str) = (
    104,
    r#"{"error":{"code":-32602,"data":{"cause":3,"index":0},"message":"invalid params"},"id":3,"jsonrpc":"2.0"}"#,
);

const UNSURE: (usize, &str) = (
    104,
    r#"{"error":{"code":-32602,"data":{"cause":4,"index":0},"message":"invalid params"},"id":3,"jsonrpc":"2.0"}"#,
);

const NO_LINE: (usize, &str) = (
    104,
    r#"{"error":{"code":-32602,"data":{"cause":5,"index":0},"message":"invalid params"},"id":3,"jsonrpc":"2.0"}"#,
);

const NO_CURSOR: (usize, &str) = (
    104,
    r#"{"error":{"code":-32602,"data":{"cause":6,"index":0},"message":"invalid params"},"id":4,"jsonrpc":"2.0"}"#,
);

const PUBLISHED: (usize, &str) = (47, r#"{"id":4,"jsonrpc":"2.0","result":{"version":1}}"#);

const NO_METHOD: (usize, &str) = (
    77,
    r#"{"error":{"code":-32601,"message":"method not found"},"id":4,"jsonrpc":"2.0"}"#,
);

const CLOSED: (usize, &str) = (38, r#"{"id":4,"jsonrpc":"2.0","result":null}"#);

const TWO_NAMES: (usize, &str) = (
    451,
    r#"{"id":3,"jsonrpc":"2.0","result":{"insynth":{"cursor":1,"from":0,"grown":2,"last":true,"version":0},"isIncomplete":false,"items":[{"detail":"5","label":"k","sortText":"0000000000","textEdit":{"newText":"k","range":{"end":{"character":41,"line":0},"start":{"character":41,"line":0}}}},{"detail":"25","label":"this.k","sortText":"0000000001","textEdit":{"newText":"this.k","range":{"end":{"character":41,"line":0},"start":{"character":41,"line":0}}}}]}}"#,
);

const NO_MORE: (usize, &str) = (
    133,
    r#"{"id":4,"jsonrpc":"2.0","result":{"insynth":{"cursor":1,"from":2,"grown":0,"last":true,"version":0},"isIncomplete":false,"items":[]}}"#,
);

const ZERO: (usize, &str) = (
    288,
    r#"{"id":3,"jsonrpc":"2.0","result":{"insynth":{"cursor":1,"from":0,"grown":1,"last":true,"version":0},"isIncomplete":false,"items":[{"detail":"200","label":"0","sortText":"0000000000","textEdit":{"newText":"0","range":{"end":{"character":19,"line":2},"start":{"character":19,"line":2}}}}]}}"#,
);

/// The frames of these bodies (LSP 3.17, "Base Protocol").
pub(crate) fn framed(alloc: Global, bodies: &[(usize, &str)]) -> Result<String, AllocError> {
    let mut text = String::new(alloc);
    for (length, body) in bodies {
        let frame = format!(in alloc; "Content-Length: {length}\r\n\r\n{body}")?;
        text.push_str(frame.as_str())?;
    }
    Ok(text)
}

/// Whether a client that sends these frames is replied those, and its session ends by this code.
fn gives<R: Threads + Wait + Sync>(
    rt: &R,
    alloc: Global,
    sent: &[(usize, &str)],
    code: u8,
    replied: &[(usize, &str)],
) -> Result<bool, AllocError> {
    let input = framed(alloc, sent)?;
    let output = framed(alloc, replied)?;
    let source = MemSource::new(input.as_bytes(), FaultPlan::none(alloc));
    let left = serve(
        rt,
        alloc,
        source,
        MemSink::new(alloc, FaultPlan::none(alloc)),
    )?;
    Ok(left.ended.code == code && left.output.as_slice() == output.as_bytes())
}

/// Whether each row gives its replies and its code.
fn all_give<R: Threads + Wait + Sync>(
    rt: &R,
    alloc: Global,
    rows: &[(&[(usize, &str)], u8, &[(usize, &str)])],
) -> Result<bool, AllocError> {
    for (sent, code, replied) in rows {
        if !gives(rt, alloc, sent, *code, replied)? {
            return Ok(false);
        }
    }
    Ok(true)
}

/// Sessions that end by an exit, after `shutdown` or not.
const EXITS: [(&[(usize, &str)], u8, &[(usize, &str)]); 2] = [
    (&[INITIALIZE, SHUTDOWN, EXIT], 0, &[CAPABILITIES, STOPPED]),
    (&[INITIALIZE, EXIT], 1, &[CAPABILITIES]),
];

#[test]
fn an_exit_ends_the_session(rt: HostRuntime) -> Result<(), Fail> {
    assert!(rt; all_give(&rt, rt.alloc(), &EXITS)?);
    Ok(())
}

/// Bodies that are refused whatever the session holds.
const REFUSED: [(&[(usize, &str)], u8, &[(usize, &str)]); 2] = [
    (&[(1, "{"), EARLY, EXIT], 1, &[NO_JSON, TOO_EARLY]),
    (&[INITIALIZE, UNKNOWN], 1, &[CAPABILITIES, NO_METHOD]),
];

#[test]
fn a_refused_body_does_not_end_the_session(rt: HostRuntime) -> Result<(), Fail> {
    assert!(rt; all_give(&rt, rt.alloc(), &REFUSED)?);
    Ok(())
}

/// Completions at places of a text, in UTF-16 units; one past the end of its line is at its end.
const PLACES: [(&[(usize, &str)], u8, &[(usize, &str)]); 3] = [
    (
        &[INITIALIZE, WIDE_CHARACTER, AFTER_WIDE],
        1,
        &[CAPABILITIES, ZERO],
    ),
    (
        &[INITIALIZE, WIDE_CHARACTER, PAST_THE_LINE],
        1,
        &[CAPABILITIES, ZERO],
    ),
    (
        &[INITIALIZE, WIDE_CHARACTER, PAST_THE_END],
        1,
        &[CAPABILITIES, NO_LINE],
    ),
];

#[test]
fn a_place_is_a_line_and_a_unit(rt: HostRuntime) -> Result<(), Fail> {
    assert!(rt; all_give(&rt, rt.alloc(), &PLACES)?);
    Ok(())
}

/// Places where no expression stands.
const NOWHERE: [(&[(usize, &str)], u8, &[(usize, &str)]); 2] = [
    (&[INITIALIZE, COMMENT, IN_COMMENT], 1, &[CAPABILITIES, NULL]),
    (&[INITIALIZE, VAR, AFTER_VAR], 1, &[CAPABILITIES, NULL]),
];

#[test]
fn where_no_expression_stands_there_is_no_list(rt: HostRuntime) -> Result<(), Fail> {
    assert!(rt; all_give(&rt, rt.alloc(), &NOWHERE)?);
    Ok(())
}

/// Documents that are not open, or whose text is unsure until it is sent whole.
const STATES: [(&[(usize, &str)], u8, &[(usize, &str)]); 4] = [
    (&[INITIALIZE, IN_COMMENT], 1, &[CAPABILITIES, NOT_OPEN]),
    (
        &[INITIALIZE, COMMENT, CLOSE, IN_COMMENT],
        1,
        &[CAPABILITIES, NOT_OPEN],
    ),
    (
        &[
            INITIALIZE,
            VAR,
            CHANGE_PAST_THE_END,
            IN_COMMENT,
            WHOLE_CHANGE,
            IN_COMMENT,
        ],
        1,
        &[CAPABILITIES, UNSURE, NULL],
    ),
    (
        &[
            INITIALIZE,
            VAR,
            CHANGE_PAST_THE_END,
            IN_COMMENT,
            COMMENT,
            IN_COMMENT,
        ],
        1,
        &[CAPABILITIES, UNSURE, NULL],
    ),
];

#[test]
fn a_completion_needs_a_text_that_is_known(rt: HostRuntime) -> Result<(), Fail> {
    assert!(rt; all_give(&rt, rt.alloc(), &STATES)?);
    Ok(())
}

/// A list of two names, its end, and its end once it is closed.
const LISTS: [(&[(usize, &str)], u8, &[(usize, &str)]); 4] = [
    (
        &[INITIALIZE_TO_30, FIELD_AND_PARAMETER, AFTER_FIELD],
        1,
        &[CAPABILITIES, TWO_NAMES],
    ),
    (
        &[INITIALIZE_TO_30, FIELD_AND_PARAMETER, AFTER_FIELD, PAGE],
        1,
        &[CAPABILITIES, TWO_NAMES, NO_MORE],
    ),
    (
        &[
            INITIALIZE_TO_30,
            FIELD_AND_PARAMETER,
            AFTER_FIELD,
            CLOSE_LIST,
            PAGE,
        ],
        1,
        &[CAPABILITIES, TWO_NAMES, CLOSED, NO_CURSOR],
    ),
    (
        &[INITIALIZE, PAGE, PUBLISH],
        1,
        &[CAPABILITIES, NO_CURSOR, PUBLISHED],
    ),
];

#[test]
fn a_list_is_paged_until_it_is_closed(rt: HostRuntime) -> Result<(), Fail> {
    assert!(rt; all_give(&rt, rt.alloc(), &LISTS)?);
    Ok(())
}
