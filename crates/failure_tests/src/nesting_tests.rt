// Texts that nest a hundred thousand deep are read as others are.
use crate::load_tests::are_answered;
use std::alloc::{AllocError, Global};
use std::sync::Wait;
use std::test::Fail;
use std::thread::Threads;

/// Asks at the character 100,024 of the first line.
const COMPLETION: &str =
    r#"{"jsonrpc":"2.0","id":2,"method":"textDocument/completion","params":{"textDocument":{"uri":"file:///A.java"},"position":{"line":0,"character":100024}}}"#;

const THREE: &str =
    r#"{"id":2,"jsonrpc":"2.0","result":{"insynth":{"cursor":1,"from":0,"grown":3,"last":true,"version":0},"isIncomplete":false,"items":[{"detail":"25","label":"m()","sortText":"0000000000","textEdit":{"newText":"m()","range":{"end":{"character":100024,"line":0},"start":{"character":100024,"line":0}}}},{"detail":"40","label":"new A().m()","sortText":"0000000001","textEdit":{"newText":"new A().m()","range":{"end":{"character":100024,"line":0},"start":{"character":100024,"line":0}}}},{"detail":"200","label":"0","sortText":"0000000002","textEdit":{"newText":"0","range":{"end":{"character":100024,"line":0},"start":{"character":100024,"line":0}}}}]}}"#;

const NULL: &str = r#"{"id":2,"jsonrpc":"2.0","result":null}"#;

/// Whether a completion behind a hundred thousand of these brackets in a method, at the value of a new variable, is answered
/// so.
fn is_answered_behind<R: Threads + Wait + Sync>(
    rt: &R,
    alloc: Global,
    bracket: &str,
    reply: &str,
) -> Result<bool, AllocError> {
    let brackets = bracket.repeat(alloc, 100_000)?;
    let open = format!(in alloc;
        r#"{{"jsonrpc":"2.0","method":"textDocument/didOpen","params":{{"textDocument":{{"uri":"file:///A.java","languageId":"java","version":1,"text":"class A{{int m(){{{brackets}int r = "}}}}}}"#
    )?;
    are_answered(rt, alloc, &[], &[], &[(&open, ""), (COMPLETION, reply)])
}

#[test]
fn blocks_nest_a_hundred_thousand_deep(rt: HostRuntime) -> Result<(), Fail> {
    assert!(rt; is_answered_behind(&rt, rt.alloc(), "{", THREE)?);
    Ok(())
}

/// An expression begins nowhere behind a bracket that isn't closed.
#[test]
fn brackets_nest_a_hundred_thousand_deep(rt: HostRuntime) -> Result<(), Fail> {
    assert!(rt; is_answered_behind(&rt, rt.alloc(), "(", NULL)?);
    Ok(())
}
