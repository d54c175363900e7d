use crate::publication_tests::told_after;
use std::test::Fail;

/// Explanations of a list of six items: of its first, of its least weight, and of one that wasn't answered, also after
/// an empty page, once the version is withdrawn, and once the cursor is closed.
const EXPLAINED: [(&str, &str); 16] = [
    (
        r#"{"jsonrpc":"2.0","id":1,"method":"initialize","params":{}}"#,
        r#"{"id":1,"jsonrpc":"2.0","result":{"capabilities":{"completionProvider":{},"executeCommandProvider":{"commands":["insynth.close","insynth.explain","insynth.page","insynth.publish","insynth.weights","insynth.withdraw"]},"positionEncoding":"utf-16","textDocumentSync":{"change":2,"openClose":true}},"serverInfo":{"name":"insynthd"}}}"#,
    ),
    (
        r#"{"jsonrpc":"2.0","method":"textDocument/didOpen","params":{"textDocument":{"uri":"file:///Demo.java","text":"import java.io.*;\nclass Demo {\n  static void go(String name) {\n    Reader r = \n  }\n}\n"}}}"#,
        "",
    ),
    (
        r#"{"jsonrpc":"2.0","id":2,"method":"textDocument/completion","params":{"textDocument":{"uri":"file:///Demo.java"},"position":{"line":3,"character":15}}}"#,
        r#"{"id":2,"jsonrpc":"2.0","result":{"insynth":{"cursor":1,"from":0,"grown":6,"last":true,"version":1},"isIncomplete":false,"items":[{"detail":"1015","label":"new FileReader(name)","sortText":"0000000000","textEdit":{"newText":"new FileReader(name)","range":{"end":{"character":15,"line":3},"start":{"character":15,"line":3}}}},{"detail":"1210","label":"new FileReader(\"\")","sortText":"0000000001","textEdit":{"newText":"new FileReader(\"\")","range":{"end":{"character":15,"line":3},"start":{"character":15,"line":3}}}},{"detail":"2025","label":"new BufferedReader(new FileReader(name))","sortText":"0000000002","textEdit":{"newText":"new BufferedReader(new FileReader(name))","range":{"end":{"character":15,"line":3},"start":{"character":15,"line":3}}}},{"detail":"2220","label":"new BufferedReader(new FileReader(\"\"))","sortText":"0000000003","textEdit":{"newText":"new BufferedReader(new FileReader(\"\"))","range":{"end":{"character":15,"line":3},"start":{"character":15,"line":3}}}},{"detail":"3035","label":"new BufferedReader(new BufferedReader(new FileReader(name)))","sortText":"0000000004","textEdit":{"newText":"new BufferedReader(new BufferedReader(new FileReader(name)))","range":{"end":{"character":15,"line":3},"start":{"character":15,"line":3}}}},{"detail":"3230","label":"new BufferedReader(new BufferedReader(new FileReader(\"\")))","sortText":"0000000005","textEdit":{"newText":"new BufferedReader(new BufferedReader(new FileReader(\"\")))","range":{"end":{"character":15,"line":3},"start":{"character":15,"line":3}}}}]}}"#,
    ),
    (
        r#"{"jsonrpc":"2.0","id":3,"method":"workspace/executeCommand","params":{"command":"insynth.explain","arguments":[{"cursor":1,"item":0}]}}"#,
        r#"{"id":3,"jsonrpc":"2.0","result":{"rows":[[17,3,1005],[1,5,5]],"weight":1015}}"#,
    ),
    (
        r#"{"jsonrpc":"2.0","id":4,"method":"workspace/executeCommand","params":{"command":"insynth.explain","arguments":[{"cursor":1}]}}"#,
        r#"{"id":4,"jsonrpc":"2.0","result":{"floor":1015,"rows":[[[],1,4,1015],[[],1,5,5]]}}"#,
    ),
    (
        r#"{"jsonrpc":"2.0","id":5,"method":"workspace/executeCommand","params":{"command":"insynth.explain","arguments":[{"cursor":1,"item":6}]}}"#,
        r#"{"error":{"code":-32602,"data":{"cause":20,"index":0},"message":"invalid params"},"id":5,"jsonrpc":"2.0"}"#,
    ),
    (
        r#"{"jsonrpc":"2.0","id":6,"method":"workspace/executeCommand","params":{"command":"insynth.explain","arguments":[{"cursor":2,"item":0}]}}"#,
        r#"{"error":{"code":-32602,"data":{"cause":6,"index":0},"message":"invalid params"},"id":6,"jsonrpc":"2.0"}"#,
    ),
    (
        r#"{"jsonrpc":"2.0","id":7,"method":"workspace/executeCommand","params":{"command":"insynth.page","arguments":[{"cursor":1,"count":3}]}}"#,
        r#"{"id":7,"jsonrpc":"2.0","result":{"insynth":{"cursor":1,"from":6,"grown":0,"last":true,"version":1},"isIncomplete":false,"items":[]}}"#,
    ),
    (
        r#"{"jsonrpc":"2.0","id":8,"method":"workspace/executeCommand","params":{"command":"insynth.explain","arguments":[{"cursor":1,"item":6}]}}"#,
        r#"{"error":{"code":-32602,"data":{"cause":20,"index":0},"message":"invalid params"},"id":8,"jsonrpc":"2.0"}"#,
    ),
    (
        r#"{"jsonrpc":"2.0","id":9,"method":"workspace/executeCommand","params":{"command":"insynth.publish","arguments":[{}]}}"#,
        r#"{"id":9,"jsonrpc":"2.0","result":{"version":2}}"#,
    ),
    (
        r#"{"jsonrpc":"2.0","id":10,"method":"workspace/executeCommand","params":{"command":"insynth.withdraw","arguments":[{"through":1}]}}"#,
        r#"{"id":10,"jsonrpc":"2.0","result":{"version":3}}"#,
    ),
    (
        r#"{"jsonrpc":"2.0","id":11,"method":"workspace/executeCommand","params":{"command":"insynth.explain","arguments":[{"cursor":1,"item":0}]}}"#,
        r#"{"id":11,"jsonrpc":"2.0","result":{"rows":[[17,3,1005],[1,5,5]],"weight":1015}}"#,
    ),
    (
        r#"{"jsonrpc":"2.0","id":12,"method":"workspace/executeCommand","params":{"command":"insynth.explain","arguments":[{"cursor":1,"item":null}]}}"#,
        r#"{"id":12,"jsonrpc":"2.0","result":{"floor":1015,"rows":[[[],1,4,1015],[[],1,5,5]]}}"#,
    ),
    (
        r#"{"jsonrpc":"2.0","id":13,"method":"workspace/executeCommand","params":{"command":"insynth.close","arguments":[{"cursor":1}]}}"#,
        r#"{"id":13,"jsonrpc":"2.0","result":null}"#,
    ),
    (
        r#"{"jsonrpc":"2.0","id":14,"method":"workspace/executeCommand","params":{"command":"insynth.explain","arguments":[{"cursor":1,"item":0}]}}"#,
        r#"{"error":{"code":-32602,"data":{"cause":6,"index":0},"message":"invalid params"},"id":14,"jsonrpc":"2.0"}"#,
    ),
    (
        r#"{"jsonrpc":"2.0","id":15,"method":"workspace/executeCommand","params":{"command":"insynth.explain","arguments":[{"cursor":1}]}}"#,
        r#"{"error":{"code":-32602,"data":{"cause":6,"index":0},"message":"invalid params"},"id":15,"jsonrpc":"2.0"}"#,
    ),
];

/// A list without items: nothing weighs less than the limit and 1, which is more than any term may.
const EMPTY: [(&str, &str); 5] = [
    (
        r#"{"jsonrpc":"2.0","id":1,"method":"initialize","params":{"initializationOptions":{"limit":4}}}"#,
        r#"{"id":1,"jsonrpc":"2.0","result":{"capabilities":{"completionProvider":{},"executeCommandProvider":{"commands":["insynth.close","insynth.explain","insynth.page","insynth.publish","insynth.weights","insynth.withdraw"]},"positionEncoding":"utf-16","textDocumentSync":{"change":2,"openClose":true}},"serverInfo":{"name":"insynthd"}}}"#,
    ),
    (
        r#"{"jsonrpc":"2.0","method":"textDocument/didOpen","params":{"textDocument":{"uri":"file:///Demo.java","text":"import java.io.*;\nclass Demo {\n  static void go(String name) {\n    Reader r = \n  }\n}\n"}}}"#,
        "",
    ),
    (
        r#"{"jsonrpc":"2.0","id":2,"method":"textDocument/completion","params":{"textDocument":{"uri":"file:///Demo.java"},"position":{"line":3,"character":15}}}"#,
        r#"{"id":2,"jsonrpc":"2.0","result":{"insynth":{"cursor":1,"from":0,"grown":0,"last":true,"version":1},"isIncomplete":false,"items":[]}}"#,
    ),
    (
        r#"{"jsonrpc":"2.0","id":3,"method":"workspace/executeCommand","params":{"command":"insynth.explain","arguments":[{"cursor":1,"item":0}]}}"#,
        r#"{"error":{"code":-32602,"data":{"cause":20,"index":0},"message":"invalid params"},"id":3,"jsonrpc":"2.0"}"#,
    ),
    (
        r#"{"jsonrpc":"2.0","id":4,"method":"workspace/executeCommand","params":{"command":"insynth.explain","arguments":[{"cursor":1}]}}"#,
        r#"{"id":4,"jsonrpc":"2.0","result":{"floor":5,"rows":[[[],1,4,5]]}}"#,
    ),
];

/// Explanations move no cursor, and allow what was answered so far.
const BETWEEN_PAGES: [(&str, &str); 7] = [
    (
        r#"{"jsonrpc":"2.0","id":1,"method":"initialize","params":{"initializationOptions":{"count":2}}}"#,
        r#"{"id":1,"jsonrpc":"2.0","result":{"capabilities":{"completionProvider":{},"executeCommandProvider":{"commands":["insynth.close","insynth.explain","insynth.page","insynth.publish","insynth.weights","insynth.withdraw"]},"positionEncoding":"utf-16","textDocumentSync":{"change":2,"openClose":true}},"serverInfo":{"name":"insynthd"}}}"#,
    ),
    (
        r#"{"jsonrpc":"2.0","method":"textDocument/didOpen","params":{"textDocument":{"uri":"file:///Demo.java","text":"import java.io.*;\nclass Demo {\n  static void go(String name) {\n    Reader r = \n  }\n}\n"}}}"#,
        "",
    ),
    (
        r#"{"jsonrpc":"2.0","id":2,"method":"textDocument/completion","params":{"textDocument":{"uri":"file:///Demo.java"},"position":{"line":3,"character":15}}}"#,
        r#"{"id":2,"jsonrpc":"2.0","result":{"insynth":{"cursor":1,"from":0,"grown":3,"last":false,"version":1},"isIncomplete":true,"items":[{"detail":"1015","label":"new FileReader(name)","sortText":"0000000000","textEdit":{"newText":"new FileReader(name)","range":{"end":{"character":15,"line":3},"start":{"character":15,"line":3}}}},{"detail":"1210","label":"new FileReader(\"\")","sortText":"0000000001","textEdit":{"newText":"new FileReader(\"\")","range":{"end":{"character":15,"line":3},"start":{"character":15,"line":3}}}}]}}"#,
    ),
    (
        r#"{"jsonrpc":"2.0","id":3,"method":"workspace/executeCommand","params":{"command":"insynth.explain","arguments":[{"cursor":1,"item":2}]}}"#,
        r#"{"error":{"code":-32602,"data":{"cause":20,"index":0},"message":"invalid params"},"id":3,"jsonrpc":"2.0"}"#,
    ),
    (
        r#"{"jsonrpc":"2.0","id":4,"method":"workspace/executeCommand","params":{"command":"insynth.page","arguments":[{"cursor":1,"count":2}]}}"#,
        r#"{"id":4,"jsonrpc":"2.0","result":{"insynth":{"cursor":1,"from":2,"grown":2,"last":false,"version":1},"isIncomplete":true,"items":[{"detail":"2025","label":"new BufferedReader(new FileReader(name))","sortText":"0000000002","textEdit":{"newText":"new BufferedReader(new FileReader(name))","range":{"end":{"character":15,"line":3},"start":{"character":15,"line":3}}}},{"detail":"2220","label":"new BufferedReader(new FileReader(\"\"))","sortText":"0000000003","textEdit":{"newText":"new BufferedReader(new FileReader(\"\"))","range":{"end":{"character":15,"line":3},"start":{"character":15,"line":3}}}}]}}"#,
    ),
    (
        r#"{"jsonrpc":"2.0","id":5,"method":"workspace/executeCommand","params":{"command":"insynth.explain","arguments":[{"cursor":1,"item":2}]}}"#,
        r#"{"id":5,"jsonrpc":"2.0","result":{"rows":[[15,2,2015],[17,3,1005],[1,5,5]],"weight":2025}}"#,
    ),
    (
        r#"{"jsonrpc":"2.0","id":6,"method":"workspace/executeCommand","params":{"command":"insynth.page","arguments":[{"cursor":1,"count":2}]}}"#,
        r#"{"id":6,"jsonrpc":"2.0","result":{"insynth":{"cursor":1,"from":4,"grown":1,"last":true,"version":1},"isIncomplete":false,"items":[{"detail":"3035","label":"new BufferedReader(new BufferedReader(new FileReader(name)))","sortText":"0000000004","textEdit":{"newText":"new BufferedReader(new BufferedReader(new FileReader(name)))","range":{"end":{"character":15,"line":3},"start":{"character":15,"line":3}}}},{"detail":"3230","label":"new BufferedReader(new BufferedReader(new FileReader(\"\")))","sortText":"0000000005","textEdit":{"newText":"new BufferedReader(new BufferedReader(new FileReader(\"\")))","range":{"end":{"character":15,"line":3},"start":{"character":15,"line":3}}}}]}}"#,
    ),
];

#[test]
fn items_that_were_answered_are_explained(rt: HostRuntime) -> Result<(), Fail> {
    assert_eq!(rt; told_after(&rt, rt.alloc(), &EXPLAINED)?, 16);
    Ok(())
}

#[test]
fn an_empty_list_has_a_floor(rt: HostRuntime) -> Result<(), Fail> {
    assert_eq!(rt; told_after(&rt, rt.alloc(), &EMPTY)?, 5);
    Ok(())
}

#[test]
fn an_explanation_moves_no_cursor(rt: HostRuntime) -> Result<(), Fail> {
    assert_eq!(rt; told_after(&rt, rt.alloc(), &BETWEEN_PAGES)?, 7);
    Ok(())
}
