use crate::publication_tests::told_after;
use std::test::Fail;

/// Lists by weights that were set, and settings that are refused and make no version. Weights that stand already make
/// one all the same.
const SET: [(&str, &str); 9] = [
    (
        r#"{"jsonrpc":"2.0","id":1,"method":"initialize","params":{"initializationOptions":{"limit":700}}}"#,
        r#"{"id":1,"jsonrpc":"2.0","result":{"capabilities":{"completionProvider":{},"executeCommandProvider":{"commands":["insynth.close","insynth.explain","insynth.page","insynth.publish","insynth.weights","insynth.withdraw"]},"positionEncoding":"utf-16","textDocumentSync":{"change":2,"openClose":true}},"serverInfo":{"name":"insynthd"}}}"#,
    ),
    (
        r#"{"jsonrpc":"2.0","method":"textDocument/didOpen","params":{"textDocument":{"uri":"file:///Demo.java","text":"import java.io.*;\nclass Demo {\n  static void go(String name) {\n    Reader r = \n  }\n}\n"}}}"#,
        "",
    ),
    (
        r#"{"jsonrpc":"2.0","id":2,"method":"workspace/executeCommand","params":{"command":"insynth.weights","arguments":[{"bound":1,"binder":1,"local":5,"step":10,"lambda":10,"own":20,"package":25,"literal":200,"far":215,"span":0}]}}"#,
        r#"{"id":2,"jsonrpc":"2.0","result":{"version":2}}"#,
    ),
    (
        r#"{"jsonrpc":"2.0","id":3,"method":"textDocument/completion","params":{"textDocument":{"uri":"file:///Demo.java"},"position":{"line":3,"character":15}}}"#,
        r#"{"id":3,"jsonrpc":"2.0","result":{"insynth":{"cursor":1,"from":0,"grown":5,"last":true,"version":2},"isIncomplete":false,"items":[{"detail":"230","label":"new FileReader(name)","sortText":"0000000000","textEdit":{"newText":"new FileReader(name)","range":{"end":{"character":15,"line":3},"start":{"character":15,"line":3}}}},{"detail":"425","label":"new FileReader(\"\")","sortText":"0000000001","textEdit":{"newText":"new FileReader(\"\")","range":{"end":{"character":15,"line":3},"start":{"character":15,"line":3}}}},{"detail":"455","label":"new BufferedReader(new FileReader(name))","sortText":"0000000002","textEdit":{"newText":"new BufferedReader(new FileReader(name))","range":{"end":{"character":15,"line":3},"start":{"character":15,"line":3}}}},{"detail":"650","label":"new BufferedReader(new FileReader(\"\"))","sortText":"0000000003","textEdit":{"newText":"new BufferedReader(new FileReader(\"\"))","range":{"end":{"character":15,"line":3},"start":{"character":15,"line":3}}}},{"detail":"680","label":"new BufferedReader(new BufferedReader(new FileReader(name)))","sortText":"0000000004","textEdit":{"newText":"new BufferedReader(new BufferedReader(new FileReader(name)))","range":{"end":{"character":15,"line":3},"start":{"character":15,"line":3}}}}]}}"#,
    ),
    (
        r#"{"jsonrpc":"2.0","id":4,"method":"workspace/executeCommand","params":{"command":"insynth.weights","arguments":[{"bound":1,"binder":1,"local":5,"step":10,"lambda":10,"own":20,"package":25,"literal":200,"far":9000,"span":1001}]}}"#,
        r#"{"error":{"code":-32602,"data":{"cause":2,"index":0},"message":"invalid params"},"id":4,"jsonrpc":"2.0"}"#,
    ),
    (
        r#"{"jsonrpc":"2.0","id":5,"method":"workspace/executeCommand","params":{"command":"insynth.weights","arguments":[{"bound":1}]}}"#,
        r#"{"error":{"code":-32602,"data":{"cause":1,"index":0},"message":"invalid params"},"id":5,"jsonrpc":"2.0"}"#,
    ),
    (
        r#"{"jsonrpc":"2.0","id":6,"method":"workspace/executeCommand","params":{"command":"insynth.weights","arguments":[{"bound":1,"binder":1,"local":5,"step":10,"lambda":10,"own":20,"package":25,"literal":200,"far":9000,"span":1000}]}}"#,
        r#"{"id":6,"jsonrpc":"2.0","result":{"version":3}}"#,
    ),
    (
        r#"{"jsonrpc":"2.0","id":7,"method":"workspace/executeCommand","params":{"command":"insynth.weights","arguments":[{"bound":1,"binder":1,"local":5,"step":10,"lambda":10,"own":20,"package":25,"literal":200,"far":9000,"span":1000}]}}"#,
        r#"{"id":7,"jsonrpc":"2.0","result":{"version":4}}"#,
    ),
    (
        r#"{"jsonrpc":"2.0","id":8,"method":"textDocument/completion","params":{"textDocument":{"uri":"file:///Demo.java"},"position":{"line":3,"character":15}}}"#,
        r#"{"id":8,"jsonrpc":"2.0","result":{"insynth":{"cursor":2,"from":0,"grown":0,"last":true,"version":4},"isIncomplete":false,"items":[]}}"#,
    ),
];

/// A list that was begun before keeps the weights of its version.
const OLDER_LIST: [(&str, &str); 5] = [
    (
        r#"{"jsonrpc":"2.0","id":1,"method":"initialize","params":{"initializationOptions":{"count":3}}}"#,
        r#"{"id":1,"jsonrpc":"2.0","result":{"capabilities":{"completionProvider":{},"executeCommandProvider":{"commands":["insynth.close","insynth.explain","insynth.page","insynth.publish","insynth.weights","insynth.withdraw"]},"positionEncoding":"utf-16","textDocumentSync":{"change":2,"openClose":true}},"serverInfo":{"name":"insynthd"}}}"#,
    ),
    (
        r#"{"jsonrpc":"2.0","method":"textDocument/didOpen","params":{"textDocument":{"uri":"file:///Demo.java","text":"import java.io.*;\nclass Demo {\n  static void go(String name) {\n    Reader r = \n  }\n}\n"}}}"#,
        "",
    ),
    (
        r#"{"jsonrpc":"2.0","id":2,"method":"textDocument/completion","params":{"textDocument":{"uri":"file:///Demo.java"},"position":{"line":3,"character":15}}}"#,
        r#"{"id":2,"jsonrpc":"2.0","result":{"insynth":{"cursor":1,"from":0,"grown":4,"last":false,"version":1},"isIncomplete":true,"items":[{"detail":"1015","label":"new FileReader(name)","sortText":"0000000000","textEdit":{"newText":"new FileReader(name)","range":{"end":{"character":15,"line":3},"start":{"character":15,"line":3}}}},{"detail":"1210","label":"new FileReader(\"\")","sortText":"0000000001","textEdit":{"newText":"new FileReader(\"\")","range":{"end":{"character":15,"line":3},"start":{"character":15,"line":3}}}},{"detail":"2025","label":"new BufferedReader(new FileReader(name))","sortText":"0000000002","textEdit":{"newText":"new BufferedReader(new FileReader(name))","range":{"end":{"character":15,"line":3},"start":{"character":15,"line":3}}}}]}}"#,
    ),
    (
        r#"{"jsonrpc":"2.0","id":3,"method":"workspace/executeCommand","params":{"command":"insynth.weights","arguments":[{"bound":1,"binder":1,"local":5,"step":10,"lambda":10,"own":20,"package":25,"literal":200,"far":215,"span":0}]}}"#,
        r#"{"id":3,"jsonrpc":"2.0","result":{"version":2}}"#,
    ),
    (
        r#"{"jsonrpc":"2.0","id":4,"method":"workspace/executeCommand","params":{"command":"insynth.page","arguments":[{"cursor":1,"count":3}]}}"#,
        r#"{"id":4,"jsonrpc":"2.0","result":{"insynth":{"cursor":1,"from":3,"grown":2,"last":true,"version":1},"isIncomplete":false,"items":[{"detail":"2220","label":"new BufferedReader(new FileReader(\"\"))","sortText":"0000000003","textEdit":{"newText":"new BufferedReader(new FileReader(\"\"))","range":{"end":{"character":15,"line":3},"start":{"character":15,"line":3}}}},{"detail":"3035","label":"new BufferedReader(new BufferedReader(new FileReader(name)))","sortText":"0000000004","textEdit":{"newText":"new BufferedReader(new BufferedReader(new FileReader(name)))","range":{"end":{"character":15,"line":3},"start":{"character":15,"line":3}}}},{"detail":"3230","label":"new BufferedReader(new BufferedReader(new FileReader(\"\")))","sortText":"0000000005","textEdit":{"newText":"new BufferedReader(new BufferedReader(new FileReader(\"\")))","range":{"end":{"character":15,"line":3},"start":{"character":15,"line":3}}}}]}}"#,
    ),
];

/// A publication and a withdrawal leave the weights as they are.
const STAY: [(&str, &str); 6] = [
    (
        r#"{"jsonrpc":"2.0","id":1,"method":"initialize","params":{"initializationOptions":{"limit":700}}}"#,
        r#"{"id":1,"jsonrpc":"2.0","result":{"capabilities":{"completionProvider":{},"executeCommandProvider":{"commands":["insynth.close","insynth.explain","insynth.page","insynth.publish","insynth.weights","insynth.withdraw"]},"positionEncoding":"utf-16","textDocumentSync":{"change":2,"openClose":true}},"serverInfo":{"name":"insynthd"}}}"#,
    ),
    (
        r#"{"jsonrpc":"2.0","method":"textDocument/didOpen","params":{"textDocument":{"uri":"file:///Demo.java","text":"import java.io.*;\nclass Demo {\n  static void go(String name) {\n    Reader r = \n  }\n}\n"}}}"#,
        "",
    ),
    (
        r#"{"jsonrpc":"2.0","id":2,"method":"workspace/executeCommand","params":{"command":"insynth.weights","arguments":[{"bound":1,"binder":1,"local":5,"step":10,"lambda":10,"own":20,"package":25,"literal":200,"far":215,"span":0}]}}"#,
        r#"{"id":2,"jsonrpc":"2.0","result":{"version":2}}"#,
    ),
    (
        r#"{"jsonrpc":"2.0","id":3,"method":"workspace/executeCommand","params":{"command":"insynth.publish","arguments":[{"remove":["x/Y"]}]}}"#,
        r#"{"id":3,"jsonrpc":"2.0","result":{"version":3}}"#,
    ),
    (
        r#"{"jsonrpc":"2.0","id":4,"method":"workspace/executeCommand","params":{"command":"insynth.withdraw","arguments":[{"through":2}]}}"#,
        r#"{"id":4,"jsonrpc":"2.0","result":{"version":4}}"#,
    ),
    (
        r#"{"jsonrpc":"2.0","id":5,"method":"textDocument/completion","params":{"textDocument":{"uri":"file:///Demo.java"},"position":{"line":3,"character":15}}}"#,
        r#"{"id":5,"jsonrpc":"2.0","result":{"insynth":{"cursor":1,"from":0,"grown":5,"last":true,"version":4},"isIncomplete":false,"items":[{"detail":"230","label":"new FileReader(name)","sortText":"0000000000","textEdit":{"newText":"new FileReader(name)","range":{"end":{"character":15,"line":3},"start":{"character":15,"line":3}}}},{"detail":"425","label":"new FileReader(\"\")","sortText":"0000000001","textEdit":{"newText":"new FileReader(\"\")","range":{"end":{"character":15,"line":3},"start":{"character":15,"line":3}}}},{"detail":"455","label":"new BufferedReader(new FileReader(name))","sortText":"0000000002","textEdit":{"newText":"new BufferedReader(new FileReader(name))","range":{"end":{"character":15,"line":3},"start":{"character":15,"line":3}}}},{"detail":"650","label":"new BufferedReader(new FileReader(\"\"))","sortText":"0000000003","textEdit":{"newText":"new BufferedReader(new FileReader(\"\"))","range":{"end":{"character":15,"line":3},"start":{"character":15,"line":3}}}},{"detail":"680","label":"new BufferedReader(new BufferedReader(new FileReader(name)))","sortText":"0000000004","textEdit":{"newText":"new BufferedReader(new BufferedReader(new FileReader(name)))","range":{"end":{"character":15,"line":3},"start":{"character":15,"line":3}}}}]}}"#,
    ),
];

#[test]
fn lists_are_by_the_weights_of_their_version(rt: HostRuntime) -> Result<(), Fail> {
    assert_eq!(rt; told_after(&rt, rt.alloc(), &SET)?, 9);
    Ok(())
}

#[test]
fn an_older_list_keeps_its_weights(rt: HostRuntime) -> Result<(), Fail> {
    assert_eq!(rt; told_after(&rt, rt.alloc(), &OLDER_LIST)?, 5);
    Ok(())
}

#[test]
fn other_changes_leave_the_weights(rt: HostRuntime) -> Result<(), Fail> {
    assert_eq!(rt; told_after(&rt, rt.alloc(), &STAY)?, 6);
    Ok(())
}
