use crate::version_tests::readers;
use lists::{Items, Text};
use outside::{FaultPlan, HeldFile, LONGEST_LOAD, MemShelf};
use sessions::{MemWorld, Outcome, Session, World};
use std::alloc::{AllocError, Global};
use std::sync::Wait;
use std::test::Fail;
use std::thread::Threads;

/// `public class A extends java/lang/Object`, without members.
const A: [u8; 53] = [
    0xCA, 0xFE, 0xBA, 0xBE, 0, 0, 0, 0x34, 0, 5, 7, 0, 2, 1, 0, 1, 0x41, 7, 0, 4, 1, 0, 0x10, 0x6A,
    0x61, 0x76, 0x61, 0x2F, 0x6C, 0x61, 0x6E, 0x67, 0x2F, 0x4F, 0x62, 0x6A, 0x65, 0x63, 0x74, 0,
    0x21, 0, 1, 0, 3, 0, 0, 0, 0, 0, 0, 0, 0,
];

/// The same, and one byte more.
const LONG: [u8; 54] = [
    0xCA, 0xFE, 0xBA, 0xBE, 0, 0, 0, 0x34, 0, 5, 7, 0, 2, 1, 0, 1, 0x41, 7, 0, 4, 1, 0, 0x10, 0x6A,
    0x61, 0x76, 0x61, 0x2F, 0x6C, 0x61, 0x6E, 0x67, 0x2F, 0x4F, 0x62, 0x6A, 0x65, 0x63, 0x74, 0,
    0x21, 0, 1, 0, 3, 0, 0, 0, 0, 0, 0, 0, 0, 0,
];

/// The same without the last byte.
const CUT: [u8; 52] = [
    0xCA, 0xFE, 0xBA, 0xBE, 0, 0, 0, 0x34, 0, 5, 7, 0, 2, 1, 0, 1, 0x41, 7, 0, 4, 1, 0, 0x10, 0x6A,
    0x61, 0x76, 0x61, 0x2F, 0x6C, 0x61, 0x6E, 0x67, 0x2F, 0x4F, 0x62, 0x6A, 0x65, 0x63, 0x74, 0,
    0x21, 0, 1, 0, 3, 0, 0, 0, 0, 0, 0, 0,
];

/// `public class A extends B`.
const AB: [u8; 38] = [
    0xCA, 0xFE, 0xBA, 0xBE, 0, 0, 0, 0x34, 0, 5, 7, 0, 2, 1, 0, 1, 0x41, 7, 0, 4, 1, 0, 1, 0x42, 0,
    0x21, 0, 1, 0, 3, 0, 0, 0, 0, 0, 0, 0, 0,
];

/// `public class B extends A`.
const BA: [u8; 38] = [
    0xCA, 0xFE, 0xBA, 0xBE, 0, 0, 0, 0x34, 0, 5, 7, 0, 2, 1, 0, 1, 0x42, 7, 0, 4, 1, 0, 1, 0x41, 0,
    0x21, 0, 1, 0, 3, 0, 0, 0, 0, 0, 0, 0, 0,
];

/// `public class A`, around itself by a row of `InnerClasses`.
const OWN_OUTER: [u8; 84] = [
    0xCA, 0xFE, 0xBA, 0xBE, 0, 0, 0, 0x34, 0, 6, 7, 0, 2, 1, 0, 1, 0x41, 7, 0, 4, 1, 0, 0x10, 0x6A,
    0x61, 0x76, 0x61, 0x2F, 0x6C, 0x61, 0x6E, 0x67, 0x2F, 0x4F, 0x62, 0x6A, 0x65, 0x63, 0x74, 1, 0,
    12, 0x49, 0x6E, 0x6E, 0x65, 0x72, 0x43, 0x6C, 0x61, 0x73, 0x73, 0x65, 0x73, 0, 0x21, 0, 1, 0,
    3, 0, 0, 0, 0, 0, 0, 0, 1, 0, 5, 0, 0, 0, 10, 0, 1, 0, 1, 0, 1, 0, 0, 0, 0,
];

/// The files of these tests.
const FILES: [(&str, &[u8]); 6] = [
    ("/nest.class", &OWN_OUTER),
    ("/A.class", &A),
    ("/long.class", &LONG),
    ("/cut.class", &CUT),
    ("/AB.class", &AB),
    ("/BA.class", &BA),
];

/// What files are refused for, each at its number, after all parameters; no version is made of it.
const FILES_TOLD: [(&str, &str); 9] = [
    (
        r#"{"jsonrpc":"2.0","id":1,"method":"initialize","params":{}}"#,
        r#"{"id":1,"jsonrpc":"2.0","result":{"capabilities":{"completionProvider":{},"executeCommandProvider":{"commands":["insynth.close","insynth.explain","insynth.page","insynth.publish","insynth.weights","insynth.withdraw"]},"positionEncoding":"utf-16","textDocumentSync":{"change":2,"openClose":true}},"serverInfo":{"name":"insynthd"}}}"#,
    ),
    (
        r#"{"jsonrpc":"2.0","id":2,"method":"workspace/executeCommand","params":{"command":"insynth.publish","arguments":[{"put":["file:///cut.class"]}]}}"#,
        r#"{"error":{"code":-32602,"data":{"at":52,"cause":11,"class":1,"index":0},"message":"invalid params"},"id":2,"jsonrpc":"2.0"}"#,
    ),
    (
        r#"{"jsonrpc":"2.0","id":3,"method":"workspace/executeCommand","params":{"command":"insynth.publish","arguments":[{"put":["file:///A.class","file:///long.class"]}]}}"#,
        r#"{"error":{"code":-32602,"data":{"at":53,"cause":11,"class":6,"index":1},"message":"invalid params"},"id":3,"jsonrpc":"2.0"}"#,
    ),
    (
        r#"{"jsonrpc":"2.0","id":4,"method":"workspace/executeCommand","params":{"command":"insynth.publish","arguments":[{"put":["file:///A.class","file:///none.class","file:///cut.class"]}]}}"#,
        r#"{"error":{"code":-32602,"data":{"cause":9,"index":1},"message":"invalid params"},"id":4,"jsonrpc":"2.0"}"#,
    ),
    (
        r#"{"jsonrpc":"2.0","id":5,"method":"workspace/executeCommand","params":{"command":"insynth.publish","arguments":[{"put":["file:///none.class","http://x/"]}]}}"#,
        r#"{"error":{"code":-32602,"data":{"cause":8,"index":1},"message":"invalid params"},"id":5,"jsonrpc":"2.0"}"#,
    ),
    (
        r#"{"jsonrpc":"2.0","id":6,"method":"workspace/executeCommand","params":{"command":"insynth.publish","arguments":[{"put":["file:///none.class"],"remove":["A","a;b"]}]}}"#,
        r#"{"error":{"code":-32602,"data":{"cause":12,"index":1},"message":"invalid params"},"id":6,"jsonrpc":"2.0"}"#,
    ),
    (
        r#"{"jsonrpc":"2.0","id":7,"method":"workspace/executeCommand","params":{"command":"insynth.publish","arguments":[{"put":["file:///none.class"],"counts":[["A.m:()V",1],["x",1]]}]}}"#,
        r#"{"error":{"code":-32602,"data":{"cause":13,"index":1},"message":"invalid params"},"id":7,"jsonrpc":"2.0"}"#,
    ),
    (
        r#"{"jsonrpc":"2.0","id":8,"method":"workspace/executeCommand","params":{"command":"insynth.publish","arguments":[{"put":["file:///A.class","file:///cut.class","file:///A.class"]}]}}"#,
        r#"{"error":{"code":-32602,"data":{"at":52,"cause":11,"class":1,"index":1},"message":"invalid params"},"id":8,"jsonrpc":"2.0"}"#,
    ),
    (
        r#"{"jsonrpc":"2.0","id":9,"method":"workspace/executeCommand","params":{"command":"insynth.publish","arguments":[{"put":["file:///A.class"]}]}}"#,
        r#"{"id":9,"jsonrpc":"2.0","result":{"version":1}}"#,
    ),
];

/// What changes are refused for, and versions.
const CHANGES_TOLD: [(&str, &str); 8] = [
    (
        r#"{"jsonrpc":"2.0","id":1,"method":"initialize","params":{}}"#,
        r#"{"id":1,"jsonrpc":"2.0","result":{"capabilities":{"completionProvider":{},"executeCommandProvider":{"commands":["insynth.close","insynth.explain","insynth.page","insynth.publish","insynth.weights","insynth.withdraw"]},"positionEncoding":"utf-16","textDocumentSync":{"change":2,"openClose":true}},"serverInfo":{"name":"insynthd"}}}"#,
    ),
    (
        r#"{"jsonrpc":"2.0","id":2,"method":"workspace/executeCommand","params":{"command":"insynth.withdraw","arguments":[{"through":1}]}}"#,
        r#"{"error":{"code":-32602,"data":{"cause":16,"index":0,"number":1},"message":"invalid params"},"id":2,"jsonrpc":"2.0"}"#,
    ),
    (
        r#"{"jsonrpc":"2.0","id":3,"method":"workspace/executeCommand","params":{"command":"insynth.publish","arguments":[{"put":["file:///AB.class","file:///BA.class"]}]}}"#,
        r#"{"error":{"code":-32602,"data":{"cause":14,"index":0,"name":"A"},"message":"invalid params"},"id":3,"jsonrpc":"2.0"}"#,
    ),
    (
        r#"{"jsonrpc":"2.0","id":3,"method":"workspace/executeCommand","params":{"command":"insynth.publish","arguments":[{"put":["file:///BA.class","file:///nest.class"]}]}}"#,
        r#"{"error":{"code":-32602,"data":{"cause":18,"index":0,"name":"A"},"message":"invalid params"},"id":3,"jsonrpc":"2.0"}"#,
    ),
    (
        r#"{"jsonrpc":"2.0","id":4,"method":"workspace/executeCommand","params":{"command":"insynth.publish","arguments":[{}]}}"#,
        r#"{"id":4,"jsonrpc":"2.0","result":{"version":1}}"#,
    ),
    (
        r#"{"jsonrpc":"2.0","id":5,"method":"workspace/executeCommand","params":{"command":"insynth.publish","arguments":[{}]}}"#,
        r#"{"id":5,"jsonrpc":"2.0","result":{"version":2}}"#,
    ),
    (
        r#"{"jsonrpc":"2.0","id":6,"method":"workspace/executeCommand","params":{"command":"insynth.withdraw","arguments":[{"through":1}]}}"#,
        r#"{"id":6,"jsonrpc":"2.0","result":{"version":3}}"#,
    ),
    (
        r#"{"jsonrpc":"2.0","id":7,"method":"workspace/executeCommand","params":{"command":"insynth.publish","arguments":[{"remove":["x/Y"]}]}}"#,
        r#"{"id":7,"jsonrpc":"2.0","result":{"version":4}}"#,
    ),
];

/// Pages of a version that is the newest, an older one, and withdrawn.
const PAGES_TOLD: [(&str, &str); 7] = [
    (
        r#"{"jsonrpc":"2.0","id":1,"method":"initialize","params":{"initializationOptions":{"count":3}}}"#,
        r#"{"id":1,"jsonrpc":"2.0","result":{"capabilities":{"completionProvider":{},"executeCommandProvider":{"commands":["insynth.close","insynth.explain","insynth.page","insynth.publish","insynth.weights","insynth.withdraw"]},"positionEncoding":"utf-16","textDocumentSync":{"change":2,"openClose":true}},"serverInfo":{"name":"insynthd"}}}"#,
    ),
    (
        r#"{"jsonrpc":"2.0","method":"textDocument/didOpen","params":{"textDocument":{"uri":"file:///Demo.java","text":"import java.io.*;\nclass Demo {\n  static void go(String name) {\n    Reader r = \n  }\n}\n"}}}"#,
        "",
    ),
    (
        r#"{"jsonrpc":"2.0","id":2,"method":"textDocument/completion","params":{"textDocument":{"uri":"file:///Demo.java"},"position":{"line":3,"character":15}}}"#,
        r#"{"id":2,"jsonrpc":"2.0","result":{"insynth":{"cursor":1,"from":0,"grown":4,"last":false,"version":1},"isIncomplete":true,"items":[{"detail":"1015","label":"new FileReader(name)","sortText":"0000000000","textEdit":{"newText":"new FileReader(name)","range":{"end":{"character":15,"line":3},"start":{"character":15,"line":3}}}},{"detail":"1210","label":"new FileReader(\"\")","sortText":"0000000001","textEdit":{"newText":"new FileReader(\"\")","range":{"end":{"character":15,"line":3},"start":{"character":15,"line":3}}}},{"detail":"2025","label":"new BufferedReader(new FileReader(name))","sortText":"0000000002","textEdit":{"newText":"new BufferedReader(new FileReader(name))","range":{"end":{"character":15,"line":3},"start":{"character":15,"line":3}}}}]}}"#,
    ),
    (
        r#"{"jsonrpc":"2.0","id":3,"method":"workspace/executeCommand","params":{"command":"insynth.publish","arguments":[{"remove":["java/io/FileReader"]}]}}"#,
        r#"{"id":3,"jsonrpc":"2.0","result":{"version":2}}"#,
    ),
    (
        r#"{"jsonrpc":"2.0","id":4,"method":"workspace/executeCommand","params":{"command":"insynth.page","arguments":[{"cursor":1,"count":3}]}}"#,
        r#"{"id":4,"jsonrpc":"2.0","result":{"insynth":{"cursor":1,"from":3,"grown":2,"last":true,"version":1},"isIncomplete":false,"items":[{"detail":"2220","label":"new BufferedReader(new FileReader(\"\"))","sortText":"0000000003","textEdit":{"newText":"new BufferedReader(new FileReader(\"\"))","range":{"end":{"character":15,"line":3},"start":{"character":15,"line":3}}}},{"detail":"3035","label":"new BufferedReader(new BufferedReader(new FileReader(name)))","sortText":"0000000004","textEdit":{"newText":"new BufferedReader(new BufferedReader(new FileReader(name)))","range":{"end":{"character":15,"line":3},"start":{"character":15,"line":3}}}},{"detail":"3230","label":"new BufferedReader(new BufferedReader(new FileReader(\"\")))","sortText":"0000000005","textEdit":{"newText":"new BufferedReader(new BufferedReader(new FileReader(\"\")))","range":{"end":{"character":15,"line":3},"start":{"character":15,"line":3}}}}]}}"#,
    ),
    (
        r#"{"jsonrpc":"2.0","id":5,"method":"workspace/executeCommand","params":{"command":"insynth.withdraw","arguments":[{"through":1}]}}"#,
        r#"{"id":5,"jsonrpc":"2.0","result":{"version":3}}"#,
    ),
    (
        r#"{"jsonrpc":"2.0","id":6,"method":"workspace/executeCommand","params":{"command":"insynth.page","arguments":[{"cursor":1,"count":3}]}}"#,
        r#"{"error":{"code":-32801,"data":{"number":3,"version":1},"message":"version withdrawn"},"id":6,"jsonrpc":"2.0"}"#,
    ),
];

pub(crate) const USE_THRICE: &str =
    r#"{"jsonrpc":"2.0","id":2,"method":"workspace/executeCommand","params":{"command":"insynth.publish","arguments":[{"counts":[["java/io/FileReader.<init>:(Ljava/lang/String;)V",3]]}]}}"#;

pub(crate) const AFTER_USES: &str =
    r#"{"jsonrpc":"2.0","id":3,"method":"textDocument/completion","params":{"textDocument":{"uri":"file:///Demo.java"},"position":{"line":3,"character":15}}}"#;

pub(crate) const EIGHT: &str =
    r#"{"id":3,"jsonrpc":"2.0","result":{"insynth":{"cursor":1,"from":0,"grown":8,"last":true,"version":2},"isIncomplete":false,"items":[{"detail":"426","label":"new FileReader(name)","sortText":"0000000000","textEdit":{"newText":"new FileReader(name)","range":{"end":{"character":15,"line":3},"start":{"character":15,"line":3}}}},{"detail":"621","label":"new FileReader(\"\")","sortText":"0000000001","textEdit":{"newText":"new FileReader(\"\")","range":{"end":{"character":15,"line":3},"start":{"character":15,"line":3}}}},{"detail":"1436","label":"new BufferedReader(new FileReader(name))","sortText":"0000000002","textEdit":{"newText":"new BufferedReader(new FileReader(name))","range":{"end":{"character":15,"line":3},"start":{"character":15,"line":3}}}},{"detail":"1631","label":"new BufferedReader(new FileReader(\"\"))","sortText":"0000000003","textEdit":{"newText":"new BufferedReader(new FileReader(\"\"))","range":{"end":{"character":15,"line":3},"start":{"character":15,"line":3}}}},{"detail":"2446","label":"new BufferedReader(new BufferedReader(new FileReader(name)))","sortText":"0000000004","textEdit":{"newText":"new BufferedReader(new BufferedReader(new FileReader(name)))","range":{"end":{"character":15,"line":3},"start":{"character":15,"line":3}}}},{"detail":"2641","label":"new BufferedReader(new BufferedReader(new FileReader(\"\")))","sortText":"0000000005","textEdit":{"newText":"new BufferedReader(new BufferedReader(new FileReader(\"\")))","range":{"end":{"character":15,"line":3},"start":{"character":15,"line":3}}}},{"detail":"3456","label":"new BufferedReader(new BufferedReader(new BufferedReader(new FileReader(name))))","sortText":"0000000006","textEdit":{"newText":"new BufferedReader(new BufferedReader(new BufferedReader(new FileReader(name))))","range":{"end":{"character":15,"line":3},"start":{"character":15,"line":3}}}},{"detail":"3651","label":"new BufferedReader(new BufferedReader(new BufferedReader(new FileReader(\"\"))))","sortText":"0000000007","textEdit":{"newText":"new BufferedReader(new BufferedReader(new BufferedReader(new FileReader(\"\"))))","range":{"end":{"character":15,"line":3},"start":{"character":15,"line":3}}}}]}}"#;

/// A list after a count of uses was published.
const USES_TOLD: [(&str, &str); 4] = [
    (
        r#"{"jsonrpc":"2.0","id":1,"method":"initialize","params":{}}"#,
        r#"{"id":1,"jsonrpc":"2.0","result":{"capabilities":{"completionProvider":{},"executeCommandProvider":{"commands":["insynth.close","insynth.explain","insynth.page","insynth.publish","insynth.weights","insynth.withdraw"]},"positionEncoding":"utf-16","textDocumentSync":{"change":2,"openClose":true}},"serverInfo":{"name":"insynthd"}}}"#,
    ),
    (
        r#"{"jsonrpc":"2.0","method":"textDocument/didOpen","params":{"textDocument":{"uri":"file:///Demo.java","text":"import java.io.*;\nclass Demo {\n  static void go(String name) {\n    Reader r = \n  }\n}\n"}}}"#,
        "",
    ),
    (
        USE_THRICE,
        r#"{"id":2,"jsonrpc":"2.0","result":{"version":2}}"#,
    ),
    (AFTER_USES, EIGHT),
];

/// The second load fails, and later ones don't.
const READ_FAULT_TOLD: [(&str, &str); 3] = [
    (
        r#"{"jsonrpc":"2.0","id":1,"method":"initialize","params":{}}"#,
        r#"{"id":1,"jsonrpc":"2.0","result":{"capabilities":{"completionProvider":{},"executeCommandProvider":{"commands":["insynth.close","insynth.explain","insynth.page","insynth.publish","insynth.weights","insynth.withdraw"]},"positionEncoding":"utf-16","textDocumentSync":{"change":2,"openClose":true}},"serverInfo":{"name":"insynthd"}}}"#,
    ),
    (
        r#"{"jsonrpc":"2.0","id":2,"method":"workspace/executeCommand","params":{"command":"insynth.publish","arguments":[{"put":["file:///A.class","file:///A.class"]}]}}"#,
        r#"{"error":{"code":-32803,"data":{"index":1},"message":"read fault"},"id":2,"jsonrpc":"2.0"}"#,
    ),
    (
        r#"{"jsonrpc":"2.0","id":3,"method":"workspace/executeCommand","params":{"command":"insynth.publish","arguments":[{"put":["file:///A.class"]}]}}"#,
        r#"{"id":3,"jsonrpc":"2.0","result":{"version":1}}"#,
    ),
];

pub(crate) fn file(alloc: Global, name: &str, bytes: &[u8]) -> Result<HeldFile, AllocError> {
    Ok(HeldFile {
        name: Text::from_str(alloc, name)?,
        bytes: Items::from_slice(alloc, bytes)?,
    })
}

/// A shelf with the files, whose loads fail by the plan.
pub(crate) fn shelf(alloc: Global, plan: FaultPlan) -> Result<MemShelf, AllocError> {
    let mut files = Items::new(alloc);
    for (name, bytes) in &FILES {
        files.push(file(alloc, name, bytes)?)?;
    }
    Ok(MemShelf::new(files, plan))
}

/// Whether the outcome is this reply, or silence where the reply is empty.
fn is_told(outcome: &Outcome, reply: &str) -> bool {
    match outcome {
        Outcome::Reply(bytes) => bytes.as_slice() == reply.as_bytes(),
        Outcome::Silent => reply.is_empty(),
        _ => false,
    }
}

/// How many of these messages a new session answers as they say, up to the first that it doesn't.
pub(crate) fn told<W: World>(
    rt: &(impl Threads + Sync),
    alloc: Global,
    world: &mut W,
    messages: &[(&str, &str)],
) -> Result<usize, AllocError> {
    let mut session = Session::new(alloc);
    let mut count: usize = 0;
    for (body, reply) in messages {
        let outcome = session.step(rt, alloc, body.as_bytes(), world)?;
        if !is_told(&outcome, reply) {
            return Ok(count);
        }
        count = count.saturating_add(1);
    }
    Ok(count)
}

/// The same over the version 0, where loads fail by the plan.
fn told_first<R: Threads + Wait + Sync>(
    rt: &R,
    alloc: Global,
    plan: FaultPlan,
    messages: &[(&str, &str)],
) -> Result<usize, AllocError> {
    let mut world = MemWorld::new(rt, alloc, shelf(alloc, plan)?)?;
    told(rt, alloc, &mut world, messages)
}

/// The same over the version of the three readers.
pub(crate) fn told_after<R: Threads + Wait + Sync>(
    rt: &R,
    alloc: Global,
    messages: &[(&str, &str)],
) -> Result<usize, AllocError> {
    let shelf = MemShelf::new(Items::new(alloc), FaultPlan::none(alloc));
    let mut world = MemWorld::new(rt, alloc, shelf)?;
    match world.publish(alloc, readers(alloc)?) {
        Ok(_) => told(rt, alloc, &mut world, messages),
        Err(_) => Err(AllocError),
    }
}

#[test]
fn files_are_refused_at_their_numbers(rt: HostRuntime) -> Result<(), Fail> {
    let plan = FaultPlan::none(rt.alloc());
    assert_eq!(rt; told_first(&rt, rt.alloc(), plan, &FILES_TOLD)?, 9);
    Ok(())
}

/// No file is loaded where parameters are refused, none after one that gives no bytes, and none twice.
#[test]
fn each_file_is_loaded_once(rt: HostRuntime) -> Result<(), Fail> {
    let shelf = shelf(rt.alloc(), FaultPlan::none(rt.alloc()))?;
    let mut world = MemWorld::new(&rt, rt.alloc(), shelf)?;
    assert_eq!(rt; told(&rt, rt.alloc(), &mut world, &FILES_TOLD)?, 9);
    assert_eq!(rt; world.shelf.plan.calls, 9);
    Ok(())
}

/// A file of one byte more than is read.
const TOO_LONG_TOLD: [(&str, &str); 3] = [
    (
        r#"{"jsonrpc":"2.0","id":1,"method":"initialize","params":{}}"#,
        r#"{"id":1,"jsonrpc":"2.0","result":{"capabilities":{"completionProvider":{},"executeCommandProvider":{"commands":["insynth.close","insynth.explain","insynth.page","insynth.publish","insynth.weights","insynth.withdraw"]},"positionEncoding":"utf-16","textDocumentSync":{"change":2,"openClose":true}},"serverInfo":{"name":"insynthd"}}}"#,
    ),
    (
        r#"{"jsonrpc":"2.0","id":2,"method":"workspace/executeCommand","params":{"command":"insynth.publish","arguments":[{"put":["file:///A.class","file:///huge.class"]}]}}"#,
        r#"{"error":{"code":-32602,"data":{"cause":10,"index":1},"message":"invalid params"},"id":2,"jsonrpc":"2.0"}"#,
    ),
    (
        r#"{"jsonrpc":"2.0","id":3,"method":"workspace/executeCommand","params":{"command":"insynth.publish","arguments":[{"put":["file:///A.class"]}]}}"#,
        r#"{"id":3,"jsonrpc":"2.0","result":{"version":1}}"#,
    ),
];

#[test]
fn a_file_may_be_too_long(rt: HostRuntime) -> Result<(), Fail> {
    let mut shelf = shelf(rt.alloc(), FaultPlan::none(rt.alloc()))?;
    let huge = vec![in rt.alloc(); 0u8; LONGEST_LOAD + 1]?;
    shelf
        .files
        .push(file(rt.alloc(), "/huge.class", huge.as_slice())?)?;
    let mut world = MemWorld::new(&rt, rt.alloc(), shelf)?;
    assert_eq!(rt; told(&rt, rt.alloc(), &mut world, &TOO_LONG_TOLD)?, 3);
    Ok(())
}

#[test]
fn a_load_may_fail(rt: HostRuntime) -> Result<(), Fail> {
    let plan = FaultPlan::new(Items::from_slice(rt.alloc(), &[2])?);
    assert_eq!(rt; told_first(&rt, rt.alloc(), plan, &READ_FAULT_TOLD)?, 3);
    Ok(())
}

#[test]
fn changes_are_refused_or_get_numbers(rt: HostRuntime) -> Result<(), Fail> {
    let plan = FaultPlan::none(rt.alloc());
    assert_eq!(rt; told_first(&rt, rt.alloc(), plan, &CHANGES_TOLD)?, 8);
    Ok(())
}

#[test]
fn pages_are_of_their_version_until_it_is_withdrawn(rt: HostRuntime) -> Result<(), Fail> {
    assert_eq!(rt; told_after(&rt, rt.alloc(), &PAGES_TOLD)?, 7);
    Ok(())
}

#[test]
fn a_count_of_uses_makes_a_call_cheaper(rt: HostRuntime) -> Result<(), Fail> {
    assert_eq!(rt; told_after(&rt, rt.alloc(), &USES_TOLD)?, 4);
    Ok(())
}
