use crate::publication_tests::{file, told};
use lists::Items;
use outside::{FaultPlan, LONGEST_LOAD, MemShelf};
use sessions::MemWorld;
use std::alloc::{AllocError, Global};
use std::sync::Wait;
use std::test::Fail;
use std::thread::Threads;

/// `public class A extends java/lang/Object`, without members.
const A_FILE: [u8; 53] = [
    0xCA, 0xFE, 0xBA, 0xBE, 0, 0, 0, 0x34, 0, 5, 7, 0, 2, 1, 0, 1, 0x41, 7, 0, 4, 1, 0, 0x10, 0x6A,
    0x61, 0x76, 0x61, 0x2F, 0x6C, 0x61, 0x6E, 0x67, 0x2F, 0x4F, 0x62, 0x6A, 0x65, 0x63, 0x74, 0,
    0x21, 0, 1, 0, 3, 0, 0, 0, 0, 0, 0, 0, 0,
];

/// The files of these tests.
const FILES: [(&str, &[u8]); 20] = [
    (
        "/A.java",
        b"package p; public class A { public B b() { return null; } }",
    ),
    ("/B.java", b"package p; public class B {}"),
    (
        "/X.java",
        b"import q.*; public class X { public static N n; }",
    ),
    ("/N.java", b"package q; public class N {}"),
    ("/FF.java", b"\xFF"),
    ("/none.java", b"// no class"),
    ("/C.java", b"package p; public class C extends D {}"),
    ("/D.java", b"package p; public class D extends C {}"),
    (
        "/T.java",
        b"public class A { public int x; private int y; }",
    ),
    ("/T2.java", b"public class A { public int z; }"),
    ("/BOM.java", b"\xEF\xBB\xBFpackage p; public class B {}"),
    ("/A.class", &A_FILE),
    ("/cut.class", b"\xCA\xFE\xBA\xBE"),
    ("/UseA.java", b"public class V { public A a; }"),
    (
        "/Two.java",
        b"public class A { public int x; } class B {} class A { public int y; }",
    ),
    (
        "/P.java",
        b"package p . q; public class P { public static Q q; }",
    ),
    ("/Q.java", b"package p./* */q ; public interface Q {}"),
    (
        "/Ends.java",
        b"import q.*; public class X { public static O$ n; public static $N m; }",
    ),
    (
        "/pA.class",
        b"\xCA\xFE\xBA\xBE\0\0\04\0\x09\x07\0\x02\x01\0\x03p/A\x07\0\x04\x01\0\x10java/lang/Object\x01\0\x01b\x01\0\x07()Lp/B;\x01\0\x06<init>\x01\0\x03()V\0\x01\0\x01\0\x03\0\0\0\0\0\x02\0\x01\0\x05\0\x06\0\0\0\x01\0\x07\0\x08\0\0\0\0",
    ),
    (
        "/pB.class",
        b"\xCA\xFE\xBA\xBE\0\0\04\0\x07\x07\0\x02\x01\0\x03p/B\x07\0\x04\x01\0\x10java/lang/Object\x01\0\x06<init>\x01\0\x03()V\0\x01\0\x01\0\x03\0\0\0\0\0\x01\0\x01\0\x05\0\x06\0\0\0\0",
    ),
];

/// What `initialize` is answered.
const INITIALIZED: &str =
    r#"{"id":1,"jsonrpc":"2.0","result":{"capabilities":{"completionProvider":{},"executeCommandProvider":{"commands":["insynth.close","insynth.explain","insynth.page","insynth.publish","insynth.weights","insynth.withdraw"]},"positionEncoding":"utf-16","textDocumentSync":{"change":2,"openClose":true}},"serverInfo":{"name":"insynthd"}}}"#;

/// Two sources that name each other, and a hole that sees their classes.
const TWO_SOURCES: [(&str, &str); 4] = [
    (
        r#"{"jsonrpc":"2.0","id":1,"method":"initialize","params":{"initializationOptions":{"limit":40}}}"#,
        INITIALIZED,
    ),
    (
        r#"{"jsonrpc":"2.0","id":2,"method":"workspace/executeCommand","params":{"command":"insynth.publish","arguments":[{"sources":["file:///A.java","file:///B.java"]}]}}"#,
        r#"{"id":2,"jsonrpc":"2.0","result":{"version":1}}"#,
    ),
    (
        r#"{"jsonrpc":"2.0","method":"textDocument/didOpen","params":{"textDocument":{"uri":"file:///U.java","text":"package p; class U { static void go(A a) { B r = "}}}"#,
        "",
    ),
    (
        r#"{"jsonrpc":"2.0","id":3,"method":"textDocument/completion","params":{"textDocument":{"uri":"file:///U.java"},"position":{"line":0,"character":49}}}"#,
        r#"{"id":3,"jsonrpc":"2.0","result":{"insynth":{"cursor":1,"from":0,"grown":2,"last":true,"version":1},"isIncomplete":false,"items":[{"detail":"25","label":"new B()","sortText":"0000000000","textEdit":{"newText":"new B()","range":{"end":{"character":49,"line":0},"start":{"character":49,"line":0}}}},{"detail":"30","label":"a.b()","sortText":"0000000001","textEdit":{"newText":"a.b()","range":{"end":{"character":49,"line":0},"start":{"character":49,"line":0}}}}]}}"#,
    ),
];

/// The same in the other order.
const OTHER_ORDER: [(&str, &str); 4] = [
    (
        r#"{"jsonrpc":"2.0","id":1,"method":"initialize","params":{"initializationOptions":{"limit":40}}}"#,
        INITIALIZED,
    ),
    (
        r#"{"jsonrpc":"2.0","id":2,"method":"workspace/executeCommand","params":{"command":"insynth.publish","arguments":[{"sources":["file:///B.java","file:///A.java"]}]}}"#,
        r#"{"id":2,"jsonrpc":"2.0","result":{"version":1}}"#,
    ),
    (
        r#"{"jsonrpc":"2.0","method":"textDocument/didOpen","params":{"textDocument":{"uri":"file:///U.java","text":"package p; class U { static void go(A a) { B r = "}}}"#,
        "",
    ),
    (
        r#"{"jsonrpc":"2.0","id":3,"method":"textDocument/completion","params":{"textDocument":{"uri":"file:///U.java"},"position":{"line":0,"character":49}}}"#,
        r#"{"id":3,"jsonrpc":"2.0","result":{"insynth":{"cursor":1,"from":0,"grown":2,"last":true,"version":1},"isIncomplete":false,"items":[{"detail":"25","label":"new B()","sortText":"0000000000","textEdit":{"newText":"new B()","range":{"end":{"character":49,"line":0},"start":{"character":49,"line":0}}}},{"detail":"30","label":"a.b()","sortText":"0000000001","textEdit":{"newText":"a.b()","range":{"end":{"character":49,"line":0},"start":{"character":49,"line":0}}}}]}}"#,
    ),
];

/// Two class files with the summaries of the two sources.
const TWO_CLASS_FILES: (&str, &str) = (
    r#"{"jsonrpc":"2.0","id":2,"method":"workspace/executeCommand","params":{"command":"insynth.publish","arguments":[{"put":["file:///pA.class","file:///pB.class"]}]}}"#,
    r#"{"id":2,"jsonrpc":"2.0","result":{"version":1}}"#,
);

/// A name means a known class, which isn't published.
const KNOWN: [(&str, &str); 4] = [
    (
        r#"{"jsonrpc":"2.0","id":1,"method":"initialize","params":{"initializationOptions":{"limit":40}}}"#,
        INITIALIZED,
    ),
    (
        r#"{"jsonrpc":"2.0","id":2,"method":"workspace/executeCommand","params":{"command":"insynth.publish","arguments":[{"sources":["file:///X.java"],"known":["q/N"]}]}}"#,
        r#"{"id":2,"jsonrpc":"2.0","result":{"version":1}}"#,
    ),
    (
        r#"{"jsonrpc":"2.0","method":"textDocument/didOpen","params":{"textDocument":{"uri":"file:///U.java","text":"class U { static void go() { q.N r = "}}}"#,
        "",
    ),
    (
        r#"{"jsonrpc":"2.0","id":3,"method":"textDocument/completion","params":{"textDocument":{"uri":"file:///U.java"},"position":{"line":0,"character":37}}}"#,
        r#"{"id":3,"jsonrpc":"2.0","result":{"insynth":{"cursor":1,"from":0,"grown":1,"last":true,"version":1},"isIncomplete":false,"items":[{"detail":"25","label":"X.n","sortText":"0000000000","textEdit":{"newText":"X.n","range":{"end":{"character":37,"line":0},"start":{"character":37,"line":0}}}}]}}"#,
    ),
];

/// Without `known` the name means a class of the own package, whatever stands in an earlier version.
const NOT_KNOWN: [(&str, &str); 5] = [
    (
        r#"{"jsonrpc":"2.0","id":1,"method":"initialize","params":{"initializationOptions":{"limit":40}}}"#,
        INITIALIZED,
    ),
    (
        r#"{"jsonrpc":"2.0","id":2,"method":"workspace/executeCommand","params":{"command":"insynth.publish","arguments":[{"sources":["file:///N.java"]}]}}"#,
        r#"{"id":2,"jsonrpc":"2.0","result":{"version":1}}"#,
    ),
    (
        r#"{"jsonrpc":"2.0","id":3,"method":"workspace/executeCommand","params":{"command":"insynth.publish","arguments":[{"sources":["file:///X.java"]}]}}"#,
        r#"{"id":3,"jsonrpc":"2.0","result":{"version":2}}"#,
    ),
    (
        r#"{"jsonrpc":"2.0","method":"textDocument/didOpen","params":{"textDocument":{"uri":"file:///U.java","text":"class U { static void go() { q.N r = "}}}"#,
        "",
    ),
    (
        r#"{"jsonrpc":"2.0","id":4,"method":"textDocument/completion","params":{"textDocument":{"uri":"file:///U.java"},"position":{"line":0,"character":37}}}"#,
        r#"{"id":4,"jsonrpc":"2.0","result":{"insynth":{"cursor":1,"from":0,"grown":0,"last":true,"version":2},"isIncomplete":false,"items":[]}}"#,
    ),
];

/// Files that give nothing, by their numbers through class files and then sources; none of them makes a version.
const FILES_TOLD: [(&str, &str); 11] = [
    (
        r#"{"jsonrpc":"2.0","id":1,"method":"initialize","params":{"initializationOptions":{"limit":40}}}"#,
        INITIALIZED,
    ),
    (
        r#"{"jsonrpc":"2.0","id":2,"method":"workspace/executeCommand","params":{"command":"insynth.publish","arguments":[{"sources":["file:///A.java","file:///FF.java"]}]}}"#,
        r#"{"error":{"code":-32602,"data":{"cause":21,"index":1},"message":"invalid params"},"id":2,"jsonrpc":"2.0"}"#,
    ),
    (
        r#"{"jsonrpc":"2.0","id":3,"method":"workspace/executeCommand","params":{"command":"insynth.publish","arguments":[{"put":["file:///none.class"],"sources":["file:///A.java"]}]}}"#,
        r#"{"error":{"code":-32602,"data":{"cause":9,"index":0},"message":"invalid params"},"id":3,"jsonrpc":"2.0"}"#,
    ),
    (
        r#"{"jsonrpc":"2.0","id":4,"method":"workspace/executeCommand","params":{"command":"insynth.publish","arguments":[{"put":["file:///A.class"],"sources":["file:///FF.java"]}]}}"#,
        r#"{"error":{"code":-32602,"data":{"cause":21,"index":1},"message":"invalid params"},"id":4,"jsonrpc":"2.0"}"#,
    ),
    (
        r#"{"jsonrpc":"2.0","id":5,"method":"workspace/executeCommand","params":{"command":"insynth.publish","arguments":[{"put":["file:///A.class"],"sources":["file:///A.java","file:///gone.java"]}]}}"#,
        r#"{"error":{"code":-32602,"data":{"cause":9,"index":2},"message":"invalid params"},"id":5,"jsonrpc":"2.0"}"#,
    ),
    (
        r#"{"jsonrpc":"2.0","id":6,"method":"workspace/executeCommand","params":{"command":"insynth.publish","arguments":[{"sources":["file:///FF.java","file:///gone.java"]}]}}"#,
        r#"{"error":{"code":-32602,"data":{"cause":21,"index":0},"message":"invalid params"},"id":6,"jsonrpc":"2.0"}"#,
    ),
    (
        r#"{"jsonrpc":"2.0","id":7,"method":"workspace/executeCommand","params":{"command":"insynth.publish","arguments":[{"put":["file:///A.class","file:///cut.class"],"sources":["file:///FF.java"]}]}}"#,
        r#"{"error":{"code":-32602,"data":{"at":4,"cause":11,"class":1,"index":1},"message":"invalid params"},"id":7,"jsonrpc":"2.0"}"#,
    ),
    (
        r#"{"jsonrpc":"2.0","id":8,"method":"workspace/executeCommand","params":{"command":"insynth.publish","arguments":[{"put":["file:///A.class"],"sources":["file:///A.java","x"]}]}}"#,
        r#"{"error":{"code":-32602,"data":{"cause":8,"index":2},"message":"invalid params"},"id":8,"jsonrpc":"2.0"}"#,
    ),
    (
        r#"{"jsonrpc":"2.0","id":9,"method":"workspace/executeCommand","params":{"command":"insynth.publish","arguments":[{"sources":["file:///gone.java"],"known":["a/B","a.b"]}]}}"#,
        r#"{"error":{"code":-32602,"data":{"cause":22,"index":1},"message":"invalid params"},"id":9,"jsonrpc":"2.0"}"#,
    ),
    (
        r#"{"jsonrpc":"2.0","id":10,"method":"workspace/executeCommand","params":{"command":"insynth.publish","arguments":[{"sources":["file:///C.java","file:///D.java"]}]}}"#,
        r#"{"error":{"code":-32602,"data":{"cause":14,"index":0,"name":"p/C"},"message":"invalid params"},"id":10,"jsonrpc":"2.0"}"#,
    ),
    (
        r#"{"jsonrpc":"2.0","id":11,"method":"workspace/executeCommand","params":{"command":"insynth.publish","arguments":[{"sources":["file:///none.java"]}]}}"#,
        r#"{"id":11,"jsonrpc":"2.0","result":{"version":1}}"#,
    ),
];

/// A source's class replaces one of a class file, and a later source's one of an earlier; a private field isn't offered.
const PUT_FIRST: [(&str, &str); 6] = [
    (
        r#"{"jsonrpc":"2.0","id":1,"method":"initialize","params":{"initializationOptions":{"limit":40}}}"#,
        INITIALIZED,
    ),
    (
        r#"{"jsonrpc":"2.0","id":2,"method":"workspace/executeCommand","params":{"command":"insynth.publish","arguments":[{"sources":["file:///T.java"],"put":["file:///A.class"]}]}}"#,
        r#"{"id":2,"jsonrpc":"2.0","result":{"version":1}}"#,
    ),
    (
        r#"{"jsonrpc":"2.0","method":"textDocument/didOpen","params":{"textDocument":{"uri":"file:///U.java","text":"class U { static void go(A a) { int r = "}}}"#,
        "",
    ),
    (
        r#"{"jsonrpc":"2.0","id":3,"method":"textDocument/completion","params":{"textDocument":{"uri":"file:///U.java"},"position":{"line":0,"character":40}}}"#,
        r#"{"id":3,"jsonrpc":"2.0","result":{"insynth":{"cursor":1,"from":0,"grown":1,"last":true,"version":1},"isIncomplete":false,"items":[{"detail":"30","label":"a.x","sortText":"0000000000","textEdit":{"newText":"a.x","range":{"end":{"character":40,"line":0},"start":{"character":40,"line":0}}}}]}}"#,
    ),
    (
        r#"{"jsonrpc":"2.0","id":4,"method":"workspace/executeCommand","params":{"command":"insynth.publish","arguments":[{"sources":["file:///T.java","file:///T2.java"]}]}}"#,
        r#"{"id":4,"jsonrpc":"2.0","result":{"version":2}}"#,
    ),
    (
        r#"{"jsonrpc":"2.0","id":5,"method":"textDocument/completion","params":{"textDocument":{"uri":"file:///U.java"},"position":{"line":0,"character":40}}}"#,
        r#"{"id":5,"jsonrpc":"2.0","result":{"insynth":{"cursor":2,"from":0,"grown":1,"last":true,"version":2},"isIncomplete":false,"items":[{"detail":"30","label":"a.z","sortText":"0000000000","textEdit":{"newText":"a.z","range":{"end":{"character":40,"line":0},"start":{"character":40,"line":0}}}}]}}"#,
    ),
];

/// A source names a class of a class file.
const SOURCE_OVER_CLASS: [(&str, &str); 4] = [
    (
        r#"{"jsonrpc":"2.0","id":1,"method":"initialize","params":{"initializationOptions":{"limit":40}}}"#,
        INITIALIZED,
    ),
    (
        r#"{"jsonrpc":"2.0","id":2,"method":"workspace/executeCommand","params":{"command":"insynth.publish","arguments":[{"put":["file:///A.class"],"sources":["file:///UseA.java"]}]}}"#,
        r#"{"id":2,"jsonrpc":"2.0","result":{"version":1}}"#,
    ),
    (
        r#"{"jsonrpc":"2.0","method":"textDocument/didOpen","params":{"textDocument":{"uri":"file:///U.java","text":"class U { static void go(V v) { A r = "}}}"#,
        "",
    ),
    (
        r#"{"jsonrpc":"2.0","id":3,"method":"textDocument/completion","params":{"textDocument":{"uri":"file:///U.java"},"position":{"line":0,"character":38}}}"#,
        r#"{"id":3,"jsonrpc":"2.0","result":{"insynth":{"cursor":1,"from":0,"grown":1,"last":true,"version":1},"isIncomplete":false,"items":[{"detail":"30","label":"v.a","sortText":"0000000000","textEdit":{"newText":"v.a","range":{"end":{"character":38,"line":0},"start":{"character":38,"line":0}}}}]}}"#,
    ),
];

/// A byte order mark hides the package.
const BYTE_ORDER_MARK: [(&str, &str); 4] = [
    (
        r#"{"jsonrpc":"2.0","id":1,"method":"initialize","params":{"initializationOptions":{"limit":40}}}"#,
        INITIALIZED,
    ),
    (
        r#"{"jsonrpc":"2.0","id":2,"method":"workspace/executeCommand","params":{"command":"insynth.publish","arguments":[{"sources":["file:///BOM.java"]}]}}"#,
        r#"{"id":2,"jsonrpc":"2.0","result":{"version":1}}"#,
    ),
    (
        r#"{"jsonrpc":"2.0","method":"textDocument/didOpen","params":{"textDocument":{"uri":"file:///U.java","text":"class U { static void go() { B r = "}}}"#,
        "",
    ),
    (
        r#"{"jsonrpc":"2.0","id":3,"method":"textDocument/completion","params":{"textDocument":{"uri":"file:///U.java"},"position":{"line":0,"character":35}}}"#,
        r#"{"id":3,"jsonrpc":"2.0","result":{"insynth":{"cursor":1,"from":0,"grown":1,"last":true,"version":1},"isIncomplete":false,"items":[{"detail":"25","label":"new B()","sortText":"0000000000","textEdit":{"newText":"new B()","range":{"end":{"character":35,"line":0},"start":{"character":35,"line":0}}}}]}}"#,
    ),
];

/// Of two classes of one name in one text the later one counts.
const TWICE_IN_ONE: [(&str, &str); 4] = [
    (
        r#"{"jsonrpc":"2.0","id":1,"method":"initialize","params":{"initializationOptions":{"limit":40}}}"#,
        INITIALIZED,
    ),
    (
        r#"{"jsonrpc":"2.0","id":2,"method":"workspace/executeCommand","params":{"command":"insynth.publish","arguments":[{"sources":["file:///Two.java"]}]}}"#,
        r#"{"id":2,"jsonrpc":"2.0","result":{"version":1}}"#,
    ),
    (
        r#"{"jsonrpc":"2.0","method":"textDocument/didOpen","params":{"textDocument":{"uri":"file:///U.java","text":"class U { static void go(A a) { int r = "}}}"#,
        "",
    ),
    (
        r#"{"jsonrpc":"2.0","id":3,"method":"textDocument/completion","params":{"textDocument":{"uri":"file:///U.java"},"position":{"line":0,"character":40}}}"#,
        r#"{"id":3,"jsonrpc":"2.0","result":{"insynth":{"cursor":1,"from":0,"grown":1,"last":true,"version":1},"isIncomplete":false,"items":[{"detail":"30","label":"a.y","sortText":"0000000000","textEdit":{"newText":"a.y","range":{"end":{"character":40,"line":0},"start":{"character":40,"line":0}}}}]}}"#,
    ),
];

/// A package is its words, however they are set apart.
const TWO_SPELLINGS: [(&str, &str); 4] = [
    (
        r#"{"jsonrpc":"2.0","id":1,"method":"initialize","params":{"initializationOptions":{"limit":40}}}"#,
        INITIALIZED,
    ),
    (
        r#"{"jsonrpc":"2.0","id":2,"method":"workspace/executeCommand","params":{"command":"insynth.publish","arguments":[{"sources":["file:///P.java","file:///Q.java"]}]}}"#,
        r#"{"id":2,"jsonrpc":"2.0","result":{"version":1}}"#,
    ),
    (
        r#"{"jsonrpc":"2.0","method":"textDocument/didOpen","params":{"textDocument":{"uri":"file:///U.java","text":"package p.q; class U { static void go() { Q r = "}}}"#,
        "",
    ),
    (
        r#"{"jsonrpc":"2.0","id":3,"method":"textDocument/completion","params":{"textDocument":{"uri":"file:///U.java"},"position":{"line":0,"character":48}}}"#,
        r#"{"id":3,"jsonrpc":"2.0","result":{"insynth":{"cursor":1,"from":0,"grown":1,"last":true,"version":1},"isIncomplete":false,"items":[{"detail":"25","label":"P.q","sortText":"0000000000","textEdit":{"newText":"P.q","range":{"end":{"character":48,"line":0},"start":{"character":48,"line":0}}}}]}}"#,
    ),
];

/// Names of known classes may begin or end with a `$`.
const DOLLAR_ENDS: [(&str, &str); 4] = [
    (
        r#"{"jsonrpc":"2.0","id":1,"method":"initialize","params":{"initializationOptions":{"limit":40}}}"#,
        INITIALIZED,
    ),
    (
        r#"{"jsonrpc":"2.0","id":2,"method":"workspace/executeCommand","params":{"command":"insynth.publish","arguments":[{"sources":["file:///Ends.java"],"known":["q/O","q/O$","q/$N"]}]}}"#,
        r#"{"id":2,"jsonrpc":"2.0","result":{"version":1}}"#,
    ),
    (
        r#"{"jsonrpc":"2.0","method":"textDocument/didOpen","params":{"textDocument":{"uri":"file:///U.java","text":"class U { static void go() { q.$N r = "}}}"#,
        "",
    ),
    (
        r#"{"jsonrpc":"2.0","id":3,"method":"textDocument/completion","params":{"textDocument":{"uri":"file:///U.java"},"position":{"line":0,"character":38}}}"#,
        r#"{"id":3,"jsonrpc":"2.0","result":{"insynth":{"cursor":1,"from":0,"grown":1,"last":true,"version":1},"isIncomplete":false,"items":[{"detail":"25","label":"X.m","sortText":"0000000000","textEdit":{"newText":"X.m","range":{"end":{"character":38,"line":0},"start":{"character":38,"line":0}}}}]}}"#,
    ),
];

/// The third load fails, and later ones don't.
const READ_FAULT: [(&str, &str); 3] = [
    (
        r#"{"jsonrpc":"2.0","id":1,"method":"initialize","params":{"initializationOptions":{"limit":40}}}"#,
        INITIALIZED,
    ),
    (
        r#"{"jsonrpc":"2.0","id":2,"method":"workspace/executeCommand","params":{"command":"insynth.publish","arguments":[{"put":["file:///A.class"],"sources":["file:///A.java","file:///B.java"]}]}}"#,
        r#"{"error":{"code":-32803,"data":{"index":2},"message":"read fault"},"id":2,"jsonrpc":"2.0"}"#,
    ),
    (
        r#"{"jsonrpc":"2.0","id":3,"method":"workspace/executeCommand","params":{"command":"insynth.publish","arguments":[{"sources":["file:///A.java","file:///B.java"]}]}}"#,
        r#"{"id":3,"jsonrpc":"2.0","result":{"version":1}}"#,
    ),
];

/// A source of one byte more than is read.
const TOO_LONG: [(&str, &str); 3] = [
    (
        r#"{"jsonrpc":"2.0","id":1,"method":"initialize","params":{"initializationOptions":{"limit":40}}}"#,
        INITIALIZED,
    ),
    (
        r#"{"jsonrpc":"2.0","id":2,"method":"workspace/executeCommand","params":{"command":"insynth.publish","arguments":[{"put":["file:///A.class"],"sources":["file:///huge.java"]}]}}"#,
        r#"{"error":{"code":-32602,"data":{"cause":10,"index":1},"message":"invalid params"},"id":2,"jsonrpc":"2.0"}"#,
    ),
    (
        r#"{"jsonrpc":"2.0","id":3,"method":"workspace/executeCommand","params":{"command":"insynth.publish","arguments":[{"sources":["file:///A.java"]}]}}"#,
        r#"{"id":3,"jsonrpc":"2.0","result":{"version":1}}"#,
    ),
];

/// A shelf with the files, whose loads fail by the plan.
fn shelf(alloc: Global, plan: FaultPlan) -> Result<MemShelf, AllocError> {
    let mut files = Items::new(alloc);
    for (name, bytes) in &FILES {
        files.push(file(alloc, name, bytes)?)?;
    }
    Ok(MemShelf::new(files, plan))
}

/// How many of these messages a new session answers as they say, where loads fail by the plan.
fn told_by<R: Threads + Wait + Sync>(
    rt: &R,
    alloc: Global,
    plan: FaultPlan,
    messages: &[(&str, &str)],
) -> Result<usize, AllocError> {
    let mut world = MemWorld::new(rt, alloc, shelf(alloc, plan)?)?;
    told(rt, alloc, &mut world, messages)
}

#[test]
fn two_sources_name_each_other(rt: HostRuntime) -> Result<(), Fail> {
    let plan = FaultPlan::none(rt.alloc());
    assert_eq!(rt;
        told_by(&rt, rt.alloc(), plan, &TWO_SOURCES)?,
        TWO_SOURCES.len()
    );
    Ok(())
}

#[test]
fn the_order_of_sources_plays_no_part(rt: HostRuntime) -> Result<(), Fail> {
    let plan = FaultPlan::none(rt.alloc());
    assert_eq!(rt;
        told_by(&rt, rt.alloc(), plan, &OTHER_ORDER)?,
        OTHER_ORDER.len()
    );
    Ok(())
}

#[test]
fn class_files_of_the_same_classes_give_the_same_items(rt: HostRuntime) -> Result<(), Fail> {
    let plan = FaultPlan::none(rt.alloc());
    let messages = [
        TWO_SOURCES[0],
        TWO_CLASS_FILES,
        TWO_SOURCES[2],
        TWO_SOURCES[3],
    ];
    assert_eq!(rt; told_by(&rt, rt.alloc(), plan, &messages)?, messages.len());
    Ok(())
}

#[test]
fn a_name_means_a_known_class(rt: HostRuntime) -> Result<(), Fail> {
    let plan = FaultPlan::none(rt.alloc());
    assert_eq!(rt; told_by(&rt, rt.alloc(), plan, &KNOWN)?, KNOWN.len());
    Ok(())
}

#[test]
fn no_version_is_read(rt: HostRuntime) -> Result<(), Fail> {
    let plan = FaultPlan::none(rt.alloc());
    assert_eq!(rt;
        told_by(&rt, rt.alloc(), plan, &NOT_KNOWN)?,
        NOT_KNOWN.len()
    );
    Ok(())
}

#[test]
fn source_files_are_refused_at_their_numbers(rt: HostRuntime) -> Result<(), Fail> {
    let plan = FaultPlan::none(rt.alloc());
    assert_eq!(rt;
        told_by(&rt, rt.alloc(), plan, &FILES_TOLD)?,
        FILES_TOLD.len()
    );
    Ok(())
}

#[test]
fn classes_of_class_files_come_first(rt: HostRuntime) -> Result<(), Fail> {
    let plan = FaultPlan::none(rt.alloc());
    assert_eq!(rt;
        told_by(&rt, rt.alloc(), plan, &PUT_FIRST)?,
        PUT_FIRST.len()
    );
    Ok(())
}

#[test]
fn a_source_names_a_class_of_a_class_file(rt: HostRuntime) -> Result<(), Fail> {
    let plan = FaultPlan::none(rt.alloc());
    assert_eq!(rt;
        told_by(&rt, rt.alloc(), plan, &SOURCE_OVER_CLASS)?,
        SOURCE_OVER_CLASS.len()
    );
    Ok(())
}

#[test]
fn a_byte_order_mark_hides_the_package(rt: HostRuntime) -> Result<(), Fail> {
    let plan = FaultPlan::none(rt.alloc());
    assert_eq!(rt;
        told_by(&rt, rt.alloc(), plan, &BYTE_ORDER_MARK)?,
        BYTE_ORDER_MARK.len()
    );
    Ok(())
}

#[test]
fn classes_are_told_by_their_names(rt: HostRuntime) -> Result<(), Fail> {
    for messages in [TWICE_IN_ONE, TWO_SPELLINGS, DOLLAR_ENDS] {
        let plan = FaultPlan::none(rt.alloc());
        assert_eq!(rt; told_by(&rt, rt.alloc(), plan, &messages)?, messages.len());
    }
    Ok(())
}

#[test]
fn a_load_of_a_source_may_fail(rt: HostRuntime) -> Result<(), Fail> {
    let plan = FaultPlan::new(Items::from_slice(rt.alloc(), &[3])?);
    assert_eq!(rt; told_by(&rt, rt.alloc(), plan, &READ_FAULT)?, 3);
    Ok(())
}

/// No source is loaded after the one that is answered, and none twice.
#[test]
fn each_source_is_loaded_once(rt: HostRuntime) -> Result<(), Fail> {
    let shelf = shelf(rt.alloc(), FaultPlan::none(rt.alloc()))?;
    let mut world = MemWorld::new(&rt, rt.alloc(), shelf)?;
    assert_eq!(rt; told(&rt, rt.alloc(), &mut world, &FILES_TOLD)?, 11);
    assert_eq!(rt; world.shelf.plan.calls, 14);
    Ok(())
}

#[test]
fn a_source_may_be_too_long(rt: HostRuntime) -> Result<(), Fail> {
    let mut shelf = shelf(rt.alloc(), FaultPlan::none(rt.alloc()))?;
    let huge = vec![in rt.alloc(); b' '; LONGEST_LOAD + 1]?;
    shelf
        .files
        .push(file(rt.alloc(), "/huge.java", huge.as_slice())?)?;
    let mut world = MemWorld::new(&rt, rt.alloc(), shelf)?;
    assert_eq!(rt; told(&rt, rt.alloc(), &mut world, &TOO_LONG)?, 3);
    Ok(())
}
