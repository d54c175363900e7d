ghost use Rattle.std.specs.Prelude.{◌≡◌};
ghost use Rattle.version_board.specs.Versions.{IsVersion};

use lists::{Items, Text};
use outside::{HeldFile, SteadyShelf};
use sessions::{Hub, Outcome, RunningWorld, Session, World};
use std::alloc::{AllocError, Global};
use std::marker::Brand;
use std::sync::Wait;
use std::test::Fail;
use std::thread::Threads;
use version_board::{Naming, Opened, Pass, Snapshot, start_board};

// Bodies of messages.

const BY_THREE: &str =
    r#"{"jsonrpc":"2.0","id":1,"method":"initialize","params":{"initializationOptions":{"count":3}}}"#;

const DEMO: &str =
    r#"{"jsonrpc":"2.0","method":"textDocument/didOpen","params":{"textDocument":{"uri":"file:///Demo.java","languageId":"java","version":1,"text":"import java.io.*;\nclass Demo {\n  static void go(String name) {\n    Reader r = \n  }\n}\n"}}}"#;

const AFTER_READER: &str =
    r#"{"jsonrpc":"2.0","id":2,"method":"textDocument/completion","params":{"textDocument":{"uri":"file:///Demo.java"},"position":{"line":3,"character":15}}}"#;

const NEXT_THREE: &str =
    r#"{"jsonrpc":"2.0","id":3,"method":"workspace/executeCommand","params":{"command":"insynth.page","arguments":[{"cursor":1,"count":3}]}}"#;

const PUT_A: &str =
    r#"{"jsonrpc":"2.0","id":3,"method":"workspace/executeCommand","params":{"command":"insynth.publish","arguments":[{"put":["file:///A.class"]}]}}"#;

const REMOVE: &str =
    r#"{"jsonrpc":"2.0","id":3,"method":"workspace/executeCommand","params":{"command":"insynth.publish","arguments":[{"remove":["java/io/FileReader"]}]}}"#;

const WITHDRAW: &str =
    r#"{"jsonrpc":"2.0","id":4,"method":"workspace/executeCommand","params":{"command":"insynth.withdraw","arguments":[{"through":1}]}}"#;

const INITIALIZE: &str = r#"{"jsonrpc":"2.0","id":1,"method":"initialize","params":{}}"#;

const PUT_READERS: &str =
    r#"{"jsonrpc":"2.0","id":3,"method":"workspace/executeCommand","params":{"command":"insynth.publish","arguments":[{"put":["file:///Reader.class","file:///FileReader.class","file:///BufferedReader.class"]}]}}"#;

const CAPABILITIES: (&str, &str) = (
    r#"{"id":1,"jsonrpc":"2.0","result":{"capabilities":{"completionProvider":{},"executeCommandProvider":{"commands":["insynth.close","insynth.explain","insynth.page","insynth.publish","insynth.weights","insynth.withdraw"]},"positionEncoding":"utf-16","textDocumentSync":{"change":2,"openClose":true}},"serverInfo":{"name":"insynthd"}}}"#,
    "",
);

const VERSION_2: (&str, &str) = (r#"{"id":3,"jsonrpc":"2.0","result":{"version":2}}"#, "");

const VERSION_3: (&str, &str) = (r#"{"id":4,"jsonrpc":"2.0","result":{"version":3}}"#, "");

const WITHDRAWN: (&str, &str) = (
    r#"{"error":{"code":-32801,"data":{"number":3,"version":1},"message":"version withdrawn"},"id":3,"jsonrpc":"2.0"}"#,
    "",
);

const VERSION_1: (&str, &str) = (r#"{"id":3,"jsonrpc":"2.0","result":{"version":1}}"#, "");

const SIX: (&str, &str) = (
    r#"{"id":2,"jsonrpc":"2.0","result":{"insynth":{"cursor":1,"from":0,"grown":"#,
    r#","last":true,"version":1},"isIncomplete":false,"items":[{"detail":"1015","label":"new FileReader(name)","sortText":"0000000000","textEdit":{"newText":"new FileReader(name)","range":{"end":{"character":15,"line":3},"start":{"character":15,"line":3}}}},{"detail":"1210","label":"new FileReader(\"\")","sortText":"0000000001","textEdit":{"newText":"new FileReader(\"\")","range":{"end":{"character":15,"line":3},"start":{"character":15,"line":3}}}},{"detail":"2025","label":"new BufferedReader(new FileReader(name))","sortText":"0000000002","textEdit":{"newText":"new BufferedReader(new FileReader(name))","range":{"end":{"character":15,"line":3},"start":{"character":15,"line":3}}}},{"detail":"2220","label":"new BufferedReader(new FileReader(\"\"))","sortText":"0000000003","textEdit":{"newText":"new BufferedReader(new FileReader(\"\"))","range":{"end":{"character":15,"line":3},"start":{"character":15,"line":3}}}},{"detail":"3035","label":"new BufferedReader(new BufferedReader(new FileReader(name)))","sortText":"0000000004","textEdit":{"newText":"new BufferedReader(new BufferedReader(new FileReader(name)))","range":{"end":{"character":15,"line":3},"start":{"character":15,"line":3}}}},{"detail":"3230","label":"new BufferedReader(new BufferedReader(new FileReader(\"\")))","sortText":"0000000005","textEdit":{"newText":"new BufferedReader(new BufferedReader(new FileReader(\"\")))","range":{"end":{"character":15,"line":3},"start":{"character":15,"line":3}}}}]}}"#,
);

const SIX_IN_VERSION_2: (&str, &str) = (
    r#"{"id":2,"jsonrpc":"2.0","result":{"insynth":{"cursor":1,"from":0,"grown":"#,
    r#","last":true,"version":2},"isIncomplete":false,"items":[{"detail":"1015","label":"new FileReader(name)","sortText":"0000000000","textEdit":{"newText":"new FileReader(name)","range":{"end":{"character":15,"line":3},"start":{"character":15,"line":3}}}},{"detail":"1210","label":"new FileReader(\"\")","sortText":"0000000001","textEdit":{"newText":"new FileReader(\"\")","range":{"end":{"character":15,"line":3},"start":{"character":15,"line":3}}}},{"detail":"2025","label":"new BufferedReader(new FileReader(name))","sortText":"0000000002","textEdit":{"newText":"new BufferedReader(new FileReader(name))","range":{"end":{"character":15,"line":3},"start":{"character":15,"line":3}}}},{"detail":"2220","label":"new BufferedReader(new FileReader(\"\"))","sortText":"0000000003","textEdit":{"newText":"new BufferedReader(new FileReader(\"\"))","range":{"end":{"character":15,"line":3},"start":{"character":15,"line":3}}}},{"detail":"3035","label":"new BufferedReader(new BufferedReader(new FileReader(name)))","sortText":"0000000004","textEdit":{"newText":"new BufferedReader(new BufferedReader(new FileReader(name)))","range":{"end":{"character":15,"line":3},"start":{"character":15,"line":3}}}},{"detail":"3230","label":"new BufferedReader(new BufferedReader(new FileReader(\"\")))","sortText":"0000000005","textEdit":{"newText":"new BufferedReader(new BufferedReader(new FileReader(\"\")))","range":{"end":{"character":15,"line":3},"start":{"character":15,"line":3}}}}]}}"#,
);

const THREE: (&str, &str) = (
    r#"{"id":2,"jsonrpc":"2.0","result":{"insynth":{"cursor":1,"from":0,"grown":"#,
    r#","last":false,"version":1},"isIncomplete":true,"items":[{"detail":"1015","label":"new FileReader(name)","sortText":"0000000000","textEdit":{"newText":"new FileReader(name)","range":{"end":{"character":15,"line":3},"start":{"character":15,"line":3}}}},{"detail":"1210","label":"new FileReader(\"\")","sortText":"0000000001","textEdit":{"newText":"new FileReader(\"\")","range":{"end":{"character":15,"line":3},"start":{"character":15,"line":3}}}},{"detail":"2025","label":"new BufferedReader(new FileReader(name))","sortText":"0000000002","textEdit":{"newText":"new BufferedReader(new FileReader(name))","range":{"end":{"character":15,"line":3},"start":{"character":15,"line":3}}}}]}}"#,
);

const OTHER_THREE: (&str, &str) = (
    r#"{"id":3,"jsonrpc":"2.0","result":{"insynth":{"cursor":1,"from":3,"grown":"#,
    r#","last":true,"version":1},"isIncomplete":false,"items":[{"detail":"2220","label":"new BufferedReader(new FileReader(\"\"))","sortText":"0000000003","textEdit":{"newText":"new BufferedReader(new FileReader(\"\"))","range":{"end":{"character":15,"line":3},"start":{"character":15,"line":3}}}},{"detail":"3035","label":"new BufferedReader(new BufferedReader(new FileReader(name)))","sortText":"0000000004","textEdit":{"newText":"new BufferedReader(new BufferedReader(new FileReader(name)))","range":{"end":{"character":15,"line":3},"start":{"character":15,"line":3}}}},{"detail":"3230","label":"new BufferedReader(new BufferedReader(new FileReader(\"\")))","sortText":"0000000005","textEdit":{"newText":"new BufferedReader(new BufferedReader(new FileReader(\"\")))","range":{"end":{"character":15,"line":3},"start":{"character":15,"line":3}}}}]}}"#,
);

const FILES: [(&str, &[u8]); 4] = [
    (
        "/Reader.class",
        b"\xCA\xFE\xBA\xBE\0\0\04\0\x05\x07\0\x02\x01\0\x0Ejava/io/Reader\x07\0\x04\x01\0\x10java/lang/Object\x04!\0\x01\0\x03\0\0\0\0\0\0\0\0",
    ),
    (
        "/FileReader.class",
        b"\xCA\xFE\xBA\xBE\0\0\04\0\x07\x07\0\x02\x01\0\x12java/io/FileReader\x07\0\x04\x01\0\x0Ejava/io/Reader\x01\0\x06<init>\x01\0\x15(Ljava/lang/String;)V\0!\0\x01\0\x03\0\0\0\0\0\x01\0\x01\0\x05\0\x06\0\0\0\0",
    ),
    (
        "/BufferedReader.class",
        b"\xCA\xFE\xBA\xBE\0\0\04\0\x07\x07\0\x02\x01\0\x16java/io/BufferedReader\x07\0\x04\x01\0\x0Ejava/io/Reader\x01\0\x06<init>\x01\0\x13(Ljava/io/Reader;)V\0!\0\x01\0\x03\0\0\0\0\0\x01\0\x01\0\x05\0\x06\0\0\0\0",
    ),
    (
        "/A.class",
        b"\xCA\xFE\xBA\xBE\0\0\04\0\x05\x07\0\x02\x01\0\x01A\x07\0\x04\x01\0\x10java/lang/Object\0!\0\x01\0\x03\0\0\0\0\0\0\0\0",
    ),
];
/// A message of the first client or of the second, and what its reply begins and ends with: between them stands the number
/// of items that were found for it. Where there is no such number the end is empty; where there is no reply both are.
type Line<'a> = (bool, &'a str, (&'a str, &'a str));

const SILENCE: (&str, &str) = ("", "");

/// Whether a reply is the one of a line.
fn is_reply(reply: &[u8], wanted: (&str, &str)) -> bool {
    let Ok(text) = str::from_utf8(reply) else {
        return false;
    };
    if wanted.1.is_empty() {
        return text == wanted.0;
    }
    text.starts_with(wanted.0) && text.ends_with(wanted.1)
}

/// Whether an outcome is the one of a line.
fn is_outcome(outcome: &Outcome, wanted: (&str, &str)) -> bool {
    match outcome {
        Outcome::Reply(reply) => is_reply(reply.as_slice(), wanted),
        Outcome::Silent => wanted.0.is_empty(),
        _ => false,
    }
}

/// Whether a message is answered so after the text was opened once more.
fn is_answered_again<W: World>(
    rt: &(impl Threads + Sync),
    alloc: Global,
    session: &mut Session,
    world: &mut W,
    line: Line<'_>,
) -> Result<bool, AllocError> {
    let _opened = session.step(rt, alloc, DEMO.as_bytes(), world)?;
    let outcome = session.step(rt, alloc, line.1.as_bytes(), world)?;
    Ok(is_outcome(&outcome, line.2))
}

/// Whether a message is answered so, at once or again where memory was wanting.
fn is_answered<W: World>(
    rt: &(impl Threads + Sync),
    alloc: Global,
    session: &mut Session,
    world: &mut W,
    line: Line<'_>,
) -> Result<bool, AllocError> {
    match session.step(rt, alloc, line.1.as_bytes(), world) {
        Ok(Outcome::NoMemory(_)) => is_answered_again(rt, alloc, session, world, line),
        Ok(outcome) => Ok(is_outcome(&outcome, line.2)),
        Err(_) => is_answered_again(rt, alloc, session, world, line),
    }
}

/// The files that each client can load.
fn files(alloc: Global) -> Result<SteadyShelf, AllocError> {
    let mut files = Items::new(alloc);
    for (name, bytes) in &FILES {
        files.push(HeldFile {
            name: Text::from_str(alloc, name)?,
            bytes: Items::from_slice(alloc, bytes)?,
        })?;
    }
    Ok(SteadyShelf { files })
}

/// Whether two clients of a hub are answered so, line by line.
fn are_answered<J: Naming, R: Threads + Wait + Drop + Sync>(
    rt: &R,
    alloc: Global,
    hub: &Hub<J, R>,
    pass: Pass<J>,
    other_pass: Pass<J>,
    lines: &[Line<'_>],
) -> Result<bool, AllocError> {
    let mut world = RunningWorld {
        rt,
        hub,
        pass,
        shelf: files(alloc)?,
        ahead: None,
    };
    let mut other_world = RunningWorld {
        rt,
        hub,
        pass: other_pass,
        shelf: files(alloc)?,
        ahead: None,
    };
    let mut session = Session::new(alloc);
    let mut other = Session::new(alloc);
    for line in lines {
        let is_right = if line.0 {
            is_answered(rt, alloc, &mut session, &mut world, *line)?
        } else {
            is_answered(rt, alloc, &mut other, &mut other_world, *line)?
        };
        if !is_right {
            return Ok(false);
        }
    }
    Ok(true)
}

/// The same over a new board.
fn board_answers<J: Naming, R: Threads + Wait + Copy + Drop + Sync>(
    rt: R,
    alloc: Global,
    opened: Opened,
    first: Snapshot,
    lines: &[Line<'_>],
) -> Result<bool, AllocError>
    requires book { opened.seen.book ≡ J.book }
    requires first { IsVersion J.first first }
{
    let (publisher, mut passes) = start_board::<J, R>(rt, alloc, opened, first, 2)?;
    let hub = Hub::new(alloc, publisher);
    let Some(other) = passes.pop() else {
        return Ok(false);
    };
    let Some(pass) = passes.pop() else {
        return Ok(false);
    };
    are_answered(&rt, alloc, &hub, pass, other, lines)
}

/// The same from the version 0 on.
fn answers<R: Threads + Wait + Sync>(
    rt: &R,
    alloc: Global,
    lines: &[Line<'_>],
) -> Result<bool, AllocError> {
    let first = Snapshot::empty(alloc)?;
    board_answers::<Brand, &R>(rt, alloc, Opened::new(), first, lines)
}

#[test]
fn a_client_lists_the_readers_that_it_published(rt: HostRuntime) -> Result<(), Fail> {
    let lines = [
        (true, INITIALIZE, CAPABILITIES),
        (true, DEMO, SILENCE),
        (true, PUT_READERS, VERSION_1),
        (true, AFTER_READER, SIX),
    ];
    assert!(rt; answers(&rt, rt.alloc(), &lines)?);
    Ok(())
}

#[test]
fn a_list_is_of_the_version_that_the_other_client_made(rt: HostRuntime) -> Result<(), Fail> {
    let lines = [
        (true, INITIALIZE, CAPABILITIES),
        (false, INITIALIZE, CAPABILITIES),
        (false, DEMO, SILENCE),
        (true, PUT_READERS, VERSION_1),
        (true, PUT_A, VERSION_2),
        (false, AFTER_READER, SIX_IN_VERSION_2),
    ];
    assert!(rt; answers(&rt, rt.alloc(), &lines)?);
    Ok(())
}

#[test]
fn pages_are_of_their_version_until_it_is_withdrawn(rt: HostRuntime) -> Result<(), Fail> {
    let lines = [
        (true, BY_THREE, CAPABILITIES),
        (true, DEMO, SILENCE),
        (true, PUT_READERS, VERSION_1),
        (true, AFTER_READER, THREE),
        (false, INITIALIZE, CAPABILITIES),
        (false, REMOVE, VERSION_2),
        (true, NEXT_THREE, OTHER_THREE),
        (false, WITHDRAW, VERSION_3),
        (true, NEXT_THREE, WITHDRAWN),
    ];
    assert!(rt; answers(&rt, rt.alloc(), &lines)?);
    Ok(())
}
