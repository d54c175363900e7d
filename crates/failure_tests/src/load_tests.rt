// A publication of three class files of which one can't be loaded changes nothing, and is as good as new when it is
// asked for again.
use lists::{Items, Text};
use outside::{FaultPlan, HeldFile, MemShelf};
use sessions::{MemWorld, Outcome, Session, World};
use std::alloc::{AllocError, Global};
use std::sync::Wait;
use std::test::Fail;
use std::thread::Threads;

const INITIALIZE: &str = r#"{"jsonrpc":"2.0","id":1,"method":"initialize","params":{}}"#;

/// `public class A extends java/lang/Object`, without members.
pub(crate) const A: [u8; 53] = [
    0xCA, 0xFE, 0xBA, 0xBE, 0, 0, 0, 0x34, 0, 5, 7, 0, 2, 1, 0, 1, 0x41, 7, 0, 4, 1, 0, 0x10, 0x6A,
    0x61, 0x76, 0x61, 0x2F, 0x6C, 0x61, 0x6E, 0x67, 0x2F, 0x4F, 0x62, 0x6A, 0x65, 0x63, 0x74, 0,
    0x21, 0, 1, 0, 3, 0, 0, 0, 0, 0, 0, 0, 0,
];

/// The classes `B` and `C`, like `A`.
const B: &[u8] =
    b"\xCA\xFE\xBA\xBE\0\0\04\0\x05\x07\0\x02\x01\0\x01B\x07\0\x04\x01\0\x10java/lang/Object\0!\0\x01\0\x03\0\0\0\0\0\0\0\0";

const C: &[u8] =
    b"\xCA\xFE\xBA\xBE\0\0\04\0\x05\x07\0\x02\x01\0\x01C\x07\0\x04\x01\0\x10java/lang/Object\0!\0\x01\0\x03\0\0\0\0\0\0\0\0";

const PUBLISH: &str =
    r#"{"jsonrpc":"2.0","id":2,"method":"workspace/executeCommand","params":{"command":"insynth.publish","arguments":[{"put":["file:///A.class","file:///B.class","file:///C.class"]}]}}"#;

/// A withdrawal of the version 1, which is refused as long as there is none.
const WITHDRAW: &str =
    r#"{"jsonrpc":"2.0","id":3,"method":"workspace/executeCommand","params":{"command":"insynth.withdraw","arguments":[{"through":1}]}}"#;

/// The replies where the first, the second or the third file can't be loaded.
const FAULTS: [&str; 3] = [
    r#"{"error":{"code":-32803,"data":{"index":0},"message":"read fault"},"id":2,"jsonrpc":"2.0"}"#,
    r#"{"error":{"code":-32803,"data":{"index":1},"message":"read fault"},"id":2,"jsonrpc":"2.0"}"#,
    r#"{"error":{"code":-32803,"data":{"index":2},"message":"read fault"},"id":2,"jsonrpc":"2.0"}"#,
];

const NO_VERSION: &str =
    r#"{"error":{"code":-32602,"data":{"cause":16,"index":0,"number":1},"message":"invalid params"},"id":3,"jsonrpc":"2.0"}"#;

const VERSIONS: [&str; 2] = [
    r#"{"id":2,"jsonrpc":"2.0","result":{"version":1}}"#,
    r#"{"id":2,"jsonrpc":"2.0","result":{"version":2}}"#,
];

/// A file under its name.
type Named<'a> = (&'a str, &'a [u8]);

/// A shelf with these files, whose loads of these numbers fail.
fn shelf_with(alloc: Global, files: &[Named<'_>], failing: &[u64]) -> Result<MemShelf, AllocError> {
    let mut held = Items::new(alloc);
    for (name, bytes) in files {
        let name = Text::from_str(alloc, name)?;
        let bytes = Items::from_slice(alloc, bytes)?;
        held.push(HeldFile { name, bytes })?;
    }
    Ok(MemShelf::new(held, FaultPlan::new(Items::from_slice(alloc, failing)?)))
}

/// Whether a body is answered by this reply, or by none where that is empty.
fn is_answered<W: World>(
    rt: &(impl Threads + Sync),
    alloc: Global,
    session: &mut Session,
    world: &mut W,
    body: &str,
    reply: &str,
) -> Result<bool, AllocError> {
    match session.step(rt, alloc, body.as_bytes(), world)? {
        Outcome::Reply(told) => Ok(told.as_slice() == reply.as_bytes()),
        Outcome::Silent => Ok(reply.is_empty()),
        _ => Ok(false),
    }
}

/// Whether a session over the version 0 and these files answers each body so, one after the other, once it is initialized.
pub(crate) fn are_answered<R: Threads + Wait + Sync>(
    rt: &R,
    alloc: Global,
    files: &[Named<'_>],
    failing: &[u64],
    lines: &[(&str, &str)],
) -> Result<bool, AllocError> {
    let mut world = MemWorld::new(rt, alloc, shelf_with(alloc, files, failing)?)?;
    let mut session = Session::new(alloc);
    let _capabilities = session.step(rt, alloc, INITIALIZE.as_bytes(), &mut world)?;
    for (body, reply) in lines {
        if !is_answered(rt, alloc, &mut session, &mut world, body, reply)? {
            return Ok(false);
        }
    }
    Ok(true)
}

/// The load of this number fails, and the fourth one after it: the publication that succeeds between them loads all three
/// files again, and the next one begins with its first.
#[test]
fn each_load_fails_in_turn(rt: HostRuntime) -> Result<(), Fail> {
    let files: [Named<'_>; 3] = [("/A.class", &A), ("/B.class", B), ("/C.class", C)];
    for (load, fault) in [(1u64, FAULTS[0]), (2, FAULTS[1]), (3, FAULTS[2])] {
        let lines = [
            (PUBLISH, fault),
            (WITHDRAW, NO_VERSION),
            (PUBLISH, VERSIONS[0]),
            (PUBLISH, FAULTS[0]),
            (PUBLISH, VERSIONS[1]),
        ];
        let failing = [load, load.saturating_add(4)];
        assert!(rt; are_answered(&rt, rt.alloc(), &files, &failing, &lines)?);
    }
    Ok(())
}
