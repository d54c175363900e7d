ghost use Rattle.std.specs.Prelude.{◌≡◌, ◌≤◌};
ghost use Rattle.version_board.specs.Versions.{IsVersion};

use json_rpc::{Frames, write_frame};
use lists::Items;
use outside::{End, FaultPlan, MemShelf, MemSink, MemSource};
use sessions::{Client, Ended, Hub, Session, serve_client};
use std::alloc::{AllocError, Global};
use std::marker::Brand;
use std::sync::Wait;
use std::test::Fail;
use std::thread::Threads;
use version_board::{Naming, Opened, Snapshot, start_board};

const INITIALIZE: &str = r#"{"jsonrpc":"2.0","id":1,"method":"initialize","params":{}}"#;

const SHUTDOWN: &str = r#"{"jsonrpc":"2.0","id":2,"method":"shutdown"}"#;

const EXIT: &str = r#"{"jsonrpc":"2.0","method":"exit"}"#;

const COMPLETION: &str =
    r#"{"jsonrpc":"2.0","id":1,"method":"textDocument/completion","params":{}}"#;

const NULL: &str = r#"{"id":2,"jsonrpc":"2.0","result":null}"#;

const NO_JSON: &str =
    r#"{"error":{"code":-32700,"message":"parse error"},"id":null,"jsonrpc":"2.0"}"#;

const TOO_EARLY: &str =
    r#"{"error":{"code":-32002,"message":"not initialized"},"id":1,"jsonrpc":"2.0"}"#;

const CAPABILITIES: &str =
    r#"{"id":1,"jsonrpc":"2.0","result":{"capabilities":{"completionProvider":{},"executeCommandProvider":{"commands":["insynth.close","insynth.explain","insynth.page","insynth.publish","insynth.weights","insynth.withdraw"]},"positionEncoding":"utf-16","textDocumentSync":{"change":2,"openClose":true}},"serverInfo":{"name":"insynthd"}}}"#;

/// What a client is left with: its status, and the bytes that were written.
#[derive(Drop)]
pub(crate) struct Left {
    pub(crate) ended: Ended,
    pub(crate) output: Vec<u8>,
}

/// A session from a version on, over a board of its own, without files.
pub(crate) fn serve_from<J: Naming, R: Threads + Wait + Drop + Copy + Sync>(
    rt: R,
    alloc: Global,
    opened: Opened,
    first: Snapshot,
    source: MemSource<'_>,
    sink: MemSink,
) -> Result<Left, AllocError>
    requires book { opened.seen.book ≡ J.book }
    requires first { IsVersion J.first first }
{
    let (publisher, mut passes) = start_board::<J, R>(rt, alloc, opened, first, 1)?;
    let hub = Hub::new(alloc, publisher);
    let client = Client {
        end: End {
            source,
            sink,
            shelf: MemShelf::new(Items::new(alloc), FaultPlan::none(alloc)),
        },
        session: Session::new(alloc),
        frames: Frames::new(alloc),
        pass: passes.pop().unwrap(),
        ahead: None,
    };
    let (client, ended) = serve_client(&rt, alloc, &hub, client);
    let output = client.end.sink.bytes.as_slice().to_vec(alloc)?;
    Ok(Left { ended, output })
}

/// A session from the version 0 on.
pub(crate) fn serve<R: Threads + Wait + Sync>(
    rt: &R,
    alloc: Global,
    source: MemSource<'_>,
    sink: MemSink,
) -> Result<Left, AllocError> {
    let first = Snapshot::empty(alloc)?;
    serve_from::<Brand, &R>(rt, alloc, Opened::new(), first, source, sink)
}

/// The frames of these bodies.
fn frames(alloc: Global, bodies: &[&str]) -> Result<Vec<u8>, AllocError> {
    let mut sink = MemSink::new(alloc, FaultPlan::none(alloc));
    for body in bodies {
        if write_frame(&mut sink, body.as_bytes()).is_err() {
            return Err(AllocError);
        }
    }
    Ok(sink.bytes)
}

fn is(ended: &Ended, code: u8, place: u64, cause: u32) -> bool {
    ended.code == code && ended.place == place && ended.cause == cause
}

/// Whether the session of these bytes ends so, and these are the bodies of its replies.
fn ends<R: Threads + Wait + Sync>(
    rt: &R,
    alloc: Global,
    input: &[u8],
    status: (u8, u64, u32),
    replies: &[&str],
) -> Result<bool, AllocError> {
    let sink = MemSink::new(alloc, FaultPlan::none(alloc));
    let left = serve(
        rt,
        alloc,
        MemSource::new(input, FaultPlan::none(alloc)),
        sink,
    )?;
    let output = frames(alloc, replies)?;
    Ok(is(&left.ended, status.0, status.1, status.2) && left.output.as_slice() == output.as_slice())
}

/// Bodies of messages, the code of the session's status, and the bodies of its replies.
const SESSIONS: [(&[&str], u8, &[&str]); 7] = [
    (&[], 1, &[]),
    (&[EXIT], 1, &[]),
    (&[INITIALIZE, SHUTDOWN, EXIT], 0, &[CAPABILITIES, NULL]),
    (&[INITIALIZE, EXIT, SHUTDOWN], 1, &[CAPABILITIES]),
    (&[INITIALIZE, SHUTDOWN], 1, &[CAPABILITIES, NULL]),
    (&["{", EXIT], 1, &[NO_JSON]),
    (&[COMPLETION, EXIT], 1, &[TOO_EARLY]),
];

#[test]
fn each_reply_is_one_frame(rt: HostRuntime) -> Result<(), Fail> {
    for (bodies, code, replies) in SESSIONS {
        let input = frames(rt.alloc(), bodies)?;
        assert!(rt; ends(&rt, rt.alloc(), &input, (code, 0, 0), replies)?);
    }
    Ok(())
}

/// Inputs whose frames are wrong, the place and the number of the fault.
const FAULTS: [(&str, u64, u32); 4] = [
    ("Content Length: 2\r\n\r\n{}", 7, 1),
    ("Content-Type: a\r\n\r\n", 19, 2),
    ("Content-Length: 16777217\r\n\r\n", 16_777_217, 3),
    ("Content-Length: 3\r\n\r\n{}", 23, 4),
];

#[test]
fn a_fault_of_frames_ends_the_session(rt: HostRuntime) -> Result<(), Fail> {
    for (input, place, cause) in FAULTS {
        assert!(rt; ends(&rt, rt.alloc(), input.as_bytes(), (3, place, cause), &[])?);
    }
    Ok(())
}

/// The same behind the 80 bytes of a request, which is answered. Of a length that is too great the length is told.
#[test]
fn a_fault_of_frames_comes_after_replies(rt: HostRuntime) -> Result<(), Fail> {
    for (input, place, cause) in FAULTS {
        let mut session = frames(rt.alloc(), &[INITIALIZE])?;
        assert_eq!(rt; session.len(), 80);
        session.extend_from_slice(input.as_bytes())?;
        let told = if cause == 3 {
            place
        } else {
            place.saturating_add(80)
        };
        assert!(rt; ends(&rt, rt.alloc(), &session, (3, told, cause), &[CAPABILITIES])?);
    }
    Ok(())
}

/// How many requests are whole in so many bytes of the input below.
fn whole_requests(length: usize) -> usize
    ensures { result ≤ 2 }
{
    if length < 80 {
        0
    } else if length < 146 {
        1
    } else {
        2
    }
}

/// A session that is cut off between two frames ends by the end of its input, and within one by its cut. The replies to
/// the frames before are written. The requests end at the bytes 80 and 146, the exit at 201.
#[test]
fn an_input_may_be_cut_anywhere(rt: HostRuntime) -> Result<(), Fail> {
    let input = frames(rt.alloc(), &[INITIALIZE, SHUTDOWN, EXIT])?;
    let replies = [CAPABILITIES, NULL];
    for length in 0..input.len() {
        let between = length == 0 || length == 80 || length == 146;
        let status = if between {
            (1, 0, 0)
        } else {
            (3, length as u64, 4)
        };
        let count = whole_requests(length);
        assert!(rt; ends(&rt, rt.alloc(), &input[..length], status, &replies[..count])?);
    }
    Ok(())
}

/// The read that comes after the first request fails: its reply is written by then. A source gives one byte at a time.
#[test]
fn a_reply_is_written_before_the_next_read(rt: HostRuntime) -> Result<(), Fail> {
    let alloc = rt.alloc();
    let input = frames(alloc, &[INITIALIZE, SHUTDOWN, EXIT])?;
    let mut source = MemSource::new(&input, FaultPlan::new(Items::from_slice(alloc, &[81])?));
    source.most = 1;
    let left = serve(
        &rt,
        alloc,
        source,
        MemSink::new(alloc, FaultPlan::none(alloc)),
    )?;
    assert!(rt; is(&left.ended, 4, 0, 0));
    assert!(rt; left.output.as_slice() == frames(alloc, &[CAPABILITIES])?.as_slice());
    Ok(())
}

#[test]
fn a_write_that_fails_ends_the_session(rt: HostRuntime) -> Result<(), Fail> {
    let alloc = rt.alloc();
    let input = frames(alloc, &[INITIALIZE, SHUTDOWN, EXIT])?;
    let source = MemSource::new(&input, FaultPlan::none(alloc));
    let sink = MemSink::new(alloc, FaultPlan::new(Items::from_slice(alloc, &[3])?));
    let left = serve(&rt, alloc, source, sink)?;
    assert!(rt; is(&left.ended, 5, 0, 0));
    assert!(rt; left.output.as_slice() == frames(alloc, &[CAPABILITIES])?.as_slice());
    Ok(())
}
