use crate::words::words_of;
use lists::{Items, Text};
use outside::{End, FaultPlan, HeldFile, MemShelf, MemSink, MemSource};
use serving::{Status, run};
use std::alloc::{AllocError, Global};
use std::sync::Wait;
use std::test::Fail;
use std::thread::Threads;

/// `public class A extends java/lang/Object`, without members.
const A: [u8; 53] = [
    0xCA, 0xFE, 0xBA, 0xBE, 0, 0, 0, 0x34, 0, 5, 7, 0, 2, 1, 0, 1, 0x41, 7, 0, 4, 1, 0, 0x10, 0x6A,
    0x61, 0x76, 0x61, 0x2F, 0x6C, 0x61, 0x6E, 0x67, 0x2F, 0x4F, 0x62, 0x6A, 0x65, 0x63, 0x74, 0,
    0x21, 0, 1, 0, 3, 0, 0, 0, 0, 0, 0, 0, 0,
];

/// Files by their names: a class file, a file that is none, and start texts.
const FILES: [(&str, &[u8]); 7] = [
    ("A.class", &A),
    ("cut.class", &[0xCA, 0xFE]),
    ("right", b"A.class\n"),
    ("empty", b""),
    ("missing", b"A.class\n\nB.class\n"),
    ("cut", b"A.class\r\ncut.class"),
    ("no text", &[0xFF]),
];

/// `initialize`, `shutdown` and `exit`. The frames end at the bytes 80, 146 and 201.
const SESSION: &str =
    "Content-Length: 58\r\n\r\n{\"jsonrpc\":\"2.0\",\"id\":1,\"method\":\"initialize\",\"params\":{}}Content-Length: 44\r\n\r\n{\"jsonrpc\":\"2.0\",\"id\":2,\"method\":\"shutdown\"}Content-Length: 33\r\n\r\n{\"jsonrpc\":\"2.0\",\"method\":\"exit\"}";

/// The replies to them.
const REPLIES: &str =
    "Content-Length: 330\r\n\r\n{\"id\":1,\"jsonrpc\":\"2.0\",\"result\":{\"capabilities\":{\"completionProvider\":{},\"executeCommandProvider\":{\"commands\":[\"insynth.close\",\"insynth.explain\",\"insynth.page\",\"insynth.publish\",\"insynth.weights\",\"insynth.withdraw\"]},\"positionEncoding\":\"utf-16\",\"textDocumentSync\":{\"change\":2,\"openClose\":true}},\"serverInfo\":{\"name\":\"insynthd\"}}}Content-Length: 38\r\n\r\n{\"id\":2,\"jsonrpc\":\"2.0\",\"result\":null}";

/// Where the first reply ends.
const FIRST_REPLY: usize = 353;

/// What a run leaves: its status, what was written, and whether nothing was read.
#[derive(Drop)]
struct Left {
    status: Status,
    output: Vec<u8>,
    is_unread: bool,
}

fn shelf_of(alloc: Global, failing: u64) -> Result<MemShelf, AllocError> {
    let mut files = Items::new(alloc);
    for (name, bytes) in &FILES {
        files.push(HeldFile {
            name: Text::from_str(alloc, name)?,
            bytes: Items::from_slice(alloc, bytes)?,
        })?;
    }
    Ok(MemShelf::new(files, plan_of(alloc, failing)?))
}

/// The call of this number fails, none where it is 0.
fn plan_of(alloc: Global, failing: u64) -> Result<FaultPlan, AllocError> {
    Ok(FaultPlan::new(Items::from_slice(alloc, &[failing])?))
}

/// Runs the words over one end.
fn ran<R: Threads + Wait + Sync>(
    rt: &R,
    alloc: Global,
    words: &[&str],
    end: End<MemSource<'_>, MemSink, MemShelf>,
) -> Result<Left, AllocError> {
    let words = words_of(alloc, words)?;
    let mut ends = vec![in alloc; end]?;
    let status = run(rt, alloc, words.as_slice(), &mut ends);
    match ends.pop() {
        Some(end) => Ok(Left {
            status,
            is_unread: end.source.plan.calls == 0,
            output: end.sink.bytes.as_slice().to_vec(alloc)?,
        }),
        None => Err(AllocError),
    }
}

/// Runs the words over these bytes.
fn served<R: Threads + Wait + Sync>(
    rt: &R,
    alloc: Global,
    words: &[&str],
    input: &[u8],
    failing_load: u64,
) -> Result<Left, AllocError> {
    let end = End {
        source: MemSource::new(input, FaultPlan::none(alloc)),
        sink: MemSink::new(alloc, FaultPlan::none(alloc)),
        shelf: shelf_of(alloc, failing_load)?,
    };
    ran(rt, alloc, words, end)
}

/// A status by its code, place and cause, of end 0.
fn status(code: u8, place: u64, cause: u32) -> Status {
    Status {
        code,
        end: 0,
        place,
        cause,
    }
}

/// Start texts that are wrong, with the line and the cause.
const FAULTS: [(&str, u64, u32); 4] = [
    ("nowhere", 0, 9),
    ("no text", 0, 19),
    ("missing", 3, 9),
    ("cut", 2, 11),
];

#[test]
fn nothing_is_read_on_a_wrong_start(rt: HostRuntime) -> Result<(), Fail> {
    for (name, place, cause) in &FAULTS {
        let left = served(
            &rt,
            rt.alloc(),
            &["serve", "--start", name],
            SESSION.as_bytes(),
            0,
        )?;
        assert_eq!(rt; left.status, status(8, *place, *cause));
        assert!(rt; left.is_unread && left.output.is_empty());
    }
    Ok(())
}

/// The loads are those of the start text and of its one file.
#[test]
fn nothing_is_read_where_the_shelf_fails(rt: HostRuntime) -> Result<(), Fail> {
    for load in [1u64, 2] {
        let left = served(
            &rt,
            rt.alloc(),
            &["serve", "--start=right"],
            SESSION.as_bytes(),
            load,
        )?;
        assert_eq!(rt; left.status, status(4, 0, 0));
        assert!(rt; left.is_unread && left.output.is_empty());
    }
    Ok(())
}

/// Words that ask for a server.
const SERVERS: [&[&str]; 4] = [
    &["serve"],
    &["serve", "--start", "right"],
    &["serve", "--start=right"],
    &["serve", "--start=empty"],
];

#[test]
fn a_session_is_served(rt: HostRuntime) -> Result<(), Fail> {
    for words in SERVERS {
        let left = served(&rt, rt.alloc(), words, SESSION.as_bytes(), 0)?;
        assert_eq!(rt; left.status, status(0, 0, 0));
        assert_eq!(rt; left.output.as_slice(), REPLIES.as_bytes());
    }
    Ok(())
}

#[test]
fn a_body_that_is_no_json_is_told(rt: HostRuntime) -> Result<(), Fail> {
    let left = served(
        &rt,
        rt.alloc(),
        &["serve"],
        b"Content-Length: 1\r\n\r\n{",
        0,
    )?;
    assert_eq!(rt; left.status, status(1, 0, 0));
    assert_eq!(rt;
        left.output.as_slice(),
        "Content-Length: 75\r\n\r\n{\"error\":{\"code\":-32700,\"message\":\"parse error\"},\"id\":null,\"jsonrpc\":\"2.0\"}".as_bytes()
    );
    Ok(())
}

/// How a session that is cut off after so many bytes ends: between two frames, or within one.
fn cut_at(length: usize) -> Status {
    if length == 0 || length == 80 || length == 146 {
        status(1, 0, 0)
    } else {
        status(3, length as u64, 4)
    }
}

/// How many bytes of the replies are written by then.
fn written_at(length: usize) -> usize {
    if length < 80 {
        0
    } else if length < 146 {
        FIRST_REPLY
    } else {
        REPLIES.len()
    }
}

#[test]
fn an_input_may_be_cut_anywhere(rt: HostRuntime) -> Result<(), Fail> {
    for length in 0..SESSION.len() {
        let left = served(
            &rt,
            rt.alloc(),
            &["serve"],
            &SESSION.as_bytes()[..length],
            0,
        )?;
        assert_eq!(rt; left.status, cut_at(length));
        assert_eq!(rt; left.output.len(), written_at(length));
        assert!(rt; REPLIES.as_bytes().starts_with(left.output.as_slice()));
    }
    Ok(())
}

/// The first read fails, and the first write.
#[test]
fn faults_of_source_and_sink_have_their_codes(rt: HostRuntime) -> Result<(), Fail> {
    let alloc = rt.alloc();
    for (read, write, code) in [(1u64, 0u64, 4u8), (0, 1, 5)] {
        let end = End {
            source: MemSource::new(SESSION.as_bytes(), plan_of(alloc, read)?),
            sink: MemSink::new(alloc, plan_of(alloc, write)?),
            shelf: shelf_of(alloc, 0)?,
        };
        let left = ran(&rt, alloc, &["serve"], end)?;
        assert_eq!(rt; left.status, status(code, 0, 0));
        assert!(rt; left.output.is_empty());
    }
    Ok(())
}
