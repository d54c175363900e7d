// A session of three messages, whose reads and writes fail one at a time, and one that begins with too deep a body.
use lists::Items;
use outside::{End, FaultPlan, MemShelf, MemSink, MemSource};
use serving::{Status, run};
use std::alloc::{AllocError, Global};
use std::sync::Wait;
use std::test::Fail;
use std::thread::Threads;

/// `initialize`, `shutdown` and `exit`. The frames end at the bytes 80, 146 and 201.
const REQUESTS: &str = concat!(
    "Content-Length: 58\r\n\r\n{\"jsonrpc\":\"2.0\",\"id\":1,\"method\":\"initialize\",\"params\":{}}",
    "Content-Length: 44\r\n\r\n{\"jsonrpc\":\"2.0\",\"id\":2,\"method\":\"shutdown\"}",
    "Content-Length: 33\r\n\r\n{\"jsonrpc\":\"2.0\",\"method\":\"exit\"}"
);

/// The replies. Their frames end at the bytes 353 and 413.
const REPLIES: &str = concat!(
    "Content-Length: 330\r\n\r\n{\"id\":1,\"jsonrpc\":\"2.0\",\"result\":{\"capabilities\":{\"completionProvider\":{},\"executeCommandProvider\":{\"commands\":[\"insynth.close\",\"insynth.explain\",\"insynth.page\",\"insynth.publish\",\"insynth.weights\",\"insynth.withdraw\"]},\"positionEncoding\":\"utf-16\",\"textDocumentSync\":{\"change\":2,\"openClose\":true}},\"serverInfo\":{\"name\":\"insynthd\"}}}",
    "Content-Length: 38\r\n\r\n{\"id\":2,\"jsonrpc\":\"2.0\",\"result\":null}"
);

/// The reply to a body that is no JSON.
const NO_JSON: &str =
    "Content-Length: 75\r\n\r\n{\"error\":{\"code\":-32700,\"message\":\"parse error\"},\"id\":null,\"jsonrpc\":\"2.0\"}";

/// How many bytes a read gives and a write takes at most.
const STEPS: [usize; 3] = [usize::MAX, 50, 1];

/// What a session leaves: its status, the bytes written, and how many reads and writes were tried.
#[derive(Drop)]
struct Left {
    status: Status,
    output: Vec<u8>,
    reads: u64,
    writes: u64,
}

/// The call of this number fails, none where it is 0.
fn plan(alloc: Global, failing: u64) -> Result<FaultPlan, AllocError> {
    Ok(FaultPlan::new(Items::from_slice(alloc, &[failing])?))
}

/// Serves one client that sends this input, with reads and writes of at most `most` bytes of which these fail.
fn served<R: Threads + Wait + Sync>(
    rt: &R,
    alloc: Global,
    input: &str,
    most: usize,
    (read, write): (u64, u64),
) -> Result<Left, AllocError> {
    let mut end = End {
        source: MemSource::new(input.as_bytes(), plan(alloc, read)?),
        sink: MemSink::new(alloc, plan(alloc, write)?),
        shelf: MemShelf::new(Items::new(alloc), FaultPlan::none(alloc)),
    };
    end.source.most = most;
    end.sink.most = most;
    let words = vec![in alloc; String::from_str(alloc, "serve")?]?;
    let mut ends = vec![in alloc; end]?;
    let status = run(rt, alloc, words.as_slice(), &mut ends);
    match ends.pop() {
        Some(end) => Ok(Left {
            status,
            reads: end.source.plan.calls,
            writes: end.sink.plan.calls,
            output: end.sink.bytes.as_slice().to_vec(alloc)?,
        }),
        None => Err(AllocError),
    }
}

/// How many bytes of the replies are owed to so many bytes of the requests.
fn owed(read: usize) -> usize {
    if read < 80 {
        0
    } else if read < 146 {
        353
    } else {
        413
    }
}

/// Whether these are so many bytes of the replies, from their beginning.
fn is_begun(output: &[u8], length: usize) -> bool {
    output.len() == length && REPLIES.as_bytes().starts_with(output)
}

/// The failed read isn't tried again, and the bodies that were read by then are answered.
#[test]
fn each_read_fails_in_turn(rt: HostRuntime) -> Result<(), Fail> {
    for most in STEPS {
        let whole = served(&rt, rt.alloc(), REQUESTS, most, (0, 0))?;
        assert_eq!(rt; whole.status, Status::plain(0));
        for before in 0..whole.reads {
            let read = before.saturating_add(1);
            let left = served(&rt, rt.alloc(), REQUESTS, most, (read, 0))?;
            assert_eq!(rt; left.status, Status::plain(4));
            assert_eq!(rt; left.reads, read);
            assert!(rt; is_begun(&left.output, owed(most.saturating_mul(before as usize))));
        }
    }
    Ok(())
}

/// The failed write isn't tried again, nor its reply begun again: first bytes of the replies were written, and no more.
#[test]
fn each_write_fails_in_turn(rt: HostRuntime) -> Result<(), Fail> {
    for most in STEPS {
        let whole = served(&rt, rt.alloc(), REQUESTS, most, (0, 0))?;
        assert!(rt; is_begun(&whole.output, REPLIES.len()));
        let mut written: usize = 0;
        for before in 0..whole.writes {
            let write = before.saturating_add(1);
            let left = served(&rt, rt.alloc(), REQUESTS, most, (0, write))?;
            assert_eq!(rt; left.status, Status::plain(5));
            assert_eq!(rt; left.writes, write);
            assert!(rt; is_begun(&left.output, left.output.len()));
            assert!(rt; before == 0 || written < left.output.len());
            written = left.output.len();
        }
        assert!(rt; written < REPLIES.len());
    }
    Ok(())
}

/// Two hundred arrays, one in another, nest deeper than a reader of JSON goes. The session goes on after them.
#[test]
fn a_body_of_two_hundred_arrays_is_no_json(rt: HostRuntime) -> Result<(), Fail> {
    let alloc = rt.alloc();
    let arrays = "[".repeat(alloc, 200)?;
    let ends = "]".repeat(alloc, 200)?;
    let input = format!(in alloc; "Content-Length: 400\r\n\r\n{arrays}{ends}{REQUESTS}")?;
    let output = format!(in alloc; "{NO_JSON}{REPLIES}")?;
    for most in STEPS {
        let left = served(&rt, alloc, &input, most, (0, 0))?;
        assert_eq!(rt; left.status, Status::plain(0));
        assert_eq!(rt; left.output.as_slice(), output.as_bytes());
    }
    Ok(())
}
