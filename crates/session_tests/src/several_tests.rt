use crate::frame_tests::{CAPABILITIES, EXIT, INITIALIZE, SHUTDOWN, STOPPED, framed};
use crate::gated_tests::started_shelf;
use crate::version_tests::{AFTER_READER, DEMO};
use crate::words::words_of;
use lists::{Items, Text};
use outside::{End, FaultPlan, HeldFile, MemShelf, MemSink, MemSource};
use serving::{Status, run};
use std::alloc::{AllocError, Global};
use std::sync::Wait;
use std::test::Fail;
use std::thread::Threads;

/// A publication of nothing.
const NOTHING: (usize, &str) = (
    124,
    r#"{"jsonrpc":"2.0","id":3,"method":"workspace/executeCommand","params":{"command":"insynth.publish","arguments":[{"put":[]}]}}"#,
);

type MemEnd<'a> = End<MemSource<'a>, MemSink, MemShelf>;

/// The call of this number fails, none where it is 0.
fn plan_of(alloc: Global, failing: u64) -> Result<FaultPlan, AllocError> {
    Ok(FaultPlan::new(Items::from_slice(alloc, &[failing])?))
}

/// An end that reads these bytes; its shelf holds an empty start text.
fn end_of(alloc: Global, input: &[u8], read: u64, write: u64) -> Result<MemEnd<'_>, AllocError> {
    let mut files = Items::new(alloc);
    files.push(HeldFile {
        name: Text::from_str(alloc, "empty")?,
        bytes: Items::new(alloc),
    })?;
    Ok(End {
        source: MemSource::new(input, plan_of(alloc, read)?),
        sink: MemSink::new(alloc, plan_of(alloc, write)?),
        shelf: MemShelf::new(files, FaultPlan::none(alloc)),
    })
}

/// Serves the ends.
fn served<R: Threads + Wait + Sync>(
    rt: &R,
    alloc: Global,
    option: &str,
    ends: &mut Vec<MemEnd<'_>>,
) -> Result<Status, AllocError> {
    let mut words = Vec::new(alloc);
    words.push(String::from_str(alloc, "serve")?)?;
    for _ in 1..ends.len() {
        words.push(String::from_str(alloc, "in=out")?)?;
    }
    words.push(String::from_str(alloc, option)?)?;
    Ok(run(rt, alloc, words.as_slice(), ends))
}

/// A status by its code and end.
fn status(code: u8, end: u32) -> Status {
    Status {
        code,
        end,
        place: 0,
        cause: 0,
    }
}

// Sessions that end well, without a shutdown, within a frame, by a failed read and by a failed write, and the greatest
// code with the first end that has it.
#[test]
fn the_greatest_code_is_answered(rt: HostRuntime) -> Result<(), Fail> {
    let alloc = rt.alloc();
    let whole = framed(alloc, &[INITIALIZE, SHUTDOWN, EXIT])?;
    let short = framed(alloc, &[INITIALIZE])?;
    let cut = match whole.as_bytes().split_last() {
        Some((_, front)) => front,
        None => b"",
    };
    let table: [(&[u8], Status); 8] = [
        (b"0", status(0, 0)),
        (b"000", status(0, 0)),
        (b"01", status(1, 1)),
        (b"101", status(1, 0)),
        (b"0141", status(4, 2)),
        (b"05450", status(5, 1)),
        (b"4004", status(4, 0)),
        (
            b"0301",
            Status {
                code: 3,
                end: 1,
                place: cut.len() as u64,
                cause: 4,
            },
        ),
    ];
    for (codes, wanted) in table {
        let mut ends = Vec::new(alloc);
        for code in codes {
            let input = match *code {
                b'1' => short.as_bytes(),
                b'3' => cut,
                _ => whole.as_bytes(),
            };
            ends.push(end_of(
                alloc,
                input,
                u64::from(*code == b'4'),
                u64::from(*code == b'5'),
            )?)?;
        }
        assert_eq!(rt; served(&rt, alloc, "--start=empty", &mut ends)?, wanted);
        assert_eq!(rt; ends.len(), codes.len());
        for (i, end) in ends.iter().enumerate() {
            let is_cut = codes[i] == b'4' || codes[i] == b'5';
            assert!(rt; end.sink.bytes.is_empty() == is_cut);
        }
    }
    Ok(())
}

// Where a start text is missing no end is read or written.
#[test]
fn no_session_begins_on_a_wrong_start(rt: HostRuntime) -> Result<(), Fail> {
    let alloc = rt.alloc();
    let whole = framed(alloc, &[INITIALIZE, SHUTDOWN, EXIT])?;
    let mut ends = Vec::new(alloc);
    for _ in 0..3 {
        ends.push(end_of(alloc, whole.as_bytes(), 0, 0)?)?;
    }
    let answered = served(&rt, alloc, "--start=nowhere", &mut ends)?;
    assert_eq!(rt;
        (answered.code, answered.end, answered.place, answered.cause),
        (8, 0, 0, 9)
    );
    for end in &ends {
        assert!(rt; end.source.plan.calls == 0 && end.sink.bytes.is_empty());
    }
    Ok(())
}

// 64 clients over one board, each of which publishes once: each is told another version, from 1 to 64.
#[test]
fn each_publication_has_its_own_version(rt: HostRuntime) -> Result<(), Fail> {
    let alloc = rt.alloc();
    let input = framed(alloc, &[INITIALIZE, NOTHING, SHUTDOWN, EXIT])?;
    let opening = framed(alloc, &[CAPABILITIES])?;
    let closing = framed(alloc, &[STOPPED])?;
    let mut ends = Vec::new(alloc);
    for _ in 0..64 {
        ends.push(end_of(alloc, input.as_bytes(), 0, 0)?)?;
    }
    let mut words = Vec::new(alloc);
    words.push(String::from_str(alloc, "serve")?)?;
    for _ in 0..63 {
        words.push(String::from_str(alloc, "in=out")?)?;
    }
    assert_eq!(rt; run(&rt, alloc, words.as_slice(), &mut ends), status(0, 0));
    for number in 1..65u32 {
        let version = format!(in alloc;
            "{{\"id\":3,\"jsonrpc\":\"2.0\",\"result\":{{\"version\":{number}}}}}"
        )?;
        let told = format!(in alloc;
            "{opening}Content-Length: {}\r\n\r\n{version}{closing}",
            version.len()
        )?;
        let mut found: usize = 0;
        for end in &ends {
            if end.sink.bytes.as_slice() == told.as_bytes() {
                found = found.saturating_add(1);
            }
        }
        assert_eq!(rt; found, 1);
    }
    Ok(())
}

// The words alone, and sessions without any input.
#[test]
fn a_server_of_two_ends_may_have_nothing_to_do(rt: HostRuntime) -> Result<(), Fail> {
    let alloc = rt.alloc();
    let table: [(&[&str], Status); 3] = [
        (&["serve", "in=out"], status(1, 0)),
        (
            &["serve", "x"],
            Status {
                code: 2,
                end: 0,
                place: 1,
                cause: 1,
            },
        ),
        (
            &["serve", "in=out", "--start", "nowhere"],
            Status {
                code: 8,
                end: 0,
                place: 0,
                cause: 9,
            },
        ),
    ];
    for (texts, wanted) in table {
        let words = words_of(alloc, texts)?;
        let mut ends = Vec::new(alloc);
        for _ in 0..2 {
            ends.push(end_of(alloc, b"", 0, 0)?)?;
        }
        assert_eq!(rt; run(&rt, alloc, words.as_slice(), &mut ends), wanted);
        assert!(rt; ends.iter().all(|end| end.sink.bytes.is_empty()));
    }
    Ok(())
}

/// The number that a text begins with.
fn number_at(text: &str) -> u32 {
    let mut number: u32 = 0;
    for byte in text.as_bytes() {
        if !byte.is_ascii_digit() {
            return number;
        }
        number = number
            .saturating_mul(10)
            .saturating_add(u32::from(*byte - b'0'));
    }
    number
}

/// The versions that replies tell, in their order.
fn versions_in(alloc: Global, replies: &str) -> Result<Vec<u32>, AllocError> {
    let mut versions = Vec::new(alloc);
    let mut rest = replies;
    for _ in 0..replies.len() {
        let Some((_, after)) = rest.split_once("\"version\":") else {
            return Ok(versions);
        };
        versions.push(number_at(after))?;
        rest = after;
    }
    Ok(versions)
}

/// Whether these are the versions of so many rounds, each of a receipt and of a list: a receipt is newer than all before
/// it, and a list is no older.
fn are_rounds(versions: &[u32], rounds: usize) -> bool {
    let mut newest = 1;
    for (i, version) in versions.iter().enumerate() {
        let is_receipt = i % 2 == 0;
        if *version < newest || (is_receipt && *version == newest) {
            return false;
        }
        newest = *version;
    }
    versions.len() / 2 == rounds && versions.len() % 2 == 0
}

// Four clients at once, each of which publishes and completes three times.
#[test]
fn no_list_is_older_than_a_receipt_before_it(rt: HostRuntime) -> Result<(), Fail> {
    let alloc = rt.alloc();
    let input = framed(
        alloc,
        &[
            INITIALIZE,
            DEMO,
            NOTHING,
            AFTER_READER,
            NOTHING,
            AFTER_READER,
            NOTHING,
            AFTER_READER,
            SHUTDOWN,
            EXIT,
        ],
    )?;
    let mut ends = Vec::new(alloc);
    for _ in 0..4 {
        let mut end = end_of(alloc, input.as_bytes(), 0, 0)?;
        end.shelf = started_shelf(alloc)?;
        ends.push(end)?;
    }
    assert_eq!(rt;
        served(&rt, alloc, "--start=start", &mut ends)?,
        status(0, 0)
    );
    for end in &ends {
        let replies = str::from_utf8(end.sink.bytes.as_slice()).unwrap_or("");
        assert!(rt; are_rounds(versions_in(alloc, replies)?.as_slice(), 3));
    }
    Ok(())
}
