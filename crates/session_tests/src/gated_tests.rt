use crate::frame_tests::{CAPABILITIES, EXIT, INITIALIZE, SHUTDOWN, STOPPED, framed};
use crate::publication_tests::{AFTER_USES, EIGHT, USE_THRICE, file, shelf};
use crate::two_client_tests::{PUT_A, SIX_IN_VERSION_2, VERSION_2};
use crate::version_tests::{AFTER_READER, BY_THREE, DEMO, NEXT_THREE, OTHER_THREE, SIX, THREE};
use crate::words::words_of;
use outside::{End, FaultPlan, FlaggedSink, GatedSource, MemShelf, MemSink};
use serving::run;
use std::alloc::{AllocError, Global};
use std::sync::Wait;
use std::sync::atomic::AtomicU64;
use std::test::Fail;
use std::thread::Threads;

/// The start text of the three readers and their class files (JVMS 4.1), whose methods have no code.
const STARTED: [(&str, &[u8]); 4] = [
    (
        "start",
        b"/Reader.class\n/FileReader.class\n/BufferedReader.class\n",
    ),
    (
        "/Reader.class",
        b"\xCA\xFE\xBA\xBE\0\0\04\0\x05\x07\0\x02\x01\0\x0Ejava/io/Reader\x07\0\x04\x01\0\x10java/lang/Object\x04!\0\x01\0\x03\0\0\0\0\0\0\0\0",
    ),
    (
        "/FileReader.class",
        b"\xCA\xFE\xBA\xBE\0\0\04\0\x07\x07\0\x02\x01\0\x12java/io/FileReader\x07\0\x04\x01\0\x0Ejava/io/Reader\x01\0\x06<init>\x01\0\x15(Ljava/lang/String;)V\0!\0\x01\0\x03\0\0\0\0\0\x01\0\x01\0\x05\0\x06\0\0\0\0",
    ),
    (
        "/BufferedReader.class",
        b"\xCA\xFE\xBA\xBE\0\0\04\0\x07\x07\0\x02\x01\0\x16java/io/BufferedReader\x07\0\x04\x01\0\x0Ejava/io/Reader\x01\0\x06<init>\x01\0\x13(Ljava/io/Reader;)V\0!\0\x01\0\x03\0\0\0\0\0\x01\0\x01\0\x05\0\x06\0\0\0\0",
    ),
];

/// A shelf with these files and with those that are published.
pub(crate) fn started_shelf(alloc: Global) -> Result<MemShelf, AllocError> {
    let mut started = shelf(alloc, FaultPlan::none(alloc))?;
    for (name, bytes) in &STARTED {
        started.files.push(file(alloc, name, bytes)?)?;
    }
    Ok(started)
}

/// What a client sends in one turn, once the other one was written so many replies.
type Turn<'a> = (usize, &'a [(usize, &'a str)]);

/// What one of two clients sends, and what it is to be written.
#[derive(Clone, Copy)]
struct Part<'a> {
    turns: &'a [Turn<'a>],
    told: &'a [(usize, &'a str)],
}

/// The turns of a client in bytes, where the other one is written these replies.
fn turns_of(
    alloc: Global,
    turns: &[Turn<'_>],
    told: &[(usize, &str)],
) -> Result<Vec<(u64, String)>, AllocError> {
    let mut made = Vec::new(alloc);
    for (replies, sent) in turns {
        let earlier = framed(alloc, &told[..(*replies).min(told.len())])?;
        made.push((earlier.len() as u64, framed(alloc, sent)?))?;
    }
    Ok(made)
}

type GatedEnd<'a> = End<GatedSource<'a>, FlaggedSink<'a, MemSink>, MemShelf>;

/// An end that counts what it is written, and waits for what the other end is written.
fn gated<'a>(
    alloc: Global,
    turns: &'a [(u64, String)],
    count: &'a AtomicU64,
    other: &'a AtomicU64,
) -> Result<GatedEnd<'a>, AllocError> {
    Ok(End {
        source: GatedSource {
            turns,
            rest: &[],
            written: other,
            faults: 0,
        },
        sink: FlaggedSink {
            sink: MemSink::new(alloc, FaultPlan::none(alloc)),
            taken: count,
        },
        shelf: started_shelf(alloc)?,
    })
}

/// Whether an end was written just these replies.
fn is_told(alloc: Global, end: &GatedEnd<'_>, told: &[(usize, &str)]) -> Result<bool, AllocError> {
    let wanted = framed(alloc, told)?;
    Ok(end.sink.sink.bytes.as_slice() == wanted.as_bytes())
}

/// The turns of both clients of a server, and the counts of what each is written.
#[derive(Clone, Copy)]
struct Gates<'a> {
    turns: &'a [(u64, String)],
    count: &'a AtomicU64,
    other_turns: &'a [(u64, String)],
    other_count: &'a AtomicU64,
}

/// Whether both clients are written these replies by a server that starts at the three readers, and their sessions end
/// well.
fn are_served<R: Threads + Wait + Sync>(
    rt: &R,
    alloc: Global,
    gates: Gates<'_>,
    told: &[(usize, &str)],
    other_told: &[(usize, &str)],
) -> Result<bool, AllocError> {
    let mut ends = Vec::new(alloc);
    ends.push(gated(alloc, gates.turns, gates.count, gates.other_count)?)?;
    ends.push(gated(alloc, gates.other_turns, gates.other_count, gates.count)?)?;
    let words = words_of(alloc, &["serve", "--start=start", "in=out"])?;
    let status = run(rt, alloc, words.as_slice(), &mut ends);
    match ends.as_slice() {
        [first, second] => Ok(
            status.code == 0 && is_told(alloc, first, told)? && is_told(alloc, second, other_told)?,
        ),
        _ => Ok(false),
    }
}

/// Whether two clients of such a server are written what they are to be.
fn are_told<'a, R: Threads + Wait + Sync>(
    rt: &R,
    alloc: Global,
    one: Part<'a>,
    other: Part<'a>,
) -> Result<bool, AllocError> {
    let turns = turns_of(alloc, one.turns, other.told)?;
    let other_turns = turns_of(alloc, other.turns, one.told)?;
    let count = AtomicU64::new(0);
    let other_count = AtomicU64::new(0);
    let gates = Gates {
        turns: turns.as_slice(),
        count: &count,
        other_turns: other_turns.as_slice(),
        other_count: &other_count,
    };
    are_served(rt, alloc, gates, one.told, other.told)
}

/// A client that publishes a class.
const OF_A_CLASS: Part<'static> = Part {
    turns: &[(0, &[INITIALIZE, PUT_A, SHUTDOWN, EXIT])],
    told: &[CAPABILITIES, VERSION_2, STOPPED],
};

/// One that asks in the middle of its session, after the class was published.
const AFTER_A_CLASS: Part<'static> = Part {
    turns: &[
        (0, &[INITIALIZE, DEMO]),
        (2, &[AFTER_READER, SHUTDOWN, EXIT]),
    ],
    told: &[CAPABILITIES, SIX_IN_VERSION_2, STOPPED],
};

const USED: (usize, &str) = (47, r#"{"id":2,"jsonrpc":"2.0","result":{"version":2}}"#);

/// A client that publishes how often a constructor is used.
const OF_USES: Part<'static> = Part {
    turns: &[(0, &[INITIALIZE, (180, USE_THRICE), SHUTDOWN, EXIT])],
    told: &[CAPABILITIES, USED, STOPPED],
};

/// One that asks after the uses were published.
const WITH_USES: Part<'static> = Part {
    turns: &[
        (0, &[INITIALIZE, DEMO]),
        (2, &[(150, AFTER_USES), SHUTDOWN, EXIT]),
    ],
    told: &[CAPABILITIES, (2170, EIGHT), STOPPED],
};

#[test]
fn a_list_is_of_the_version_that_another_client_made(rt: HostRuntime) -> Result<(), Fail> {
    assert!(rt; are_told(&rt, rt.alloc(), OF_A_CLASS, AFTER_A_CLASS)?);
    assert!(rt; are_told(&rt, rt.alloc(), AFTER_A_CLASS, OF_A_CLASS)?);
    assert!(rt; are_told(&rt, rt.alloc(), OF_USES, WITH_USES)?);
    Ok(())
}

/// A client that asks for a list.
const FIRST: Part<'static> = Part {
    turns: &[(0, &[INITIALIZE, DEMO, AFTER_READER, SHUTDOWN, EXIT])],
    told: &[CAPABILITIES, SIX, STOPPED],
};

/// The six items, where none was found for this reply.
const SIX_FOUND: (usize, &str) = (
    1542,
    r#"{"id":2,"jsonrpc":"2.0","result":{"insynth":{"cursor":1,"from":0,"grown":0,"last":true,"version":1},"isIncomplete":false,"items":[{"detail":"1015","label":"new FileReader(name)","sortText":"0000000000","textEdit":{"newText":"new FileReader(name)","range":{"end":{"character":15,"line":3},"start":{"character":15,"line":3}}}},{"detail":"1210","label":"new FileReader(\"\")","sortText":"0000000001","textEdit":{"newText":"new FileReader(\"\")","range":{"end":{"character":15,"line":3},"start":{"character":15,"line":3}}}},{"detail":"2025","label":"new BufferedReader(new FileReader(name))","sortText":"0000000002","textEdit":{"newText":"new BufferedReader(new FileReader(name))","range":{"end":{"character":15,"line":3},"start":{"character":15,"line":3}}}},{"detail":"2220","label":"new BufferedReader(new FileReader(\"\"))","sortText":"0000000003","textEdit":{"newText":"new BufferedReader(new FileReader(\"\"))","range":{"end":{"character":15,"line":3},"start":{"character":15,"line":3}}}},{"detail":"3035","label":"new BufferedReader(new BufferedReader(new FileReader(name)))","sortText":"0000000004","textEdit":{"newText":"new BufferedReader(new BufferedReader(new FileReader(name)))","range":{"end":{"character":15,"line":3},"start":{"character":15,"line":3}}}},{"detail":"3230","label":"new BufferedReader(new BufferedReader(new FileReader(\"\")))","sortText":"0000000005","textEdit":{"newText":"new BufferedReader(new BufferedReader(new FileReader(\"\")))","range":{"end":{"character":15,"line":3},"start":{"character":15,"line":3}}}}]}}"#,
);

/// One that asks for the same list, after the first one has it.
const SECOND: Part<'static> = Part {
    turns: &[
        (0, &[INITIALIZE, DEMO]),
        (2, &[AFTER_READER, SHUTDOWN, EXIT]),
    ],
    told: &[CAPABILITIES, SIX_FOUND, STOPPED],
};

#[test]
fn a_list_that_another_client_asked_for_is_not_found_again(rt: HostRuntime) -> Result<(), Fail> {
    assert!(rt; are_told(&rt, rt.alloc(), FIRST, SECOND)?);
    Ok(())
}

const REMOVE: (usize, &str) = (
    147,
    r#"{"jsonrpc":"2.0","id":3,"method":"workspace/executeCommand","params":{"command":"insynth.publish","arguments":[{"remove":["java/io/FileReader"]}]}}"#,
);

const WITHDRAW: (usize, &str) = (
    128,
    r#"{"jsonrpc":"2.0","id":4,"method":"workspace/executeCommand","params":{"command":"insynth.withdraw","arguments":[{"through":1}]}}"#,
);

const VERSION_3: (usize, &str) = (47, r#"{"id":4,"jsonrpc":"2.0","result":{"version":3}}"#);

const WITHDRAWN: (usize, &str) = (
    110,
    r#"{"error":{"code":-32801,"data":{"number":3,"version":1},"message":"version withdrawn"},"id":3,"jsonrpc":"2.0"}"#,
);

/// A client that asks for the pages of its list.
const PAGING: Part<'static> = Part {
    turns: &[
        (0, &[BY_THREE, DEMO, AFTER_READER]),
        (2, &[NEXT_THREE]),
        (3, &[NEXT_THREE, SHUTDOWN, EXIT]),
    ],
    told: &[CAPABILITIES, THREE, OTHER_THREE, WITHDRAWN, STOPPED],
};

/// One that removes a class between these pages, and then withdraws the version of the list.
const WITHDRAWING: Part<'static> = Part {
    turns: &[
        (0, &[INITIALIZE]),
        (2, &[REMOVE]),
        (3, &[WITHDRAW, SHUTDOWN, EXIT]),
    ],
    told: &[CAPABILITIES, VERSION_2, VERSION_3, STOPPED],
};

#[test]
fn pages_are_of_their_version_until_another_client_withdraws_it(
    rt: HostRuntime,
) -> Result<(), Fail> {
    assert!(rt; are_told(&rt, rt.alloc(), PAGING, WITHDRAWING)?);
    Ok(())
}
