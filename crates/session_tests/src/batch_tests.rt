use crate::publication_tests::{file, shelf};
use lists::Items;
use outside::{FaultPlan, LONGEST_LOAD, MemShelf};
use sessions::{MemWorld, Outcome, Session};
use std::alloc::{AllocError, Global};
use std::sync::Wait;
use std::test::Fail;
use std::thread::Threads;

const INITIALIZE: &str = r#"{"jsonrpc":"2.0","id":1,"method":"initialize","params":{}}"#;

const OPENING: &str =
    r#"{"jsonrpc":"2.0","id":2,"method":"workspace/executeCommand","params":{"command":"insynth.publish","arguments":[{"put":["#;

const ENDING: &str = "]}]}}";

const VERSION_1: &str = r#"{"id":2,"jsonrpc":"2.0","result":{"version":1}}"#;

/// The publication of so many files, each `/A.class` but for these two, counted from 0.
fn publication_but(
    alloc: Global,
    count: u32,
    first: (u32, &str),
    second: (u32, &str),
) -> Result<Vec<u8>, AllocError> {
    let mut body = Vec::new(alloc);
    body.extend_from_slice(OPENING.as_bytes())?;
    for index in 0..count {
        if index > 0 {
            body.push(b',')?;
        }
        let name = if index == first.0 {
            first.1
        } else if index == second.0 {
            second.1
        } else {
            "A"
        };
        body.extend_from_slice(b"\"file:///")?;
        body.extend_from_slice(name.as_bytes())?;
        body.extend_from_slice(b".class\"")?;
    }
    body.extend_from_slice(ENDING.as_bytes())?;
    Ok(body)
}

/// Whether a publication to a new session over the version 0 is replied so, after so many loads, of which this one fails.
fn is_replied<R: Threads + Wait + Sync>(
    rt: &R,
    alloc: Global,
    body: &[u8],
    failing: u64,
    reply: &str,
    loads: u64,
) -> Result<bool, AllocError> {
    let plan = FaultPlan::new(Items::from_slice(alloc, &[failing])?);
    let mut world = MemWorld::new(rt, alloc, shelf(alloc, plan)?)?;
    let mut session = Session::new(alloc);
    let _capabilities = session.step(rt, alloc, INITIALIZE.as_bytes(), &mut world)?;
    match session.step(rt, alloc, body, &mut world)? {
        Outcome::Reply(told) => {
            Ok(told.as_slice() == reply.as_bytes() && world.shelf.plan.calls == loads)
        }
        _ => Ok(false),
    }
}

/// How many files a publication has, two of them that aren't `/A.class`, what is replied, and how many loads are made. A
/// batch has 4,096 files, and none follows one with a fault.
const GOOD: [(u32, (u32, &str), (u32, &str), &str, u64); 5] = [
    (0, (0, "A"), (0, "A"), VERSION_1, 0),
    (1, (0, "A"), (0, "A"), VERSION_1, 1),
    (4_096, (0, "A"), (0, "A"), VERSION_1, 4_096),
    (4_097, (0, "A"), (0, "A"), VERSION_1, 4_097),
    (10_000, (0, "A"), (0, "A"), VERSION_1, 10_000),
];

/// Whether publications are replied as a table's rows say.
fn are_replied<R: Threads + Wait + Sync>(
    rt: &R,
    alloc: Global,
    rows: &[(u32, (u32, &str), (u32, &str), &str, u64)],
) -> Result<bool, AllocError> {
    for (count, first, second, reply, loads) in rows {
        let body = publication_but(alloc, *count, *first, *second)?;
        if !is_replied(rt, alloc, body.as_slice(), 0, reply, *loads)? {
            return Ok(false);
        }
    }
    Ok(true)
}

#[test]
fn many_files_are_published(rt: HostRuntime) -> Result<(), Fail> {
    assert!(rt; are_replied(&rt, rt.alloc(), &GOOD)?);
    Ok(())
}

/// Bad files in the first batch.
const FIRST_BATCH: [(u32, (u32, &str), (u32, &str), &str, u64); 5] = [
    (
        1,
        (0, "cut"),
        (0, "A"),
        r#"{"error":{"code":-32602,"data":{"at":52,"cause":11,"class":1,"index":0},"message":"invalid params"},"id":2,"jsonrpc":"2.0"}"#,
        1,
    ),
    (
        4_096,
        (0, "cut"),
        (4_095, "cut"),
        r#"{"error":{"code":-32602,"data":{"at":52,"cause":11,"class":1,"index":0},"message":"invalid params"},"id":2,"jsonrpc":"2.0"}"#,
        4_096,
    ),
    (
        4_097,
        (0, "cut"),
        (4_096, "none"),
        r#"{"error":{"code":-32602,"data":{"at":52,"cause":11,"class":1,"index":0},"message":"invalid params"},"id":2,"jsonrpc":"2.0"}"#,
        4_096,
    ),
    (
        4_097,
        (4_095, "cut"),
        (4_096, "cut"),
        r#"{"error":{"code":-32602,"data":{"at":52,"cause":11,"class":1,"index":4095},"message":"invalid params"},"id":2,"jsonrpc":"2.0"}"#,
        4_096,
    ),
    (
        4_097,
        (4_095, "none"),
        (4_096, "cut"),
        r#"{"error":{"code":-32602,"data":{"cause":9,"index":4095},"message":"invalid params"},"id":2,"jsonrpc":"2.0"}"#,
        4_096,
    ),
];

#[test]
fn a_bad_file_is_told_at_each_end_of_the_first_batch(rt: HostRuntime) -> Result<(), Fail> {
    assert!(rt; are_replied(&rt, rt.alloc(), &FIRST_BATCH)?);
    Ok(())
}

/// Bad files in later batches.
const LATER_BATCHES: [(u32, (u32, &str), (u32, &str), &str, u64); 4] = [
    (
        4_097,
        (4_096, "cut"),
        (0, "A"),
        r#"{"error":{"code":-32602,"data":{"at":52,"cause":11,"class":1,"index":4096},"message":"invalid params"},"id":2,"jsonrpc":"2.0"}"#,
        4_097,
    ),
    (
        4_098,
        (4_096, "cut"),
        (4_097, "none"),
        r#"{"error":{"code":-32602,"data":{"at":52,"cause":11,"class":1,"index":4096},"message":"invalid params"},"id":2,"jsonrpc":"2.0"}"#,
        4_098,
    ),
    (
        10_000,
        (8_191, "cut"),
        (8_192, "cut"),
        r#"{"error":{"code":-32602,"data":{"at":52,"cause":11,"class":1,"index":8191},"message":"invalid params"},"id":2,"jsonrpc":"2.0"}"#,
        8_192,
    ),
    (
        10_000,
        (9_999, "cut"),
        (0, "A"),
        r#"{"error":{"code":-32602,"data":{"at":52,"cause":11,"class":1,"index":9999},"message":"invalid params"},"id":2,"jsonrpc":"2.0"}"#,
        10_000,
    ),
];

#[test]
fn a_bad_file_is_told_at_each_end_of_a_later_batch(rt: HostRuntime) -> Result<(), Fail> {
    assert!(rt; are_replied(&rt, rt.alloc(), &LATER_BATCHES)?);
    Ok(())
}

/// The same of publications in which a load fails, counted from 1.
const FAILING: [(u32, (u32, &str), u64, &str, u64); 7] = [
    (
        3,
        (1, "cut"),
        1,
        r#"{"error":{"code":-32803,"data":{"index":0},"message":"read fault"},"id":2,"jsonrpc":"2.0"}"#,
        1,
    ),
    (
        3,
        (1, "cut"),
        2,
        r#"{"error":{"code":-32803,"data":{"index":1},"message":"read fault"},"id":2,"jsonrpc":"2.0"}"#,
        2,
    ),
    (
        3,
        (1, "cut"),
        3,
        r#"{"error":{"code":-32602,"data":{"at":52,"cause":11,"class":1,"index":1},"message":"invalid params"},"id":2,"jsonrpc":"2.0"}"#,
        3,
    ),
    (
        4_097,
        (4_095, "cut"),
        4_096,
        r#"{"error":{"code":-32803,"data":{"index":4095},"message":"read fault"},"id":2,"jsonrpc":"2.0"}"#,
        4_096,
    ),
    (
        4_097,
        (4_095, "cut"),
        4_097,
        r#"{"error":{"code":-32602,"data":{"at":52,"cause":11,"class":1,"index":4095},"message":"invalid params"},"id":2,"jsonrpc":"2.0"}"#,
        4_096,
    ),
    (
        4_097,
        (4_096, "cut"),
        4_097,
        r#"{"error":{"code":-32803,"data":{"index":4096},"message":"read fault"},"id":2,"jsonrpc":"2.0"}"#,
        4_097,
    ),
    (
        4_098,
        (4_096, "cut"),
        4_098,
        r#"{"error":{"code":-32602,"data":{"at":52,"cause":11,"class":1,"index":4096},"message":"invalid params"},"id":2,"jsonrpc":"2.0"}"#,
        4_098,
    ),
];

#[test]
fn a_bad_file_comes_before_a_load_that_fails_after_it(rt: HostRuntime) -> Result<(), Fail> {
    for (count, bad, failing, reply, loads) in &FAILING {
        let body = publication_but(rt.alloc(), *count, *bad, (0, "A"))?;
        assert!(rt; is_replied(&rt, rt.alloc(), body.as_slice(), *failing, reply, *loads)?);
    }
    Ok(())
}

/// The publication of so many files of each name, in their order.
fn publication_of(alloc: Global, files: &[(&str, u32)]) -> Result<Vec<u8>, AllocError> {
    let mut body = Vec::new(alloc);
    body.extend_from_slice(OPENING.as_bytes())?;
    let mut between = "";
    for (name, count) in files {
        for _ in 0..*count {
            body.extend_from_slice(between.as_bytes())?;
            body.extend_from_slice(b"\"file:///")?;
            body.extend_from_slice(name.as_bytes())?;
            body.extend_from_slice(b".class\"")?;
            between = ",";
        }
    }
    body.extend_from_slice(ENDING.as_bytes())?;
    Ok(body)
}

/// No file here is a class file.
const FIRST_IS_NONE: &str =
    r#"{"error":{"code":-32602,"data":{"at":0,"cause":11,"class":2,"index":0},"message":"invalid params"},"id":2,"jsonrpc":"2.0"}"#;

/// Files of 16,777,216 bytes, of one byte less and of two, and how many of them are loaded: sixteen of the first fill a batch, and
/// so do fifteen, the one of a byte less and one of two bytes, which pass its bytes by one.
const FILLING: [(&[(&str, u32)], u64); 2] = [
    (&[("full", 16), ("two", 2)], 16),
    (&[("full", 15), ("less", 1), ("two", 2)], 17),
];

/// A shelf of three files of zeros.
fn zeros(alloc: Global) -> Result<MemShelf, AllocError> {
    let mut shelf = shelf(alloc, FaultPlan::none(alloc))?;
    let full = vec![in alloc; 0u8; LONGEST_LOAD]?;
    let files = [
        ("/full.class", full.as_slice()),
        ("/less.class", &full.as_slice()[1..]),
        ("/two.class", &[0, 0]),
    ];
    for (name, bytes) in &files {
        shelf.files.push(file(alloc, name, bytes)?)?;
    }
    Ok(shelf)
}

/// Whether so many files of a publication are loaded, where the first is no class file.
fn loads_so_many<R: Threads + Wait + Sync>(
    rt: &R,
    alloc: Global,
    files: &[(&str, u32)],
    loads: u64,
) -> Result<bool, AllocError> {
    let mut world = MemWorld::new(rt, alloc, zeros(alloc)?)?;
    let mut session = Session::new(alloc);
    let _capabilities = session.step(rt, alloc, INITIALIZE.as_bytes(), &mut world)?;
    let body = publication_of(alloc, files)?;
    match session.step(rt, alloc, body.as_slice(), &mut world)? {
        Outcome::Reply(told) => Ok(
            told.as_slice() == FIRST_IS_NONE.as_bytes() && world.shelf.plan.calls == loads,
        ),
        _ => Ok(false),
    }
}

#[test]
fn a_batch_ends_once_it_holds_so_many_bytes(rt: HostRuntime) -> Result<(), Fail> {
    for (files, loads) in &FILLING {
        assert!(rt; loads_so_many(&rt, rt.alloc(), files, *loads)?);
    }
    Ok(())
}
