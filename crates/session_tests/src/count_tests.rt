use crate::words::words_of;
use lists::{Items, Text};
use outside::{End, FaultPlan, HeldFile, MemShelf, MemSink, MemSource};
use serving::{Status, run};
use std::alloc::{AllocError, Global};
use std::sync::Wait;
use std::thread::Threads;

/// `public class A extends java/lang/Object` with a constructor of six bytes of code, from 123 on, that calls that of
/// `java/lang/Object`.
const CODED: [u8; 135] = [
    0xCA, 0xFE, 0xBA, 0xBE, 0, 0, 0, 0x34, 0, 0x0E, 0x0A, 0, 2, 0, 3, 7, 0, 4, 0x0C, 0, 5, 0, 6, 1,
    0, 0x10, 0x6A, 0x61, 0x76, 0x61, 0x2F, 0x6C, 0x61, 0x6E, 0x67, 0x2F, 0x4F, 0x62, 0x6A, 0x65,
    0x63, 0x74, 1, 0, 6, 0x3C, 0x69, 0x6E, 0x69, 0x74, 0x3E, 1, 0, 3, 0x28, 0x29, 0x56, 7, 0, 8, 1,
    0, 1, 0x41, 1, 0, 4, 0x43, 0x6F, 0x64, 0x65, 9, 0, 7, 0, 0x0B, 0x0C, 0, 0x0C, 0, 0x0D, 1, 0, 1,
    0x66, 1, 0, 1, 0x49, 0, 0x21, 0, 7, 0, 2, 0, 0, 0, 0, 0, 1, 0, 1, 0, 5, 0, 6, 0, 1, 0, 9, 0, 0,
    0, 0x12, 0, 1, 0, 1, 0, 0, 0, 6, 0x2A, 0xB7, 0, 1, 0xB1, 0, 0, 0, 0, 0, 0, 0,
];

/// The same with a byte of code that is no instruction.
fn unknown(alloc: Global) -> Result<Items<u8>, AllocError> {
    let mut bytes = Vec::new(alloc);
    bytes.extend_from_slice(&CODED[..123])?;
    bytes.push(0xCA)?;
    bytes.extend_from_slice(&CODED[124..])?;
    Ok(Items::from_vec(bytes))
}

/// One end with these calls failing, whose shelf holds this start text under the name `start` and the class files.
fn end_of(
    alloc: Global,
    text: &str,
    load: u64,
    write: u64,
) -> Result<End<MemSource<'static>, MemSink, MemShelf>, AllocError> {
    let mut files = Items::new(alloc);
    for (name, bytes) in [("start", text.as_bytes()), ("uses", CODED.as_slice())] {
        files.push(HeldFile {
            name: Text::from_str(alloc, name)?,
            bytes: Items::from_slice(alloc, bytes)?,
        })?;
    }
    files.push(HeldFile {
        name: Text::from_str(alloc, "unknown")?,
        bytes: unknown(alloc)?,
    })?;
    Ok(End {
        source: MemSource::new(b"unread", FaultPlan::none(alloc)),
        sink: MemSink::new(alloc, FaultPlan::new(Items::from_slice(alloc, &[write])?)),
        shelf: MemShelf::new(files, FaultPlan::new(Items::from_slice(alloc, &[load])?)),
    })
}

/// A start text, the load and the write that fail, the code, place and cause of the run over one end, and what it
/// writes.
type Row = (&'static str, u64, u64, (u8, u64, u32), &'static str);

const ROWS: [Row; 8] = [
    ("", 0, 0, (0, 0, 0), ""),
    ("uses\n", 0, 0, (0, 0, 0), "1 java/lang/Object.<init>:()V\n"),
    (
        "uses\nuses\n",
        0,
        0,
        (0, 0, 0),
        "2 java/lang/Object.<init>:()V\n",
    ),
    ("uses\n\nnone\n", 0, 0, (8, 3, 9), ""),
    ("uses\nstart\n", 0, 0, (8, 2, 11), ""),
    ("uses\nunknown\n", 0, 0, (8, 2, 20), ""),
    ("uses\n", 2, 0, (4, 0, 0), ""),
    ("uses\n", 0, 1, (5, 0, 0), ""),
];

/// The code, place and cause of a status.
fn told(status: &Status) -> (u8, u64, u32) {
    (status.code, status.place, status.cause)
}

fn counts_as_told<R: Threads + Wait + Sync>(
    rt: &R,
    alloc: Global,
    texts: &[&str],
    row: &Row,
) -> Result<bool, AllocError> {
    let words = words_of(alloc, texts)?;
    let (text, load, write, wanted, written) = *row;
    let mut ends = vec![in alloc; end_of(alloc, text, load, write)?]?;
    let status = run(rt, alloc, words.as_slice(), &mut ends);
    match ends.pop() {
        Some(end) => Ok(
            told(&status) == wanted
                && end.sink.bytes.as_slice() == written.as_bytes()
                && end.source.rest.len() == 6,
        ),
        None => Ok(false),
    }
}

#[test]
fn a_run_counts_the_uses_of_a_start_text(rt: HostRuntime) -> Result<(), AllocError> {
    for row in &ROWS {
        assert!(rt; counts_as_told(&rt, rt.alloc(), &["count", "--start", "start"], row)?);
        assert!(rt; counts_as_told(&rt, rt.alloc(), &["count", "--start=start"], row)?);
    }
    let missing = ("", 0, 0, (8, 0, 9), "");
    assert!(rt; counts_as_told(&rt, rt.alloc(), &["count", "--start", "other"], &missing)?);
    Ok(())
}

#[test]
fn a_count_needs_one_end(rt: HostRuntime) -> Result<(), AllocError> {
    let alloc = rt.alloc();
    let words = words_of(alloc, &["count", "--start", "start"])?;
    let two = end_of(alloc, "", 0, 0)?;
    let mut ends = vec![in alloc; end_of(alloc, "", 0, 0)?, two]?;
    let status = run(&rt, alloc, words.as_slice(), &mut ends);
    assert_eq!(rt; told(&status), (2, 2, 2));
    Ok(())
}
