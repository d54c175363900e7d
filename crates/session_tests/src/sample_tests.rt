use crate::words::words_of;
use lists::Items;
use outside::{End, FaultPlan, MemShelf, MemSink, MemSource};
use serving::{Status, run};
use std::alloc::{AllocError, Global};
use std::sync::Wait;
use std::thread::Threads;

/// The lines of the sample of 1, which another program made.
const LINES: &str = "classes 200\ngoal C31\nitems 18\nlast yes\nweights 1010 3030\nbytes 598\n";

/// One end into which this write fails.
fn end_of(
    alloc: Global,
    write: u64,
) -> Result<End<MemSource<'static>, MemSink, MemShelf>, AllocError> {
    Ok(End {
        source: MemSource::new(b"unread", FaultPlan::none(alloc)),
        sink: MemSink::new(alloc, FaultPlan::new(Items::from_slice(alloc, &[write])?)),
        shelf: MemShelf::new(Items::new(alloc), FaultPlan::none(alloc)),
    })
}

/// Whether a run of `sample` with this word over one end has this code and writes this.
fn samples_as_told<R: Threads + Wait + Sync>(
    rt: &R,
    alloc: Global,
    number: &str,
    write: u64,
    code: u8,
    written: &str,
) -> Result<bool, AllocError> {
    let words = words_of(alloc, &["sample", number])?;
    let mut ends = vec![in alloc; end_of(alloc, write)?]?;
    let status = run(rt, alloc, words.as_slice(), &mut ends);
    match ends.pop() {
        Some(end) => Ok(
            status == Status::plain(code)
                && end.sink.bytes.as_slice() == written.as_bytes()
                && end.source.rest.len() == 6,
        ),
        None => Ok(false),
    }
}

#[test]
fn a_run_tells_the_sample_of_a_number(rt: HostRuntime) -> Result<(), AllocError> {
    let alloc = rt.alloc();
    assert!(rt; samples_as_told(&rt, alloc, "1", 0, 0, LINES)?);
    assert!(rt; samples_as_told(&rt, alloc, "0000001", 0, 0, LINES)?);
    assert!(rt; samples_as_told(&rt, alloc, "1", 1, 5, "")?);
    Ok(())
}

#[test]
fn a_sample_needs_one_end(rt: HostRuntime) -> Result<(), AllocError> {
    let alloc = rt.alloc();
    let words = words_of(alloc, &["sample", "1"])?;
    let two = end_of(alloc, 0)?;
    let mut ends = vec![in alloc; end_of(alloc, 0)?, two]?;
    let status = run(&rt, alloc, words.as_slice(), &mut ends);
    assert_eq!(rt; status, Status::usage(2, 2));
    Ok(())
}
