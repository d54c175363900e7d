use json_rpc::{FrameFault, Frames, read_frames};
use outside::{FaultPlan, MemSource};
use std::alloc::Global;
use std::test::Fail;

/// Three frames, of which the second has an empty body.
const INPUT: &[u8] =
    b"Content-Length: 4\r\n\r\nonceContent-Length: 0\r\n\r\nContent-Length: 6\r\n\r\nlatest";

const BODIES: [&[u8]; 3] = [b"once", b"", b"latest"];

/// The input, given in pieces that end within its parts.
fn source(alloc: Global) -> MemSource<'static> {
    let mut source = MemSource::new(INPUT, FaultPlan::none(alloc));
    source.most = 7;
    source
}

/// Whether these are the first bodies of the input.
fn are_first(bodies: &[Vec<u8>]) -> bool {
    if bodies.len() > BODIES.len() {
        return false;
    }
    for (body, wanted) in bodies.iter().zip(BODIES) {
        if body.as_slice() != wanted {
            return false;
        }
    }
    true
}

/// Whether all frames are read into an empty list.
fn are_all_read(alloc: Global) -> bool {
    let mut bodies = Vec::new(alloc);
    let end = read_frames(alloc, &mut source(alloc), &mut bodies);
    end.is_none() && bodies.len() == BODIES.len() && are_first(bodies.as_slice())
}

#[test]
fn the_frames_before_a_want_of_memory_are_kept(rt: HostRuntime) -> Result<(), Fail> {
    let alloc = rt.alloc();
    let mut bodies = Vec::new(alloc);
    let end = read_frames(alloc, &mut source(alloc), &mut bodies);
    assert!(rt; are_first(bodies.as_slice()));
    if end.is_some() {
        assert!(rt; end == Some(FrameFault::OutOfMemory));
        assert!(rt; are_all_read(alloc));
    } else {
        assert_eq!(rt; bodies.len(), BODIES.len());
    }
    Ok(())
}

/// The next body, asked for again where memory was wanting.
fn next_body(
    alloc: Global,
    frames: &mut Frames,
    source: &mut MemSource<'static>,
) -> Result<Option<Vec<u8>>, FrameFault> {
    match frames.next(alloc, source) {
        Err(FrameFault::OutOfMemory) => frames.next(alloc, source),
        answer => answer,
    }
}

/// Whether a body was given, and this one.
fn is_body(answer: &Result<Option<Vec<u8>>, FrameFault>, wanted: &[u8]) -> bool {
    match answer {
        Ok(Some(body)) => body.as_slice() == wanted,
        _ => false,
    }
}

#[test]
fn frames_go_on_after_a_want_of_memory(rt: HostRuntime) -> Result<(), Fail> {
    let alloc = rt.alloc();
    let mut frames = Frames::new(alloc);
    let mut source = source(alloc);
    for wanted in BODIES {
        let body = next_body(alloc, &mut frames, &mut source);
        assert!(rt; is_body(&body, wanted));
    }
    let end = next_body(alloc, &mut frames, &mut source);
    assert!(rt; matches!(&end, Ok(None)));
    Ok(())
}
