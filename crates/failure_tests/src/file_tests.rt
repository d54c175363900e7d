// A class file that is cut at each byte, or in which one byte is changed, is refused at the first violation.
use crate::load_tests::{A, are_answered};
use std::alloc::{AllocError, Global};
use std::sync::Wait;
use std::test::Fail;
use std::thread::Threads;

const PUBLISH: &str =
    r#"{"jsonrpc":"2.0","id":2,"method":"workspace/executeCommand","params":{"command":"insynth.publish","arguments":[{"put":["file:///A.class"]}]}}"#;

/// Whether a publication of these bytes is refused, since this cause is violated at this place.
fn is_refused<R: Threads + Wait + Sync>(
    rt: &R,
    alloc: Global,
    bytes: &[u8],
    cause: u32,
    place: usize,
) -> Result<bool, AllocError> {
    let told = format!(in alloc;
        r#"{{"error":{{"code":-32602,"data":{{"at":{place},"cause":11,"class":{cause},"index":0}},"message":"invalid params"}},"id":2,"jsonrpc":"2.0"}}"#
    )?;
    are_answered(rt, alloc, &[("/A.class", bytes)], &[], &[(PUBLISH, &told)])
}

#[test]
fn a_class_file_may_be_cut_anywhere(rt: HostRuntime) -> Result<(), Fail> {
    for length in 0..53 {
        assert!(rt; is_refused(&rt, rt.alloc(), &A[..length], 1, length)?);
    }
    Ok(())
}

/// A place of the file and its new byte, and the cause that is violated and where: the magic number; a version before 45;
/// an entry of no kind; a pool of one entry less, behind which 24,879 interfaces are counted.
const CHANGES: [(usize, u8, u32, usize); 4] = [
    (0, 0x00, 2, 0),
    (7, 44, 3, 6),
    (10, 0x02, 4, 10),
    (9, 0x04, 1, 53),
];

#[test]
fn a_byte_of_a_class_file_may_be_changed(rt: HostRuntime) -> Result<(), Fail> {
    for (changed, value, cause, place) in CHANGES {
        let mut bytes = A;
        if let Some(byte) = bytes.get_mut(changed) {
            *byte = value;
        }
        assert!(rt; is_refused(&rt, rt.alloc(), &bytes, cause, place)?);
    }
    Ok(())
}
