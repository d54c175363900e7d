// The lines of samples. The expected ones come from another program, which draws the classes by the same generator and lists the
// terms by the rules.
use crate::{sample_lines, write_sample};
use lists::Items;
use outside::{FaultPlan, MemSink};
use std::test::*;

/// Numbers of samples, and their lines.
const ROWS: [(u32, &str); 3] = [
    (
        1,
        "classes 200\ngoal C31\nitems 18\nlast yes\nweights 1010 3030\nbytes 598\n",
    ),
    (
        3,
        "classes 200\ngoal C121\nitems 1\nlast yes\nweights 4000 4000\nbytes 35\n",
    ),
    (
        1_000_000,
        "classes 200\ngoal C152\nitems 0\nlast yes\nweights 0 0\nbytes 0\n",
    ),
];

#[test]
fn a_sample_has_its_lines(rt: HostRuntime) -> Result<(), Fail> {
    for (n, wanted) in ROWS {
        let lines = sample_lines(rt.alloc(), n)?;
        assert!(rt; lines.as_str() == wanted, "{n}: {}", lines.as_str());
    }
    Ok(())
}

#[test]
fn a_sink_that_fails_has_a_prefix_of_the_lines(rt: HostRuntime) -> Result<(), Fail> {
    let alloc = rt.alloc();
    let mut sink = MemSink::new(alloc, FaultPlan::new(Items::from_slice(alloc, &[3])?));
    sink.most = 8;
    assert!(rt; write_sample(alloc, 1, &mut sink).is_err());
    assert!(rt; sink.bytes.as_slice() == b"classes 200\ngoal".as_slice());
    Ok(())
}
