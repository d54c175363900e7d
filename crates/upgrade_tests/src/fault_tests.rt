// What is no sheet, for both commands that read one.
use crate::run_tests::{STEADY, run_word, status};
use std::alloc::AllocError;

/// What is no sheet, and the line and cause of its first fault.
const WRONG: [(&[u8], u64, u32); 33] = [
    (b"", 1, 2),
    (b"insynth sheet 3\ntype A\ngoal A", 1, 2),
    (b"insynth sheet\ntype A\ngoal A", 1, 2),
    (b"insynth sheet 2\ntype A\ngoal A\nbound \xff", 4, 1),
    (b"insynth sheet 1\ntype A\ngoal A\nbound 1", 4, 3),
    (b"insynth sheet 1\ntype A\ngoal A\nbinding 1", 4, 3),
    (b"insynth sheet 1\ntype A\ngoal A\nstep 1", 4, 3),
    (b"insynth sheet 2\ntype A\ngoal A\nbound", 4, 3),
    (b"insynth sheet 2\ntype A\ngoal A\nbinding 1 1", 4, 3),
    (b"insynth sheet 2\ntype A\ngoal A\nstep 1 10", 4, 3),
    (b"insynth sheet 2\ntype A\ngoal A\nbound 0000000001", 4, 4),
    (b"insynth sheet 2\ntype A\ngoal A\nstep -1", 4, 4),
    (b"insynth sheet 2\ntype A\ngoal B", 3, 5),
    (b"insynth sheet 2\ntype A\ntype A\ngoal A", 3, 6),
    (b"insynth sheet 2\nbound 1\ntype A\ngoal A\nbound 1", 5, 7),
    (
        b"insynth sheet 2\nbinding 1\ntype A\ngoal A\nbinding 1",
        5,
        7,
    ),
    (b"insynth sheet 2\nstep 1\ntype A\ngoal A\nstep 1", 5, 7),
    (b"insynth sheet 2\ntype A\nbound 1", 4, 8),
    (b"insynth sheet 2\ntype A\ngoal A\nsub A A", 4, 12),
    (b"insynth sheet 2\ntype A\ngoal A\ndecl 4 A name a", 4, 14),
    (
        b"insynth sheet 2\ntype A\ngoal A\ndecl 10001 A name a",
        4,
        14,
    ),
    (b"insynth sheet 2\ntype A\ngoal A\nlimit 0", 4, 15),
    (b"insynth sheet 2\ntype A\ngoal A\nlimit 10001", 4, 15),
    (b"insynth sheet 2\ntype A\ngoal A\nbound 0", 4, 19),
    (b"insynth sheet 2\ntype A\ngoal A\nbound 101", 4, 19),
    (b"insynth sheet 2\ntype A\ngoal A\nbinding 0", 4, 19),
    (b"insynth sheet 2\ntype A\ngoal A\nbinding 101", 4, 19),
    (b"insynth sheet 2\ntype A\ngoal A\nstep 0", 4, 19),
    (b"insynth sheet 2\ntype A\ngoal A\nstep 10001", 4, 19),
    (b"insynth sheet 2\ntype A\ngoal A\nstep 999999999", 4, 19),
    (b"insynth sheet 2\nstep 0\nbound 0\ntype A\ngoal A", 3, 19),
    (b"insynth sheet 2\nstep 0\nbinding 0\ntype A\ngoal A", 3, 19),
    (b"insynth sheet 2\nstep 0\ntype A\ngoal A\nsub A A", 2, 19),
];

#[test]
fn what_is_no_sheet_is_refused_by_both_commands(rt: HostRuntime) -> Result<(), AllocError> {
    for (input, place, cause) in WRONG {
        for word in ["list", "upgrade"] {
            let found = run_word(&rt, rt.alloc(), word, input, STEADY)?;
            assert_eq!(rt; found.status, status(3, place, cause));
            assert!(rt; found.written.is_empty());
        }
    }
    Ok(())
}
