// What is listed of sheets 2, and what is written of sheets anew.
use crate::run_tests::{Conduct, STEADY, run_word, status};
use std::alloc::AllocError;

/// Sheets 2 without their first line, and their lists.
const LISTED: [(&str, &str); 6] = [
    (
        "type int\ntype I\ndecl 5 int name x\ndecl 10 I lambda I int -> int\ngoal I\nlimit 20\ndepth 1\nbound 3\nbinding 2",
        "15 (I) (p0) -> p0\n17 (I) (p0) -> x\n",
    ),
    (
        "type int\ntype long\nsub int long\ndecl 5 int name x\ndecl 20 int call f long\ngoal long\nlimit 75\nstep 1",
        "6 x\n27 f(x)\n48 f(f(x))\n69 f(f(f(x)))\n",
    ),
    (
        "step 1\ntype int\ntype long\nsub int long\ndecl 5 int name x\ngoal long",
        "6 x\n",
    ),
    (
        "type int\ntype long\nsub int long\ndecl 5 int name x\ngoal long\nlimit 20\nstep 10000",
        "",
    ),
    (
        "type int\ntype I\ndecl 10 I lambda I int -> int\ngoal I\nlimit 210\nbound 100\nbinding 100",
        "210 (I) (p0) -> p0\n",
    ),
    (
        "type int\ntype I\ndecl 10 I lambda I int -> int\ngoal I\nlimit 209\nbound 100\nbinding 100",
        "",
    ),
];

#[test]
fn sheets_2_are_listed_by_their_weights(rt: HostRuntime) -> Result<(), AllocError> {
    let alloc = rt.alloc();
    for (sheet, wanted) in LISTED {
        let text = format!(in alloc; "insynth sheet 2\n{sheet}")?;
        let found = run_word(&rt, alloc, "list", text.as_bytes(), STEADY)?;
        assert_eq!(rt; found.status, status(0, 0, 0));
        assert_eq!(rt; found.written.as_slice(), wanted.as_bytes());
    }
    Ok(())
}

/// Sheets, and what is written for them anew, without its first line.
const UPGRADED: [(&str, &str); 7] = [
    (
        "insynth sheet 1\ntype int\ndecl 5 int name x\ndecl 20 int call f int\ngoal int\nlimit 50",
        "type int\ndecl 5 int name x\ndecl 20 int call f int\ngoal int\nlimit 50\ndepth 1\nbinder p\nbound 1\nbinding 1\nstep 10\n",
    ),
    (
        "insynth sheet 1\r\n# none\r\n\r\nlimit 000000700\r\ntype A\r\ngoal A\r\ndecl 005 A new A\r\ntype B\r\nsub B A\r\n",
        "type A\ntype B\nsub B A\ndecl 5 A new A\ngoal A\nlimit 700\ndepth 1\nbinder p\nbound 1\nbinding 1\nstep 10\n",
    ),
    (
        "insynth sheet 1\ntype A\ntype B\nsub B A\ndecl 5 B name b\ncrowded 25 A method m A\ngoal A\nlimit 70",
        "type A\ntype B\nsub B A\ndecl 5 B name b\ncrowded 25 A method m A\ngoal A\nlimit 70\ndepth 1\nbinder p\nbound 1\nbinding 1\nstep 10\n",
    ),
    (
        "insynth sheet 1\ntype int\ntype P\ndecl 5 P this\ndecl 20 int field k P\ncrowded 20 int hidden-field j P\ngoal int\ndepth 0",
        "type int\ntype P\ndecl 5 P this\ndecl 20 int field k P\ncrowded 20 int hidden-field j P\ngoal int\nlimit 4000\ndepth 0\nbinder p\nbound 1\nbinding 1\nstep 10\n",
    ),
    (
        "insynth sheet 2\nbinding 2\nbinder q\nbound 3\ntype int\ntype I\ntype J\ndecl 10 I lambda I int -> int\ndecl 10 J lambda J int I -> I\ndecl 9 J call g\ngoal J\ndepth 2\nlimit 1",
        "type int\ntype I\ntype J\ndecl 10 I lambda I int -> int\ndecl 10 J lambda J int I -> I\ndecl 9 J call g\ngoal J\nlimit 1\ndepth 2\nbinder q\nbound 3\nbinding 2\nstep 10\n",
    ),
    (
        "insynth sheet 2\nstep 10000\nbound 100\nbinding 100\nlimit 10000\ntype ü\ndecl 10000 ü name ->\ngoal ü\nbinder #",
        "type ü\ndecl 10000 ü name ->\ngoal ü\nlimit 10000\ndepth 1\nbinder #\nbound 100\nbinding 100\nstep 10000\n",
    ),
    (
        "insynth sheet 2\ntype A\ngoal A",
        "type A\ngoal A\nlimit 4000\ndepth 1\nbinder p\nbound 1\nbinding 1\nstep 10\n",
    ),
];

#[test]
fn a_sheet_is_written_anew(rt: HostRuntime) -> Result<(), AllocError> {
    let alloc = rt.alloc();
    for (sheet, wanted) in UPGRADED {
        let text = format!(in alloc; "insynth sheet 2\n{wanted}")?;
        for most in [1usize, 7, 100_000] {
            let conduct = Conduct {
                most,
                read: 0,
                write: 0,
            };
            let found = run_word(&rt, alloc, "upgrade", sheet.as_bytes(), conduct)?;
            assert_eq!(rt; found.status, status(0, 0, 0));
            assert_eq!(rt; found.written.as_slice(), text.as_bytes());
        }
    }
    Ok(())
}

#[test]
fn what_is_written_anew_says_the_same(rt: HostRuntime) -> Result<(), AllocError> {
    let alloc = rt.alloc();
    for (sheet, _) in UPGRADED {
        let new = run_word(&rt, alloc, "upgrade", sheet.as_bytes(), STEADY)?;
        let again = run_word(&rt, alloc, "upgrade", new.written.as_slice(), STEADY)?;
        assert_eq!(rt; again.status, status(0, 0, 0));
        assert_eq!(rt; again.written.as_slice(), new.written.as_slice());
        let before = run_word(&rt, alloc, "list", sheet.as_bytes(), STEADY)?;
        let after = run_word(&rt, alloc, "list", new.written.as_slice(), STEADY)?;
        assert_eq!(rt; after.status, before.status);
        assert_eq!(rt; after.written.as_slice(), before.written.as_slice());
    }
    Ok(())
}
