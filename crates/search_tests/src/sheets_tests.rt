use sheets::{SheetFault, read_sheet};
use std::alloc::{AllocError, Global};
use terms::{Arg, Form};

/// The fault of a sheet whose lines after the first are these; line 0 and cause 0 where there is none.
fn fault(alloc: Global, body: &str) -> Result<(u32, u32), AllocError> {
    let mut text = String::from_str(alloc, "insynth sheet 1\n")?;
    text.push_str(body)?;
    found(alloc, text.as_bytes())
}

fn found(alloc: Global, bytes: &[u8]) -> Result<(u32, u32), AllocError> {
    match read_sheet(alloc, bytes) {
        Ok(_) => Ok((0, 0)),
        Err(SheetFault::At(line, cause)) => Ok((line, cause)),
        Err(SheetFault::OutOfMemory) => Err(AllocError),
    }
}

/// Sheets without their first line, each with the line and the cause of its first fault.
const FAULTS: [(&str, u32, u32); 51] = [
    (
        "type int\ntype long\nsub int long\ndecl 5 int name x\ndecl 20 int call f long\ngoal long\nlimit 75",
        0,
        0,
    ),
    ("type int\r\ngoal int\r\n", 0, 0),
    ("# a comment\r with a return\n\ntype int\n#\ngoal int", 0, 0),
    (
        "type ->\ndecl 5 -> lambda S -> -> ->\ngoal ->\ndepth 0\nbinder q\nlimit 000000001",
        0,
        0,
    ),
    (
        "type int\ntype P\ndecl 5 P this\ndecl 20 int field k P\ndecl 20 int hidden-field j P\ngoal int",
        0,
        0,
    ),
    (
        "type A\ntype B\nsub B A\ndecl 5 B name b\ncrowded 25 A method m A\ndecl 5 A new A\ngoal A\nlimit 70",
        0,
        0,
    ),
    ("type int\nsub int short", 3, 5),
    ("type int\ngoal int\nlimit 0", 4, 15),
    (
        "type int\ntype long\ntype A\nsub int long\nsub long A\ngoal A",
        8,
        16,
    ),
    ("type int\ngoal int\ndepth 4", 4, 17),
    (
        "type int\ndecl 5 int name x\nsub int int\ngoal int\ndecl 4 int name y\nlimit 0",
        7,
        15,
    ),
    ("type int\ndecl 4 int name x\nsub int int\ngoal int", 4, 12),
    (
        "type int\ntype long\nsub int long\nsub int long\ngoal int",
        5,
        13,
    ),
    (
        "type int\ndecl 5 int name x\ndecl 4 int name y\ngoal int",
        4,
        14,
    ),
    ("type int\ngoal int\ndecl 10001 int name y", 4, 14),
    ("type int\ngoal int\n\ndecl 5 int name x int", 5, 18),
    ("type int\ngoal int\ndecl 5 int method m", 4, 18),
    ("type int\ngoal int\ndecl 5 int this int", 4, 18),
    ("type int\ngoal int\ndecl 5 int field k", 4, 18),
    ("type int\ntype int", 3, 6),
    ("type int", 3, 8),
    ("", 2, 8),
    ("goal int", 2, 5),
    ("type int\ngoal int\ngoal x", 4, 5),
    ("type int\ngoal int\ngoal int", 4, 7),
    ("type int\ngoal int\nlimit 5\nlimit 1234567890", 5, 4),
    ("type int\ngoal int\nlimit 5\nlimit 6", 5, 7),
    ("type int\ndepth 1\ndepth 1", 4, 7),
    ("binder p\nbinder p", 3, 7),
    ("limit -1", 2, 4),
    ("limit", 2, 3),
    ("limit ", 2, 3),
    ("type  int", 2, 3),
    (" type int", 2, 3),
    (" ", 2, 3),
    ("type int \n", 2, 3),
    ("type a\rb", 2, 3),
    ("type int\r", 2, 3),
    ("Type int", 2, 3),
    ("type int\ndecl 5 int name", 3, 3),
    ("type int\ndecl x short name y", 3, 4),
    ("type int\ndecl 5 int call f short", 3, 5),
    ("type int\ndecl 5 int lambda S int int", 3, 3),
    ("type int\nlimit 0", 4, 8),
    ("type int\nnonsense", 3, 3),
    (
        "type int\ntype long\ntype A\nsub int long\nsub int long\nsub long A\ngoal A",
        6,
        13,
    ),
    (
        "type int\ntype long\ntype A\nsub int long\nsub long A\nsub int int\ngoal A",
        7,
        12,
    ),
    (
        "type int\ntype long\ntype A\nsub int long\nsub long A\ndecl 4 int name x\ngoal A",
        9,
        16,
    ),
    (
        "type int\ngoal int\ndecl 5 int name x int\ndecl 4 int name y",
        4,
        18,
    ),
    (
        "type int\ngoal int\ndecl 4 int name y\ndecl 5 int name x int",
        4,
        14,
    ),
    ("type int\ngoal int\ndecl 4 int name x int", 4, 14),
];

#[test]
fn first_faults_of_sheets(rt: HostRuntime) -> Result<(), AllocError> {
    for (body, line, cause) in FAULTS {
        assert_eq!(rt; fault(rt.alloc(), body)?, (line, cause));
    }
    Ok(())
}

/// Lines that bring a fault to a good sheet, each with its cause and with when it is looked for: 0 as the lines
/// are read, else by the order in which the environment is looked at.
const FLAWS: [(&str, u32, u32); 12] = [
    ("nonsense", 3, 0),
    ("limit x", 4, 0),
    ("sub int short", 5, 0),
    ("type int", 6, 0),
    ("binder q", 7, 0),
    ("limit 0", 15, 1),
    ("depth 4", 17, 2),
    ("sub int int", 12, 3),
    ("sub int long", 13, 3),
    ("sub long A", 16, 4),
    ("decl 4 int name x", 14, 5),
    ("decl 5 int name x int", 18, 5),
];

/// A good sheet of seven lines where the goal is `goal int`.
fn sheet(alloc: Global, goal: &str, more: &str) -> Result<String, AllocError> {
    format!(in alloc;
        "insynth sheet 1\ntype int\ntype long\ntype A\nsub int long\nbinder p\n{goal}\n{more}"
    )
}

/// The fault of a good sheet with two further lines, the lines 8 and 9.
fn of_two(alloc: Global, first: &str, second: &str) -> Result<(u32, u32), AllocError> {
    let more = format!(in alloc; "{first}\n{second}")?;
    let text = sheet(alloc, "goal int", &more)?;
    found(alloc, text.as_bytes())
}

/// The place of a fault: a missing pair stands at the sheet's end.
fn at(line: u32, cause: u32, end: u32) -> (u32, u32) {
    if cause == 16 {
        (end, cause)
    } else {
        (line, cause)
    }
}

#[test]
fn of_two_faults_the_first_is_answered(rt: HostRuntime) -> Result<(), AllocError> {
    for (one, cause, when) in FLAWS {
        for (two, other, later) in FLAWS {
            let wanted = if when <= later {
                at(8, cause, 10)
            } else {
                at(9, other, 10)
            };
            if one != two {
                assert_eq!(rt; of_two(rt.alloc(), one, two)?, wanted);
            }
        }
    }
    Ok(())
}

#[test]
fn each_fault_stands_at_its_line(rt: HostRuntime) -> Result<(), AllocError> {
    for (flaw, cause, _) in FLAWS {
        let text = sheet(rt.alloc(), "goal int", flaw)?;
        assert_eq!(rt; found(rt.alloc(), text.as_bytes())?, at(8, cause, 9));
    }
    Ok(())
}

// Line faults come before the missing goal, and that before what the environment refuses.
#[test]
fn a_missing_goal_stands_at_the_end(rt: HostRuntime) -> Result<(), AllocError> {
    for (flaw, cause, when) in FLAWS {
        let wanted = if when == 0 { (8, cause) } else { (9, 8) };
        let text = sheet(rt.alloc(), "#", flaw)?;
        assert_eq!(rt; found(rt.alloc(), text.as_bytes())?, wanted);
    }
    Ok(())
}

/// A sheet whose first line is another, a sheet with a bad byte at its end, and a sheet that is too long.
fn spoiled(alloc: Global, flaw: &str, end: &[u8]) -> Result<(u32, u32), AllocError> {
    let text = sheet(alloc, "goal int", flaw)?;
    let mut bytes = Vec::new(alloc);
    bytes.extend_from_slice(text.as_bytes())?;
    bytes.extend_from_slice(end)?;
    found(alloc, bytes.as_slice())
}

#[test]
fn a_first_line_comes_before_the_others(rt: HostRuntime) -> Result<(), AllocError> {
    for (flaw, _, _) in FLAWS {
        let text = format!(in rt.alloc(); "insynth sheet 3\ntype int\n{flaw}")?;
        assert_eq!(rt; found(rt.alloc(), text.as_bytes())?, (1, 2));
    }
    Ok(())
}

// Bytes that are no text come before all faults of lines, and the length before these.
#[test]
fn lengths_and_bytes_come_before_the_lines(rt: HostRuntime) -> Result<(), AllocError> {
    let mut long = vec![in rt.alloc(); b'#'; 16_777_217]?;
    for (flaw, _, _) in FLAWS {
        assert_eq!(rt; spoiled(rt.alloc(), flaw, b"\n\xff")?, (9, 1));
        assert_eq!(rt; spoiled(rt.alloc(), flaw, long.as_slice())?, (0, 9));
    }
    if let Some(byte) = long.get_mut(0) {
        *byte = 255;
    }
    assert_eq!(rt; found(rt.alloc(), long.as_slice())?, (0, 9));
    Ok(())
}

#[test]
fn first_lines_bytes_and_lengths(rt: HostRuntime) -> Result<(), AllocError> {
    let alloc = rt.alloc();
    assert_eq!(rt; found(alloc, b"")?, (1, 2));
    assert_eq!(rt; found(alloc, b"insynth sheet 1\r")?, (1, 2));
    assert_eq!(rt;
        found(alloc, "\u{feff}insynth sheet 1\n".as_bytes())?,
        (1, 2)
    );
    assert_eq!(rt; found(alloc, b"insynth sheet 1")?, (2, 8));
    assert_eq!(rt; found(alloc, b"insynth sheet 2\r\n")?, (2, 8));
    assert_eq!(rt; found(alloc, b"insynth sheet 2 ")?, (1, 2));
    assert_eq!(rt; found(alloc, b"insynth sheet 02")?, (1, 2));
    assert_eq!(rt; found(alloc, b"insynth sheet 3")?, (1, 2));
    assert_eq!(rt; found(alloc, b"insynth sheet 2\n\xff")?, (2, 1));
    assert_eq!(rt; found(alloc, b"\n\n\xc3\n")?, (3, 1));
    Ok(())
}

#[test]
fn a_sheet_says_its_parts(rt: HostRuntime) -> Result<(), AllocError> {
    let sheet = "insynth sheet 1\ntype int\ntype I\nsub int I\ndecl 5 int name x\n\
        crowded 10 I lambda I int I -> int\ndecl 20 int hidden-field k I\ngoal I";
    match read_sheet(rt.alloc(), sheet.as_bytes()) {
        Ok(env) => {
            let parts = env.parts();
            assert!(rt; parts.types.len() == 2 && parts.pairs.as_slice() == &[(0u32, 1u32)][..]);
            assert!(rt; parts.goal == 1 && parts.limit == 4000 && parts.depth == 1);
            assert_eq!(rt; parts.binder.as_str(), "p");
            let decls = parts.decls.as_slice();
            assert!(rt; decls.len() == 3 && decls[0].weight == 5 && !decls[0].crowded);
            assert!(rt; decls[1].crowded && decls[1].result == 1 && decls[1].args.len() == 1);
            assert!(rt;
                matches!(&decls[1].args.as_slice()[0], Arg::Fun(params, 0) if params.as_slice() == &[0u32, 1][..])
            );
            assert!(rt; matches!(&decls[1].form, Form::Lambda(name) if name.as_str() == "I"));
            assert!(rt; matches!(&decls[2].form, Form::Field(name, true) if name.as_str() == "k"));
        }
        Err(_) => return Err(AllocError),
    }
    Ok(())
}
