use sheets::{SheetFault, read_sheet, sheet_text};
use std::alloc::{AllocError, Global};

/// The fault of bytes that are read as a sheet; line 0 and cause 0 where there is none.
fn fault(alloc: Global, sheet: &str) -> Result<(u32, u32), AllocError> {
    match read_sheet(alloc, sheet.as_bytes()) {
        Ok(_) => Ok((0, 0)),
        Err(SheetFault::At(line, cause)) => Ok((line, cause)),
        Err(SheetFault::OutOfMemory) => Err(AllocError),
    }
}

/// A sheet with this first line, one type, one use of it and these lines.
fn sheet(alloc: Global, first: &str, more: &str) -> Result<String, AllocError> {
    format!(in alloc; "{first}\ntype int\ngoal int\n{more}")
}

/// Lines of a sheet 2 from the fourth on, each with the line and the cause of the sheet's first fault.
const NEWER: [(&str, u32, u32); 28] = [
    ("", 0, 0),
    ("bound 1\nbinding 1\nstep 1", 0, 0),
    ("bound 100\nbinding 100\nstep 10000", 0, 0),
    ("step 000010000\nbinding 000000100\nbound 000000001", 0, 0),
    ("bound 0", 4, 19),
    ("bound 101", 4, 19),
    ("#\nbinding 0", 5, 19),
    ("binding 101", 4, 19),
    ("step 0", 4, 19),
    ("step 10001", 4, 19),
    ("step 0\nbinding 0\nbound 0", 6, 19),
    ("step 0\nbinding 0", 5, 19),
    ("step 0\nlimit 0", 5, 15),
    ("step 0\ndepth 4", 5, 17),
    ("sub int int\nstep 0", 5, 19),
    ("step 0\ndecl 4 int name x", 4, 19),
    ("bound 5\nbound 5", 5, 7),
    ("binding 5\n\nbinding 5", 6, 7),
    ("step 5\nstep 6", 5, 7),
    ("step 5\nstep x", 5, 4),
    ("bound 1234567890", 4, 4),
    ("step", 4, 3),
    ("bound", 4, 3),
    ("binding", 4, 3),
    ("bound 5 5", 4, 3),
    ("binding 5 5", 4, 3),
    ("step 5 5", 4, 3),
    ("bound 5 ", 4, 3),
];

#[test]
fn first_faults_of_sheets_2(rt: HostRuntime) -> Result<(), AllocError> {
    for (more, line, cause) in NEWER {
        let text = sheet(rt.alloc(), "insynth sheet 2", more)?;
        assert_eq!(rt; fault(rt.alloc(), &text)?, (line, cause));
    }
    Ok(())
}

#[test]
fn a_sheet_1_has_no_such_lines(rt: HostRuntime) -> Result<(), AllocError> {
    for more in [
        "bound 1",
        "binding 1",
        "step 10",
        "step x",
        "bound 1\nbound 1",
    ] {
        let text = sheet(rt.alloc(), "insynth sheet 1", more)?;
        assert_eq!(rt; fault(rt.alloc(), &text)?, (4, 3));
    }
    Ok(())
}

/// What is written of the environment that a sheet says.
fn written(alloc: Global, sheet: &str) -> Result<String, AllocError> {
    match read_sheet(alloc, sheet.as_bytes()) {
        Ok(env) => Ok(sheet_text(alloc, &env)?.into_string()),
        Err(_) => Err(AllocError),
    }
}

/// Sheets, each with what is written of its environment.
const WRITTEN: [(&str, &str); 4] = [
    (
        "insynth sheet 1\ntype int\ndecl 5 int name x\ndecl 20 int call f int\ngoal int\nlimit 50",
        "insynth sheet 2\ntype int\ndecl 5 int name x\ndecl 20 int call f int\ngoal int\nlimit 50\ndepth 1\nbinder p\n\
         bound 1\nbinding 1\nstep 10\n",
    ),
    (
        "insynth sheet 2\nstep 7\ntype \u{e9}\nlimit 000000010\ngoal \u{e9}\nbinder \u{e9}\nbound 2\ntype #\nsub \u{e9} #\n\
         depth 0\nbinding 3\n",
        "insynth sheet 2\ntype \u{e9}\ntype #\nsub \u{e9} #\ngoal \u{e9}\nlimit 10\ndepth 0\nbinder \u{e9}\nbound 2\n\
         binding 3\nstep 7\n",
    ),
    (
        "insynth sheet 1\r\n# a comment\ntype A\n\ntype B\ncrowded 5 A this\ndecl 6 A new A B\ndecl 10000 B method m A\n\
         decl 8 B field k A\ncrowded 9 B hidden-field k A\ndecl 00010 B lambda B A B -> A\ndecl 11 A lambda -> -> B\ngoal B",
        "insynth sheet 2\ntype A\ntype B\ncrowded 5 A this\ndecl 6 A new A B\ndecl 10000 B method m A\n\
         decl 8 B field k A\ncrowded 9 B hidden-field k A\ndecl 10 B lambda B A B -> A\ndecl 11 A lambda -> -> B\ngoal B\n\
         limit 4000\ndepth 1\nbinder p\nbound 1\nbinding 1\nstep 10\n",
    ),
    (
        "insynth sheet 2\ntype ->\ntype C\ntype D\nsub D C\nsub C ->\nsub D ->\ndecl 5 -> lambda S -> C -> ->\ngoal ->",
        "insynth sheet 2\ntype ->\ntype C\ntype D\nsub D C\nsub C ->\nsub D ->\ndecl 5 -> lambda S -> C -> ->\ngoal ->\n\
         limit 4000\ndepth 1\nbinder p\nbound 1\nbinding 1\nstep 10\n",
    ),
];

// What was written is a sheet of the same environment, so it is written once more as it is.
#[test]
fn environments_are_written_as_sheets(rt: HostRuntime) -> Result<(), AllocError> {
    for (sheet, text) in WRITTEN {
        let first = written(rt.alloc(), sheet)?;
        assert_eq!(rt; first.as_str(), text);
        assert_eq!(rt; written(rt.alloc(), &first)?.as_str(), text);
    }
    Ok(())
}
