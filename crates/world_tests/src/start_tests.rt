use decl_index::Index;
use known_classes::Classes;
use lists::{Items, Text};
use outside::{FaultPlan, HeldFile, LONGEST_LOAD, MemShelf, Shelf};
use start_text::{StartFault, read_start};
use std::alloc::{AllocError, Global};
use std::test::Fail;
use std::thread::Threads;
use version_board::Snapshot;

/// `public class A extends java/lang/Object`, without members.
const A: [u8; 53] = [
    0xCA, 0xFE, 0xBA, 0xBE, 0, 0, 0, 0x34, 0, 5, 7, 0, 2, 1, 0, 1, 0x41, 7, 0, 4, 1, 0, 0x10, 0x6A,
    0x61, 0x76, 0x61, 0x2F, 0x6C, 0x61, 0x6E, 0x67, 0x2F, 0x4F, 0x62, 0x6A, 0x65, 0x63, 0x74, 0,
    0x21, 0, 1, 0, 3, 0, 0, 0, 0, 0, 0, 0, 0,
];

/// The same class, abstract.
const ABSTRACT: [u8; 53] = [
    0xCA, 0xFE, 0xBA, 0xBE, 0, 0, 0, 0x34, 0, 5, 7, 0, 2, 1, 0, 1, 0x41, 7, 0, 4, 1, 0, 0x10, 0x6A,
    0x61, 0x76, 0x61, 0x2F, 0x6C, 0x61, 0x6E, 0x67, 0x2F, 0x4F, 0x62, 0x6A, 0x65, 0x63, 0x74, 4,
    0x21, 0, 1, 0, 3, 0, 0, 0, 0, 0, 0, 0, 0,
];

/// The same class, below itself.
const OWN_SUPER: [u8; 53] = [
    0xCA, 0xFE, 0xBA, 0xBE, 0, 0, 0, 0x34, 0, 5, 7, 0, 2, 1, 0, 1, 0x41, 7, 0, 4, 1, 0, 0x10, 0x6A,
    0x61, 0x76, 0x61, 0x2F, 0x6C, 0x61, 0x6E, 0x67, 0x2F, 0x4F, 0x62, 0x6A, 0x65, 0x63, 0x74, 0,
    0x21, 0, 1, 0, 1, 0, 0, 0, 0, 0, 0, 0, 0,
];

/// The same class, around itself by a row of `InnerClasses`.
const OWN_OUTER: [u8; 84] = [
    0xCA, 0xFE, 0xBA, 0xBE, 0, 0, 0, 0x34, 0, 6, 7, 0, 2, 1, 0, 1, 0x41, 7, 0, 4, 1, 0, 0x10, 0x6A,
    0x61, 0x76, 0x61, 0x2F, 0x6C, 0x61, 0x6E, 0x67, 0x2F, 0x4F, 0x62, 0x6A, 0x65, 0x63, 0x74, 1, 0,
    12, 0x49, 0x6E, 0x6E, 0x65, 0x72, 0x43, 0x6C, 0x61, 0x73, 0x73, 0x65, 0x73, 0, 0x21, 0, 1, 0,
    3, 0, 0, 0, 0, 0, 0, 0, 1, 0, 5, 0, 0, 0, 10, 0, 1, 0, 1, 0, 1, 0, 0, 0, 0,
];

fn file(alloc: Global, name: &str, bytes: &[u8]) -> Result<HeldFile, AllocError> {
    Ok(HeldFile {
        name: Text::from_str(alloc, name)?,
        bytes: Items::from_slice(alloc, bytes)?,
    })
}

/// The class files that the texts of these tests name.
const FILES: [(&str, &[u8]); 6] = [
    ("A.class", &A),
    ("dir/a name", &ABSTRACT),
    ("own.class", &OWN_SUPER),
    ("nest.class", &OWN_OUTER),
    ("cut.class", &[0xCA, 0xFE]),
    ("empty.class", &[]),
];

/// A shelf with this start text, under the name `start`, and with all class files.
fn shelf_of(alloc: Global, text: &[u8]) -> Result<MemShelf, AllocError> {
    let mut files = Items::new(alloc);
    files.push(file(alloc, "start", text)?)?;
    for (name, bytes) in &FILES {
        files.push(file(alloc, name, bytes)?)?;
    }
    Ok(MemShelf::new(files, FaultPlan::none(alloc)))
}

/// The place and the number of a fault; 0 and 0 where there is a version, 0 and 1 where the shelf failed or
/// memory was wanting.
fn told(answer: &Result<Snapshot, StartFault>) -> (u32, u32) {
    match answer {
        Ok(_) => (0, 0),
        Err(fault) => (fault.place(), fault.number().unwrap_or(1)),
    }
}

/// What is told of a start text.
fn told_of<R: Threads + Sync>(
    rt: &R,
    alloc: Global,
    text: &[u8],
) -> Result<(u32, u32), AllocError> {
    let mut shelf = shelf_of(alloc, text)?;
    Ok(told(&read_start(rt, alloc, &mut shelf, "start")))
}

/// Start texts, and the place and the number of what is wrong with them.
const TEXTS: [(&str, (u32, u32)); 18] = [
    ("", (0, 0)),
    ("\n\r\n\n", (0, 0)),
    ("A.class", (0, 0)),
    ("A.class\n", (0, 0)),
    ("A.class\r\ndir/a name\r\n", (0, 0)),
    ("A.class\r", (1, 9)),
    ("A.class\n\r", (2, 9)),
    ("\r\r\n", (1, 9)),
    (" A.class", (1, 9)),
    ("\n\r\n\nmissing\n", (4, 9)),
    ("A.class\ncut.class\nmissing", (2, 11)),
    ("A.class\nmissing\ncut.class", (2, 9)),
    ("empty.class", (1, 11)),
    ("own.class", (0, 14)),
    ("own.class\ncut.class", (2, 11)),
    ("own.class\nA.class", (0, 0)),
    ("A.class\nnest.class", (0, 18)),
    ("start", (1, 11)),
];

#[test]
fn texts_give_a_version_or_the_first_fault(rt: HostRuntime) -> Result<(), AllocError> {
    for (text, wanted) in &TEXTS {
        assert_eq!(rt; told_of(&rt, rt.alloc(), text.as_bytes())?, *wanted);
    }
    Ok(())
}

#[test]
fn the_text_itself_may_be_wrong(rt: HostRuntime) -> Result<(), AllocError> {
    assert_eq!(rt; told_of(&rt, rt.alloc(), b"missing\n\xFF")?, (0, 19));
    let long = vec![in rt.alloc(); b'x'; LONGEST_LOAD + 1]?;
    assert_eq!(rt; told_of(&rt, rt.alloc(), long.as_slice())?, (0, 19));
    assert_eq!(rt; told_of(&rt, rt.alloc(), &long.as_slice()[1..])?, (1, 9));
    let mut shelf = shelf_of(rt.alloc(), b"")?;
    assert_eq!(rt;
        told(&read_start(&rt, rt.alloc(), &mut shelf, "other")),
        (0, 9)
    );
    Ok(())
}

#[test]
fn a_class_file_may_be_too_long(rt: HostRuntime) -> Result<(), AllocError> {
    let mut shelf = shelf_of(rt.alloc(), b"\nlong\nmissing")?;
    let long = vec![in rt.alloc(); 0u8; LONGEST_LOAD + 1]?;
    shelf
        .files
        .push(file(rt.alloc(), "long", long.as_slice())?)?;
    assert_eq!(rt;
        told(&read_start(&rt, rt.alloc(), &mut shelf, "start")),
        (2, 10)
    );
    Ok(())
}

/// The flags of the class `A`, 0 where it isn't known.
fn flags_of(index: &Index) -> u16 {
    match index.find("A") {
        Some(place) => index.at(place).flags,
        None => 0,
    }
}

#[test]
fn of_two_files_of_one_class_the_later_counts(rt: HostRuntime) -> Result<(), Fail> {
    let mut shelf = shelf_of(rt.alloc(), b"A.class\ndir/a name\n")?;
    let version = read_start(&rt, rt.alloc(), &mut shelf, "start")?;
    assert_eq!(rt; (version.number, flags_of(&version.index)), (1, 0x0421));
    let mut shelf = shelf_of(rt.alloc(), b"dir/a name\nA.class\n")?;
    let version = read_start(&rt, rt.alloc(), &mut shelf, "start")?;
    assert_eq!(rt; (version.number, flags_of(&version.index)), (1, 0x0021));
    let mut shelf = shelf_of(rt.alloc(), b"")?;
    let version = read_start(&rt, rt.alloc(), &mut shelf, "start")?;
    assert_eq!(rt; (version.number, flags_of(&version.index)), (1, 0));
    Ok(())
}

/// What is told, and how often the shelf failed, where these calls of it are to fail.
fn told_failing<R: Threads + Sync>(
    rt: &R,
    alloc: Global,
    text: &[u8],
    failing: u64,
) -> Result<((u32, u32), u64), AllocError> {
    let mut shelf = shelf_of(alloc, text)?;
    shelf.plan = FaultPlan::new(Items::from_slice(alloc, &[failing])?);
    let answer = told(&read_start(rt, alloc, &mut shelf, "start"));
    Ok((answer, shelf.faults()))
}

#[test]
fn a_failure_of_the_shelf_is_told(rt: HostRuntime) -> Result<(), AllocError> {
    assert_eq!(rt;
        told_failing(&rt, rt.alloc(), b"A.class\nmissing", 1)?,
        ((0, 1), 1)
    );
    assert_eq!(rt;
        told_failing(&rt, rt.alloc(), b"A.class\nmissing", 2)?,
        ((0, 1), 1)
    );
    assert_eq!(rt;
        told_failing(&rt, rt.alloc(), b"A.class\nmissing", 3)?,
        ((0, 1), 1)
    );
    assert_eq!(rt;
        told_failing(&rt, rt.alloc(), b"A.class\nmissing", 4)?,
        ((2, 9), 0)
    );
    Ok(())
}

#[test]
fn many_files_are_read(rt: HostRuntime) -> Result<(), Fail> {
    let mut text = Vec::new(rt.alloc());
    for _ in 0..10_000 {
        text.extend_from_slice(b"A.class\n")?;
    }
    let mut shelf = shelf_of(rt.alloc(), text.as_slice())?;
    let version = read_start(&rt, rt.alloc(), &mut shelf, "start")?;
    assert_eq!(rt; (version.number, flags_of(&version.index)), (1, 0x0021));
    Ok(())
}

#[test]
fn a_bad_file_comes_before_a_load_that_fails_after_it(rt: HostRuntime) -> Result<(), AllocError> {
    let text = b"A.class\ncut.class\nA.class\nmissing";
    assert_eq!(rt; told_failing(&rt, rt.alloc(), text, 2)?, ((0, 1), 1));
    assert_eq!(rt; told_failing(&rt, rt.alloc(), text, 3)?, ((0, 1), 1));
    assert_eq!(rt; told_failing(&rt, rt.alloc(), text, 4)?, ((2, 11), 1));
    assert_eq!(rt; told_failing(&rt, rt.alloc(), text, 5)?, ((2, 11), 1));
    assert_eq!(rt; told_failing(&rt, rt.alloc(), text, 6)?, ((2, 11), 0));
    Ok(())
}

/// A text of so many lines, each a class file, but for these two lines.
fn lines_but(
    alloc: Global,
    count: u32,
    first: (u32, &str),
    second: (u32, &str),
) -> Result<Vec<u8>, AllocError> {
    let mut text = Vec::new(alloc);
    for line in 0..count {
        let path = if line == first.0 {
            first.1
        } else if line == second.0 {
            second.1
        } else {
            "A.class"
        };
        text.extend_from_slice(path.as_bytes())?;
        text.push(b'\n')?;
    }
    Ok(text)
}

/// How many lines a text has, two of them that aren't `A.class`, counted from 0, and what is told. A batch has 4,096 files.
const BATCHES: [(u32, (u32, &str), (u32, &str), (u32, u32)); 14] = [
    (1, (0, "cut.class"), (0, ""), (1, 11)),
    (4_096, (0, "cut.class"), (4_095, "cut.class"), (1, 11)),
    (4_096, (4_095, "cut.class"), (0, "A.class"), (4_096, 11)),
    (4_097, (4_096, "cut.class"), (0, "A.class"), (4_097, 11)),
    (4_097, (4_096, "missing"), (0, "A.class"), (4_097, 9)),
    (4_097, (4_095, "cut.class"), (4_096, "missing"), (4_096, 11)),
    (4_097, (4_095, "missing"), (4_096, "cut.class"), (4_096, 9)),
    (
        10_000,
        (4_094, "cut.class"),
        (4_095, "missing"),
        (4_095, 11),
    ),
    (
        10_000,
        (4_095, "cut.class"),
        (4_096, "cut.class"),
        (4_096, 11),
    ),
    (
        10_000,
        (4_096, "cut.class"),
        (8_191, "cut.class"),
        (4_097, 11),
    ),
    (
        10_000,
        (8_191, "cut.class"),
        (8_192, "cut.class"),
        (8_192, 11),
    ),
    (
        10_000,
        (8_192, "cut.class"),
        (9_999, "missing"),
        (8_193, 11),
    ),
    (10_000, (9_999, "cut.class"), (0, "A.class"), (10_000, 11)),
    (10_000, (4_096, "dir/a name"), (8_192, "dir/a name"), (0, 0)),
];

#[test]
fn a_fault_is_told_at_each_end_of_a_batch(rt: HostRuntime) -> Result<(), AllocError> {
    for (count, first, second, wanted) in &BATCHES {
        let text = lines_but(rt.alloc(), *count, *first, *second)?;
        assert_eq!(rt; told_of(&rt, rt.alloc(), text.as_slice())?, *wanted);
    }
    Ok(())
}

#[test]
fn nothing_is_loaded_after_a_batch_with_a_fault(rt: HostRuntime) -> Result<(), Fail> {
    let text = lines_but(rt.alloc(), 4_097, (0, "cut.class"), (4_096, "missing"))?;
    assert_eq!(rt;
        told_failing(&rt, rt.alloc(), text.as_slice(), 4_098)?,
        ((1, 11), 0)
    );
    let text = lines_but(rt.alloc(), 4_097, (0, "A.class"), (4_096, "missing"))?;
    assert_eq!(rt;
        told_failing(&rt, rt.alloc(), text.as_slice(), 4_098)?,
        ((0, 1), 1)
    );
    Ok(())
}
