use crate::{Counting, count};
use lists::{Items, Text};
use outside::{End, FaultPlan, HeldFile, LONGEST_LOAD, MemShelf, MemSink, MemSource, Shelf, Sink};
use std::alloc::{AllocError, Global};
use std::test::Fail;

/// `public class A extends java/lang/Object`, without members.
const EMPTY: [u8; 53] = [
    0xCA, 0xFE, 0xBA, 0xBE, 0, 0, 0, 0x34, 0, 5, 7, 0, 2, 1, 0, 1, 0x41, 7, 0, 4, 1, 0, 0x10, 0x6A,
    0x61, 0x76, 0x61, 0x2F, 0x6C, 0x61, 0x6E, 0x67, 0x2F, 0x4F, 0x62, 0x6A, 0x65, 0x63, 0x74, 0,
    0x21, 0, 1, 0, 3, 0, 0, 0, 0, 0, 0, 0, 0,
];

/// The same class with a constructor of six bytes of code, from 123 on. Places of its pool: 1 is the Methodref
/// `java/lang/Object.<init>:()V`, 10 the Fieldref `A.f:I`.
const CODED: [u8; 135] = [
    0xCA, 0xFE, 0xBA, 0xBE, 0, 0, 0, 0x34, 0, 0x0E, 0x0A, 0, 2, 0, 3, 7, 0, 4, 0x0C, 0, 5, 0, 6, 1,
    0, 0x10, 0x6A, 0x61, 0x76, 0x61, 0x2F, 0x6C, 0x61, 0x6E, 0x67, 0x2F, 0x4F, 0x62, 0x6A, 0x65,
    0x63, 0x74, 1, 0, 6, 0x3C, 0x69, 0x6E, 0x69, 0x74, 0x3E, 1, 0, 3, 0x28, 0x29, 0x56, 7, 0, 8, 1,
    0, 1, 0x41, 1, 0, 4, 0x43, 0x6F, 0x64, 0x65, 9, 0, 7, 0, 0x0B, 0x0C, 0, 0x0C, 0, 0x0D, 1, 0, 1,
    0x66, 1, 0, 1, 0x49, 0, 0x21, 0, 7, 0, 2, 0, 0, 0, 0, 0, 1, 0, 1, 0, 5, 0, 6, 0, 1, 0, 9, 0, 0,
    0, 0x12, 0, 1, 0, 1, 0, 0, 0, 6, 0x2A, 0xB7, 0, 1, 0xB1, 0, 0, 0, 0, 0, 0, 0,
];

/// The class with this code, of six bytes.
fn coded(alloc: Global, code: &[u8]) -> Result<Items<u8>, AllocError> {
    let mut bytes = Vec::new(alloc);
    bytes.extend_from_slice(&CODED[..123])?;
    bytes.extend_from_slice(code)?;
    bytes.extend_from_slice(&CODED[129..])?;
    Ok(Items::from_vec(bytes))
}

/// The files that the texts of these tests name: `uses` names the constructor, `field` a field and then the
/// constructor, `unknown` has an opcode that is none, `place` names a field by the place of a method.
const CODES: [(&str, &[u8]); 4] = [
    ("uses", b"\x2A\xB7\x00\x01\xB1\x00"),
    ("field", b"\xB7\x00\x01\xB4\x00\x0A"),
    ("unknown", b"\xB7\x00\x01\xCA\x00\x00"),
    ("place", b"\x00\xB4\x00\x01\x00\xB1"),
];

fn shelf_of(alloc: Global, text: &[u8], plan: FaultPlan) -> Result<MemShelf, AllocError> {
    let mut files = Items::new(alloc);
    let bytes = [
        ("start", text),
        ("empty", EMPTY.as_slice()),
        ("cut", &EMPTY[..52]),
    ];
    for (name, bytes) in bytes {
        files.push(HeldFile {
            name: Text::from_str(alloc, name)?,
            bytes: Items::from_slice(alloc, bytes)?,
        })?;
    }
    for (name, code) in &CODES {
        files.push(HeldFile {
            name: Text::from_str(alloc, name)?,
            bytes: coded(alloc, code)?,
        })?;
    }
    Ok(MemShelf::new(files, plan))
}

fn end_of(
    alloc: Global,
    text: &[u8],
    loads: FaultPlan,
    writes: FaultPlan,
) -> Result<End<MemSource<'static>, MemSink, MemShelf>, AllocError> {
    Ok(End {
        source: MemSource::new(b"unread", FaultPlan::none(alloc)),
        sink: MemSink::new(alloc, writes),
        shelf: shelf_of(alloc, text, loads)?,
    })
}

/// A start text, how its run ends, and what it writes.
const ROWS: [(&[u8], Counting, &str); 15] = [
    (b"", Counting::Whole, ""),
    (b"empty\nempty\n", Counting::Whole, ""),
    (
        b"uses\nuses\n",
        Counting::Whole,
        "2 java/lang/Object.<init>:()V\n",
    ),
    // by the bytes of keys, not in the order in which they are met
    (
        b"\nuses\r\n\nempty\nfield",
        Counting::Whole,
        "1 A.f:I\n2 java/lang/Object.<init>:()V\n",
    ),
    // after good files nothing is written
    (b"uses\n\nnone\n", Counting::NotStarted(3, 9), ""),
    (b"uses\ncut\n", Counting::NotStarted(2, 11), ""),
    (b"uses\nunknown\n", Counting::NotStarted(2, 20), ""),
    (b"place\nuses\n", Counting::NotStarted(1, 20), ""),
    // the first line that has a fault, whatever the fault
    (b"cut\nunknown\nnone\n", Counting::NotStarted(1, 11), ""),
    (b"unknown\ncut\nnone\n", Counting::NotStarted(1, 20), ""),
    (b"none\ncut\nunknown\n", Counting::NotStarted(1, 9), ""),
    // a carriage return at the end of the text belongs to the path
    (b"uses\r", Counting::NotStarted(1, 9), ""),
    (b"uses\n\xFF\n", Counting::NotStarted(0, 19), ""),
    // what is wrong with a change of the same classes is no matter
    (
        b"field\nuses\nfield\n",
        Counting::Whole,
        "2 A.f:I\n3 java/lang/Object.<init>:()V\n",
    ),
    (b"start\n", Counting::NotStarted(1, 11), ""),
];

#[test]
fn texts_are_counted_or_refused(rt: HostRuntime) -> Result<(), Fail> {
    let alloc = rt.alloc();
    for (text, ending, lines) in &ROWS {
        let mut end = end_of(alloc, text, FaultPlan::none(alloc), FaultPlan::none(alloc))?;
        assert_eq!(rt; count(alloc, "start", &mut end), *ending);
        assert_eq!(rt; end.sink.bytes.as_slice(), lines.as_bytes());
        assert_eq!(rt; end.source.rest.len(), 6);
    }
    let mut end = end_of(alloc, b"", FaultPlan::none(alloc), FaultPlan::none(alloc))?;
    assert_eq!(rt; count(alloc, "begin", &mut end), Counting::NotStarted(0, 9));
    assert_eq!(rt; count(alloc, "cut", &mut end), Counting::NotStarted(0, 19));
    assert!(rt; end.sink.bytes.is_empty());
    Ok(())
}

#[test]
fn long_texts_and_files_are_refused(rt: HostRuntime) -> Result<(), Fail> {
    let alloc = rt.alloc();
    let none = FaultPlan::none(alloc);
    let mut end = end_of(alloc, b"uses\nlong\n", none, FaultPlan::none(alloc))?;
    end.shelf.files.push(HeldFile {
        name: Text::from_str(alloc, "long")?,
        bytes: Items::from_vec(vec![in alloc; 7u8; LONGEST_LOAD + 1]?),
    })?;
    assert_eq!(rt;
        count(alloc, "start", &mut end),
        Counting::NotStarted(2, 10)
    );
    assert_eq!(rt; count(alloc, "long", &mut end), Counting::NotStarted(0, 19));
    assert!(rt; end.sink.bytes.is_empty());
    Ok(())
}

fn plan(alloc: Global, call: u64) -> Result<FaultPlan, AllocError> {
    Ok(FaultPlan::new(Items::from_slice(alloc, &[call])?))
}

#[test]
fn a_failing_shelf_or_sink_is_told(rt: HostRuntime) -> Result<(), Fail> {
    let alloc = rt.alloc();
    let text = b"field\nuses\n";
    for call in 1..5u64 {
        let mut end = end_of(alloc, text, plan(alloc, call)?, FaultPlan::none(alloc))?;
        let ending = count(alloc, "start", &mut end);
        if call < 4 {
            assert_eq!(rt; ending, Counting::ShelfFault);
            assert!(rt; end.sink.bytes.is_empty() && end.shelf.faults() == 1);
        } else {
            assert_eq!(rt; ending, Counting::Whole);
        }
    }
    for call in 1..5u64 {
        let mut end = end_of(alloc, text, FaultPlan::none(alloc), plan(alloc, call)?)?;
        end.sink.most = 17;
        let ending = count(alloc, "start", &mut end);
        let whole = "1 A.f:I\n2 java/lang/Object.<init>:()V\n".as_bytes();
        if call < 4 {
            assert_eq!(rt; ending, Counting::WriteFault);
            assert_eq!(rt;
                end.sink.bytes.as_slice(),
                &whole[..17 * (call as usize - 1)]
            );
            assert_eq!(rt; end.sink.faults(), 1);
        } else {
            assert_eq!(rt; ending, Counting::Whole);
            assert_eq!(rt; end.sink.bytes.as_slice(), whole);
        }
    }
    Ok(())
}
