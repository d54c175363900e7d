use crate::counts::Uses;
use crate::{Counts, count_file};
use class_shape::read_class;
use code_walk::{WalkCause, WalkFault};
use std::alloc::{AllocError, Global};
use std::collections::BTreeMap;
use std::process::Abort;
use std::test::*;

/// `class A` with two methods. The code of the first stands at 170, its length at 166 and that of its attribute
/// at 158; the code of the second stands at 208. Both are `nop`s. Places of the pool: 1 is the Methodref
/// `java/lang/Object.<init>:()V`, 10 the Fieldref `A.f:I`, 14 the InterfaceMethodref `A.<init>:()V`; Methodrefs
/// are 17 of the array `[I`, 18 with a name that can't be decoded, 21 with a class in place of its name and
/// descriptor, 22 with a class in place of its descriptor; 23 is the last place.
const A: [u8; 218] = [
    0xCA, 0xFE, 0xBA, 0xBE, 0, 0, 0, 0x34, 0, 0x18, 0x0A, 0, 2, 0, 3, 7, 0, 4, 0x0C, 0, 5, 0, 6, 1,
    0, 0x10, 0x6A, 0x61, 0x76, 0x61, 0x2F, 0x6C, 0x61, 0x6E, 0x67, 0x2F, 0x4F, 0x62, 0x6A, 0x65,
    0x63, 0x74, 1, 0, 6, 0x3C, 0x69, 0x6E, 0x69, 0x74, 0x3E, 1, 0, 3, 0x28, 0x29, 0x56, 7, 0, 8, 1,
    0, 1, 0x41, 1, 0, 4, 0x43, 0x6F, 0x64, 0x65, 9, 0, 7, 0, 0x0B, 0x0C, 0, 0x0C, 0, 0x0D, 1, 0, 1,
    0x66, 1, 0, 1, 0x49, 0x0B, 0, 7, 0, 3, 7, 0, 0x10, 1, 0, 2, 0x5B, 0x49, 0x0A, 0, 0x0F, 0, 3,
    0x0A, 0, 7, 0, 0x13, 0x0C, 0, 0x14, 0, 6, 1, 0, 1, 0x80, 0x0A, 0, 7, 0, 2, 0x0A, 0, 7, 0, 0x17,
    0x0C, 0, 5, 0, 7, 0, 0x21, 0, 7, 0, 2, 0, 0, 0, 0, 0, 2, 0, 9, 0, 5, 0, 6, 0, 1, 0, 9, 0, 0, 0,
    0x18, 0, 0, 0, 0, 0, 0, 0, 0x0C, 0, 0, 0, 0, 0, 0, 0, 0, 0, 0, 0, 0, 0, 0, 0, 0, 0, 9, 0, 5, 0,
    6, 0, 1, 0, 9, 0, 0, 0, 0x10, 0, 0, 0, 0, 0, 0, 0, 4, 0, 0, 0, 0, 0, 0, 0, 0, 0, 0,
];

/// `A` with these bytes from a place on.
fn with(file: [u8; 218], at: usize, bytes: &[u8]) -> [u8; 218] {
    let mut changed = file;
    for (k, byte) in bytes.iter().enumerate() {
        if at < 218 && k < 218 - at {
            changed[at + k] = *byte;
        }
    }
    changed
}

fn count(
    rt: &impl Abort,
    alloc: Global,
    file: &[u8; 218],
    counts: &mut Counts,
) -> Result<(), WalkFault> {
    let bytes = file.as_slice();
    match read_class(alloc, bytes) {
        Ok(_) => count_file(alloc, bytes, counts),
        Err(_) => panic!(rt; "the bytes are a class file"),
    }
}

fn are(rt: &impl Abort, counts: &Counts, rows: &[(&str, u32)]) {
    assert_eq!(rt; counts.len(), rows.len());
    for i in 0..rows.len() {
        assert_eq!(rt; counts.at(i), rows[i]);
        assert_eq!(rt; counts.of(rows[i].0), rows[i].1);
    }
}

#[test]
fn each_use_of_a_member_counts(rt: HostRuntime) {
    let rows: [(&[u8], &[(&str, u32)]); 7] = [
        // a constructor
        (
            b"\x2A\xB7\x00\x01\xB1",
            &[("java/lang/Object.<init>:()V", 1)],
        ),
        // a field, by each of the four instructions
        (
            b"\xB2\x00\x0A\xB3\x00\x0A\xB4\x00\x0A\xB5\x00\x0A",
            &[("A.f:I", 4)],
        ),
        // a method of an interface, by three instructions
        (
            b"\xB6\x00\x0E\xB8\x00\x0E\xB9\x00\x0E\x01\x00",
            &[("A.<init>:()V", 3)],
        ),
        // keys in byte order, not in the order of their uses
        (
            b"\xB4\x00\x0A\xB7\x00\x01\xB6\x00\x0E",
            &[
                ("A.<init>:()V", 1),
                ("A.f:I", 1),
                ("java/lang/Object.<init>:()V", 1),
            ],
        ),
        // an array's method, and a name that can't be decoded
        (b"\xB6\x00\x11\xB8\x00\x12", &[]),
        // `invokedynamic`, `new` and `ldc_w` name no member
        (b"\xBA\x00\x01\x00\x00\xBB\x00\x01\x13\x00\x01", &[]),
        // what stands within another instruction isn't one
        (b"\x11\xB7\x00\x10\xB7", &[]),
    ];
    for (code, expected) in rows {
        let mut counts = Counts::new(rt.alloc());
        count(&rt, rt.alloc(), &with(A, 170, code), &mut counts).expect(&rt, "counted");
        are(&rt, &counts, expected);
    }
}

#[test]
fn a_file_counts_as_often_as_it_is_given(rt: HostRuntime) {
    let file = with(A, 170, b"\x2A\xB7\x00\x01\xB1");
    let mut counts = Counts::new(rt.alloc());
    count(&rt, rt.alloc(), &A, &mut counts).expect(&rt, "counted");
    assert_eq!(rt; counts.len(), 0);
    count(&rt, rt.alloc(), &file, &mut counts).expect(&rt, "counted");
    count(&rt, rt.alloc(), &file, &mut counts).expect(&rt, "counted again");
    are(&rt, &counts, &[("java/lang/Object.<init>:()V", 2)]);
    assert_eq!(rt; counts.of("java/lang/Object.<init>:()"), 0);
}

/// Bytes in place of the code of `A` from 166 on, and the first fault: a code's instructions before its places,
/// and the length of the attribute before all code.
const FAULTS: [(&[u8], u32, WalkCause); 9] = [
    // a field by a Methodref, and a method by a Fieldref
    (b"\x00\x00\x00\x0C\xB4\x00\x01", 171, WalkCause::Place),
    (b"\x00\x00\x00\x0C\x2A\xB6\x00\x0A", 172, WalkCause::Place),
    // the place 0, one that isn't a member's, and one past the pool
    (b"\x00\x00\x00\x0C\xB8\x00\x00", 171, WalkCause::Place),
    (b"\x00\x00\x00\x0C\xB8\x00\x02", 171, WalkCause::Place),
    (b"\x00\x00\x00\x0C\xB8\x00\x18", 171, WalkCause::Place),
    // no name and descriptor, and no descriptor
    (b"\x00\x00\x00\x0C\xB8\x00\x15", 171, WalkCause::Place),
    (b"\x00\x00\x00\x0C\xB8\x00\x16", 171, WalkCause::Place),
    // behind a use without a place an opcode that is unknown
    (b"\x00\x00\x00\x0C\xB4\x00\x01\xCA", 173, WalkCause::Opcode),
    (
        b"\x00\x00\x00\x0B\xB4\x00\x01\xCA",
        158,
        WalkCause::Attribute,
    ),
];

#[test]
fn after_a_fault_the_counts_are_as_before(rt: HostRuntime) {
    let mut counts = Counts::new(rt.alloc());
    let good = with(A, 170, b"\xB4\x00\x0A");
    count(&rt, rt.alloc(), &good, &mut counts).expect(&rt, "counted");
    for (bytes, at, cause) in FAULTS {
        // the second code has a use and a fault too
        let file = with(with(A, 208, b"\xB4\x00\x0A\xCB"), 166, bytes);
        match count(&rt, rt.alloc(), &file, &mut counts) {
            Ok(()) => panic!(rt; "the file is faulty"),
            Err(fault) => assert_eq!(rt; fault, WalkFault { at, cause }),
        }
        are(&rt, &counts, &[("A.f:I", 1)]);
    }
}

#[test]
fn a_fault_of_a_later_code_is_answered(rt: HostRuntime) {
    let mut counts = Counts::new(rt.alloc());
    let file = with(with(A, 170, b"\xB4\x00\x0A"), 208, b"\xB4\x00\x0A\xCB");
    match count(&rt, rt.alloc(), &file, &mut counts) {
        Ok(()) => panic!(rt; "the file is faulty"),
        Err(fault) => assert_eq!(rt;
            fault,
            WalkFault {
                at: 211,
                cause: WalkCause::Opcode
            }
        ),
    }
    are(&rt, &counts, &[]);
}

/// Counts of one key, one below the most.
fn almost_held(alloc: Global, key: &str) -> Result<Counts, AllocError> {
    let mut uses: Uses = BTreeMap::new(alloc);
    uses.insert(String::from_str(alloc, key)?, 4_294_967_294)?;
    Ok(Counts { uses })
}

#[test]
fn numbers_are_held_at_the_most(rt: HostRuntime) {
    let file = with(A, 170, b"\xB4\x00\x0A\xB4\x00\x0A\xB7\x00\x01");
    let mut counts = almost_held(rt.alloc(), "A.f:I").expect(&rt, "counts");
    count(&rt, rt.alloc(), &file, &mut counts).expect(&rt, "counted");
    let rows = [("A.f:I", 4_294_967_295), ("java/lang/Object.<init>:()V", 1)];
    are(&rt, &counts, &rows);
}
