use crate::{WalkCause, WalkFault, codes};
use class_shape::read_class;
use std::alloc::Global;
use std::process::Abort;
use std::test::*;

/// `class A extends java/lang/Object` with the method `m()V` twice. The first has another attribute, a `Code`
/// whose length stands at 88, with one instruction, a handler and an attribute, and a second `Code`, whose
/// length stands at 124; the second method has a `Code` without instructions, whose length stands at 152.
const A: [u8; 170] = [
    0xCA, 0xFE, 0xBA, 0xBE, 0, 0, 0, 0x34, 0, 8, 7, 0, 2, 1, 0, 1, 0x41, 7, 0, 4, 1, 0, 0x10, 0x6A,
    0x61, 0x76, 0x61, 0x2F, 0x6C, 0x61, 0x6E, 0x67, 0x2F, 0x4F, 0x62, 0x6A, 0x65, 0x63, 0x74, 1, 0,
    1, 0x6D, 1, 0, 3, 0x28, 0x29, 0x56, 1, 0, 4, 0x43, 0x6F, 0x64, 0x65, 0, 0x21, 0, 1, 0, 3, 0, 0,
    0, 0, 0, 2, 0, 9, 0, 5, 0, 6, 0, 3, 0, 1, 0, 0, 0, 4, 1, 2, 3, 4, 0, 7, 0, 0, 0, 0x1E, 0, 0, 0,
    1, 0, 0, 0, 1, 0xB1, 0, 1, 0, 0, 0, 1, 0, 0, 0, 0, 0, 1, 0, 2, 0, 0, 0, 3, 9, 9, 9, 0, 7, 0, 0,
    0, 0x0E, 0, 0, 0, 1, 0, 0, 0, 2, 0, 0xB1, 0, 0, 0, 0, 0, 9, 0, 5, 0, 6, 0, 1, 0, 7, 0, 0, 0,
    0x0C, 0, 0, 0, 1, 0, 0, 0, 0, 0, 0, 0, 0, 0, 0,
];

/// The ranges of the code of `A`, as its layout puts them.
const RANGES: [(u32, u32); 3] = [(100, 101), (136, 138), (164, 164)];

/// What is answered for a class file.
fn ranges(rt: &impl Abort, alloc: Global, bytes: &[u8]) -> Result<Vec<(u32, u32)>, WalkFault> {
    if bytes.len() > 1000 {
        panic!(rt; "the file is short");
    }
    match read_class(alloc, bytes) {
        Ok(_) => codes(alloc, bytes),
        Err(_) => panic!(rt; "the bytes are a class file"),
    }
}

#[test]
fn all_code_has_its_range(rt: HostRuntime) {
    let found = ranges(&rt, rt.alloc(), &A).expect(&rt, "codes");
    assert_eq!(rt; found.as_slice(), RANGES.as_slice());
}

/// One byte of `A` is changed: its place, the new value, and the place of the faulty length.
const CHANGES: [(usize, u8, u32); 8] = [
    // the length of the code, one more and one less
    (99, 2, 88),
    (99, 0, 88),
    (135, 3, 124),
    (163, 1, 152),
    // handlers: none, two, and attributes: none, two
    (102, 0, 88),
    (102, 2, 88),
    (112, 0, 88),
    (112, 2, 88),
];

#[test]
fn the_first_bad_code_is_answered(rt: HostRuntime) {
    for (place, value, at) in CHANGES {
        let mut bytes = A;
        bytes[place] = value;
        match ranges(&rt, rt.alloc(), &bytes) {
            Ok(_) => panic!(rt; "a `Code` is faulty"),
            Err(fault) => assert_eq!(rt;
                fault,
                WalkFault {
                    at,
                    cause: WalkCause::Attribute
                }
            ),
        }
    }
}
