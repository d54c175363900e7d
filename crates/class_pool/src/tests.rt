use crate::{ClassCause, decode_modified, no_memory, read_pool};
use std::test::*;

/// `class A extends java/lang/Object`, without members.
const A: [u8; 53] = [
    0xCA, 0xFE, 0xBA, 0xBE, 0, 0, 0, 0x34, 0, 5, 7, 0, 2, 1, 0, 1, 0x41, 7, 0, 4, 1, 0, 0x10, 0x6A,
    0x61, 0x76, 0x61, 0x2F, 0x6C, 0x61, 0x6E, 0x67, 0x2F, 0x4F, 0x62, 0x6A, 0x65, 0x63, 0x74, 0,
    0x21, 0, 1, 0, 3, 0, 0, 0, 0, 0, 0, 0, 0,
];

/// A Long at places 1 and 2, and at place 3 a Class entry that names place 2.
const LONG: [u8; 22] = [
    0xCA, 0xFE, 0xBA, 0xBE, 0, 0, 0, 0x34, 0, 4, 5, 0, 0, 0, 0, 0, 0, 0, 0, 7, 0, 2,
];

/// The field, the method and the interface's method `A.f:I` at places 6 to 8; at 9 a field whose class is no Class
/// entry, at 10 a method whose name is no NameAndType entry.
const MEMBERS: [u8; 55] = [
    0xCA, 0xFE, 0xBA, 0xBE, 0, 0, 0, 0x34, 0, 11, 1, 0, 1, 0x41, 7, 0, 1, 1, 0, 1, 0x66, 1, 0, 1,
    0x49, 12, 0, 3, 0, 4, 9, 0, 2, 0, 5, 10, 0, 2, 0, 5, 11, 0, 2, 0, 5, 9, 0, 5, 0, 5, 10, 0, 2,
    0, 3,
];

#[test]
fn a_pool_is_indexed_by_its_places(rt: HostRuntime) -> Result<(), Fail> {
    let pool = read_pool(rt.alloc(), &A)
        .ok()
        .ok_or("the bytes begin with a pool")?;
    assert_eq!(rt; pool.end(), 39);
    assert_eq!(rt; pool.minor(), 0);
    assert_eq!(rt; pool.major(), 52);
    assert_eq!(rt; pool.class_name(1).ok_or("a class")?, b"A".as_slice());
    assert_eq!(rt;
        pool.class_name(3).ok_or("a class")?,
        b"java/lang/Object".as_slice()
    );
    assert_eq!(rt; pool.utf8(2).ok_or("a text")?, b"A".as_slice());
    for (place, start) in [
        (0, 0),
        (1, 10),
        (2, 13),
        (3, 17),
        (4, 20),
        (5, 0),
        (65535, 0),
    ] {
        assert_eq!(rt; pool.start(place), start);
        assert!(rt; pool.class_name(place).is_some() == (place == 1 || place == 3));
        assert!(rt; pool.utf8(place).is_some() == (place == 2 || place == 4));
    }
    let wide = read_pool(rt.alloc(), &LONG)
        .ok()
        .ok_or("the bytes are a pool")?;
    assert_eq!(rt; wide.start(2), 0);
    assert_eq!(rt; wide.start(3), 19);
    assert_eq!(rt; wide.name_place(3), Some(2));
    assert!(rt; wide.class_name(3).is_none());
    Ok(())
}

#[test]
fn members_are_told_by_their_places(rt: HostRuntime) -> Result<(), Fail> {
    let pool = read_pool(rt.alloc(), &MEMBERS)
        .ok()
        .ok_or("the bytes are a pool")?;
    let (owner, name, descriptor) = pool.member(7, false).ok_or("a method")?;
    assert_eq!(rt; owner, b"A".as_slice());
    assert_eq!(rt; name, b"f".as_slice());
    assert_eq!(rt; descriptor, b"I".as_slice());
    for place in 0..12u16 {
        assert!(rt; pool.member(place, true).is_some() == (place == 6));
        assert!(rt; pool.member(place, false).is_some() == (place == 7 || place == 8));
    }
    Ok(())
}

#[test]
fn the_first_fault_of_a_pool_is_answered(rt: HostRuntime) -> Result<(), Fail> {
    // The bytes changed (place and new value), how many bytes there are, and the fault.
    let rows = [
        (21, 0, 21, 21, ClassCause::Truncated),
        (21, 0, 18, 18, ClassCause::Truncated),
        (21, 0, 3, 3, ClassCause::Truncated),
        (0, 0xCB, 3, 3, ClassCause::Truncated),
        (0, 0xCB, 4, 0, ClassCause::Magic),
        (7, 44, 22, 6, ClassCause::Version),
        (7, 44, 7, 7, ClassCause::Truncated),
        (10, 2, 22, 10, ClassCause::Tag),
        (9, 2, 22, 10, ClassCause::Tag),
        (9, 2, 11, 10, ClassCause::Tag),
        (19, 6, 22, 19, ClassCause::Tag),
    ];
    for (place, value, len, at, cause) in rows {
        let mut bytes = LONG;
        if let Some(byte) = bytes.get_mut(place) {
            *byte = value;
        }
        let prefix = bytes.get(..len).ok_or("the bytes are as long")?;
        match read_pool(rt.alloc(), prefix) {
            Err(fault) => {
                assert_eq!(rt; fault.at, at);
                assert_eq!(rt; fault.cause, cause);
            }
            Ok(_) => return Err("the bytes have a fault".into()),
        }
    }
    Ok(())
}

#[test]
fn each_cause_has_its_number(rt: HostRuntime) {
    let causes = [
        ClassCause::Truncated,
        ClassCause::Magic,
        ClassCause::Version,
        ClassCause::Tag,
        ClassCause::Place,
        ClassCause::Extra,
        ClassCause::Descriptor,
        ClassCause::Name,
        ClassCause::Attribute,
    ];
    for i in 0..causes.len() {
        assert_eq!(rt; causes[i].number(), Some(i as u32 + 1));
    }
    assert_eq!(rt; no_memory().cause.number(), None);
}

#[test]
fn modified_texts_are_decoded(rt: HostRuntime) -> Result<(), Fail> {
    let texts: [(&[u8], &str); 8] = [
        (&[], ""),
        (&[0xC0, 0x80], "\0"),
        (&[0xED, 0xA0, 0xBD, 0xED, 0xB8, 0x80], "\u{1F600}"),
        (&[0x41, 0x7F], "A\u{7F}"),
        (&[0xC1, 0x81], "A"),
        (&[0xE0, 0x81, 0x81], "A"),
        (&[0xC3, 0xA9], "é"),
        (&[0xE2, 0x82, 0xAC, 0x2F], "€/"),
    ];
    for (bytes, text) in texts {
        assert_eq!(rt;
            decode_modified(rt.alloc(), bytes)?
                .ok_or("a text")?
                .as_str(),
            text
        );
    }
    let ill: [&[u8]; 9] = [
        &[0xED, 0xA0, 0xBD],
        &[0xED, 0xB8, 0x80],
        &[0xED, 0xB8, 0x80, 0xED, 0xA0, 0xBD],
        &[0xF0, 0x9F, 0x98, 0x80],
        &[0],
        &[0x80],
        &[0xC3],
        &[0xE2, 0x82],
        &[0xC3, 0x29],
    ];
    for bytes in ill {
        assert!(rt; decode_modified(rt.alloc(), bytes)?.is_none());
    }
    Ok(())
}
