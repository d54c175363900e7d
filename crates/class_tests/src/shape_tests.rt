use class_pool::{ClassCause, ClassFault};
use class_shape::{ClassShape, read_class};
use std::test::*;

/// `class A extends java/lang/Object`, without members.
const A: [u8; 53] = [
    0xCA, 0xFE, 0xBA, 0xBE, 0, 0, 0, 0x34, 0, 5, 7, 0, 2, 1, 0, 1, 0x41, 7, 0, 4, 1, 0, 0x10, 0x6A,
    0x61, 0x76, 0x61, 0x2F, 0x6C, 0x61, 0x6E, 0x67, 0x2F, 0x4F, 0x62, 0x6A, 0x65, 0x63, 0x74, 0,
    0x21, 0, 1, 0, 3, 0, 0, 0, 0, 0, 0, 0, 0,
];

/// The class of `A` behind a Long at places 1 and 2. The Class entry at place 3, which is this class, names
/// place 2, the second one of the Long.
const LONG: [u8; 62] = [
    0xCA, 0xFE, 0xBA, 0xBE, 0, 0, 0, 0x34, 0, 7, 5, 0, 0, 0, 0, 0, 0, 0, 0, 7, 0, 2, 1, 0, 1, 0x41,
    7, 0, 4, 1, 0, 0x10, 0x6A, 0x61, 0x76, 0x61, 0x2F, 0x6C, 0x61, 0x6E, 0x67, 0x2F, 0x4F, 0x62,
    0x6A, 0x65, 0x63, 0x74, 0, 0x21, 0, 3, 0, 3, 0, 0, 0, 0, 0, 0, 0, 0,
];

/// A run of places of `A`, and the fault where one of these bytes is changed. At all other places the
/// changed file is read.
type Run = (usize, usize, u32, ClassCause);

/// One byte is set to 00.
const ZEROS: [Run; 14] = [
    (0, 3, 0, ClassCause::Magic),
    (7, 7, 6, ClassCause::Version),
    (9, 9, 53, ClassCause::Truncated),
    (10, 10, 10, ClassCause::Tag),
    (12, 12, 11, ClassCause::Place),
    (13, 13, 13, ClassCause::Tag),
    (15, 15, 16, ClassCause::Tag),
    (16, 16, 41, ClassCause::Name),
    (17, 17, 17, ClassCause::Tag),
    (19, 19, 18, ClassCause::Place),
    (20, 20, 20, ClassCause::Tag),
    (22, 22, 53, ClassCause::Truncated),
    (23, 38, 43, ClassCause::Name),
    (42, 42, 41, ClassCause::Place),
];

/// One byte is set to FF.
const ONES: [Run; 15] = [
    (0, 3, 0, ClassCause::Magic),
    (8, 9, 39, ClassCause::Tag),
    (10, 10, 10, ClassCause::Tag),
    (11, 12, 11, ClassCause::Place),
    (13, 13, 13, ClassCause::Tag),
    (14, 15, 53, ClassCause::Truncated),
    (16, 16, 41, ClassCause::Name),
    (17, 17, 17, ClassCause::Tag),
    (18, 19, 18, ClassCause::Place),
    (20, 20, 20, ClassCause::Tag),
    (21, 22, 53, ClassCause::Truncated),
    (23, 38, 43, ClassCause::Name),
    (41, 42, 41, ClassCause::Place),
    (43, 44, 43, ClassCause::Place),
    (45, 52, 53, ClassCause::Truncated),
];

/// A class with an interface, a field, two methods, an unknown attribute and two `InnerClasses`. The name
/// and the descriptor of the second method can't be decoded.
const B: [u8; 181] = [
    0xCA, 0xFE, 0xBA, 0xBE, 0, 3, 0, 0x3D, 0, 0x11, 7, 0, 2, 1, 0, 3, 0x70, 0x2F, 0x42, 7, 0, 4, 1,
    0, 1, 0x41, 7, 0, 6, 1, 0, 1, 0x49, 1, 0, 1, 0x66, 1, 0, 2, 0x5B, 0x4A, 1, 0, 1, 0x6D, 1, 0, 8,
    0x28, 0x4C, 0x70, 0x2F, 0x42, 0x3B, 0x29, 0x56, 1, 0, 0x0C, 0x49, 0x6E, 0x6E, 0x65, 0x72, 0x43,
    0x6C, 0x61, 0x73, 0x73, 0x65, 0x73, 5, 0, 0, 0, 0, 0, 0, 0, 0, 1, 0, 1, 0x42, 1, 0, 1, 0x58, 1,
    0, 1, 0xFF, 0, 0x21, 0, 1, 0, 3, 0, 1, 0, 5, 0, 1, 0, 0x19, 0, 7, 0, 8, 0, 0, 0, 2, 0, 1, 0, 9,
    0, 0x0A, 0, 1, 0, 0, 0, 0, 0, 3, 0x61, 0x62, 0x63, 0x10, 2, 0, 0x10, 0, 0x10, 0, 0, 0, 3, 0,
    0x0F, 0, 0, 0, 1, 0x7A, 0, 0x0B, 0, 0, 0, 0x0A, 0, 1, 0, 1, 0, 3, 0, 0x0E, 0, 8, 0, 0x0B, 0, 0,
    0, 0x0A, 0, 1, 0, 5, 0, 0, 0, 0, 6, 8,
];

/// A place of `B`, its new byte, and the fault.
const FAULTS: [(usize, u8, u32, ClassCause); 31] = [
    (96, 2, 95, ClassCause::Place),
    (96, 13, 95, ClassCause::Place),
    (98, 17, 97, ClassCause::Place),
    (102, 4, 101, ClassCause::Place),
    (108, 1, 107, ClassCause::Place),
    (110, 9, 109, ClassCause::Descriptor),
    (110, 10, 109, ClassCause::Descriptor),
    (110, 12, 109, ClassCause::Place),
    (120, 8, 119, ClassCause::Descriptor),
    (135, 0, 134, ClassCause::Place),
    (137, 7, 136, ClassCause::Descriptor),
    (143, 12, 142, ClassCause::Place),
    (154, 11, 181, ClassCause::Truncated),
    (156, 0, 151, ClassCause::Attribute),
    (156, 2, 151, ClassCause::Attribute),
    (155, 255, 151, ClassCause::Attribute),
    (158, 0, 157, ClassCause::Place),
    (160, 4, 159, ClassCause::Place),
    (162, 16, 161, ClassCause::Name),
    (162, 1, 161, ClassCause::Place),
    (174, 0, 173, ClassCause::Place),
    (176, 2, 175, ClassCause::Place),
    (178, 5, 177, ClassCause::Place),
    (141, 4, 181, ClassCause::Truncated),
    (141, 2, 165, ClassCause::Extra),
    (114, 3, 181, ClassCause::Truncated),
    (17, 46, 95, ClassCause::Name),
    (16, 47, 95, ClassCause::Name),
    (41, 86, 109, ClassCause::Descriptor),
    (12, 16, 95, ClassCause::Name),
    (12, 1, 11, ClassCause::Place),
];

/// A place of `B` and its new byte, after which it still is a class file.
const READ: [(usize, u8); 8] = [
    (98, 0),
    (102, 1),
    (108, 16),
    (110, 16),
    (143, 16),
    (150, 14),
    (160, 0),
    (162, 0),
];

fn change(bytes: &mut [u8], place: usize, value: u8) {
    if let Some(byte) = bytes.get_mut(place) {
        *byte = value;
    }
}

fn has(answer: &Result<ClassShape, ClassFault>, at: u32, cause: ClassCause) -> bool {
    match answer {
        Ok(_) => false,
        Err(fault) => fault.at == at && fault.cause == cause,
    }
}

fn expected(runs: &[Run], place: usize) -> Option<(u32, ClassCause)> {
    for (first, last, at, cause) in runs {
        if *first <= place && place <= *last {
            return Some((*at, *cause));
        }
    }
    None
}

fn is_as_expected(
    answer: &Result<ClassShape, ClassFault>,
    fault: Option<(u32, ClassCause)>,
) -> bool {
    match fault {
        Some((at, cause)) => has(answer, at, cause),
        None => answer.is_ok(),
    }
}

#[test]
fn each_prefix_and_each_changed_byte(rt: HostRuntime) -> Result<(), Fail> {
    for len in 0..53 {
        assert!(rt;
            has(
                &read_class(rt.alloc(), &A[..len]),
                len as u32,
                ClassCause::Truncated
            )
        );
        let mut bytes = A;
        bytes[len] = 0;
        assert!(rt; is_as_expected(&read_class(rt.alloc(), &bytes), expected(&ZEROS, len)));
        bytes[len] = 0xFF;
        assert!(rt; is_as_expected(&read_class(rt.alloc(), &bytes), expected(&ONES, len)));
    }
    let mut longer = [0; 54];
    longer[..53].copy_from_slice(&A);
    assert!(rt; has(&read_class(rt.alloc(), &longer), 53, ClassCause::Extra));
    let shape = read_class(rt.alloc(), &A).ok().ok_or("a class file")?;
    assert_eq!(rt; shape.name.as_str(), "A");
    assert!(rt; matches!(&shape.parent, Some(name) if name.as_str() == "java/lang/Object"));
    assert_eq!(rt; shape.flags, 0x21);
    assert!(rt; shape.fields.is_empty() && shape.methods.is_empty() && shape.inner.is_empty());
    Ok(())
}

#[test]
fn uses_are_followed_in_file_order(rt: HostRuntime) -> Result<(), Fail> {
    for (place, value, at, cause) in FAULTS {
        let mut bytes = B;
        change(&mut bytes, place, value);
        assert!(rt; has(&read_class(rt.alloc(), &bytes), at, cause));
    }
    assert!(rt; has(&read_class(rt.alloc(), &LONG), 20, ClassCause::Place));
    for (place, value) in READ {
        let mut bytes = B;
        change(&mut bytes, place, value);
        assert!(rt; read_class(rt.alloc(), &bytes).is_ok());
    }
    Ok(())
}

#[test]
fn members_and_inner_classes_are_read(rt: HostRuntime) -> Result<(), Fail> {
    let shape = read_class(rt.alloc(), &B).ok().ok_or("a class file")?;
    assert_eq!(rt; (shape.minor, shape.major), (3, 61));
    assert_eq!(rt; shape.interfaces.as_slice().len(), 1);
    let field = shape.fields.get(0).ok_or("a field")?;
    assert_eq!(rt; field.flags, 0x19);
    assert!(rt; matches!(&field.name, Some(name) if name.as_str() == "f"));
    assert!(rt; matches!(&field.descriptor, Some(text) if text.as_str() == "[J"));
    assert_eq!(rt; shape.methods.len(), 2);
    let last = shape.methods.get(1).ok_or("a method")?;
    assert!(rt; last.name.is_none() && last.descriptor.is_none());
    assert_eq!(rt; shape.inner.len(), 2);
    let row = shape.inner.get(0).ok_or("a row")?;
    assert!(rt; row.inner.as_str() == "p/B" && row.flags == 8);
    assert!(rt; matches!(&row.outer, Some(name) if name.as_str() == "A"));
    assert!(rt; matches!(&row.name, Some(name) if name.as_str() == "B"));
    let next = shape.inner.get(1).ok_or("a row")?;
    assert!(rt; next.outer.is_none() && next.name.is_none());
    Ok(())
}

/// A class without super class whose name has 60,000 letters, with so many methods of that name and
/// descriptor.
fn same_methods(rt: &HostRuntime, methods: u16) -> Result<Vec<u8>, Fail> {
    let count = methods.to_be_bytes();
    let mut bytes = Vec::new(rt.alloc());
    bytes.extend_from_slice(&[
        0xCA, 0xFE, 0xBA, 0xBE, 0, 0, 0, 52, 0, 3, 7, 0, 2, 1, 0xEA, 0x60,
    ])?;
    for _ in 0..60_000 {
        bytes.push(b'a')?;
    }
    bytes.extend_from_slice(&[0, 0, 0, 1, 0, 0, 0, 0, 0, 0])?;
    bytes.extend_from_slice(&count)?;
    for _ in 0..methods {
        bytes.extend_from_slice(&[0, 0, 0, 2, 0, 2, 0, 0])?;
    }
    bytes.extend_from_slice(&[0, 0])?;
    Ok(bytes)
}

#[test]
fn a_long_text_named_often_takes_no_memory(rt: HostRuntime) -> Result<(), Fail> {
    let few = same_methods(&rt, 8)?;
    let many = same_methods(&rt, 4000)?;
    if few.len() > 1_000_000 || many.len() > 1_000_000 {
        return Err("the files are short".into());
    }
    assert!(rt;
        has(
            &read_class(rt.alloc(), &few),
            60_032,
            ClassCause::Descriptor
        )
    );
    assert!(rt; has(&read_class(rt.alloc(), &many), 0, ClassCause::OutOfMemory));
    Ok(())
}
