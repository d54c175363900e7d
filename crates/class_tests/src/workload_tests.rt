use class_shape::{ClassShape, MemberShape, read_class};
use lists::{Items, Text};
use std::alloc::{AllocError, Global};
use std::test::*;
use workload::{WriteFault, is_whole, write_class};

/// `class A extends java/lang/Object`, without members.
const A: [u8; 53] = [
    0xCA, 0xFE, 0xBA, 0xBE, 0, 0, 0, 0x34, 0, 5, 7, 0, 2, 1, 0, 1, 0x41, 7, 0, 4, 1, 0, 0x10, 0x6A,
    0x61, 0x76, 0x61, 0x2F, 0x6C, 0x61, 0x6E, 0x67, 0x2F, 0x4F, 0x62, 0x6A, 0x65, 0x63, 0x74, 0,
    0x21, 0, 1, 0, 3, 0, 0, 0, 0, 0, 0, 0, 0,
];

/// A class with an interface, a field, two methods and the rows of two `InnerClasses`. Its pool is in another
/// order and holds entries that aren't needed or stand twice; a member and the class have attributes that
/// aren't read. The field's name has the characters NUL and U+1F600.
const MIXED: [u8; 192] = [
    0xCA, 0xFE, 0xBA, 0xBE, 0, 3, 0, 0x3D, 0, 0x11, 1, 0, 0x0C, 0x49, 0x6E, 0x6E, 0x65, 0x72, 0x43,
    0x6C, 0x61, 0x73, 0x73, 0x65, 0x73, 1, 0, 1, 0x42, 1, 0, 3, 0x70, 0x2F, 0x42, 1, 0, 1, 0x41, 1,
    0, 1, 0x49, 1, 0, 0x0B, 0x61, 0xC0, 0x80, 0xED, 0xA0, 0xBD, 0xED, 0xB8, 0x80, 0xC3, 0xA9, 1, 0,
    2, 0x5B, 0x4A, 1, 0, 1, 0x6D, 1, 0, 8, 0x28, 0x4C, 0x70, 0x2F, 0x42, 0x3B, 0x29, 0x56, 1, 0, 3,
    0x28, 0x29, 0x56, 7, 0, 3, 7, 0, 4, 7, 0, 5, 1, 0, 4, 0x43, 0x6F, 0x64, 0x65, 1, 0, 1, 0x6D, 7,
    0, 3, 0, 0x21, 0, 0x0B, 0, 0x0C, 0, 1, 0, 0x0D, 0, 1, 0, 0x19, 0, 6, 0, 7, 0, 1, 0, 0x0E, 0, 0,
    0, 2, 0x78, 0x79, 0, 2, 0, 1, 0, 8, 0, 9, 0, 0, 0x10, 2, 0, 0x0F, 0, 0x0A, 0, 0, 0, 3, 0, 1, 0,
    0, 0, 0x0A, 0, 1, 0, 0x10, 0, 0x0C, 0, 2, 0, 8, 0, 0x0E, 0, 0, 0, 0, 0, 1, 0, 0, 0, 0x0A, 0, 1,
    0, 0x0D, 0, 0, 0, 0, 6, 8,
];

/// The same class with the least pool, in the order of first need, and no attribute but one `InnerClasses`.
const PLAIN: [u8; 156] = [
    0xCA, 0xFE, 0xBA, 0xBE, 0, 3, 0, 0x3D, 0, 0x0E, 7, 0, 2, 1, 0, 3, 0x70, 0x2F, 0x42, 7, 0, 4, 1,
    0, 1, 0x41, 7, 0, 6, 1, 0, 1, 0x49, 1, 0, 0x0B, 0x61, 0xC0, 0x80, 0xED, 0xA0, 0xBD, 0xED, 0xB8,
    0x80, 0xC3, 0xA9, 1, 0, 2, 0x5B, 0x4A, 1, 0, 1, 0x6D, 1, 0, 8, 0x28, 0x4C, 0x70, 0x2F, 0x42,
    0x3B, 0x29, 0x56, 1, 0, 3, 0x28, 0x29, 0x56, 1, 0, 0x0C, 0x49, 0x6E, 0x6E, 0x65, 0x72, 0x43,
    0x6C, 0x61, 0x73, 0x73, 0x65, 0x73, 1, 0, 1, 0x42, 0, 0x21, 0, 1, 0, 3, 0, 1, 0, 5, 0, 1, 0,
    0x19, 0, 7, 0, 8, 0, 0, 0, 2, 0, 1, 0, 9, 0, 0x0A, 0, 0, 0x10, 2, 0, 9, 0, 0x0B, 0, 0, 0, 1, 0,
    0x0C, 0, 0, 0, 0x12, 0, 2, 0, 1, 0, 3, 0, 0x0D, 0, 8, 0, 5, 0, 0, 0, 0, 6, 8,
];

/// What the writer answers for a shape that is whole.
fn written(alloc: Global, shape: &ClassShape) -> Result<Result<Items<u8>, WriteFault>, Fail> {
    if shape.major < 45 || !is_whole(alloc, shape)? {
        return Err("a whole shape".into());
    }
    Ok(write_class(alloc, shape))
}

/// The bytes that are written of what a file holds.
fn rewritten(alloc: Global, bytes: &[u8]) -> Result<Items<u8>, Fail> {
    if bytes.len() > 1000 {
        return Err("a short file".into());
    }
    let shape = read_class(alloc, bytes).ok().ok_or("a class file")?;
    let answer = written(alloc, &shape)?;
    Ok(answer.ok().ok_or("a small class")?)
}

#[test]
fn a_shape_is_written_with_the_least_pool(rt: HostRuntime) -> Result<(), Fail> {
    assert_eq!(rt; rewritten(rt.alloc(), &A)?.as_slice(), &A[..]);
    assert_eq!(rt; rewritten(rt.alloc(), &MIXED)?.as_slice(), &PLAIN[..]);
    assert_eq!(rt; rewritten(rt.alloc(), &PLAIN)?.as_slice(), &PLAIN[..]);
    Ok(())
}

/// A class `A` with one field, of type int, whose name is so many times the text.
fn with_name(alloc: Global, text: &str, times: u32) -> Result<ClassShape, AllocError> {
    let mut name = Text::new(alloc);
    for _ in 0..times {
        name.push_str(text)?;
    }
    let mut fields = Items::new(alloc);
    fields.push(MemberShape {
        flags: 0,
        name: Some(name),
        descriptor: Some(Text::from_str(alloc, "I")?),
    })?;
    Ok(ClassShape {
        minor: 0,
        major: 52,
        flags: 0x21,
        name: Text::from_str(alloc, "A")?,
        parent: None,
        interfaces: Items::new(alloc),
        fields,
        methods: Items::new(alloc),
        inner: Items::new(alloc),
    })
}

fn is_too_big(alloc: Global, text: &str, times: u32) -> Result<bool, Fail> {
    let shape = with_name(alloc, text, times)?;
    match written(alloc, &shape)? {
        Err(WriteFault::TooBig) => Ok(true),
        Err(WriteFault::OutOfMemory) => Err("ample memory".into()),
        Ok(_) => Ok(false),
    }
}

#[test]
fn long_texts_are_too_big(rt: HostRuntime) -> Result<(), Fail> {
    assert!(rt; !is_too_big(rt.alloc(), "a", 65_535)?);
    assert!(rt; is_too_big(rt.alloc(), "a", 65_536)?);
    assert!(rt; !is_too_big(rt.alloc(), "\0", 32_767)?);
    assert!(rt; is_too_big(rt.alloc(), "\0", 32_768)?);
    Ok(())
}

#[test]
fn shapes_that_lack_something_are_not_whole(rt: HostRuntime) -> Result<(), Fail> {
    let mut shape = with_name(rt.alloc(), "f", 1)?;
    assert!(rt; is_whole(rt.alloc(), &shape)?);
    shape.parent = Some(Text::from_str(rt.alloc(), "java.lang.Object")?);
    assert!(rt; !is_whole(rt.alloc(), &shape)?);
    shape.parent = None;
    shape.fields.push(MemberShape {
        flags: 0,
        name: None,
        descriptor: None,
    })?;
    assert!(rt; !is_whole(rt.alloc(), &shape)?);
    Ok(())
}
