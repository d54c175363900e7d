use class_shape::{ClassShape, read_class};
use outside::{FileShelf, Loaded, Shelf};
use std::alloc::Global;
use std::fs;
use std::test::Fail;

/// `public class A extends java/lang/Object`, without members, of version 52.
const A: [u8; 53] = [
    0xCA, 0xFE, 0xBA, 0xBE, 0, 0, 0, 0x34, 0, 5, 7, 0, 2, 1, 0, 1, 0x41, 7, 0, 4, 1, 0, 0x10, 0x6A,
    0x61, 0x76, 0x61, 0x2F, 0x6C, 0x61, 0x6E, 0x67, 0x2F, 0x4F, 0x62, 0x6A, 0x65, 0x63, 0x74, 0,
    0x21, 0, 1, 0, 3, 0, 0, 0, 0, 0, 0, 0, 0,
];

/// Whether a shape is that of these bytes.
fn is_shape_of_a(shape: &ClassShape) -> bool {
    let Some(parent) = &shape.parent else {
        return false;
    };
    shape.name.as_str() == "A"
        && parent.as_str() == "java/lang/Object"
        && shape.flags == 0x21
        && shape.major == 52
}

/// The shape that a class file of at most 1,000 bytes spells.
fn shape_of(alloc: Global, bytes: &[u8]) -> Result<ClassShape, Fail> {
    if bytes.len() > 1000 {
        return Err("a short file".into());
    }
    let shape = read_class(alloc, bytes).ok().ok_or("a class file")?;
    Ok(shape)
}

#[test]
fn a_class_file_is_read_from_a_real_file(rt: HostRuntime) -> Result<(), Fail> {
    assert!(rt; fs::write(&rt, "A.class", &A[..]).is_ok());
    let mut bytes = Vec::new(rt.alloc());
    let mut shelf = FileShelf::new(&rt, rt.alloc());
    let loaded = shelf.load("A.class", &mut bytes);
    assert!(rt; fs::remove_file(&rt, "A.class").is_ok());
    assert!(rt; matches!(loaded, Ok(Loaded::Bytes)));
    assert_eq!(rt; bytes.as_slice(), &A[..]);
    let shape = shape_of(rt.alloc(), &bytes)?;
    assert!(rt; is_shape_of_a(&shape));
    Ok(())
}
