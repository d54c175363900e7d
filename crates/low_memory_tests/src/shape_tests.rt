use class_pool::ClassCause;
use class_shape::{ClassShape, InnerRow, MemberShape, read_class};
use lists::Text;
use std::alloc::Global;
use std::test::Fail;

/// The class `q/Box` below `q/Base` with the interface `q/Shut`: a field, a method, and a row of `InnerClasses` that says
/// that it stands in `q/Base`.
const CLASS: [u8; 138] = [
    0xCA, 0xFE, 0xBA, 0xBE, 0, 3, 0, 0x3D, 0, 0x0D, 1, 0, 5, 0x71, 0x2F, 0x42, 0x6F, 0x78, 7, 0, 1,
    1, 0, 6, 0x71, 0x2F, 0x42, 0x61, 0x73, 0x65, 7, 0, 3, 1, 0, 6, 0x71, 0x2F, 0x53, 0x68, 0x75,
    0x74, 7, 0, 5, 1, 0, 4, 0x73, 0x69, 0x7A, 0x65, 1, 0, 1, 0x4A, 1, 0, 3, 0x70, 0x75, 0x74, 1, 0,
    4, 0x28, 0x49, 0x29, 0x56, 1, 0, 3, 0x42, 0x6F, 0x78, 1, 0, 0x0C, 0x49, 0x6E, 0x6E, 0x65, 0x72,
    0x43, 0x6C, 0x61, 0x73, 0x73, 0x65, 0x73, 0, 0x21, 0, 2, 0, 4, 0, 1, 0, 6, 0, 1, 0, 0x19, 0, 7,
    0, 8, 0, 0, 0, 1, 0, 1, 0, 9, 0, 0x0A, 0, 0, 0, 1, 0, 0x0C, 0, 0, 0, 0x0A, 0, 1, 0, 2, 0, 4, 0,
    0x0B, 0, 8,
];

fn is_text(text: &Option<Text>, wanted: &str) -> bool {
    match text {
        Some(text) => text.as_str() == wanted,
        None => false,
    }
}

/// Whether this is a member with these flags, this name and this descriptor.
fn is_member(member: Option<&MemberShape>, flags: u16, name: &str, descriptor: &str) -> bool {
    match member {
        Some(member) => {
            member.flags == flags
                && is_text(&member.name, name)
                && is_text(&member.descriptor, descriptor)
        }
        None => false,
    }
}

/// Whether this row says that a class stands in another one.
fn is_row(row: Option<&InnerRow>, inner: &str, outer: &str, name: &str) -> bool {
    match row {
        Some(row) => {
            row.flags == 8
                && row.inner.as_str() == inner
                && is_text(&row.outer, outer)
                && is_text(&row.name, name)
        }
        None => false,
    }
}

/// Whether the lists of the shape are those of the class.
fn has_parts(shape: &ClassShape) -> bool {
    let counts = [
        shape.interfaces.len(),
        shape.fields.len(),
        shape.methods.len(),
        shape.inner.len(),
    ];
    counts == [1; 4]
        && matches!(shape.interfaces.get(0), Some(it) if it.as_str() == "q/Shut")
        && is_member(shape.fields.get(0), 0x19, "size", "J")
        && is_member(shape.methods.get(0), 1, "put", "(I)V")
        && is_row(shape.inner.get(0), "q/Box", "q/Base", "Box")
}

/// Whether this is the shape of the class.
fn is_whole(shape: &ClassShape) -> bool {
    (shape.minor, shape.major, shape.flags) == (3, 61, 0x21)
        && shape.name.as_str() == "q/Box"
        && is_text(&shape.parent, "q/Base")
        && has_parts(shape)
}

/// Whether the class is read, at once, or again after a want of memory without a place.
fn is_read(alloc: Global) -> bool {
    match read_class(alloc, &CLASS) {
        Ok(shape) => is_whole(&shape),
        Err(fault) => {
            fault.cause == ClassCause::OutOfMemory
                && fault.at == 0
                && matches!(read_class(alloc, &CLASS), Ok(shape) if is_whole(&shape))
        }
    }
}

#[test]
fn a_class_is_read_or_memory_is_wanting(rt: HostRuntime) -> Result<(), Fail> {
    assert!(rt; is_read(rt.alloc()));
    Ok(())
}
