use class_shape::{ClassShape, InnerRow, MemberShape, read_class};
use class_summary::{ClassSummary, canonical_name, from_shape, internal_name};
use java_units::{ClassKind, SourceClass, Unit};
use lists::{Copies, Items, Text};
use std::alloc::{AllocError, Global};
use std::test::Fail;

/// A class file of a class `A` below `java/lang/Object`, without members.
const A: [u8; 53] = [
    0xCA, 0xFE, 0xBA, 0xBE, 0, 0, 0, 0x34, 0, 5, 7, 0, 2, 1, 0, 1, 0x41, 7, 0, 4, 1, 0, 0x10, 0x6A,
    0x61, 0x76, 0x61, 0x2F, 0x6C, 0x61, 0x6E, 0x67, 0x2F, 0x4F, 0x62, 0x6A, 0x65, 0x63, 0x74, 0,
    0x21, 0, 1, 0, 3, 0, 0, 0, 0, 0, 0, 0, 0,
];

/// The flags of a class and of a member, the member's name and descriptor, each empty where it can't be
/// decoded, and how many fields and how many methods are kept.
const MEMBERS: [(u16, u16, &str, &str, usize, usize); 14] = [
    (0x0021, 0x0001, "f", "I", 1, 0),
    (0x0021, 0x0001, "m", "(I[Ljava/lang/String;)V", 0, 1),
    (0x0021, 0x0002, "f", "I", 0, 0),
    (0x0021, 0x0002, "m", "()I", 0, 0),
    (0x0021, 0x1008, "f", "I", 0, 0),
    (0x0021, 0x1008, "m", "()I", 0, 0),
    (0x0021, 0x0040, "f", "[J", 1, 0),
    (0x0021, 0x0040, "m", "()I", 0, 0),
    (0x0021, 0x0084, "<init>", "()V", 0, 1),
    (0x0021, 0x0001, "", "I", 0, 0),
    (0x0021, 0x0001, "f", "", 0, 0),
    (0x0021, 0x0001, "f", "II", 0, 0),
    (0x8000, 0x0001, "f", "I", 0, 0),
    (0x1001, 0x0001, "m", "()V", 0, 0),
];

fn text_or_none(alloc: Global, text: &str) -> Result<Option<Text>, AllocError> {
    if text.is_empty() {
        return Ok(None);
    }
    Ok(Some(Text::from_str(alloc, text)?))
}

fn one_member(
    alloc: Global,
    flags: u16,
    name: &str,
    descriptor: &str,
) -> Result<Items<MemberShape>, AllocError> {
    let member = MemberShape {
        flags,
        name: text_or_none(alloc, name)?,
        descriptor: text_or_none(alloc, descriptor)?,
    };
    let mut members = Items::new(alloc);
    members.push(member)?;
    Ok(members)
}

/// A class `p/A` that has one member as a field and as a method.
fn shape(
    alloc: Global,
    flags: u16,
    member: (u16, &str, &str),
    inner: Items<InnerRow>,
) -> Result<ClassShape, AllocError> {
    Ok(ClassShape {
        minor: 0,
        major: 52,
        flags,
        name: Text::from_str(alloc, "p/A")?,
        parent: text_or_none(alloc, "p/B")?,
        interfaces: Items::new(alloc),
        fields: one_member(alloc, member.0, member.1, member.2)?,
        methods: one_member(alloc, member.0, member.1, member.2)?,
        inner,
    })
}

#[test]
fn members_are_kept_by_their_flags_names_and_descriptors(
    rt: HostRuntime,
) -> Result<(), AllocError> {
    for (flags, own, name, descriptor, fields, methods) in MEMBERS {
        let inner = Items::new(rt.alloc());
        let shape = shape(rt.alloc(), flags, (own, name, descriptor), inner)?;
        let summary = from_shape(rt.alloc(), &shape)?;
        assert_eq!(rt; summary.fields.len(), fields);
        assert_eq!(rt; summary.methods.len(), methods);
    }
    Ok(())
}

fn row(alloc: Global, inner: &str, outer: &str, flags: u16) -> Result<InnerRow, AllocError> {
    Ok(InnerRow {
        inner: Text::from_str(alloc, inner)?,
        outer: text_or_none(alloc, outer)?,
        name: text_or_none(alloc, "N")?,
        flags,
    })
}

#[test]
fn nesting_is_the_first_row_of_the_class(rt: HostRuntime) -> Result<(), Fail> {
    let mut rows = Items::new(rt.alloc());
    rows.push(row(rt.alloc(), "p/B", "p/C", 1)?)?;
    rows.push(row(rt.alloc(), "p/A", "p/D", 9)?)?;
    rows.push(row(rt.alloc(), "p/A", "", 2)?)?;
    let shape = shape(rt.alloc(), 1, (1, "f", "I"), rows)?;
    let summary = from_shape(rt.alloc(), &shape)?;
    let nesting = summary.nesting.as_ref().ok_or("a nesting")?;
    assert_eq!(rt; nesting.flags, 9);
    assert!(rt; matches!(&nesting.outer, Some(name) if name.as_str() == "p/D"));
    assert!(rt; matches!(&nesting.simple, Some(name) if name.as_str() == "N"));
    Ok(())
}

/// Whether this is the summary of the class file of `A`.
fn is_of_a(summary: &ClassSummary) -> bool {
    if summary.name.as_str() != "A" || summary.flags != 0x21 || summary.nesting.is_some() {
        return false;
    }
    if summary.fields.len() != 0 || summary.methods.len() != 0 || summary.supers.len() != 1 {
        return false;
    }
    match summary.supers.get(0) {
        Some(name) => name.as_str() == "java/lang/Object",
        None => false,
    }
}

#[test]
fn a_class_file_is_summed_up_and_copied(rt: HostRuntime) -> Result<(), Fail> {
    let shape = read_class(rt.alloc(), &A).ok().ok_or("a class file")?;
    let summary = from_shape(rt.alloc(), &shape)?;
    assert!(rt; is_of_a(&summary));
    let copy = summary.copy(rt.alloc())?;
    assert!(rt; is_of_a(&copy));
    Ok(())
}

/// A class of a text, without variables and members.
fn source_class(alloc: Global, name: &str, outer: Option<u32>) -> Result<SourceClass, AllocError> {
    Ok(SourceClass {
        name: Text::from_str(alloc, name)?,
        outer,
        kind: ClassKind::ClassDecl,
        flags: 1,
        vars: Items::new(alloc),
        supers: Items::new(alloc),
        names_parent: false,
        fields: Items::new(alloc),
        methods: Items::new(alloc),
    })
}

#[test]
fn a_nested_class_has_an_internal_and_a_canonical_name(rt: HostRuntime) -> Result<(), Fail> {
    let mut classes = Items::new(rt.alloc());
    classes.push(source_class(rt.alloc(), "A", None)?)?;
    classes.push(source_class(rt.alloc(), "B", Some(0))?)?;
    let mut package = Items::new(rt.alloc());
    package.push(Text::from_str(rt.alloc(), "p")?)?;
    package.push(Text::from_str(rt.alloc(), "q")?)?;
    let imports = Items::new(rt.alloc());
    let unit = Unit {
        package,
        imports,
        classes,
    };
    assert_eq!(rt; internal_name(rt.alloc(), &unit, 1)?.as_str(), "p/q/A$B");
    assert_eq!(rt; canonical_name(rt.alloc(), &unit, 1)?.as_str(), "p.q.A.B");
    Ok(())
}
