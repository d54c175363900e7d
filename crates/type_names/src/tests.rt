use crate::{
    Base, Erased, descriptor, is_internal_name, method_descriptor, read_field, read_method,
};
use lists::{Copies, Items};
use std::alloc::{AllocError, Global};

const FIELDS: [&str; 13] = [
    "B",
    "C",
    "D",
    "F",
    "I",
    "J",
    "S",
    "Z",
    "Ljava/lang/String;",
    "[I",
    "[[Ljava/util/Map;",
    "LA;",
    "Lé/b;",
];

const NO_FIELDS: [&str; 17] = [
    "", "V", "II", "L;", "LA", "La//b;", "L/a;", "La/;", "La.b;", "L[A;", "[", "[V", "X", "LA;I",
    " I", "i", "(I)V",
];

const METHODS: [(&str, usize, bool); 6] = [
    ("()V", 0, false),
    ("(I[Ljava/lang/String;)V", 2, false),
    ("()Ljava/lang/Object;", 0, true),
    ("(IJ)[[D", 2, true),
    ("(LA;LB;[[ZC)I", 4, true),
    ("([[[B)V", 1, false),
];

const NO_METHODS: [&str; 13] = [
    "", "V", "()", "(V)V", "(I", "I)V", "()VV", "(I)II", "(L;)V", "()V ", "(I)[V", "(I))V", "((I)V",
];

/// Descriptors in the order of their bytes.
const SORTED: [&str; 15] = [
    "B", "I", "J", "LA$B;", "LA-;", "LA;", "LAB;", "LB;", "Lé;", "S", "Z", "[B", "[LA;", "[Z",
    "[[B",
];

fn kinds(alloc: Global, texts: &[&str]) -> Result<Items<Erased>, AllocError> {
    let mut kinds = Items::new(alloc);
    for text in texts {
        if let Some(kind) = read_field(alloc, text)? {
            kinds.push(kind)?;
        }
    }
    Ok(kinds)
}

#[test]
fn types_are_ordered_by_their_descriptors(rt: HostRuntime) -> Result<(), AllocError> {
    let kinds = kinds(rt.alloc(), &SORTED)?;
    assert_eq!(rt; kinds.len(), 15);
    for (i, kind) in kinds.as_slice().iter().enumerate() {
        for (j, other) in kinds.as_slice().iter().enumerate() {
            assert_eq!(rt; kind.compare(other), i.cmp(&j));
            assert_eq!(rt; kind.same(other), i == j);
        }
    }
    Ok(())
}

#[test]
fn fields_are_read_and_written(rt: HostRuntime) -> Result<(), std::alloc::AllocError> {
    for text in FIELDS {
        match read_field(rt.alloc(), text)? {
            Some(kind) => assert_eq!(rt;
                descriptor(rt.alloc(), &kind.copy(rt.alloc())?)?.as_str(),
                text
            ),
            None => assert_eq!(rt; text, "a field"),
        }
    }
    for text in NO_FIELDS {
        assert!(rt; read_field(rt.alloc(), text)?.is_none());
    }
    let names = read_field(rt.alloc(), "[[Ljava/util/Map;")?;
    let Some(kind) = names else {
        assert!(rt; false);
        return Ok(());
    };
    assert_eq!(rt; kind.dims, 2);
    assert!(rt; matches!(&kind.base, Base::Class(name) if name.as_str() == "java/util/Map"));
    Ok(())
}

#[test]
fn methods_are_read(rt: HostRuntime) -> Result<(), std::alloc::AllocError> {
    for (text, params, answers) in METHODS {
        match read_method(rt.alloc(), text)? {
            Some(kind) => {
                let copy = kind.copy(rt.alloc())?;
                assert_eq!(rt; copy.params.len(), params);
                assert_eq!(rt; copy.result.is_some(), answers);
                assert_eq!(rt; method_descriptor(rt.alloc(), &copy)?.as_str(), text);
            }
            None => assert_eq!(rt; text, "a method"),
        }
    }
    for text in NO_METHODS {
        assert!(rt; read_method(rt.alloc(), text)?.is_none());
    }
    assert!(rt; is_internal_name("java/lang/String"));
    assert!(rt; !is_internal_name("java.lang.String"));
    Ok(())
}
