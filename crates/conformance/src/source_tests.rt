use crate::sources::summaries_of;
use class_summary::{ClassSummary, Merged};
use decl_index::Index;
use std::alloc::Global;
use std::test::Fail;
use subtyping::Subtypes;
use type_names::{Base, descriptor, read_field};

/// What is known before the text is read.
const LIBRARY: &str = "package java.util; public interface Collection {} \
    public interface List extends Collection {} public class ArrayList implements List {}";

/// An interface, a class below it, and one below that and below a class of the library.
const TEXT: &str = "package p; import java.util.*; interface I {} class A implements I {} \
    class B extends A implements List {}";

/// Two descriptors, and whether the first type is a strict subtype of the second.
const BELOW: [(&str, &str, bool); 12] = [
    ("Lp/B;", "Lp/A;", true),
    ("Lp/B;", "Lp/I;", true),
    ("Lp/A;", "Lp/I;", true),
    ("Lp/A;", "Lp/B;", false),
    ("Lp/I;", "Lp/I;", false),
    ("Lp/I;", "Ljava/lang/Object;", true),
    ("Lp/B;", "Ljava/util/Collection;", true),
    ("Lp/A;", "Ljava/util/Collection;", false),
    ("[Lp/B;", "[Ljava/util/List;", true),
    ("[Lp/B;", "Ljava/util/List;", false),
    ("Ljava/util/ArrayList;", "Ljava/util/Collection;", true),
    ("Ljava/util/ArrayList;", "Lp/B;", false),
];

/// Whether the first descriptor's type is a strict subtype of the second's.
fn is_below(alloc: Global, subtypes: &Subtypes, low: &str, high: &str) -> Result<bool, Fail> {
    let low = read_field(alloc, low)?.ok_or("a type")?;
    let high = read_field(alloc, high)?.ok_or("a type")?;
    Ok(subtypes.is_sub(&low, &high))
}

#[test]
fn the_classes_of_a_text_have_subtypes(rt: HostRuntime) -> Result<(), Fail> {
    let none = Index::empty(rt.alloc())?;
    let listed = summaries_of(rt.alloc(), LIBRARY, &none)?;
    let library = Merged::new(rt.alloc(), &none, listed)?;
    let declared = summaries_of(rt.alloc(), TEXT, &library)?;
    let known = Merged::new(rt.alloc(), &library, declared)?;
    let subtypes = Subtypes::new(rt.alloc(), &known)?;
    for (low, high, below) in BELOW {
        let found = is_below(rt.alloc(), &subtypes, low, high)?;
        assert_eq!(rt; found, below, "{low} {high}");
    }
    Ok(())
}

/// Whether this is the class `A` below Object alone, with the field `f` of int and a constructor.
fn is_of_a(summary: &ClassSummary) -> bool {
    if summary.supers.len() != 1 || summary.fields.len() != 1 || summary.methods.len() != 1 {
        return false;
    }
    let Some(parent) = summary.supers.get(0) else {
        return false;
    };
    let Some(field) = summary.fields.get(0) else {
        return false;
    };
    let Some(method) = summary.methods.get(0) else {
        return false;
    };
    parent.as_str() == "java/lang/Object"
        && field.name.as_str() == "f"
        && field.kind.dims == 0
        && matches!(field.kind.base, Base::Int)
        && method.name.as_str() == "<init>"
}

#[test]
fn a_class_of_a_text_is_summed_up(rt: HostRuntime) -> Result<(), Fail> {
    let none = Index::empty(rt.alloc())?;
    let summaries = summaries_of(rt.alloc(), "class A{int f;}", &none)?;
    assert_eq!(rt; summaries.len(), 1);
    let summary = summaries.get(0).ok_or("a class")?;
    assert_eq!(rt; summary.name.as_str(), "A");
    assert!(rt; is_of_a(summary));
    Ok(())
}

/// A bound that is an array of its own variable.
const OWN_ARRAY: &str = "class A<T extends T[]> { T f; T[] g; }";

/// Two variables whose bounds run in a cycle.
const TWO: &str = "class A<U extends V[], V extends U> { U[] f; V g; }";

/// A variable whose bound leads into a cycle.
const INTO: &str = "class A<U extends V[], V extends V> { U f; V[] g; }";

/// Bounds that end, at Object and at a class.
const ENDS: &str = "class A<S extends T[], T, R extends S, Q extends A[]> { R f; Q[] g; }";

/// A text, the number of a field of its first class, and the descriptor of that field's type. A variable
/// whose bounds run in a cycle is Object, whatever dimensions those bounds have.
const FIELDS: [(&str, usize, &str); 8] = [
    (OWN_ARRAY, 0, "Ljava/lang/Object;"),
    (OWN_ARRAY, 1, "[Ljava/lang/Object;"),
    (TWO, 0, "[Ljava/lang/Object;"),
    (TWO, 1, "Ljava/lang/Object;"),
    (INTO, 0, "Ljava/lang/Object;"),
    (INTO, 1, "[Ljava/lang/Object;"),
    (ENDS, 0, "[Ljava/lang/Object;"),
    (ENDS, 1, "[[LA;"),
];

#[test]
fn a_field_has_the_erasure_of_its_variable(rt: HostRuntime) -> Result<(), Fail> {
    let none = Index::empty(rt.alloc())?;
    for (text, number, wanted) in FIELDS {
        let summaries = summaries_of(rt.alloc(), text, &none)?;
        let summary = summaries.get(0).ok_or("a class")?;
        let field = summary.fields.get(number).ok_or("a field")?;
        let found = descriptor(rt.alloc(), &field.kind)?;
        assert_eq!(rt; found.as_str(), wanted, "{text}");
    }
    Ok(())
}
