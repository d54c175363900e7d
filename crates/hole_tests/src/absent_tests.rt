// Holes among published classes whose outer class or supers aren't there, or whose names are no identifiers.
use crate::holes::{made, with_change};
use crate::scope_tests::shown;
use class_summary::{ClassSummary, FieldSummary, MethodSummary, Nesting};
use decl_index::{Change, Index};
use lists::{Items, Text};
use std::alloc::{AllocError, Global};
use std::test::Fail;
use type_names::{Base, Erased};

/// A class as it is published: its name, flags, the class around it, its simple name and its flags there, its supers, its
/// fields with the class of each, which is an `int` where it is empty, and its methods, which take nothing and give an `int`.
#[derive(Clone, Copy)]
struct Class<'a> {
    name: &'a str,
    flags: u16,
    nesting: Option<(&'a str, &'a str, u16)>,
    supers: &'a [&'a str],
    fields: &'a [(&'a str, u16, &'a str)],
    methods: &'a [(&'a str, u16)],
}

/// Published classes, a text that ends in a hole, and its environment: types, pairs, declarations, goal and binder.
struct Row<'a> {
    classes: &'a [Class<'a>],
    text: &'a str,
    shown: &'a str,
}

const PUBLIC: u16 = 0x0001;

const STATIC: u16 = 0x0008;

const INTERFACE: u16 = 0x0200;

const ABSTRACT: u16 = 0x0400;

const PLAIN: Class<'static> = Class {
    name: "q/A",
    flags: PUBLIC,
    nesting: None,
    supers: &["java/lang/Object"],
    fields: &[],
    methods: &[],
};

/// A class in one that isn't there, with a static field, a field and a constructor.
const INNER: Class<'static> = Class {
    name: "q/Gone$In",
    nesting: Some(("q/Gone", "In", PUBLIC | STATIC)),
    fields: &[("s", PUBLIC | STATIC, ""), ("f", PUBLIC, "")],
    methods: &[("<init>", PUBLIC)],
    ..PLAIN
};

/// What is offered in the class `Use` alone.
const NOTHING_MORE: &str =
    "int String Use void boolean \n\n200 name 0 -> int \n200 name true -> boolean \n200 name false -> boolean \n200 name \"\" -> String \n20 call Use.go -> void \n20 new Use -> Use \nint p";

/// Classes in classes that aren't there. Such a class counts as one of its package without PUBLIC.
const OUTER: [Row<'static>; 5] = [
    Row {
        classes: &[INNER],
        text: "package q; class Use { static void go() { int r = ",
        shown: "int String q.Gone.In Use void boolean \n\n200 name 0 -> int \n200 name true -> boolean \n200 name false -> boolean \n200 name \"\" -> String \n25 name q.Gone.In.s -> int \n25 field f q.Gone.In -> int \n25 new q.Gone.In -> q.Gone.In \n20 call Use.go -> void \n20 new Use -> Use \nint p",
    },
    Row {
        classes: &[INNER],
        text: "package p; import q.*; class Use { static void go() { int r = ",
        shown: NOTHING_MORE,
    },
    Row {
        classes: &[INNER],
        text: "package p; import q.Gone.In; class Use { static void go() { int r = ",
        shown: NOTHING_MORE,
    },
    Row {
        classes: &[INNER],
        text: "package p; import q.Gone.*; class Use { static void go() { int r = ",
        shown: NOTHING_MORE,
    },
    Row {
        classes: &[Class {
            nesting: Some(("p/Gone", "In", PUBLIC | STATIC)),
            ..INNER
        }],
        text: "package q; class Use { static void go() { int r = ",
        shown: NOTHING_MORE,
    },
];

/// Classes with supers that aren't there, which are above them all the same; but a lambda is made of no interface below one
/// that isn't there.
const SUPERS: [Row<'static>; 4] = [
    Row {
        classes: &[Class {
            supers: &["q/Gone", "r/Missing"],
            fields: &[("g", PUBLIC, "q/Gone"), ("m", PUBLIC, "r/Missing")],
            methods: &[("n", PUBLIC)],
            ..PLAIN
        }],
        text: "package q; class Use { static void go() { Gone r = ",
        shown: "int String A Gone Use r.Missing void boolean \nA < Gone A < r.Missing \n200 name 0 -> int \n200 name true -> boolean \n200 name false -> boolean \n200 name \"\" -> String \n25 field g A -> Gone \n25 field m A -> r.Missing \n25 method n A -> int \n20 call Use.go -> void \n20 new Use -> Use \nGone p",
    },
    Row {
        classes: &[Class {
            flags: PUBLIC | INTERFACE | ABSTRACT,
            methods: &[("n", PUBLIC | ABSTRACT)],
            ..PLAIN
        }],
        text: "package q; class Use { static void go() { int r = ",
        shown: "int String A Use void boolean \n\n200 name 0 -> int \n200 name true -> boolean \n200 name false -> boolean \n200 name \"\" -> String \n25 method n A -> int \n20 call Use.go -> void \n20 new Use -> Use \n10 lambda A fun int -> A \nint p",
    },
    Row {
        classes: &[Class {
            flags: PUBLIC | INTERFACE | ABSTRACT,
            supers: &["java/lang/Object", "q/Gone"],
            methods: &[("n", PUBLIC | ABSTRACT)],
            ..PLAIN
        }],
        text: "package q; class Use { static void go() { int r = ",
        shown: "int String A Use void boolean \n\n200 name 0 -> int \n200 name true -> boolean \n200 name false -> boolean \n200 name \"\" -> String \n25 method n A -> int \n20 call Use.go -> void \n20 new Use -> Use \nint p",
    },
    Row {
        classes: &[],
        text: "package q; class Use extends Gone { void go(Gone g) { Gone r = ",
        shown: "int String Gone Use void boolean \nUse < Gone \n5 this this -> Use \n5 name g -> Gone \n200 name 0 -> int \n200 name true -> boolean \n200 name false -> boolean \n200 name \"\" -> String \n20 method go Use Gone -> void \n20 new Use -> Use \nGone p",
    },
];

/// Members and classes that no text can name: such a member isn't offered, nor is one that is written behind such a class.
const NAMES: [Row<'static>; 4] = [
    Row {
        classes: &[Class {
            fields: &[
                ("a-b", PUBLIC, ""),
                ("int", PUBLIC, ""),
                ("1", PUBLIC | STATIC, ""),
                ("a.b", PUBLIC | STATIC, ""),
                ("", PUBLIC, ""),
                ("\u{E9}", PUBLIC, ""),
                ("\u{1F600}", PUBLIC, ""),
                ("true", PUBLIC, ""),
            ],
            methods: &[
                ("access$0", PUBLIC),
                ("a b", PUBLIC),
                ("<x>", PUBLIC),
                ("new", PUBLIC),
            ],
            ..PLAIN
        }],
        text: "package q; class Use { static void go() { int r = ",
        shown: "int String A Use void boolean \n\n200 name 0 -> int \n200 name true -> boolean \n200 name false -> boolean \n200 name \"\" -> String \n25 field \u{E9} A -> int \n25 method access$0 A -> int \n20 call Use.go -> void \n20 new Use -> Use \nint p",
    },
    Row {
        classes: &[Class {
            name: "q/1A",
            fields: &[("s", PUBLIC | STATIC, ""), ("f", PUBLIC, "")],
            methods: &[("<init>", PUBLIC), ("n", PUBLIC | STATIC)],
            ..PLAIN
        }],
        text: "package q; class Use { static void go() { int r = ",
        shown: "int String q.1A Use void boolean \n\n200 name 0 -> int \n200 name true -> boolean \n200 name false -> boolean \n200 name \"\" -> String \n25 field f q.1A -> int \n20 call Use.go -> void \n20 new Use -> Use \nint p",
    },
    Row {
        classes: &[Class {
            name: "q/1A$B",
            nesting: Some(("q/1A", "B", PUBLIC | STATIC)),
            fields: &[("s", PUBLIC | STATIC, ""), ("f", PUBLIC, "")],
            methods: &[("<init>", PUBLIC)],
            ..PLAIN
        }],
        text: "package q; class Use { static void go() { int r = ",
        shown: "int String q.1A.B Use void boolean \n\n200 name 0 -> int \n200 name true -> boolean \n200 name false -> boolean \n200 name \"\" -> String \n25 field f q.1A.B -> int \n20 call Use.go -> void \n20 new Use -> Use \nint p",
    },
    Row {
        classes: &[Class {
            name: "q/a-b",
            flags: PUBLIC | INTERFACE | ABSTRACT,
            methods: &[("n", PUBLIC | ABSTRACT)],
            ..PLAIN
        }],
        text: "package q; class Use { static void go() { int r = ",
        shown: "int String Use q.a-b void boolean \n\n200 name 0 -> int \n200 name true -> boolean \n200 name false -> boolean \n200 name \"\" -> String \n20 call Use.go -> void \n20 new Use -> Use \n25 method n q.a-b -> int \nint p",
    },
];

fn texts_of(alloc: Global, texts: &[&str]) -> Result<Items<Text>, AllocError> {
    let mut items = Items::new(alloc);
    for text in texts {
        items.push(Text::from_str(alloc, text)?)?;
    }
    Ok(items)
}

fn fields_of(
    alloc: Global,
    fields: &[(&str, u16, &str)],
) -> Result<Items<FieldSummary>, AllocError> {
    let mut items = Items::new(alloc);
    for (name, flags, class) in fields {
        let base = match *class {
            "" => Base::Int,
            class => Base::Class(Text::from_str(alloc, class)?),
        };
        items.push(FieldSummary {
            name: Text::from_str(alloc, name)?,
            flags: *flags,
            kind: Erased { dims: 0, base },
        })?;
    }
    Ok(items)
}

fn methods_of(alloc: Global, methods: &[(&str, u16)]) -> Result<Items<MethodSummary>, AllocError> {
    let mut items = Items::new(alloc);
    for (name, flags) in methods {
        let result = match *name {
            "<init>" => None,
            _ => Some(Erased {
                dims: 0,
                base: Base::Int,
            }),
        };
        items.push(MethodSummary {
            name: Text::from_str(alloc, name)?,
            flags: *flags,
            params: Items::new(alloc),
            result,
        })?;
    }
    Ok(items)
}

fn summary_of(alloc: Global, class: &Class<'_>) -> Result<ClassSummary, AllocError> {
    let nesting = match class.nesting {
        Some((outer, simple, flags)) => Some(Nesting {
            outer: Some(Text::from_str(alloc, outer)?),
            simple: Some(Text::from_str(alloc, simple)?),
            flags,
        }),
        None => None,
    };
    Ok(ClassSummary {
        name: Text::from_str(alloc, class.name)?,
        flags: class.flags,
        nesting,
        supers: texts_of(alloc, class.supers)?,
        fields: fields_of(alloc, class.fields)?,
        methods: methods_of(alloc, class.methods)?,
    })
}

/// The index of these classes.
fn index_of(alloc: Global, classes: &[Class<'_>]) -> Result<Index, Fail> {
    let mut puts = Items::new(alloc);
    for class in classes {
        puts.push(summary_of(alloc, class)?)?;
    }
    let change = Change::Publish {
        puts,
        removes: Items::new(alloc),
        counts: Items::new(alloc),
    };
    with_change(alloc, &Index::empty(alloc)?, &change)
}

/// The environment at the hole of a row, as it is shown.
fn shown_of(alloc: Global, row: &Row<'_>) -> Result<Text, Fail> {
    let index = index_of(alloc, row.classes)?;
    let place = u32::try_from(row.text.len()).map_err(|_| Fail::from("a short text"))?;
    let env = made(alloc, &index, row.text, place, 45)?;
    Ok(shown(alloc, &env)?)
}

#[test]
fn an_outer_class_may_be_missing(rt: HostRuntime) -> Result<(), Fail> {
    for row in &OUTER {
        let all = shown_of(rt.alloc(), row)?;
        assert_eq!(rt; all.as_str(), row.shown);
    }
    Ok(())
}

#[test]
fn supers_may_be_missing(rt: HostRuntime) -> Result<(), Fail> {
    for row in &SUPERS {
        let all = shown_of(rt.alloc(), row)?;
        assert_eq!(rt; all.as_str(), row.shown);
    }
    Ok(())
}

#[test]
fn names_may_be_no_identifiers(rt: HostRuntime) -> Result<(), Fail> {
    for row in &NAMES {
        let all = shown_of(rt.alloc(), row)?;
        assert_eq!(rt; all.as_str(), row.shown);
    }
    Ok(())
}
