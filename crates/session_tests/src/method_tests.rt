ghost use Rattle.std.specs.Prelude.{IfOk};
ghost use Rattle.decl_index.specs.History.{KeepsRanges};

use crate::frame_tests::CAPABILITIES;
use crate::version_tests::gives;
use decl_index::Change;
use known_classes::{ClassSummary, MethodSummary};
use lists::{Items, Text};
use std::alloc::{AllocError, Global};
use std::test::Fail;
use type_names::{Base, Erased};

// Bodies of messages and of replies, each after its length in bytes.

const INITIALIZE_TO_45: (usize, &str) = (
    94,
    r#"{"jsonrpc":"2.0","id":1,"method":"initialize","params":{"initializationOptions":{"limit":45}}}"#,
);

const OF_A_TEXT: (usize, &str) = (
    204,
    r#"{"jsonrpc":"2.0","method":"textDocument/didOpen","params":{"textDocument":{"uri":"file:///q/Use.java","languageId":"java","version":1,"text":"package q; class Use { static void go(String s) { int r = "}}}"#,
);

const AFTER_TEXT: (usize, &str) = (
    151,
    r#"{"jsonrpc":"2.0","id":2,"method":"textDocument/completion","params":{"textDocument":{"uri":"file:///q/Use.java"},"position":{"line":0,"character":58}}}"#,
);

const OF_B: (usize, &str) = (
    199,
    r#"{"jsonrpc":"2.0","method":"textDocument/didOpen","params":{"textDocument":{"uri":"file:///q/Use.java","languageId":"java","version":1,"text":"package q; class Use { static void go(B b) { int r = "}}}"#,
);

const AFTER_B: (usize, &str) = (
    151,
    r#"{"jsonrpc":"2.0","id":2,"method":"textDocument/completion","params":{"textDocument":{"uri":"file:///q/Use.java"},"position":{"line":0,"character":53}}}"#,
);

const TWO_OVERLOADS: (usize, &str) = (
    480,
    r#"{"id":2,"jsonrpc":"2.0","result":{"insynth":{"cursor":1,"from":0,"grown":2,"last":true,"version":1},"isIncomplete":false,"items":[{"detail":"30","label":"T.m(s)","sortText":"0000000000","textEdit":{"newText":"T.m(s)","range":{"end":{"character":58,"line":0},"start":{"character":58,"line":0}}}},{"detail":"40","label":"T.m((Object) s)","sortText":"0000000001","textEdit":{"newText":"T.m((Object) s)","range":{"end":{"character":58,"line":0},"start":{"character":58,"line":0}}}}]}}"#,
);

const ONE_METHOD: (usize, &str) = (
    295,
    r#"{"id":2,"jsonrpc":"2.0","result":{"insynth":{"cursor":1,"from":0,"grown":1,"last":true,"version":1},"isIncomplete":false,"items":[{"detail":"40","label":"b.m()","sortText":"0000000000","textEdit":{"newText":"b.m()","range":{"end":{"character":53,"line":0},"start":{"character":53,"line":0}}}}]}}"#,
);

const TWO_PROMISES: (usize, &str) = (
    482,
    r#"{"id":2,"jsonrpc":"2.0","result":{"insynth":{"cursor":1,"from":0,"grown":2,"last":true,"version":1},"isIncomplete":false,"items":[{"detail":"40","label":"((I) b).m()","sortText":"0000000000","textEdit":{"newText":"((I) b).m()","range":{"end":{"character":53,"line":0},"start":{"character":53,"line":0}}}},{"detail":"40","label":"((J) b).m()","sortText":"0000000001","textEdit":{"newText":"((J) b).m()","range":{"end":{"character":53,"line":0},"start":{"character":53,"line":0}}}}]}}"#,
);

/// A method: its name, its flags (JVMS 4.6), the classes of its parameters, and whether it gives an int or nothing.
struct Method {
    name: &'static str,
    flags: u16,
    params: &'static [&'static str],
    gives_int: bool,
}

/// A class: its internal name, its flags (JVMS 4.1), what stands directly above it, and its methods.
struct Class {
    name: &'static str,
    flags: u16,
    above: &'static [&'static str],
    methods: &'static [Method],
}

const CONSTRUCTOR: Method = Method {
    name: "<init>",
    flags: 0x1,
    params: &[],
    gives_int: false,
};

/// `public int m()` of a class.
const OWN: Method = Method {
    name: "m",
    flags: 0x1,
    params: &[],
    gives_int: true,
};

/// `int m()` of an interface.
const PROMISED: Method = Method {
    name: "m",
    flags: 0x401,
    params: &[],
    gives_int: true,
};

/// `public static int m(Object)`.
const OF_AN_OBJECT: Method = Method {
    name: "m",
    flags: 0x9,
    params: &["java/lang/Object"],
    gives_int: true,
};

/// `public static int m(String)`.
const OF_A_STRING: Method = Method {
    name: "m",
    flags: 0x9,
    params: &["java/lang/String"],
    gives_int: true,
};

/// The types of classes.
fn types_of(alloc: Global, names: &[&str]) -> Result<Items<Erased>, AllocError> {
    let mut types = Items::new(alloc);
    for name in names {
        types.push(Erased {
            dims: 0,
            base: Base::Class(Text::from_str(alloc, name)?),
        })?;
    }
    Ok(types)
}

fn texts_of(alloc: Global, names: &[&str]) -> Result<Items<Text>, AllocError> {
    let mut texts = Items::new(alloc);
    for name in names {
        texts.push(Text::from_str(alloc, name)?)?;
    }
    Ok(texts)
}

fn method_of(alloc: Global, method: &Method) -> Result<MethodSummary, AllocError> {
    let int = Erased {
        dims: 0,
        base: Base::Int,
    };
    Ok(MethodSummary {
        name: Text::from_str(alloc, method.name)?,
        flags: method.flags,
        params: types_of(alloc, method.params)?,
        result: if method.gives_int { Some(int) } else { None },
    })
}

fn methods_of(alloc: Global, methods: &[Method]) -> Result<Items<MethodSummary>, AllocError> {
    let mut made = Items::new(alloc);
    for method in methods {
        made.push(method_of(alloc, method)?)?;
    }
    Ok(made)
}

fn class_of(alloc: Global, class: &Class) -> Result<ClassSummary, AllocError> {
    Ok(ClassSummary {
        name: Text::from_str(alloc, class.name)?,
        flags: class.flags,
        nesting: None,
        supers: texts_of(alloc, class.above)?,
        fields: Items::new(alloc),
        methods: methods_of(alloc, class.methods)?,
    })
}

/// The publication of these classes.
fn publication(alloc: Global, classes: &[Class]) -> Result<Change, AllocError>
    ensures { IfOk result (λ change. KeepsRanges change) }
{
    let mut puts = Items::new(alloc);
    for class in classes {
        puts.push(class_of(alloc, class)?)?;
    }
    Ok(Change::Publish {
        puts,
        removes: Items::new(alloc),
        counts: Items::new(alloc),
    })
}

/// A class with `m(Object)` and `m(String)`.
const OVERLOADS: [Class; 1] = [Class {
    name: "q/T",
    flags: 0x21,
    above: &["java/lang/Object"],
    methods: &[CONSTRUCTOR, OF_AN_OBJECT, OF_A_STRING],
}];

#[test]
fn overloads_are_told_apart_by_a_cast(rt: HostRuntime) -> Result<(), Fail> {
    let change = publication(rt.alloc(), &OVERLOADS)?;
    let sent = [INITIALIZE_TO_45, OF_A_TEXT, AFTER_TEXT];
    assert!(rt;
        gives(
            &rt,
            rt.alloc(),
            &change,
            &sent,
            &[CAPABILITIES, TWO_OVERLOADS]
        )?
    );
    Ok(())
}

/// A class below another one, whose method it overrides.
const OVERRIDING: [Class; 2] = [
    Class {
        name: "q/A",
        flags: 0x21,
        above: &["java/lang/Object"],
        methods: &[CONSTRUCTOR, OWN],
    },
    Class {
        name: "q/B",
        flags: 0x21,
        above: &["q/A"],
        methods: &[CONSTRUCTOR, OWN],
    },
];

#[test]
fn an_overridden_method_is_called_once(rt: HostRuntime) -> Result<(), Fail> {
    let change = publication(rt.alloc(), &OVERRIDING)?;
    let sent = [INITIALIZE_TO_45, OF_B, AFTER_B];
    assert!(rt; gives(&rt, rt.alloc(), &change, &sent, &[CAPABILITIES, ONE_METHOD])?);
    Ok(())
}

/// A class below two interfaces that promise the same method.
const PROMISES: [Class; 3] = [
    Class {
        name: "q/I",
        flags: 0x601,
        above: &["java/lang/Object"],
        methods: &[PROMISED],
    },
    Class {
        name: "q/J",
        flags: 0x601,
        above: &["java/lang/Object"],
        methods: &[PROMISED],
    },
    Class {
        name: "q/B",
        flags: 0x21,
        above: &["java/lang/Object", "q/I", "q/J"],
        methods: &[CONSTRUCTOR],
    },
];

#[test]
fn a_method_of_two_interfaces_is_called_at_each(rt: HostRuntime) -> Result<(), Fail> {
    let change = publication(rt.alloc(), &PROMISES)?;
    let sent = [INITIALIZE_TO_45, OF_B, AFTER_B];
    assert!(rt;
        gives(
            &rt,
            rt.alloc(),
            &change,
            &sent,
            &[CAPABILITIES, TWO_PROMISES]
        )?
    );
    Ok(())
}
