use crate::told_tests::first_kind;
use std::test::Fail;

/// Two texts, the names of known classes, and the type of the first field of the first class.
type Row<'a> = (&'a [&'a str], &'a [&'a str], &'a str);

/// What names mean over the classes of another text, by the rules of the Java language (JLS 6.4.1, 6.5.5).
const NAMES: [Row<'static>; 32] = [
    (&["import q.*; class X { N n; }", ""], &["q/N"], "Lq/N;"),
    (&["import q.*; class X { N n; }", ""], &[], "LN;"),
    (
        &["import q.*; class X { N n; }", "package q; class N {}"],
        &[],
        "Lq/N;",
    ),
    (
        &["package p; class X { N n; }", "package p; class N {}"],
        &[],
        "Lp/N;",
    ),
    (
        &["package p; class X { N n; }", "package q; class N {}"],
        &[],
        "Lp/N;",
    ),
    (
        &[
            "package p; import q.N; class X { N n; }",
            "package q; class N {}",
        ],
        &["p/N"],
        "Lq/N;",
    ),
    (
        &["package p; import q.N; class X { N n; }", ""],
        &["p/N"],
        "Lq/N;",
    ),
    (
        &[
            "package p; import q.O.N; class X { N n; }",
            "package q; class O { class N {} }",
        ],
        &[],
        "Lq/O$N;",
    ),
    (
        &["package p; import q.O.N; class X { N n; }", ""],
        &[],
        "Lq/O/N;",
    ),
    (
        &["package p; import q.O.N; class X { N n; }", ""],
        &["q/O", "q/O$N"],
        "Lq/O$N;",
    ),
    (
        &[
            "package p; import q.O.*; class X { N n; }",
            "package q; class O { class N {} }",
        ],
        &[],
        "Lq/O$N;",
    ),
    (
        &["package p; import q.O.*; class X { N n; }", ""],
        &["q/O", "q/O$N"],
        "Lq/O$N;",
    ),
    (
        &["package p; import q.O.*; class X { N n; }", ""],
        &["q/O$N"],
        "Lp/N;",
    ),
    (
        &[
            "package p; class X { O.N n; }",
            "package p; class O { class N {} }",
        ],
        &[],
        "Lp/O$N;",
    ),
    (
        &["package p; class X { O.N n; }", "package p; class O {}"],
        &[],
        "Lp/O$N;",
    ),
    (&["package p; class X { O.N n; }", ""], &[], "LO/N;"),
    (
        &[
            "package p; class X { q.O.N n; }",
            "package q; class O { class N {} }",
        ],
        &[],
        "Lq/O$N;",
    ),
    (&["package p; class X { q.O.N n; }", ""], &[], "Lq/O/N;"),
    (
        &[
            "package p; class X { N n; class N {} }",
            "package p; class N {}",
        ],
        &[],
        "Lp/X$N;",
    ),
    (&["package p; class X { X n; }", ""], &["q/X"], "Lp/X;"),
    (
        &[
            "package p; import q.*; class X { N n; }",
            "package p; class N {}",
        ],
        &["q/N"],
        "Lp/N;",
    ),
    (
        &[
            "package p; class X { String n; }",
            "package q; class String {}",
        ],
        &[],
        "Ljava/lang/String;",
    ),
    (
        &[
            "package p; class X { String n; }",
            "package p; class String {}",
        ],
        &[],
        "Lp/String;",
    ),
    (
        &["package p; class X { Thread n; }", ""],
        &["java/lang/Thread"],
        "Ljava/lang/Thread;",
    ),
    (
        &[
            "package p; class X { Thread n; }",
            "package java.lang; class Thread {}",
        ],
        &[],
        "Ljava/lang/Thread;",
    ),
    (&["package p; class X { Thread n; }", ""], &[], "Lp/Thread;"),
    (
        &[
            "package p; class X<T extends N> { T[] n; }",
            "package p; class N {}",
        ],
        &[],
        "[Lp/N;",
    ),
    (
        &["package p; class X<N> { N n; }", "package p; class N {}"],
        &[],
        "Ljava/lang/Object;",
    ),
    (
        &["package p; class X { int[] n; }", "package p; class N {}"],
        &[],
        "[I",
    ),
    (
        &["package p; class X { java.util.List<N> n; }", ""],
        &["java/util/List"],
        "Ljava/util/List;",
    ),
    // A package is its words, however they are set apart.
    (
        &[
            "package p . q; class X { N n; }",
            "package p./* */q\n; class N {}",
        ],
        &[],
        "Lp/q/N;",
    ),
    (
        &["package p; import q . r . N; class X { N n; }", ""],
        &["q/r/N"],
        "Lq/r/N;",
    ),
];

#[test]
fn names_mean_the_classes_of_all_texts(rt: HostRuntime) -> Result<(), Fail> {
    for (texts, known, want) in NAMES {
        let kind = first_kind(&rt, rt.alloc(), texts, known)?;
        assert_eq!(rt; kind.as_str(), want);
    }
    Ok(())
}

#[test]
fn names_mean_the_same_in_a_text_that_comes_later(rt: HostRuntime) -> Result<(), Fail> {
    let text = "package p; class X { N n; }";
    let other = "package p; class N { X x; }";
    assert_eq!(rt;
        first_kind(&rt, rt.alloc(), &[text, other], &[])?.as_str(),
        "Lp/N;"
    );
    assert_eq!(rt;
        first_kind(&rt, rt.alloc(), &[other, text], &[])?.as_str(),
        "Lp/X;"
    );
    Ok(())
}
