use crate::told_tests::{classes_behind, classes_of, kind_in, lines_of};
use lists::Text;
use std::alloc::{AllocError, Global};
use std::test::Fail;
use std::thread::Threads;

/// A text whose classes are put as those of class files are, names of known classes, a source text, and the type of
/// the first field of its last class.
type Row<'a> = (&'a str, &'a [&'a str], &'a str, &'a str);

/// What names mean beside the classes of the text.
const KNOWN: [Row<'static>; 16] = [
    ("", &["q/N", "q/N"], "import q.*; class X { N n; }", "Lq/N;"),
    (
        "package q; class N {}",
        &[],
        "import q.*; class X { N n; }",
        "Lq/N;",
    ),
    (
        "package q; class O { class N {} }",
        &[],
        "class X { q.O.N n; }",
        "Lq/O$N;",
    ),
    // A class that is put hides a name, and so has the nesting that its file tells.
    (
        "package q; class O { class N {} }",
        &["q/O$N"],
        "class X { q.O.N n; }",
        "Lq/O$N;",
    ),
    (
        "package q; class O {}",
        &["q/O", "q/O$N"],
        "class X { q.O.N n; }",
        "Lq/O$N;",
    ),
    // The outer class must be among the names, and not only among the classes that are put.
    (
        "package q; class O {}",
        &["q/O$N"],
        "class X { q.O$N n; }",
        "Lq/O$N;",
    ),
    (
        "package q; class O {}",
        &["q/O$N"],
        "package p; import q.O.*; class X { N n; }",
        "Lp/N;",
    ),
    (
        "",
        &["q/O", "q/O$N", "q/O$N$M"],
        "class X { q.O.N.M n; }",
        "Lq/O$N$M;",
    ),
    (
        "",
        &["q/O", "q/O$N$M"],
        "class X { q.O.N.M n; }",
        "Lq/O/N/M;",
    ),
    (
        "",
        &["q/O$N$M", "q/O$N", "q/O"],
        "class X { q.O.N.M n; }",
        "Lq/O$N$M;",
    ),
    ("", &["q/O", "q/O$"], "class X { q.O$ n; }", "Lq/O$;"),
    ("", &["q/O$"], "class X { q.O$ n; }", "Lq/O$;"),
    (
        "",
        &["q/$N"],
        "package p; import q.*; class X { $N n; }",
        "Lq/$N;",
    ),
    ("", &["$N", "$"], "class X { $N n; }", "L$N;"),
    ("", &["q/O", "q/O$$N"], "class X { q.O$.N n; }", "Lq/O$/N;"),
    (
        "",
        &["q/O", "q/O$", "q/O$$N"],
        "import q.*; class X { O$ n; }",
        "Lq/O$;",
    ),
];

/// The type of the first field of the last class of a publication.
fn last_kind<R: Threads + Sync>(rt: &R, alloc: Global, row: &Row<'_>) -> Result<Text, AllocError> {
    let puts = classes_of(rt, alloc, &[row.0], &[])?;
    let classes = classes_behind(rt, alloc, puts, &[row.2], row.1)?;
    kind_in(alloc, classes.as_slice().last())
}

#[test]
fn names_mean_known_classes(rt: HostRuntime) -> Result<(), Fail> {
    for row in &KNOWN {
        let kind = last_kind(&rt, rt.alloc(), row)?;
        assert_eq!(rt; kind.as_str(), row.3);
    }
    Ok(())
}

#[test]
fn classes_of_sources_stand_behind_those_put(rt: HostRuntime) -> Result<(), Fail> {
    let alloc = rt.alloc();
    let puts = classes_of(&rt, alloc, &["class A { int x; } class B {}"], &[])?;
    let all = classes_behind(
        &rt,
        alloc,
        puts,
        &["class C { A a; }", "class A {}"],
        &["K"],
    )?;
    let lines = lines_of(alloc, all.as_slice())?;
    let want = [
        "0 A: java/lang/Object; 0 x:I; 0 <init>()V",
        "0 B: java/lang/Object;; 0 <init>()V",
        "0 C: java/lang/Object; 0 a:LA;; 0 <init>()V",
        "0 A: java/lang/Object;; 0 <init>()V",
    ];
    assert_eq!(rt; lines.len(), want.len());
    for i in 0..want.len() {
        let line = lines.get(i).ok_or("a line")?;
        assert_eq!(rt; line.as_str(), want[i]);
    }
    Ok(())
}

#[test]
fn nothing_is_added_without_a_text(rt: HostRuntime) -> Result<(), Fail> {
    let alloc = rt.alloc();
    let puts = classes_of(&rt, alloc, &["class A {}"], &[])?;
    let all = classes_behind(&rt, alloc, puts, &[], &["K", "K$L"])?;
    assert_eq!(rt; all.len(), 1);
    Ok(())
}
