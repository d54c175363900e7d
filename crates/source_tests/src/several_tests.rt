use crate::told_tests::told;
use std::test::Fail;

/// Texts, the names of known classes, and the lines of the classes: flags and name, nesting, supers, fields, methods.
type Row<'a> = (&'a [&'a str], &'a [&'a str], &'a [&'a str]);

const LINES: [Row<'static>; 18] = [
    (&[], &["p/A"], &[]),
    (&["", "// no class\n", "package p; import q.*;"], &[], &[]),
    (
        &[
            "package p; public class A { public B b() { return null; } }",
            "package p; public class B {}",
        ],
        &[],
        &[
            "1 p/A: java/lang/Object;; 1 b()Lp/B; 1 <init>()V",
            "1 p/B: java/lang/Object;; 1 <init>()V",
        ],
    ),
    (
        &["class A { private int a; int b; private static int c; protected int d; }"],
        &[],
        &["0 A: java/lang/Object; 0 b:I 4 d:I; 0 <init>()V"],
    ),
    (
        &[
            "class A { private A() {} private void a() {} public long b(int x) { return x; } private static int c() {} }",
        ],
        &[],
        &["0 A: java/lang/Object;; 1 b(I)J"],
    ),
    (
        &["class A { private static class B { private int x; int y; } }"],
        &[],
        &[
            "0 A: java/lang/Object;; 0 <init>()V",
            "10 A$B in 10 A B: java/lang/Object; 0 y:I;",
        ],
    ),
    (
        &[
            "class A { int x; }",
            "class B { A a; }",
            "class A { int y; }",
        ],
        &[],
        &[
            "0 B: java/lang/Object; 0 a:LA;; 0 <init>()V",
            "0 A: java/lang/Object; 0 y:I; 0 <init>()V",
        ],
    ),
    (
        &["class A { int x; class C { } }", "class A { C c; }"],
        &[],
        &[
            "0 A$C in 0 A C: java/lang/Object;; 0 <init>()V",
            "0 A: java/lang/Object; 0 c:LC;; 0 <init>()V",
        ],
    ),
    (
        &["class A {} class A { int y; }"],
        &[],
        &["0 A: java/lang/Object; 0 y:I; 0 <init>()V"],
    ),
    (
        &[
            "package p; class A extends B implements I, J {}",
            "package p; class B {} interface I {} interface J extends I {}",
        ],
        &[],
        &[
            "0 p/A: p/B p/I p/J;; 0 <init>()V",
            "0 p/B: java/lang/Object;; 0 <init>()V",
            "1536 p/I: java/lang/Object;;",
            "1536 p/J: java/lang/Object p/I;;",
        ],
    ),
    (
        &[
            "enum E { X; void m() {} }",
            "record R(int a) { }",
            "@interface N { int value(); }",
        ],
        &[],
        &[
            "0 E: java/lang/Enum;; 0 m()V",
            "0 R: java/lang/Record;;",
            "1536 N: java/lang/Object java/lang/annotation/Annotation;; 1025 value()I",
        ],
    ),
    (
        &["class A extends T<int[]> { } class B implements int, I[] {}"],
        &[],
        &[
            "0 A: T;; 0 <init>()V",
            "0 B: java/lang/Object;; 0 <init>()V",
        ],
    ),
    (
        &["class A extends B {}", "class B extends A {}"],
        &[],
        &["0 A: B;; 0 <init>()V", "0 B: A;; 0 <init>()V"],
    ),
    (
        &[
            "package p; class A { <T extends B> T m(T[] t, B... b) { return null; } }",
            "package p; class B {}",
        ],
        &[],
        &[
            "0 p/A: java/lang/Object;; 0 m([Lp/B;[Lp/B;)Lp/B; 0 <init>()V",
            "0 p/B: java/lang/Object;; 0 <init>()V",
        ],
    ),
    (
        &["\u{FEFF}package p; class A {}"],
        &[],
        &["0 A: java/lang/Object;; 0 <init>()V"],
    ),
    (
        &["class A {", "class B { int x; A a"],
        &[],
        &[
            "0 A: java/lang/Object;; 0 <init>()V",
            "0 B: java/lang/Object; 0 x:I; 0 <init>()V",
        ],
    ),
    (
        &["package p; class A { B b; }"],
        &["p/A", "p/A$B"],
        &["0 p/A: java/lang/Object; 0 b:Lp/B;; 0 <init>()V"],
    ),
    (
        &["package p; class A { public void m() {} }"],
        &["p/A", "q/B"],
        &["0 p/A: java/lang/Object;; 1 m()V 0 <init>()V"],
    ),
];

#[test]
fn texts_have_classes(rt: HostRuntime) -> Result<(), Fail> {
    for (texts, known, want) in LINES {
        let lines = told(&rt, rt.alloc(), texts, known)?;
        assert_eq!(rt; lines.len(), want.len());
        for i in 0..want.len() {
            let line = lines.get(i).ok_or("a line")?;
            assert_eq!(rt; line.as_str(), want[i]);
        }
    }
    Ok(())
}

/// So many texts are read by several threads, and stand in their order.
#[test]
fn many_texts_keep_their_order(rt: HostRuntime) -> Result<(), Fail> {
    let texts = [
        "class A { H h; }",
        "class B { G g; }",
        "class C {}",
        "class D {} class E {}",
        "",
        "class F { A a; }",
        "class G {}",
        "class H { B b; }",
        "class C { D d; }",
        "class I {}",
    ];
    let lines = told(&rt, rt.alloc(), &texts, &[])?;
    let want = [
        "0 A: java/lang/Object; 0 h:LH;; 0 <init>()V",
        "0 B: java/lang/Object; 0 g:LG;; 0 <init>()V",
        "0 D: java/lang/Object;; 0 <init>()V",
        "0 E: java/lang/Object;; 0 <init>()V",
        "0 F: java/lang/Object; 0 a:LA;; 0 <init>()V",
        "0 G: java/lang/Object;; 0 <init>()V",
        "0 H: java/lang/Object; 0 b:LB;; 0 <init>()V",
        "0 C: java/lang/Object; 0 d:LD;; 0 <init>()V",
        "0 I: java/lang/Object;; 0 <init>()V",
    ];
    assert_eq!(rt; lines.len(), want.len());
    for i in 0..want.len() {
        let line = lines.get(i).ok_or("a line")?;
        assert_eq!(rt; line.as_str(), want[i]);
    }
    Ok(())
}
