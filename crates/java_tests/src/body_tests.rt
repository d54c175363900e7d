// Worked rows on holes.
use java_bodies::{HoleSite, Local, hole_at};
use java_tokens::tokens;
use java_units::{TypeText, read_unit};
use lists::Text;
use std::alloc::{AllocError, Global};
use std::test::Fail;

fn add_type(out: &mut Text, kind: &TypeText) -> Result<(), AllocError> {
    for part in kind.parts.as_slice() {
        out.push_str(part.as_str())?;
        out.push_str(" ")?;
    }
    for _ in 0..kind.dims {
        out.push_str("[] ")?;
    }
    Ok(())
}

fn add_local(out: &mut Text, local: &Local) -> Result<(), AllocError> {
    add_type(out, &local.kind)?;
    out.push_str(local.name.as_str())?;
    out.push_str("; ")
}

fn add_names(out: &mut Text, site: &HoleSite) -> Result<(), AllocError> {
    for local in site.locals.as_slice() {
        add_local(out, local)?;
    }
    out.push_str("| ")?;
    for name in site.hidden.as_slice() {
        out.push_str(name.as_str())?;
        out.push_str("; ")?;
    }
    Ok(())
}

/// The site as `WANTED | LOCALS | HIDDEN | PREFIX`, or `none`.
fn describe(alloc: Global, text: &str, site: &Option<HoleSite>) -> Result<Text, AllocError> {
    let Some(site) = site else {
        return Text::from_str(alloc, "none");
    };
    let mut out = Text::new(alloc);
    if site.is_static {
        out.push_str("static ")?;
    }
    add_type(&mut out, &site.wanted)?;
    out.push_str("| ")?;
    add_names(&mut out, site)?;
    out.push_str("| ")?;
    let (start, end) = site.prefix;
    if let Some(prefix) = text.get(start as usize..end as usize) {
        out.push_str(prefix)?;
    }
    Ok(out)
}

/// The hole of a text at a place.
fn hole(alloc: Global, text: &str, place: usize) -> Result<Option<HoleSite>, AllocError> {
    if text.len() > 16_777_216 || place > text.len() || !text.is_char_boundary(place) {
        return Err(AllocError);
    }
    let all = tokens(alloc, text)?;
    let unit = read_unit(alloc, text, all.as_slice())?;
    hole_at(alloc, text, all.as_slice(), &unit, place as u32)
}

/// The hole between two parts of a text.
fn between(alloc: Global, before: &str, after: &str) -> Result<Text, AllocError> {
    let mut text = Text::from_str(alloc, before)?;
    text.push_str(after)?;
    let site = hole(alloc, text.as_str(), before.len())?;
    describe(alloc, text.as_str(), &site)
}

/// The hole behind these statements of a method with the parameter `int p` and the result `String`, in a class
/// with the fields `int f` and `String p`.
fn behind(alloc: Global, statements: &str) -> Result<Text, AllocError> {
    let mut text = Text::from_str(alloc, "class A { int f; String p; String m(int p) { ")?;
    text.push_str(statements)?;
    between(alloc, text.as_str(), " } }")
}

/// Behind statements: what is asked for, and what is in scope.
const BEHIND: &[(&str, &str)] = &[
    ("int x = ", "int | int p; | x; | "),
    ("int x = fo", "int | int p; | x; | fo"),
    ("return ", "String | int p; | | "),
    ("return", "none"),
    ("return fo", "String | int p; | | fo"),
    ("p = ", "int | int p; | | "),
    ("f = ", "int | int p; | | "),
    ("this.f = ", "int | int p; | | "),
    ("this.p = ", "String | int p; | | "),
    ("this.q = ", "none"),
    ("q = ", "none"),
    ("int x", "none"),
    ("x.y = ", "none"),
    ("f = 1 + ", "none"),
    ("", "none"),
    // types
    ("var x = ", "none"),
    ("var[] x = ", "none"),
    ("var x = 1; x = ", "none"),
    ("var x = 1; int y = ", "int | int p; | x; y; | "),
    ("int[] x[] = ", "int [] [] | int p; | x; | "),
    (
        "@B(1) final java.util.Map<C, List<D>>[] x = ",
        "java util Map [] | int p; | x; | ",
    ),
    // blocks
    ("{ int a; } int b = ", "int | int p; | b; | "),
    ("{ int a; int b = ", "int | int p; int a; | b; | "),
    (
        "int a; { String b; { int c; } int d = ",
        "int | int p; int a; String b; | d; | ",
    ),
    ("if (f == 1) { int b = ", "int | int p; | b; | "),
    (
        "if (f == 1) { int a; } else { int b = ",
        "int | int p; | b; | ",
    ),
    ("do { int b = ", "int | int p; | b; | "),
    ("while (f(1)) { int b = ", "int | int p; | b; | "),
    ("synchronized (this) { int b = ", "int | int p; | b; | "),
    ("try { } finally { int b = ", "int | int p; | b; | "),
    ("switch (p) { case 1: { int b = ", "int | int p; | b; | "),
    ("switch (p) { case 1: int b = ", "none"),
    ("switch (p) { case 1 -> { int b = ", "none"),
    ("Runnable r = () -> { int b = ", "none"),
    ("new A() { void g() { int b = ", "none"),
    ("class L { void g() { int b = ", "none"),
    ("int[] b = { ", "none"),
    ("f(x -> { }); int b = ", "int | int p; | b; | "),
    // headers
    (
        "for (int i = 0, j = 1; i < j; i++) { int b = ",
        "int | int p; int i; int j; | b; | ",
    ),
    (
        "for (final String s : names) { int b = ",
        "int | int p; String s; | b; | ",
    ),
    (
        "for (int i = 0; i < p; i++) { } int b = ",
        "int | int p; | b; | ",
    ),
    ("for (int f = 0; f < p; f = ", "int | int p; | | "),
    ("for (var s : names) { s = ", "none"),
    (
        "try (A a = x; B b = y) { int c = ",
        "int | int p; A a; B b; | c; | ",
    ),
    (
        "try (A a = x; B b = y) { } int c = ",
        "int | int p; | c; | ",
    ),
    (
        "try (A a = f(() -> { int q; }); B b = y;) { int c = ",
        "int | int p; A a; B b; | c; | ",
    ),
    (
        "try { } catch (final E e) { int c = ",
        "int | int p; E e; | c; | ",
    ),
    (
        "try { } catch (E | F e) { int c = ",
        "int | int p; | e; c; | ",
    ),
    (
        "for (X x = f(() -> { g(); }); ; ) { int c = ",
        "int | int p; X x; | c; | ",
    ),
    // a resource behind another counts in its header, and behind a brace there in the block around as well
    ("try (A a = x; B b = ", "B | int p; | b; | "),
    (
        "try (A a = x; B b = y; C c = z(() -> { })) { } int d = ",
        "int | int p; B b; C c; | d; | ",
    ),
    // names that come twice, and commas
    ("int x = 1; { String x; } x = ", "int | int p; int x; | | "),
    ("int x; { String x; x = ", "String | int p; String x; | | "),
    ("String p; p = ", "String | String p; | | "),
    ("int x; var x = 1; x = ", "none"),
    ("var x = 1; int x; x = ", "int | int p; int x; | | "),
    ("int x; String x = ", "String | int p; | x; | "),
    (
        "int a = x < y, b = 1; int c = ",
        "int | int p; int a; int b; | c; | ",
    ),
    (
        "Map<A, B> m = new HashMap<A, B>(); int c = ",
        "int | int p; Map m; | c; | ",
    ),
    (
        "int a, b c, d; int e = ",
        "int | int p; int a; int d; | e; | ",
    ),
    (
        "int a, b[]; int e = ",
        "int | int p; int a; int [] b; | e; | ",
    ),
    (
        "int[] a = {1}, b; int c = ",
        "int | int p; int [] a; | c; | ",
    ),
    // what isn't closed
    ("int a = g(1; int b = ", "int | int p; int a; | b; | "),
    (
        "int a; g(; { int b; int c = ",
        "int | int p; int a; int b; | c; | ",
    ),
    ("int a; ) ; int b = ", "int | int p; | b; | "),
    (
        "int a; { ) ; int b; } int c = ",
        "int | int p; int a; | c; | ",
    ),
    (
        "for (String s : ss) { ) ; int c = ",
        "int | int p; String s; | c; | ",
    ),
    ("} int b = ", "none"),
    ("int b = // c", "none"),
    ("int b = // c\n", "int | int p; | b; | "),
    ("int b = /* c */", "int | int p; | b; | "),
    ("int b = /* c *", "none"),
    ("int b = \"c\" + \"", "none"),
    ("// int b = ", "none"),
    ("/* int b = ", "none"),
    ("\"int b = ", "none"),
    ("'int b = ", "none"),
    ("\"\"\"\nint b = ", "none"),
];

#[test]
fn holes_behind_statements(rt: HostRuntime) -> Result<(), Fail> {
    for (statements, site) in BEHIND {
        let found = behind(rt.alloc(), statements)?;
        assert_eq!(rt; found.as_str(), *site);
    }
    Ok(())
}

/// Between two parts of a text.
const BETWEEN: &[(&str, &str, &str)] = &[
    ("class A{int m(){return ", "}}", "int | | | "),
    ("class A{int m(){return", " }}", "none"),
    (
        "import java.io.*;\nclass Demo {\n  static void go(String name) {\n    Reader r = ",
        "\n  }\n}",
        "static Reader | String name; | r; | ",
    ),
    (
        "class Use { static void go(String s) { int r = ",
        "",
        "static int | String s; | r; | ",
    ),
    (
        "class Use { static void go(B b) { int r = ",
        "",
        "static int | B b; | r; | ",
    ),
    (
        "class D {\r\n  void f() {\r\n    /*\u{1F600}*/ int k = ",
        "\r\n  }\r\n}",
        "int | | k; | ",
    ),
    (
        "class P { int k; void f(int k) { int z = ",
        "",
        "int | int k; | z; | ",
    ),
    ("class A { A() { return ", "} }", "none"),
    ("class A { void m() { return ", "} }", "none"),
    ("class A { static { int b = ", "} }", "none"),
    ("class A { int b = ", "; }", "none"),
    ("class A { void m() { } int b = ", "; }", "none"),
    (
        "class A { class B { int c; void m() { c = ",
        "} } int c() { return 1; } }",
        "int | | | ",
    ),
    (
        "class A { int c; class B { void m() { c = ",
        "} } }",
        "none",
    ),
    (
        "class A { void m() { if (x) { int b = ",
        "",
        "int | | b; | ",
    ),
    ("class A { void m() { if (x) { int b = 1; } ", "", "none"),
    ("class A { void m() { int b = 1; } } int c = ", "", "none"),
    (
        "class A { void m(var a, String a) { int b = ",
        "} }",
        "int | String a; | b; | ",
    ),
    ("", "class A { void m() { int b = ", "none"),
    ("class A { void m() { in", "t b = 1; } }", "none"),
    ("class A { void m() { int b = 1 /", "/ c\n } }", "none"),
    ("class A { void m() { int b = ", " 1; } }", "int | | b; | "),
    ("class A { void m() { int b = /* c", " */ } }", "none"),
    (
        "class A { void m() { int b = /* c */ ",
        " } }",
        "int | | b; | ",
    ),
    ("class A { void m() { int b = \"c", "\"; } }", "none"),
    ("class A { void m() { int b = '", "c'; } }", "none"),
    (
        "class A { void m() { int b = \"\"\"\nc",
        "\n\"\"\"; } }",
        "none",
    ),
    // a token ends exactly at the place
    ("class A { void m() { int b = // c", "", "none"),
    ("class A { void m() { int b = // c", "\n } }", "none"),
    ("class A { void m() { int b = /* c", "", "none"),
    ("class A { void m() { int b = /*/", "", "none"),
    ("class A { void m() { int b = /* c */", "", "int | | b; | "),
    ("", "", "none"),
    // texts that an earlier line leaves open
    (
        "class A { void m() { x = \"c\n; int b = ",
        " } }",
        "int | | b; | ",
    ),
    (
        "class A { void m() { x = 'c\n; int b = ",
        " } }",
        "int | | b; | ",
    ),
    ("class A { { int b = ", "} }", "none"),
];

#[test]
fn holes_between_parts_of_a_text(rt: HostRuntime) -> Result<(), Fail> {
    for (before, after, site) in BETWEEN {
        let found = between(rt.alloc(), before, after)?;
        assert_eq!(rt; found.as_str(), *site);
    }
    Ok(())
}
