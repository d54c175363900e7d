use java_tokens::tokens;
use java_units::{
    ClassKind, Import, SourceClass, SourceField, SourceMethod, TypeText, TypeVar, Unit, read_unit,
};
use lists::{Items, Text};
use std::alloc::{AllocError, Global};
use std::test::Fail;

/// Texts, and what each declares: the package, `|`, the imports, and each class as its outer class's
/// number, `/`, its flags, name, type variables, supers, fields and methods. `+` stands before a superclass
/// that is named, `:` before a variable's bound, and `#` after a method with a block.
const ROWS: [(&str, &str); 40] = [
    (
        "class A{int f;}",
        "||-/0000 A<>:{int f 0000}{0000 <init><>()}",
    ),
    (
        "package a.b; package c; import x.Y; import static p.Q; import z.*; @interface I {}",
        "a.b|x.Y,z.*|-/0600 I<>:{}{}",
    ),
    (
        "public abstract class A<T extends B<C> & D, U> extends p.B<T[]> implements E, F<G> {}",
        "||-/0401 A<T:B,U>:+p.B,E,F{}{0001 <init><>()}",
    ),
    (
        "interface A extends B, C { int x = 1, y[] = {2, 3}, z; void m(); static int s() {return 1;} \
         default void d() {} private void p() {} class N {} }",
        "||-/0600 A<>:B,C{int x 0009;int[] y 0009;int z 0009}\
         {0401 void m<>();0009 int s<>()#;0001 void d<>()#;0002 void p<>()#}0/0009 N<>:{}{0001 <init><>()}",
    ),
    (
        "enum E implements I { A(1) { int q; }, B; int f; E(int x) {} enum G { H } }",
        "||-/0000 E<>:I{int f 0000}{0002 <init><>(int x)#}0/0008 G<>:{}{}",
    ),
    (
        "record R<T>(T t) implements I { static int n; R(T t) {} T t() { return t; } }",
        "||-/0000 R<T>:I{int n 0008}{0000 <init><>(T t)#;0000 T t<>()#}",
    ),
    (
        "record R { int f; } class A { }",
        "||-/0000 A<>:{}{0000 <init><>()}",
    ),
    (
        "class A { <T> A(@N(\"x\") final T t, int... a) throws X; <T, U> java.util.List<T>[] m(A this, int b[]) {} }",
        "||-/0000 A<>:{}{0000 <init><T>(T t,int[] a);0000 java.util.List[] m<T,U>(int[] b)#}",
    ),
    (
        "class A { class B { class C { int c; } int b; } class D { } int a; }",
        "||-/0000 A<>:{int a 0000}{0000 <init><>()}0/0000 B<>:{int b 0000}{0000 <init><>()}\
         1/0000 C<>:{int c 0000}{0000 <init><>()}0/0000 D<>:{}{0000 <init><>()}",
    ),
    (
        "class A { private protected static final int[] a[] = f(x, y), b; ; { int q; } static { } }",
        "||-/0000 A<>:{int[][] a 000e;int[] b 000e}{0000 <init><>()}",
    ),
    (
        "class A { Map<A, B> m = new HashMap<A, B>(); Map<A, B> n; }",
        "||-/0000 A<>:{Map m 0000;Map n 0000}{0000 <init><>()}",
    ),
    (
        "sealed interface S permits A, B {} non-sealed class A implements S {} int f; void m() {}",
        "||-/0600 S<>:{}{}-/0000 A<>:S{}{0000 <init><>()}",
    ),
    (
        "class A { Runnable r = () -> { int x; }; int y; }",
        "||-/0000 A<>:{Runnable r 0000;int y 0000}{0000 <init><>()}",
    ),
    (
        "class A extends B extends C { int f",
        "||-/0000 A<>:+B{}{0000 <init><>()}",
    ),
    ("class A { void m(", "||-/0000 A<>:{}{0000 <init><>()}"),
    (
        "} class A {} class B {}",
        "||-/0000 B<>:{}{0000 <init><>()}",
    ),
    (
        "@X(y = {1; 2}) @p.Q public class A { @O(\"}\") int f; }",
        "||-/0001 A<>:{int f 0000}{0001 <init><>()}",
    ),
    (
        "class O { private class A { int f; void m() {} } }",
        "||-/0000 O<>:{}{0000 <init><>()}0/0002 A<>:{int f 0000}{0000 void m<>()#;0002 <init><>()}",
    ),
    (
        "@interface N { String[] v() default {}; int w() default 1; }",
        "||-/0600 N<>:{}{0001 String[] v<>()#;0401 int w<>()}",
    ),
    (
        "interface I { private int f; private void p(); }",
        "||-/0600 I<>:{int f 000a}{0402 void p<>()}",
    ),
    (
        "class A { record R() {} interface I {} @interface N { class C {} } }",
        "||-/0000 A<>:{}{0000 <init><>()}0/0008 R<>:{}{}0/0608 I<>:{}{}0/0608 N<>:{}{}3/0009 C<>:{}{0001 <init><>()}",
    ),
    (
        "enum E extends X implements I { A } record R() extends X implements I {} interface J implements K {}",
        "||-/0000 E<>:I{}{}-/0000 R<>:I{}{}-/0600 J<>:K{}{}",
    ),
    (
        "class A implements I extends B implements J {}",
        "||-/0000 A<>:+B,I,J{}{0000 <init><>()}",
    ),
    (
        "class A<> {} class B {}",
        "||-/0000 B<>:{}{0000 <init><>()}",
    ),
    (
        "class A { int a, ; int[]... b[]; void m(int[]... a[]) {} }",
        "||-/0000 A<>:{int a 0000}{0000 void m<>(int[][][] a)#;0000 <init><>()}",
    ),
    (
        "class A { package p; import q.R; int f; }",
        "||-/0000 A<>:{int f 0000}{0000 <init><>()}",
    ),
    (
        "class A { int m() { x",
        "||-/0000 A<>:{}{0000 int m<>()#;0000 <init><>()}",
    ),
    (
        "class A { public static abstract synchronized void m(); protected final int f; }",
        "||-/0000 A<>:{int f 0004}{0409 void m<>();0000 <init><>()}",
    ),
    (
        "class A { void m(List<String s) { if (1 > s) return; } int f; }",
        "||-/0000 A<>:{int f 0000}{0000 <init><>()}",
    ),
    (
        "class A { transient volatile int f; native synchronized final strictfp int m(); }",
        "||-/0000 A<>:{int f 0000}{0000 int m<>();0000 <init><>()}",
    ),
    (
        "class A { protected static class C { C() {} } protected static class D { int d; void m() {} } }",
        "||-/0000 A<>:{}{0000 <init><>()}0/000c C<>:{}{0000 <init><>()#}\
         0/000c D<>:{int d 0000}{0000 void m<>()#;0004 <init><>()}",
    ),
    (
        "interface I implements A extends B {} enum E { A, B } class F {}",
        "||-/0600 I<>:A,B{}{}-/0000 E<>:{}{}-/0000 F<>:{}{0000 <init><>()}",
    ),
    (
        "import /* c */ a . /* d */ * ; import b.C /* e */ ; import a.b.*.c;",
        "|a.*,b.C|",
    ),
    (
        "class A { int f; void m()",
        "||-/0000 A<>:{int f 0000}{0000 void m<>();0000 <init><>()}",
    ),
    (
        "class C { int m()) {} int x = 1], y; }",
        "||-/0000 C<>:{int x 0000;int y 0000}{0000 int m<>()#;0000 <init><>()}",
    ),
    (
        "class A { <T extends B[][] & C[], U extends D> T[] m(U[] u[]) {} }",
        "||-/0000 A<>:{}{0000 T[] m<T:B[][],U:D>(U[][] u)#;0000 <init><>()}",
    ),
    (
        "class A { int a = x < y, b = 1; int c, d e, f; int[] g[] = {1, 2}, h = k(l, m); int n o; }",
        "||-/0000 A<>:{int a 0000;int b 0000;int c 0000;int f 0000;int[][] g 0000;int[] h 0000}{0000 <init><>()}",
    ),
    (
        "class A { Triple<A, B, C> t = new Triple<A, B, C>(), u[]; }",
        "||-/0000 A<>:{Triple t 0000;Triple B 0000;Triple[] u 0000}{0000 <init><>()}",
    ),
    (
        "interface I { record R() {} enum E {} private class C {} interface J {} }",
        "||-/0600 I<>:{}{}0/0009 R<>:{}{}0/0009 E<>:{}{}0/000a C<>:{}{0002 <init><>()}0/0609 J<>:{}{}",
    ),
    ("", "||"),
];

/// The sixteen digits.
const DIGITS: [&str; 16] = [
    "0", "1", "2", "3", "4", "5", "6", "7", "8", "9", "a", "b", "c", "d", "e", "f",
];

fn add_digit(out: &mut Text, digit: usize) -> Result<(), AllocError> {
    match DIGITS.get(digit) {
        Some(text) => out.push_str(text),
        None => out.push_str("?"),
    }
}

fn add_flags(out: &mut Text, flags: u16) -> Result<(), AllocError> {
    add_digit(out, (flags / 4096) as usize)?;
    add_digit(out, (flags / 256 % 16) as usize)?;
    add_digit(out, (flags / 16 % 16) as usize)?;
    add_digit(out, (flags % 16) as usize)
}

fn add_parts(out: &mut Text, parts: &Items<Text>) -> Result<(), AllocError> {
    let mut mark = "";
    for part in parts.as_slice() {
        out.push_str(mark)?;
        out.push_str(part.as_str())?;
        mark = ".";
    }
    Ok(())
}

fn add_type(out: &mut Text, kind: &TypeText) -> Result<(), AllocError> {
    add_parts(out, &kind.parts)?;
    for _ in 0..kind.dims {
        out.push_str("[]")?;
    }
    Ok(())
}

fn add_vars(out: &mut Text, vars: &Items<TypeVar>) -> Result<(), AllocError> {
    let mut mark = "<";
    for var in vars.as_slice() {
        out.push_str(mark)?;
        out.push_str(var.name.as_str())?;
        mark = ",";
        if let Some(bound) = &var.bound {
            out.push_str(":")?;
            add_type(out, bound)?;
        }
    }
    out.push_str(if vars.is_empty() { "<>" } else { ">" })
}

fn add_field(out: &mut Text, field: &SourceField) -> Result<(), AllocError> {
    add_type(out, &field.kind)?;
    out.push_str(" ")?;
    out.push_str(field.name.as_str())?;
    out.push_str(" ")?;
    add_flags(out, field.flags)
}

fn add_params(out: &mut Text, method: &SourceMethod) -> Result<(), AllocError> {
    let mut mark = "";
    for param in method.params.as_slice() {
        out.push_str(mark)?;
        add_type(out, &param.kind)?;
        out.push_str(" ")?;
        out.push_str(param.name.as_str())?;
        mark = ",";
    }
    Ok(())
}

fn add_result(out: &mut Text, method: &SourceMethod) -> Result<(), AllocError> {
    match &method.result {
        Some(kind) => {
            add_type(out, kind)?;
            out.push_str(" ")
        }
        None => {
            if method.name.as_str() == "<init>" {
                return Ok(());
            }
            out.push_str("void ")
        }
    }
}

fn add_method(out: &mut Text, method: &SourceMethod) -> Result<(), AllocError> {
    add_flags(out, method.flags)?;
    out.push_str(" ")?;
    add_result(out, method)?;
    out.push_str(method.name.as_str())?;
    add_vars(out, &method.vars)?;
    out.push_str("(")?;
    add_params(out, method)?;
    out.push_str(if method.body.is_some() { ")#" } else { ")" })
}

fn add_supers(out: &mut Text, class: &SourceClass) -> Result<(), AllocError> {
    let mut mark = if class.names_parent { ":+" } else { ":" };
    if class.supers.is_empty() {
        out.push_str(":")?;
    }
    for kind in class.supers.as_slice() {
        out.push_str(mark)?;
        add_type(out, kind)?;
        mark = ",";
    }
    Ok(())
}

fn add_members(out: &mut Text, class: &SourceClass) -> Result<(), AllocError> {
    let mut mark = "{";
    for field in class.fields.as_slice() {
        out.push_str(mark)?;
        add_field(out, field)?;
        mark = ";";
    }
    out.push_str(if class.fields.is_empty() { "{}{" } else { "}{" })?;
    let mut between = "";
    for method in class.methods.as_slice() {
        out.push_str(between)?;
        add_method(out, method)?;
        between = ";";
    }
    out.push_str("}")
}

fn add_class(out: &mut Text, class: &SourceClass) -> Result<(), AllocError> {
    match class.outer {
        Some(number) => add_digit(out, number as usize)?,
        None => out.push_str("-")?,
    }
    out.push_str("/")?;
    add_flags(out, class.flags)?;
    out.push_str(" ")?;
    out.push_str(class.name.as_str())?;
    add_vars(out, &class.vars)?;
    add_supers(out, class)?;
    add_members(out, class)
}

fn add_imports(out: &mut Text, imports: &Items<Import>) -> Result<(), AllocError> {
    let mut mark = "|";
    for import in imports.as_slice() {
        out.push_str(mark)?;
        add_parts(out, &import.parts)?;
        out.push_str(if import.star { ".*" } else { "" })?;
        mark = ",";
    }
    if imports.is_empty() {
        return out.push_str("|");
    }
    Ok(())
}

fn describe(alloc: Global, unit: &Unit) -> Result<Text, AllocError> {
    let mut out = Text::new(alloc);
    add_parts(&mut out, &unit.package)?;
    add_imports(&mut out, &unit.imports)?;
    out.push_str("|")?;
    for class in unit.classes.as_slice() {
        add_class(&mut out, class)?;
    }
    Ok(out)
}

/// What a short text declares.
fn read(alloc: Global, text: &str) -> Result<Text, AllocError> {
    if text.len() > 16777216 {
        return Err(AllocError);
    }
    let all = tokens(alloc, text)?;
    let unit = read_unit(alloc, text, all.as_slice())?;
    describe(alloc, &unit)
}

#[test]
fn texts_declare_what_the_forms_say(rt: HostRuntime) -> Result<(), Fail> {
    for (text, wanted) in ROWS {
        let found = read(rt.alloc(), text)?;
        assert_eq!(rt; found.as_str(), wanted);
    }
    Ok(())
}

fn letter(kind: ClassKind) -> &'static str {
    match kind {
        ClassKind::ClassDecl => "C",
        ClassKind::InterfaceDecl => "I",
        ClassKind::EnumDecl => "E",
        ClassKind::RecordDecl => "R",
        ClassKind::AnnotationDecl => "N",
    }
}

/// A letter for each class of a short text: C, I, E or R, and N for an annotation.
fn kinds(alloc: Global, text: &str) -> Result<Text, AllocError> {
    if text.len() > 16777216 {
        return Err(AllocError);
    }
    let all = tokens(alloc, text)?;
    let unit = read_unit(alloc, text, all.as_slice())?;
    let mut out = Text::new(alloc);
    for class in unit.classes.as_slice() {
        out.push_str(letter(class.kind))?;
    }
    Ok(out)
}

#[test]
fn kinds_are_those_declared(rt: HostRuntime) -> Result<(), Fail> {
    let table = [
        (
            "class A {} interface B {} enum C {} record D() {} @interface E {}",
            "CIERN",
        ),
        (
            "@interface A { record B() { enum C { ; interface D { class E {} } } } }",
            "NREIC",
        ),
        (
            "record A {} record B(int b) {} @ /* c */ interface C {}",
            "RN",
        ),
    ];
    for (text, wanted) in table {
        let found = kinds(rt.alloc(), text)?;
        assert_eq!(rt; found.as_str(), wanted);
    }
    Ok(())
}

/// The range of the first method's block in a short text.
fn first_body(alloc: Global, text: &str) -> Result<Option<(u32, u32)>, AllocError> {
    if text.len() > 16777216 {
        return Err(AllocError);
    }
    let all = tokens(alloc, text)?;
    let unit = read_unit(alloc, text, all.as_slice())?;
    match unit.classes.as_slice() {
        [class, ..] => match class.methods.as_slice() {
            [method, ..] => Ok(method.body),
            [] => Ok(None),
        },
        [] => Ok(None),
    }
}

// All tokens count, white space and comments too.
#[test]
fn bodies_are_ranges_of_tokens(rt: HostRuntime) -> Result<(), Fail> {
    let table = [
        ("class A{void m(){}}", Some((9, 11))),
        ("class A{void m(){ x", Some((9, 12))),
        ("class A{void m()/* c */{}}", Some((10, 12))),
        ("class A{void m();}", None),
    ];
    for (text, range) in table {
        assert!(rt; first_body(rt.alloc(), text)? == range, "{text}");
    }
    Ok(())
}
