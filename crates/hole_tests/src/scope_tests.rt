// Holes in small texts, and the environments that they have among a few published classes.
use crate::holes::{made, published};
use decl_index::Index;
use lists::Text;
use std::alloc::{AllocError, Global};
use std::test::Fail;
use terms::{Arg, Decl, Env, Form};

/// The environment at the end of a text among the classes of other texts.
fn made_among(alloc: Global, texts: [&str; 3], text: &str) -> Result<Env, Fail> {
    let index = published(alloc, &texts)?;
    let place = u32::try_from(text.len()).map_err(|_| Fail::from("a short text"))?;
    made(alloc, &index, text, place, 45)
}

fn push_word(text: &mut Text, word: &str) -> Result<(), AllocError> {
    text.push_str(word)?;
    text.push_str(" ")
}

/// How a declaration is written.
fn push_form(text: &mut Text, form: &Form) -> Result<(), AllocError> {
    let (kind, name) = match form {
        Form::Name(name) => ("name", name.as_str()),
        Form::This => ("this", "this"),
        Form::Call(name) => ("call", name.as_str()),
        Form::New(name) => ("new", name.as_str()),
        Form::Method(name) => ("method", name.as_str()),
        Form::Field(name, true) => ("hidden", name.as_str()),
        Form::Field(name, false) => ("field", name.as_str()),
        Form::Lambda(name) => ("lambda", name.as_str()),
    };
    push_word(text, kind)?;
    push_word(text, name)
}

fn push_type(text: &mut Text, env: &Env, number: u32) -> Result<(), AllocError> {
    match env.parts().types.get(number as usize) {
        Some(kind) => push_word(text, kind.as_str()),
        None => Ok(()),
    }
}

fn push_arg(text: &mut Text, env: &Env, arg: &Arg) -> Result<(), AllocError> {
    match arg {
        Arg::Plain(kind) => push_type(text, env, *kind),
        Arg::Fun(params, result) => {
            push_word(text, "fun")?;
            for param in params.as_slice() {
                push_type(text, env, *param)?;
            }
            push_type(text, env, *result)
        }
    }
}

/// A declaration as `WEIGHT FORM ARGUMENTS -> RESULT`, with `crowded` behind its weight where it is.
fn push_decl(alloc: Global, text: &mut Text, env: &Env, decl: &Decl) -> Result<(), AllocError> {
    let weight = decl.weight;
    push_word(text, format!(in alloc; "{weight}")?.as_str())?;
    if decl.crowded {
        push_word(text, "crowded")?;
    }
    push_form(text, &decl.form)?;
    for arg in decl.args.as_slice() {
        push_arg(text, env, arg)?;
    }
    push_word(text, "->")?;
    push_type(text, env, decl.result)?;
    text.push_str("\n")
}

pub fn shown(alloc: Global, env: &Env) -> Result<Text, AllocError> {
    let mut text = Text::new(alloc);
    for kind in env.parts().types.as_slice() {
        push_word(&mut text, kind.as_str())?;
    }
    text.push_str("\n")?;
    for pair in env.parts().pairs.as_slice() {
        push_type(&mut text, env, pair.0)?;
        text.push_str("< ")?;
        push_type(&mut text, env, pair.1)?;
    }
    text.push_str("\n")?;
    for decl in env.parts().decls.as_slice() {
        push_decl(alloc, &mut text, env, decl)?;
    }
    push_type(&mut text, env, env.parts().goal)?;
    text.push_str(env.parts().binder.as_str())?;
    Ok(text)
}

/// Classes of published texts, a text that ends in a hole, and its environment: types, pairs, declarations, goal and
/// binder.
const ROWS: [([&str; 3], &str, &str); 13] = [
    (
        [
            "package q; public class A { public int m() {} }",
            "package q; public class B extends A { public int m() {} }",
            "",
        ],
        "package q; class Use { static void go(B b) { int r = ",
        "int String A B Use void boolean \nB < A \n5 name b -> B \n200 name 0 -> int \n200 name true -> boolean \n200 name false -> boolean \n200 name \"\" -> String \n25 method m A -> int \n25 crowded new A -> A \n25 crowded new B -> B \n20 call Use.go B -> void \n20 new Use -> Use \nint p",
    ),
    (
        [
            "package q; public class T { public static int m(Object o) {} public static int m(String o) {} private T() {} }",
            "",
            "",
        ],
        "package q; class Use { static void go(String s) { int r = ",
        "int Object String T Use void boolean \nString < Object T < Object Use < Object \n5 name s -> String \n200 name 0 -> int \n200 name true -> boolean \n200 name false -> boolean \n200 name \"\" -> String \n25 crowded call T.m Object -> int \n25 crowded call T.m String -> int \n20 call Use.go String -> void \n20 new Use -> Use \nint p",
    ),
    (
        [
            "package q; public interface I { int m(); }",
            "package q; public interface J { int m(); }",
            "package q; public class B implements I, J { private B() {} }",
        ],
        "package q; class Use { static void go(B b) { int r = ",
        "int String B I J Use void boolean \nB < I B < J \n5 name b -> B \n200 name 0 -> int \n200 name true -> boolean \n200 name false -> boolean \n200 name \"\" -> String \n25 crowded method m I -> int \n25 crowded method m J -> int \n20 call Use.go B -> void \n20 new Use -> Use \n10 lambda I fun int -> I \n10 lambda J fun int -> J \nint p",
    ),
    (
        [
            "package java.io; public abstract class Reader { public Reader() {} }",
            "package java.io; public class FileReader extends Reader { public FileReader(String s) {} }",
            "package java.io; public class BufferedReader extends Reader { public BufferedReader(Reader r) {} }",
        ],
        "import java.io.*; class Demo { static void go(String name) { Reader r = ",
        "int Demo BufferedReader FileReader Reader String void boolean \nBufferedReader < Reader FileReader < Reader \n5 name name -> String \n200 name 0 -> int \n200 name true -> boolean \n200 name false -> boolean \n200 name \"\" -> String \n20 call Demo.go String -> void \n20 new Demo -> Demo \n1000 new BufferedReader Reader -> BufferedReader \n1000 new FileReader String -> FileReader \nReader p",
    ),
    (
        ["", "", ""],
        "class P { int k; void f(int k) { int z = ",
        "int P String void boolean \n\n5 this this -> P \n5 name k -> int \n200 name 0 -> int \n200 name true -> boolean \n200 name false -> boolean \n200 name \"\" -> String \n20 hidden k P -> int \n20 method f P int -> void \n20 new P -> P \nint p",
    ),
    (
        ["", "", ""],
        "class P { int pp2; P(int p1) { int z = ",
        "int P String boolean \n\n5 this this -> P \n5 name p1 -> int \n200 name 0 -> int \n200 name true -> boolean \n200 name false -> boolean \n200 name \"\" -> String \n20 field pp2 P -> int \n20 new P int -> P \nint ppp",
    ),
    (
        [
            "package q; public class A { public static int s; private A() {} }",
            "",
            "",
        ],
        "package p; import q.A; class Use { static void go(int B) { int r = ",
        "int String Use A void boolean \n\n5 name B -> int \n200 name 0 -> int \n200 name true -> boolean \n200 name false -> boolean \n200 name \"\" -> String \n20 call Use.go int -> void \n20 new Use -> Use \n1000 name A.s -> int \nint p",
    ),
    (
        [
            "package q; public class A { public static int s; private A() {} }",
            "",
            "",
        ],
        "package p; import q.A; class Use { static void go(int A) { int r = ",
        "int String Use A void boolean \n\n5 name A -> int \n200 name 0 -> int \n200 name true -> boolean \n200 name false -> boolean \n200 name \"\" -> String \n20 call Use.go int -> void \n20 new Use -> Use \nint p",
    ),
    (
        [
            "package q; public class A { public long[] f; private A() {} }",
            "package q; public interface I { A m(long[] x); }",
            "",
        ],
        "package p; import q.I; class Use { static void go(I i) { long[] r = ",
        "int String Use q.A I void boolean long[] \n\n5 name i -> I \n200 name 0 -> int \n200 name true -> boolean \n200 name false -> boolean \n200 name \"\" -> String \n20 call Use.go I -> void \n20 new Use -> Use \n1000 method m I long[] -> q.A \n10 lambda I fun long[] q.A -> I \nlong[] p",
    ),
    (
        [
            "package q; public class A { public static int s; public A(int a, int b) {} }",
            "",
            "",
        ],
        "package q; class A { static void go(long l) { int r = ",
        "int long String A void boolean \nint < long \n5 name l -> long \n200 name 0 -> int \n200 name true -> boolean \n200 name false -> boolean \n200 name \"\" -> String \n20 call A.go long -> void \n20 new A -> A \nint p",
    ),
    (
        ["", "", ""],
        "class A extends A { int k; void f() { int r = ",
        "int A String void boolean \n\n5 this this -> A \n200 name 0 -> int \n200 name true -> boolean \n200 name false -> boolean \n200 name \"\" -> String \n20 field k A -> int \n20 method f A -> void \n20 new A -> A \nint p",
    ),
    (
        ["", "", ""],
        "class A { int k; } class A { int j; void f() { int r = ",
        "int A String void boolean \n\n5 this this -> A \n200 name 0 -> int \n200 name true -> boolean \n200 name false -> boolean \n200 name \"\" -> String \n20 field j A -> int \n20 method f A -> void \n20 new A -> A \nint p",
    ),
    (
        ["", "", ""],
        "import x.Y; import z.*; import static a.B.c; class A { void f() { int r = ",
        "int A String void boolean \n\n5 this this -> A \n200 name 0 -> int \n200 name true -> boolean \n200 name false -> boolean \n200 name \"\" -> String \n20 method f A -> void \n20 new A -> A \nint p",
    ),
];

#[test]
fn each_hole_has_its_environment(rt: HostRuntime) -> Result<(), Fail> {
    for (library, text, expected) in ROWS {
        let env = made_among(rt.alloc(), library, text)?;
        let all = shown(rt.alloc(), &env)?;
        assert_eq!(rt; all.as_str(), expected);
    }
    Ok(())
}

/// A hole behind a comment with a character of four bytes, in a text whose lines end in two characters.
#[test]
fn a_hole_stands_behind_a_comment(rt: HostRuntime) -> Result<(), Fail> {
    let text = "class D {\r\n  void f() {\r\n    /*\u{1F600}*/ int k = \r\n  }\r\n}\r\n";
    let index = Index::empty(rt.alloc())?;
    let env = made(rt.alloc(), &index, text, 46, 45)?;
    let all = shown(rt.alloc(), &env)?;
    assert_eq!(rt;
        all.as_str(),
        "int D String void boolean \n\n5 this this -> D \n200 name 0 -> int \n200 name true -> boolean \n200 name false -> boolean \n200 name \"\" -> String \n20 method f D -> void \n20 new D -> D \nint p"
    );
    Ok(())
}
