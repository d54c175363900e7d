// From a text with a hole, and texts whose classes it sees, to the Java expressions that fit the hole.
use crate::holes::{Hole, hole_in, made, published, weighed};
use decl_index::{Index, Weights};
use documents::Document;
use listing::{Item, Listing};
use reconstruction::Rebuild;
use std::alloc::{AllocError, Global};
use std::test::Fail;
use terms::Env;

/// Texts whose classes are published one after the other, a text with a hole, the line and UTF-16 unit of the hole,
/// the greatest weight, and the weights and texts of all items.
#[derive(Clone, Copy)]
pub struct Row<'a> {
    pub library: &'a [&'a str],
    pub text: &'a str,
    pub at: (u32, u32),
    pub limit: u32,
    pub items: &'a [(u32, &'a str)],
}

/// The end of a text of one line: a unit past a line's end means its end.
pub const END: (u32, u32) = (0, 1000);

/// A document with this text.
fn document(alloc: Global, text: &str) -> Result<Document, Fail> {
    let text = String::from_str(alloc, text)?;
    if text.len() > 16_777_216 {
        return Err(Fail::from("a short text"));
    }
    Ok(Document::from_text(alloc, text))
}

/// The environment at the hole of a row.
pub fn env_of(alloc: Global, index: &Index, row: &Row<'_>) -> Result<Env, Fail> {
    let document = document(alloc, row.text)?;
    let Some(place) = document.offset(row.at.0, row.at.1) else {
        return Err(Fail::from("a line"));
    };
    if row.limit < 1 || row.limit > 10_000 {
        return Err(Fail::from("a limit"));
    }
    made(alloc, index, document.text(), place, row.limit)
}

/// Whether the items have just these weights and texts, in this order.
fn are_items(items: &[Item], wanted: &[(u32, &str)]) -> bool {
    if items.len() != wanted.len() {
        return false;
    }
    for (item, (weight, text)) in items.iter().zip(wanted) {
        if item.weight != *weight || item.text.as_str() != *text {
            return false;
        }
    }
    true
}

/// Whether the whole list of an environment has these items.
fn lists(alloc: Global, env: Env, wanted: &[(u32, &str)]) -> Result<bool, AllocError> {
    let mut listing: Listing<Rebuild> = Listing::new(alloc, env)?;
    let page = listing.page(alloc, 0, 1000)?;
    Ok(page.last && page.grown == page.len && are_items(listing.items(&page), wanted))
}

/// Whether the whole list at the hole of a row has its items.
pub fn is_listed(alloc: Global, row: &Row<'_>) -> Result<bool, Fail> {
    let index = published(alloc, row.library)?;
    let env = env_of(alloc, &index, row)?;
    Ok(lists(alloc, env, row.items)?)
}

pub const OVERLOADS: Row<'static> = Row {
    library: &[
        "package q; public class T { public static int m(Object o) {} public static int m(String s) {} }",
    ],
    text: "package q; class Use { static void go(String s) { int r = ",
    at: END,
    limit: 45,
    items: &[(30, "T.m(s)"), (40, "T.m((Object) s)")],
};

#[test]
fn overloads_are_told_apart_by_a_cast(rt: HostRuntime) -> Result<(), Fail> {
    assert!(rt; is_listed(rt.alloc(), &OVERLOADS)?);
    Ok(())
}

pub const OVERRIDING: Row<'static> = Row {
    library: &[
        "package q; public class A { public int m() {} }",
        "package q; public class B extends A { public int m() {} }",
    ],
    text: "package q; class Use { static void go(B b) { int r = ",
    at: END,
    limit: 45,
    items: &[(40, "b.m()")],
};

#[test]
fn an_overridden_method_is_called_once(rt: HostRuntime) -> Result<(), Fail> {
    assert!(rt; is_listed(rt.alloc(), &OVERRIDING)?);
    Ok(())
}

pub const TWO_PROMISES: Row<'static> = Row {
    library: &[
        "package q; public interface I { int m(); } ",
        "package q; public interface J { int m(); } ",
        "package q; public class B implements I, J {}",
    ],
    text: "package q; class Use { static void go(B b) { int r = ",
    at: END,
    limit: 45,
    items: &[(40, "((I) b).m()"), (40, "((J) b).m()")],
};

#[test]
fn a_method_of_two_interfaces_is_called_at_each(rt: HostRuntime) -> Result<(), Fail> {
    assert!(rt; is_listed(rt.alloc(), &TWO_PROMISES)?);
    Ok(())
}

const HIDDEN_FIELD: Row<'static> = Row {
    library: &[],
    text: "class P { int k; void f(int k) { int z = ",
    at: END,
    limit: 30,
    items: &[(5, "k"), (25, "this.k")],
};

#[test]
fn a_hidden_field_is_named_by_this(rt: HostRuntime) -> Result<(), Fail> {
    assert!(rt; is_listed(rt.alloc(), &HIDDEN_FIELD)?);
    Ok(())
}

pub const READERS: Row<'static> = Row {
    library: &[
        "package java.io; public abstract class Reader {}",
        "package java.io; public class FileReader extends Reader { public FileReader(String name) {} }",
        "package java.io; public class BufferedReader extends Reader { public BufferedReader(Reader in) {} }",
    ],
    text: "import java.io.*;\nclass Demo {\n  static void go(String name) {\n    Reader r = \n  }\n}\n",
    at: (3, 15),
    limit: 4000,
    items: &[
        (1015, "new FileReader(name)"),
        (1210, "new FileReader(\"\")"),
        (2025, "new BufferedReader(new FileReader(name))"),
        (2220, "new BufferedReader(new FileReader(\"\"))"),
        (
            3035,
            "new BufferedReader(new BufferedReader(new FileReader(name)))",
        ),
        (
            3230,
            "new BufferedReader(new BufferedReader(new FileReader(\"\")))",
        ),
    ],
};

#[test]
fn readers_are_wrapped_as_far_as_the_limit_goes(rt: HostRuntime) -> Result<(), Fail> {
    assert!(rt; is_listed(rt.alloc(), &READERS)?);
    Ok(())
}

/// Whether the whole list at the hole of a row has its items once these weights are set.
fn is_listed_by(alloc: Global, row: &Row<'_>, weights: Weights) -> Result<bool, Fail> {
    let index = weighed(alloc, &published(alloc, row.library)?, weights)?;
    let env = env_of(alloc, &index, row)?;
    Ok(lists(alloc, env, row.items)?)
}

#[test]
fn a_member_weighs_the_same_however_often_it_is_used(rt: HostRuntime) -> Result<(), Fail> {
    let row = Row {
        limit: 700,
        items: &[
            (230, "new FileReader(name)"),
            (425, "new FileReader(\"\")"),
            (455, "new BufferedReader(new FileReader(name))"),
            (650, "new BufferedReader(new FileReader(\"\"))"),
            (
                680,
                "new BufferedReader(new BufferedReader(new FileReader(name)))",
            ),
        ],
        ..READERS
    };
    let weights = Weights {
        span: 0,
        ..Weights::usual()
    };
    assert!(rt; is_listed_by(rt.alloc(), &row, weights)?);
    Ok(())
}

#[test]
fn a_coercion_weighs_as_it_is_set(rt: HostRuntime) -> Result<(), Fail> {
    let row = Row {
        items: &[(30, "T.m(s)"), (31, "T.m((Object) s)")],
        ..OVERLOADS
    };
    let weights = Weights {
        step: 1,
        ..Weights::usual()
    };
    assert!(rt; is_listed_by(rt.alloc(), &row, weights)?);
    Ok(())
}

/// A hole for a functional interface, where a use of the lambda's variable weighs 3 and its binder 2.
const LAMBDA: Row<'static> = Row {
    library: &["package q; public interface I { int f(int y); }"],
    text: "package q; class Use { static void go(int x) { I i = ",
    at: END,
    limit: 20,
    items: &[(15, "(I) (p0) -> p0"), (17, "(I) (p0) -> x")],
};

#[test]
fn variables_and_binders_weigh_as_they_are_set(rt: HostRuntime) -> Result<(), Fail> {
    let weights = Weights {
        bound: 3,
        binder: 2,
        ..Weights::usual()
    };
    assert!(rt; is_listed_by(rt.alloc(), &LAMBDA, weights)?);
    Ok(())
}

/// A hole behind a comment with a character of two UTF-16 units, in a text whose lines end with two characters.
const COMMENTED: Row<'static> = Row {
    library: &[],
    text: "class D {\r\n  void f() {\r\n    /*\u{1F600}*/ int k = \r\n  }\r\n}\r\n",
    at: (2, 19),
    limit: 4000,
    items: &[(200, "0")],
};

#[test]
fn a_comment_before_the_hole_changes_nothing(rt: HostRuntime) -> Result<(), Fail> {
    assert!(rt; is_listed(rt.alloc(), &COMMENTED)?);
    Ok(())
}

/// The positions of the start and the end of what a completion at the hole replaces.
fn replaced(document: &Document, hole: &Hole) -> Option<((u32, u32), (u32, u32))> {
    let (start, end) = hole.site.prefix;
    let text = document.text();
    if !text.is_char_boundary(start as usize) || !text.is_char_boundary(end as usize) {
        return None;
    }
    Some((document.position(start), document.position(end)))
}

#[test]
fn a_hole_has_its_place_in_lines_and_units(rt: HostRuntime) -> Result<(), Fail> {
    let document = document(rt.alloc(), COMMENTED.text)?;
    assert_eq!(rt; document.offset(2, 19), Some(46));
    assert_eq!(rt; document.offset(2, 100), Some(46));
    let hole = hole_in(rt.alloc(), document.text(), 46)?;
    assert_eq!(rt; replaced(&document, &hole), Some(((2, 19), (2, 19))));
    Ok(())
}
