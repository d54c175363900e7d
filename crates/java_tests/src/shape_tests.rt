use java_resolve::{ReadFault, read_shape};
use std::alloc::{AllocError, Global};

/// The place of the fault, where the text isn't read.
fn place(alloc: Global, text: &str) -> Result<Option<usize>, AllocError> {
    match read_shape(alloc, "p", text) {
        Ok(_) => Ok(None),
        Err(ReadFault::Syntax(at)) => Ok(Some(at)),
        Err(ReadFault::OutOfMemory) => Err(AllocError),
    }
}

/// Whether each of these is the text of an expression.
fn are_read(alloc: Global, texts: &[&str]) -> Result<bool, AllocError> {
    for text in texts {
        if place(alloc, text)?.is_some() {
            return Ok(false);
        }
    }
    Ok(true)
}

/// Whether each of these texts has its fault at this place.
fn are_stuck(alloc: Global, rows: &[(&str, usize)]) -> Result<bool, AllocError> {
    for row in rows {
        if place(alloc, row.0)? != Some(row.1) {
            return Ok(false);
        }
    }
    Ok(true)
}

#[test]
fn texts_of_expressions_are_read(rt: HostRuntime) -> Result<(), AllocError> {
    let texts = [
        "x",
        "f(f(x))",
        "this",
        "this.k",
        "m(k)",
        "a.b.c",
        "0",
        "true",
        "\"\"",
        "\"\".k",
        "new a.B(x, y)",
        "((A) b).m().m()",
        "T.m((A) b)",
        "(I) (p0) -> p0",
        "(J) () -> f(x)",
        "(J) (p0, p1) -> (long[][]) f(p1)",
        "((a.I) (p0) -> p0).m(x)",
        "f((I) (p0) -> x, (J) (K) (p1) -> p1)",
        "f().g().h",
        "f(new A().k)",
        "é.ß(名)",
    ];
    assert!(rt; are_read(rt.alloc(), &texts)?);
    Ok(())
}

#[test]
fn other_texts_are_stuck_at_their_places(rt: HostRuntime) -> Result<(), AllocError> {
    let rows = [
        ("", 0),
        ("f(", 2),
        ("f(x", 3),
        ("f(x,y)", 4),
        ("f(x,  y)", 5),
        ("(T) x", 4),
        ("this.m()", 6),
        ("int", 3),
        ("new", 3),
        ("new A", 5),
        ("new A.", 6),
        ("new  A()", 4),
        ("if.a", 2),
        ("(b).m()", 3),
        ("(I) (q0) -> x", 5),
        ("(I) (p) -> x", 6),
        ("(I) (p0)-> x", 8),
        ("f((int) x", 9),
        ("f((int) (long) x", 13),
        ("f((int.a) x)", 6),
        ("0.", 2),
        ("00", 1),
        ("x y", 1),
        ("é(", 3),
        ("é é", 2),
        (" x", 0),
        ("x ", 1),
        ("\"a\"", 1),
        ("3", 0),
    ];
    assert!(rt; are_stuck(rt.alloc(), &rows)?);
    Ok(())
}
