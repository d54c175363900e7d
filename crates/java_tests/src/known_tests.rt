use java_resolve::{TextFault, may_read, read_known};
use sheets::read_sheet;
use std::alloc::{AllocError, Global};
use terms::Env;

/// Two numbers, a crowded call that wants a class, its interface `a.I`, and a lambda's interface.
const SHEET: &str =
    "insynth sheet 1\ntype int\ntype b.C[]\ntype a.J\ndecl 5 int name x\ndecl 20 int call f int\ncrowded 20 int method m b.C[]\ndecl 20 a.J lambda a.J int -> int\ndecl 9 int name q.r.s\ngoal int\n";

/// The environment of the sheet.
fn environment(alloc: Global) -> Result<Env, AllocError> {
    match read_sheet(alloc, SHEET.as_bytes()) {
        Ok(env) => Ok(env),
        Err(_) => Err(AllocError),
    }
}

/// The first identifier that is not known: its place, or none; `Syntax` is told by its place and 1,000.
fn unknown(alloc: Global, env: &Env, text: &str) -> Result<Option<usize>, AllocError> {
    if !may_read(env) {
        return Err(AllocError);
    }
    match read_known(alloc, env, text) {
        Ok(_) => Ok(None),
        Err(TextFault::Unknown(at)) => Ok(Some(at)),
        Err(TextFault::Syntax(_)) => Ok(Some(1000)),
        Err(_) => Err(AllocError),
    }
}

/// Whether all identifiers of each of these texts are known.
fn are_known(alloc: Global, env: &Env, texts: &[&str]) -> Result<bool, AllocError> {
    for text in texts {
        if unknown(alloc, env, text)?.is_some() {
            return Ok(false);
        }
    }
    Ok(true)
}

/// Whether the first unknown identifier of each of these texts stands at this place.
fn are_unknown(alloc: Global, env: &Env, rows: &[(&str, usize)]) -> Result<bool, AllocError> {
    for row in rows {
        if unknown(alloc, env, row.0)? != Some(row.1) {
            return Ok(false);
        }
    }
    Ok(true)
}

#[test]
fn declared_identifiers_are_known(rt: HostRuntime) -> Result<(), AllocError> {
    let env = environment(rt.alloc())?;
    let texts = [
        "x",
        "this.x",
        "f(f(x))",
        "q.r.s",
        "s.r.q.f.C",
        "new b.C(x, 0)",
        "((b.C[]) x).m()",
        "f((int) true, (long[]) \"\")",
        "(a.J) (p0) -> p0",
        "(J) (p7, p08) -> f(p08, (a) (p0) -> p7)",
        "m((a.J) (p0) -> x, x)",
    ];
    assert!(rt; are_known(rt.alloc(), &env, &texts)?);
    Ok(())
}

#[test]
fn other_identifiers_stand_at_their_places(rt: HostRuntime) -> Result<(), AllocError> {
    let env = environment(rt.alloc())?;
    let rows = [
        ("y", 0),
        ("f(y)", 2),
        ("f(f)(x", 1000),
        ("this.k", 5),
        ("q.r.t.u", 4),
        ("new b.D()", 6),
        ("((b.D[]) x).m()", 4),
        ("é.ß(名)", 0),
        ("f(x, \"\").ß(名)", 9),
        ("p0", 0),
        ("(K) (p0) -> p0", 1),
        ("(a.J) (p0) -> p1", 14),
        ("f((a.J) (p0) -> p0, p0)", 20),
        ("((a.J) (p0) -> p0).m(p0)", 21),
        ("(a.J) (p0) -> f((a.J) (p1) -> p0, p1)", 34),
        ("(a.J) (p0) -> (z) x", 15),
    ];
    assert!(rt; are_unknown(rt.alloc(), &env, &rows)?);
    Ok(())
}
