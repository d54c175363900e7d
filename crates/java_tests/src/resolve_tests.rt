use java_resolve::{TextFault, may_resolve, resolve};
use sheets::read_sheet;
use std::alloc::{AllocError, Global};
use terms::{Env, Term, TermArg};

/// The environment of a sheet.
pub fn environment(alloc: Global, sheet: &str) -> Result<Env, AllocError> {
    match read_sheet(alloc, sheet.as_bytes()) {
        Ok(env) => Ok(env),
        Err(_) => Err(AllocError),
    }
}

/// Writes a number behind a sign.
fn write_number(
    alloc: Global,
    sign: &str,
    number: u32,
    out: &mut String,
) -> Result<(), AllocError> {
    let digits = number.to_string(alloc)?;
    out.push_str(sign)?;
    out.push_str(digits.as_str())
}

/// Writes a term: `v1`, `2`, or `3(ARG)(ARG)`, where a lambda's body has `\` before it.
#[cycle(writing)]
pub fn write_term(alloc: Global, term: &Term, out: &mut String) -> Result<(), AllocError> {
    match term {
        Term::Var(number) => write_number(alloc, "v", *number, out),
        Term::Head(decl, args) => {
            write_number(alloc, "", *decl, out)?;
            write_args(alloc, args.as_slice(), out)
        }
    }
}

/// Writes arguments.
#[cycle(writing)]
fn write_args(alloc: Global, args: &[TermArg], out: &mut String) -> Result<(), AllocError> {
    for arg in args {
        write_arg(alloc, arg, out)?;
    }
    Ok(())
}

/// Writes an argument in brackets.
#[cycle(writing)]
fn write_arg(alloc: Global, arg: &TermArg, out: &mut String) -> Result<(), AllocError> {
    match arg {
        TermArg::Plain(term) => {
            out.push_str("(")?;
            write_term(alloc, term, out)?;
        }
        TermArg::Lam(body) => {
            out.push_str("(\\")?;
            write_term(alloc, body, out)?;
        }
    }
    out.push_str(")")
}

/// What a text resolves to, or its fault.
pub fn answer(alloc: Global, env: &Env, text: &str) -> Result<Result<Term, TextFault>, AllocError> {
    if !may_resolve(alloc, env)? {
        return Err(AllocError);
    }
    Ok(resolve(alloc, env, text))
}

/// Whether the text resolves to the term that is written so.
fn is_resolved(alloc: Global, env: &Env, text: &str, wanted: &str) -> Result<bool, AllocError> {
    match answer(alloc, env, text)? {
        Ok(term) => {
            let mut out = String::new(alloc);
            write_term(alloc, &term, &mut out)?;
            Ok(out.as_str() == wanted)
        }
        Err(_) => Ok(false),
    }
}

/// Whether each of these texts resolves to the term that is written so.
fn are_resolved(alloc: Global, env: &Env, rows: &[(&str, &str)]) -> Result<bool, AllocError> {
    for row in rows {
        if !is_resolved(alloc, env, row.0, row.1)? {
            return Ok(false);
        }
    }
    Ok(true)
}

/// The number of a fault: the place of an unknown identifier, that of `Syntax` and 1,000, or 2,000 where no term has
/// the text, or 3,000 where two have it.
fn number_of(fault: TextFault) -> usize {
    match fault {
        TextFault::Unknown(at) => at,
        TextFault::Syntax(at) => at.saturating_add(1000),
        TextFault::WrongType => 2000,
        TextFault::TwoWays => 3000,
        TextFault::OutOfMemory => 4000,
    }
}

/// Whether each of these texts has the fault with this number.
fn are_refused(alloc: Global, env: &Env, rows: &[(&str, usize)]) -> Result<bool, AllocError> {
    for row in rows {
        match answer(alloc, env, row.0)? {
            Ok(_) => return Ok(false),
            Err(fault) => {
                if number_of(fault) != row.1 {
                    return Ok(false);
                }
            }
        }
    }
    Ok(true)
}

/// A name and a call.
const SMALL: &str =
    "insynth sheet 1\ntype int\ntype A\ndecl 5 int name x\ndecl 20 int call f int\ngoal int\n";

#[test]
fn texts_resolve_to_their_terms(rt: HostRuntime) -> Result<(), AllocError> {
    let env = environment(rt.alloc(), SMALL)?;
    let rows = [("x", "0"), ("f(x)", "1(0)"), ("f(f(x))", "1(1(0))")];
    assert!(rt; are_resolved(rt.alloc(), &env, &rows)?);
    let rows = [
        ("f(", 1002),
        ("y", 0),
        ("f(y)", 2),
        ("f", 2000),
        ("f()", 2000),
        ("f(x, x)", 2000),
        ("this", 2000),
    ];
    assert!(rt; are_refused(rt.alloc(), &env, &rows)?);
    Ok(())
}

#[test]
fn texts_of_two_terms_are_refused(rt: HostRuntime) -> Result<(), AllocError> {
    let sheet =
        "insynth sheet 1\ntype int\ntype A\ndecl 5 A name y\ndecl 5 int name x\ndecl 5 int name x\ndecl 20 int call f int\ndecl 20 int call f int\ngoal int\n";
    let env = environment(rt.alloc(), sheet)?;
    let rows = [
        ("x", 3000),
        ("y", 2000),
        ("f(y)", 2000),
        ("f(f(f(f(f(f(f(f(f(f(f(f(x))))))))))))", 3000),
    ];
    assert!(rt; are_refused(rt.alloc(), &env, &rows)?);
    Ok(())
}

/// `this` of a class A with a subclass B: fields, one of them hidden, methods, calls that casts tell apart, a lambda of
/// two parameters, and a name with dots.
const MEMBERS: &str =
    "insynth sheet 1\ntype int\ntype A\ntype B\ntype S.F\nsub B A\ndecl 5 A this\ndecl 5 B name b\ndecl 10 int field k A\ndecl 10 int hidden-field h A\ndecl 20 int method m A int\ndecl 20 A method next A\ndecl 20 int call S.g A\ncrowded 20 int call S.t A\ncrowded 20 int call S.t B\ndecl 20 S.F lambda S.F int int -> int\ndecl 20 int call T.run S.F\ndecl 9 int name q.r.s\ngoal int\n";

#[test]
fn members_resolve_behind_their_receivers(rt: HostRuntime) -> Result<(), AllocError> {
    let env = environment(rt.alloc(), MEMBERS)?;
    let rows = [
        ("k", "2(0)"),
        ("this.h", "3(0)"),
        ("m(k)", "4(0)(2(0))"),
        ("b.k", "2(1)"),
        ("b.h", "3(1)"),
        ("b.m(b.k)", "4(1)(2(1))"),
        ("next().k", "2(5(0))"),
        ("b.next().next().k", "2(5(5(1)))"),
        ("q.r.s", "11"),
    ];
    assert!(rt; are_resolved(rt.alloc(), &env, &rows)?);
    let rows = [
        ("this.k", 2000),
        ("h", 2000),
        ("this.m(k)", 1006),
        ("q.r", 2000),
        ("new S(b)", 2000),
        ("((A) b).k", 2000),
    ];
    assert!(rt; are_refused(rt.alloc(), &env, &rows)?);
    Ok(())
}

#[test]
fn casts_tell_overloads_apart(rt: HostRuntime) -> Result<(), AllocError> {
    let env = environment(rt.alloc(), MEMBERS)?;
    let rows = [
        ("S.g(b)", "6(1)"),
        ("S.g(this)", "6(0)"),
        ("S.t(b)", "8(1)"),
        ("S.t((A) b)", "7(1)"),
        ("S.t(this)", "7(0)"),
    ];
    assert!(rt; are_resolved(rt.alloc(), &env, &rows)?);
    assert!(rt; are_refused(rt.alloc(), &env, &[("S.t((B) b)", 2000)])?);
    Ok(())
}

#[test]
fn lambdas_bind_their_variables(rt: HostRuntime) -> Result<(), AllocError> {
    let env = environment(rt.alloc(), MEMBERS)?;
    let rows = [
        ("T.run((S.F) (p0, p1) -> p1)", "10(9(\\v1))"),
        ("T.run((S.F) (p0, p1) -> m(p0))", "10(9(\\4(0)(v0)))"),
        (
            "T.run((S.F) (p0, p1) -> T.run((S.F) (p2, p3) -> p2))",
            "10(9(\\10(9(\\v2))))",
        ),
    ];
    assert!(rt; are_resolved(rt.alloc(), &env, &rows)?);
    let rows = [
        ("T.run((S.F) (p0) -> p0)", 2000),
        ("T.run((S.F) (p1, p2) -> p1)", 2000),
        ("p0", 0),
        ("T.run((S.F) (p0, p1) -> p01)", 24),
    ];
    assert!(rt; are_refused(rt.alloc(), &env, &rows)?);
    Ok(())
}
