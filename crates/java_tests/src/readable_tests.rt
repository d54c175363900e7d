use java_resolve::may_resolve;
use sheets::read_sheet;
use std::alloc::{AllocError, Global};

/// Whether texts can be read back where this is a declaration, and what it wants a type of the sheet.
fn may(alloc: Global, line: &str) -> Result<bool, AllocError> {
    let sheet = format!(in alloc;
        "insynth sheet 1\ntype int\ntype a.B[][]\ntype int.c\ntype d[\n{line}\ngoal int\n"
    )?;
    match read_sheet(alloc, sheet.as_bytes()) {
        Ok(env) => may_resolve(alloc, &env),
        Err(_) => Err(AllocError),
    }
}

/// Whether it is so of all of these.
fn all_may(alloc: Global, lines: &[&str]) -> Result<bool, AllocError> {
    for line in lines {
        if !may(alloc, line)? {
            return Ok(false);
        }
    }
    Ok(true)
}

/// Whether it is so of one of these.
fn any_may(alloc: Global, lines: &[&str]) -> Result<bool, AllocError> {
    for line in lines {
        if may(alloc, line)? {
            return Ok(true);
        }
    }
    Ok(false)
}

#[test]
fn texts_that_can_be_read(rt: HostRuntime) -> Result<(), AllocError> {
    let lines = [
        "decl 5 int name x",
        "decl 5 int name a.b.c",
        "decl 5 int name \"\"",
        "decl 5 int name true",
        "decl 5 int name p",
        "decl 5 int name p0x",
        "decl 5 int this",
        "decl 5 int call a.f int",
        "decl 5 int new $.B",
        "decl 5 int method m int",
        "decl 5 int hidden-field k int",
        "decl 5 int lambda a.F int -> int",
        "crowded 5 int call f int a.B[][]",
        "decl 5 int call f d[",
        "binder q\ndecl 5 int name p0",
    ];
    assert!(rt; all_may(rt.alloc(), &lines)?);
    Ok(())
}

#[test]
fn texts_that_can_not_be_read(rt: HostRuntime) -> Result<(), AllocError> {
    let lines = [
        "decl 5 int name p0",
        "decl 5 int name a.p12",
        "decl 5 int name a..b",
        "decl 5 int name .a",
        "decl 5 int name a.",
        "decl 5 int name this",
        "decl 5 int name 1",
        "decl 5 int call true",
        "decl 5 int call new",
        "decl 5 int method a.m int",
        "decl 5 int field p7 int",
        "decl 5 int lambda int int -> int",
        "crowded 5 int call f d[",
        "crowded 5 int call f int.c",
        "binder 1",
        "binder this",
    ];
    assert!(rt; !any_may(rt.alloc(), &lines)?);
    Ok(())
}
