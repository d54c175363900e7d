use crate::resolve_tests::{answer, environment};
use java_resolve::TextFault;
use std::alloc::{AllocError, Global};
use terms::Env;

/// Whether the front is as it is told: `.` where it is the text of an expression, else `s`, where its fault stands at
/// its end.
fn is_told(alloc: Global, env: &Env, front: &str, told: u8) -> Result<bool, AllocError> {
    match answer(alloc, env, front)? {
        Err(TextFault::OutOfMemory) => Err(AllocError),
        Err(TextFault::Syntax(at)) => Ok(told == b's' && at == front.len()),
        _ => Ok(told == b'.'),
    }
}

/// How many fronts of a text are as they are told, from the empty one up to the first that isn't.
fn count_told(alloc: Global, env: &Env, text: &str, told: &[u8]) -> Result<usize, AllocError> {
    for i in 0..told.len() {
        let Some(front) = text.get(..i) else {
            return Ok(i);
        };
        if !is_told(alloc, env, front, told[i])? {
            return Ok(i);
        }
    }
    Ok(told.len())
}

/// Whether all fronts of these texts are as they are told.
fn are_told(alloc: Global, env: &Env, rows: &[(&str, &str)]) -> Result<bool, AllocError> {
    for (text, told) in rows {
        let count = count_told(alloc, env, *text, told.as_bytes())?;
        if count != told.len() || count <= text.len() {
            return Ok(false);
        }
    }
    Ok(true)
}

/// Sheets with the texts of their lists, and for each front of a text, from the empty one to the whole, whether it is the
/// text of an expression. `tools/text_places --check` judges this table by a grammar of its own.
const ROWS: [(&str, &[(&str, &str)]); 7] = [
    (
        "insynth sheet 1\ntype int\ntype long\nsub int long\ndecl 5 int name x\ndecl 20 int call f long\ngoal long\n",
        &[("x", "s."), ("f(x)", "s.ss."), ("f(f(x))", "s.sssss.")],
    ),
    (
        "insynth sheet 1\ntype int\ndecl 5 int name b\ndecl 5 int name a\ngoal int\n",
        &[("a", "s."), ("b", "s.")],
    ),
    (
        "insynth sheet 1\ntype int\ntype I\ndecl 5 int name x\ndecl 10 I lambda I int -> int\ngoal I\n",
        &[
            ("(I) (p0) -> p0", "sssssssssssss.."),
            ("(I) (p0) -> x", "sssssssssssss."),
        ],
    ),
    (
        "insynth sheet 1\ntype int\ntype Object\ntype String\nsub String Object\ndecl 5 String name s\ncrowded 25 int call T.m Object\ncrowded 25 int call T.m String\ngoal int\n",
        &[
            ("T.m(s)", "s.s.ss."),
            ("T.m((Object) s)", "s.s.sssssssssss."),
        ],
    ),
    (
        "insynth sheet 1\ntype int\ntype A\ntype B\nsub B A\ndecl 5 B name b\ndecl 25 int method m A\ngoal int\n",
        &[("b.m()", "s.s.s.")],
    ),
    (
        "insynth sheet 1\ntype int\ntype I\ntype J\ntype B\nsub B I\nsub B J\ndecl 5 B name b\ncrowded 25 int method m I\ncrowded 25 int method m J\ngoal int\n",
        &[
            ("((I) b).m()", "sssssssss.s."),
            ("((J) b).m()", "sssssssss.s."),
        ],
    ),
    (
        "insynth sheet 1\ntype int\ndecl 5 int name x\ndecl 20 int call f int\ndecl 20 int call g int int\ngoal int\n",
        &[
            ("x", "s."),
            ("f(x)", "s.ss."),
            ("g(x, x)", "s.sssss."),
            ("f(f(x))", "s.sssss."),
            ("f(g(x, x))", "s.ssssssss."),
            ("g(x, f(x))", "s.ssssssss."),
            ("g(f(x), x)", "s.ssssssss."),
        ],
    ),
];

#[test]
fn each_front_is_stuck_at_its_end(rt: HostRuntime) -> Result<(), AllocError> {
    for (sheet, rows) in ROWS {
        let env = environment(rt.alloc(), sheet)?;
        assert!(rt; are_told(rt.alloc(), &env, rows)?);
    }
    Ok(())
}
