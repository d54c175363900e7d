use crate::{Row, check_item};
use lists::{Items, Text};
use std::alloc::Global;
use std::process::Abort;
use terms::{Arg, Decl, Env, Form, Parts, Steps};

/// What is told of a small environment: the types int and long, `decl 5 int name x`, and one more declaration.
#[derive(Clone, Copy)]
pub(crate) struct Sheet {
    pub(crate) limit: u32,
    pub(crate) pairs: &'static [(u32, u32)],
    pub(crate) goal: u32,
}

/// `decl 20 int call f int`, `goal int`, `limit 50`.
pub(crate) const SAME_TYPE: Sheet = Sheet {
    limit: 50,
    pairs: &[],
    goal: 0,
};

/// `sub int long`, `decl 20 int call f long`, `goal long`, `limit 75`.
pub(crate) const COERCIONS: Sheet = Sheet {
    limit: 75,
    pairs: &[(0, 1)],
    goal: 1,
};

fn text(rt: &impl Abort, alloc: Global, word: &str) -> Text {
    Text::from_str(alloc, word).expect(rt, "memory")
}

fn one_arg(rt: &impl Abort, alloc: Global, arg: Arg) -> Items<Arg> {
    let mut args = Items::new(alloc);
    args.push(arg).expect(rt, "memory");
    args
}

fn types(rt: &impl Abort, alloc: Global) -> Items<Text> {
    let mut types = Items::new(alloc);
    for word in &["int", "long"] {
        types.push(text(rt, alloc, word)).expect(rt, "memory");
    }
    types
}

fn decls(rt: &impl Abort, alloc: Global, last: Decl) -> Items<Decl> {
    let x = Decl {
        args: Items::new(alloc),
        result: 0,
        weight: 5,
        crowded: false,
        form: Form::Name(text(rt, alloc, "x")),
    };
    let mut decls = Items::new(alloc);
    decls.push(x).expect(rt, "memory");
    decls.push(last).expect(rt, "memory");
    decls
}

/// The environment of the sheet whose last declaration this is.
fn env(rt: &impl Abort, alloc: Global, sheet: Sheet, last: Decl) -> Env {
    let parts = Parts {
        types: types(rt, alloc),
        pairs: Items::from_slice(alloc, sheet.pairs).expect(rt, "memory"),
        decls: decls(rt, alloc, last),
        goal: sheet.goal,
        limit: sheet.limit,
        depth: 1,
        binder: text(rt, alloc, "p"),
        steps: Steps::usual(),
    };
    assert!(rt; parts.has_lengths());
    Env::checked(alloc, parts).expect(rt, "an environment")
}

/// The sheet with the call of one value of its goal's type.
pub(crate) fn calls(rt: &impl Abort, alloc: Global, sheet: Sheet) -> Env {
    let last = Decl {
        args: one_arg(rt, alloc, Arg::Plain(sheet.goal)),
        result: 0,
        weight: 20,
        crowded: false,
        form: Form::Call(text(rt, alloc, "f")),
    };
    env(rt, alloc, sheet, last)
}

/// `decl 10 long lambda I int -> int`, `goal long`, `limit 20`.
pub(crate) fn lambdas(rt: &impl Abort, alloc: Global) -> Env {
    let params = Items::from_slice(alloc, &[0]).expect(rt, "memory");
    let last = Decl {
        args: one_arg(rt, alloc, Arg::Fun(params, 0)),
        result: 1,
        weight: 10,
        crowded: false,
        form: Form::Lambda(text(rt, alloc, "I")),
    };
    let sheet = Sheet {
        limit: 20,
        pairs: &[],
        goal: 1,
    };
    env(rt, alloc, sheet, last)
}

/// A row of this code, type and weight.
fn row(code: u32, type_number: u32, weight: u32) -> Row {
    Row {
        code,
        result: type_number,
        weight,
    }
}

fn is_told(rt: &impl Abort, alloc: Global, env: &Env, rows: &[Row], total: Option<u32>) -> bool {
    check_item(alloc, env, rows).expect(rt, "memory") == total
}

#[test]
fn rows_of_a_call_tell_its_total(rt: HostRuntime) {
    let alloc = rt.alloc();
    let env = calls(&rt, alloc, SAME_TYPE);
    assert!(rt; is_told(&rt, alloc, &env, &[row(3, 0, 25), row(1, 0, 5)], Some(25)));
    assert!(rt; is_told(&rt, alloc, &env, &[row(1, 0, 5)], Some(5)));
}

#[test]
fn rows_of_no_term_are_refused(rt: HostRuntime) {
    let alloc = rt.alloc();
    let env = calls(&rt, alloc, SAME_TYPE);
    assert!(rt; is_told(&rt, alloc, &env, &[row(3, 0, 24), row(1, 0, 5)], None));
    assert!(rt; is_told(&rt, alloc, &env, &[row(3, 0, 25), row(1, 1, 5)], None));
    assert!(rt; is_told(&rt, alloc, &env, &[row(3, 0, 25), row(5, 0, 5)], None));
    assert!(rt; is_told(&rt, alloc, &env, &[row(0, 0, 1)], None));
    assert!(rt; is_told(&rt, alloc, &env, &[], None));
}

#[test]
fn rows_that_are_too_few_or_too_many_are_refused(rt: HostRuntime) {
    let alloc = rt.alloc();
    let env = calls(&rt, alloc, SAME_TYPE);
    assert!(rt; is_told(&rt, alloc, &env, &[row(3, 0, 25)], None));
    assert!(rt; is_told(&rt, alloc, &env, &[row(1, 0, 5), row(1, 0, 5)], None));
    assert!(rt; is_told(&rt, alloc, &env, &[row(1, 0, 4_294_967_295)], None));
}

#[test]
fn the_goals_coercion_is_weighed(rt: HostRuntime) {
    let alloc = rt.alloc();
    let env = calls(&rt, alloc, COERCIONS);
    assert!(rt; is_told(&rt, alloc, &env, &[row(1, 0, 5)], Some(15)));
    assert!(rt; is_told(&rt, alloc, &env, &[row(3, 0, 35), row(1, 0, 5)], Some(45)));
    let twice = [row(3, 0, 65), row(3, 0, 35), row(1, 0, 5)];
    assert!(rt; is_told(&rt, alloc, &env, &twice, Some(75)));
}

#[test]
fn rows_above_the_limit_are_refused(rt: HostRuntime) {
    let alloc = rt.alloc();
    let sheet = Sheet {
        limit: 74,
        ..COERCIONS
    };
    let env = calls(&rt, alloc, sheet);
    let twice = [row(3, 0, 65), row(3, 0, 35), row(1, 0, 5)];
    assert!(rt; is_told(&rt, alloc, &env, &twice, None));
}

#[test]
fn binders_weigh_at_their_lambda(rt: HostRuntime) {
    let alloc = rt.alloc();
    let env = lambdas(&rt, alloc);
    assert!(rt; is_told(&rt, alloc, &env, &[row(3, 1, 12), row(0, 0, 1)], Some(12)));
    assert!(rt; is_told(&rt, alloc, &env, &[row(3, 1, 16), row(1, 0, 5)], Some(16)));
    assert!(rt; is_told(&rt, alloc, &env, &[row(3, 1, 12), row(2, 0, 1)], None));
}
