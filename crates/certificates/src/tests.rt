use crate::{floors, item_rows};
use checker::{Row, check_floors};
use lists::{Items, Text};
use std::alloc::Global;
use std::process::Abort;
use terms::{Arg, Decl, Env, Form, Parts, Steps, Term, TermArg};

fn text(rt: &impl Abort, alloc: Global, word: &str) -> Text {
    Text::from_str(alloc, word).expect(rt, "memory")
}

/// A declaration with no argument yet.
fn decl(alloc: Global, weight: u32, gives: u32, form: Form) -> Decl {
    Decl {
        args: Items::new(alloc),
        result: gives,
        weight,
        crowded: false,
        form,
    }
}

/// `decl 5 int name x`, `decl 20 int call f int` and `decl 10 long lambda I int -> int`.
fn decls(rt: &impl Abort, alloc: Global) -> Items<Decl> {
    let mut decls = Items::new(alloc);
    decls
        .push(decl(alloc, 5, 0, Form::Name(text(rt, alloc, "x"))))
        .expect(rt, "memory");
    let mut call = decl(alloc, 20, 0, Form::Call(text(rt, alloc, "f")));
    call.args.push(Arg::Plain(0)).expect(rt, "memory");
    decls.push(call).expect(rt, "memory");
    let mut lambda = decl(alloc, 10, 1, Form::Lambda(text(rt, alloc, "I")));
    let params = Items::from_slice(alloc, &[0]).expect(rt, "memory");
    lambda.args.push(Arg::Fun(params, 0)).expect(rt, "memory");
    decls.push(lambda).expect(rt, "memory");
    decls
}

/// The environment of these declarations, at a goal.
fn env(rt: &impl Abort, alloc: Global, goal: u32) -> Env {
    let mut types = Items::new(alloc);
    types.push(text(rt, alloc, "int")).expect(rt, "memory");
    types.push(text(rt, alloc, "long")).expect(rt, "memory");
    let parts = Parts {
        types,
        pairs: Items::new(alloc),
        decls: decls(rt, alloc),
        goal,
        limit: 50,
        depth: 1,
        binder: text(rt, alloc, "p"),
        steps: Steps::usual(),
    };
    assert!(rt; parts.has_lengths());
    Env::checked(alloc, parts).expect(rt, "an environment")
}

/// A declaration over one argument.
fn over(rt: &impl Abort, alloc: Global, number: u32, arg: TermArg) -> Term {
    let mut args = Items::new(alloc);
    args.push(arg).expect(rt, "memory");
    Term::Head(number, args)
}

/// `f(x)`
fn call(rt: &impl Abort, alloc: Global) -> Term {
    over(
        rt,
        alloc,
        1,
        TermArg::Plain(Term::Head(0, Items::new(alloc))),
    )
}

fn row(code: u32, type_number: u32, weight: u32) -> Row {
    Row {
        code,
        result: type_number,
        weight,
    }
}

/// Whether these are the rows of an inhabitant.
fn are_rows(rt: &impl Abort, alloc: Global, env: &Env, term: &Term, rows: &[Row]) -> bool {
    assert!(rt; env.is_inhabitant(term));
    let told = item_rows(alloc, env, term).expect(rt, "memory");
    told.as_slice() == rows
}

#[test]
fn a_call_has_a_row_for_each_part(rt: HostRuntime) {
    let alloc = rt.alloc();
    let env = env(&rt, alloc, 0);
    let term = call(&rt, alloc);
    assert!(rt; are_rows(&rt, alloc, &env, &term, &[row(3, 0, 25), row(1, 0, 5)]));
}

#[test]
fn a_lambda_weighs_its_binders(rt: HostRuntime) {
    let alloc = rt.alloc();
    let env = env(&rt, alloc, 1);
    let variable = over(&rt, alloc, 2, TermArg::Lam(Term::Var(0)));
    assert!(rt; are_rows(&rt, alloc, &env, &variable, &[row(5, 1, 12), row(0, 0, 1)]));
    let inner = over(&rt, alloc, 2, TermArg::Lam(call(&rt, alloc)));
    assert!(rt;
        are_rows(
            &rt,
            alloc,
            &env,
            &inner,
            &[row(5, 1, 36), row(3, 0, 25), row(1, 0, 5)]
        )
    );
}

/// Whether the floors that are told hold, the first one being this.
fn first_floor_is(rt: &impl Abort, alloc: Global, env: &Env, first: u32) -> bool {
    let told = floors(alloc, env).expect(rt, "memory");
    check_floors(alloc, env, told.as_slice()).expect(rt, "memory") == Some(first)
}

#[test]
fn the_first_floor_is_the_least_total(rt: HostRuntime) {
    let alloc = rt.alloc();
    assert!(rt; first_floor_is(&rt, alloc, &env(&rt, alloc, 0), 5));
    assert!(rt; first_floor_is(&rt, alloc, &env(&rt, alloc, 1), 12));
}
