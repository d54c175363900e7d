use lists::{Copies, Items, Text};
use std::alloc::Global;
use std::process::Abort;
use terms::{Arg, Ctx, Decl, Env, EnvFault, Form, Parts, Steps, Term, TermArg};

/// What is told of a small environment: the types int, long and short, `decl 5 int name x` and one more
/// declaration.
#[derive(Clone, Copy)]
struct Sheet {
    limit: u32,
    depth: u32,
    pairs: &'static [(u32, u32)],
    weight: u32,
    of: u32,
    goal: u32,
    steps: Steps,
}

/// The steps of an environment for which nobody sets them.
const USUAL: Steps = Steps {
    bound: 1,
    binder: 1,
    step: 10,
};

/// `sub int long`, `decl 20 int call f long`, `goal long`, `limit 75`.
const COERCIONS: Sheet = Sheet {
    limit: 75,
    depth: 0,
    pairs: &[(0, 1)],
    weight: 20,
    of: 0,
    goal: 1,
    steps: USUAL,
};

fn text(rt: &impl Abort, alloc: Global, word: &str) -> Text {
    Text::from_str(alloc, word).expect(rt, "memory")
}

fn types(rt: &impl Abort, alloc: Global) -> Items<Text> {
    let mut types = Items::new(alloc);
    for word in &["int", "long", "short"] {
        types.push(text(rt, alloc, word)).expect(rt, "memory");
    }
    types
}

/// `decl 5 int name x`, and a declaration of this form over at most one argument.
fn decls(
    rt: &impl Abort,
    alloc: Global,
    sheet: &Sheet,
    form: Form,
    args: Items<Arg>,
) -> Items<Decl> {
    let x = Decl {
        args: Items::new(alloc),
        result: 0,
        weight: 5,
        crowded: false,
        form: Form::Name(text(rt, alloc, "x")),
    };
    let last = Decl {
        args,
        result: sheet.of,
        weight: sheet.weight,
        crowded: false,
        form,
    };
    let mut decls = Items::new(alloc);
    decls.push(x).expect(rt, "memory");
    decls.push(last).expect(rt, "memory");
    decls
}

/// What is made of the sheet whose last declaration has this form and these arguments.
fn checked(
    rt: &impl Abort,
    alloc: Global,
    sheet: &Sheet,
    form: Form,
    args: Items<Arg>,
) -> Result<Env, EnvFault> {
    let parts = Parts {
        types: types(rt, alloc),
        pairs: Items::from_slice(alloc, sheet.pairs).expect(rt, "memory"),
        decls: decls(rt, alloc, sheet, form, args),
        goal: sheet.goal,
        limit: sheet.limit,
        depth: sheet.depth,
        binder: text(rt, alloc, "p"),
        steps: sheet.steps,
    };
    assert!(rt; parts.has_lengths());
    Env::checked(alloc, parts)
}

fn one_arg(rt: &impl Abort, alloc: Global, arg: Arg) -> Items<Arg> {
    let mut args = Items::new(alloc);
    args.push(arg).expect(rt, "memory");
    args
}

/// What is made of the sheet whose last declaration is a call of one long.
fn calls(rt: &impl Abort, alloc: Global, sheet: &Sheet) -> Result<Env, EnvFault> {
    checked(
        rt,
        alloc,
        sheet,
        Form::Call(text(rt, alloc, "f")),
        one_arg(rt, alloc, Arg::Plain(1)),
    )
}

/// `decl 10 long lambda long int -> int`, `goal long`, `limit 20`.
fn lambdas(rt: &impl Abort, alloc: Global, depth: u32) -> Env {
    let sheet = Sheet {
        limit: 20,
        depth,
        pairs: &[],
        weight: 10,
        of: 1,
        goal: 1,
        steps: USUAL,
    };
    let params = Items::from_slice(alloc, &[0]).expect(rt, "memory");
    let args = one_arg(rt, alloc, Arg::Fun(params, 0));
    checked(rt, alloc, &sheet, Form::Lambda(text(rt, alloc, "I")), args).expect(
        rt,
        "an environment",
    )
}

fn coercions(rt: &impl Abort, alloc: Global) -> Env {
    calls(rt, alloc, &COERCIONS).expect(rt, "an environment")
}

/// The last declaration over one argument.
fn over(rt: &impl Abort, alloc: Global, arg: TermArg) -> Term {
    let mut args = Items::new(alloc);
    args.push(arg).expect(rt, "memory");
    Term::Head(1, args)
}

fn leaf(rt: &impl Abort, alloc: Global, number: u32) -> Term {
    Term::Head(number, Items::new(alloc))
}

/// `x` under so many calls.
fn nested(rt: &impl Abort, alloc: Global, calls: u32) -> Term {
    let mut term = leaf(rt, alloc, 0);
    for _ in 0..calls {
        term = over(rt, alloc, TermArg::Plain(term));
    }
    term
}

/// Whether the term has this weight, and is an inhabitant as said.
fn is_so(env: &Env, term: &Term, weight: Option<u32>, inhabitant: bool) -> bool {
    env.weight(&Ctx::empty(), term) == weight && env.is_inhabitant(term) == inhabitant
}

/// Whether `x` under these numbers of calls has its weights, and is an inhabitant as said.
fn are_so(rt: &impl Abort, alloc: Global, env: &Env, rows: &[(u32, u32, bool)]) -> bool {
    for row in rows {
        if !is_so(env, &nested(rt, alloc, row.0), Some(row.1), row.2) {
            return false;
        }
    }
    true
}

#[test]
fn coercions_are_weighed_at_their_places(rt: HostRuntime) {
    let rows = [(0, 5, true), (1, 35, true), (2, 65, true), (3, 95, false)];
    assert!(rt; are_so(&rt, rt.alloc(), &coercions(&rt, rt.alloc()), &rows));
}

#[test]
fn the_limit_counts_the_goals_coercion(rt: HostRuntime) {
    let sheet = Sheet {
        limit: 74,
        ..COERCIONS
    };
    let env = calls(&rt, rt.alloc(), &sheet).expect(&rt, "an environment");
    assert!(rt; are_so(&rt, rt.alloc(), &env, &[(1, 35, true), (2, 65, false)]));
}

#[test]
fn what_has_no_type_has_no_weight(rt: HostRuntime) {
    let env = coercions(&rt, rt.alloc());
    assert!(rt; is_so(&env, &leaf(&rt, rt.alloc(), 1), None, false));
    assert!(rt; is_so(&env, &leaf(&rt, rt.alloc(), 2), None, false));
    assert!(rt; is_so(&env, &Term::Var(0), None, false));
    assert!(rt; env.is_below(0, 1) && !env.is_below(1, 0));
}

#[test]
fn copies_answer_alike(rt: HostRuntime) {
    let env = coercions(&rt, rt.alloc())
        .copy(rt.alloc())
        .expect(&rt, "memory");
    let term = nested(&rt, rt.alloc(), 2)
        .copy(rt.alloc())
        .expect(&rt, "memory");
    assert!(rt; is_so(&env, &term, Some(65), true));
    assert!(rt; env.parts().decls.len() == 2);
}

/// The environment of the same parts, which are valid.
fn again(rt: &impl Abort, alloc: Global, env: &Env) -> Env {
    let parts = env.parts().copy(alloc).expect(rt, "memory");
    Env::of_valid(alloc, parts).expect(rt, "memory")
}

#[test]
fn valid_parts_are_an_environment(rt: HostRuntime) {
    let env = again(&rt, rt.alloc(), &coercions(&rt, rt.alloc()));
    assert!(rt; env.is_below(0, 1) && !env.is_below(1, 0) && !env.is_below(0, 2));
    assert!(rt; is_so(&env, &nested(&rt, rt.alloc(), 2), Some(65), true));
}

/// Whether the environment's weights are these, and the step from int to long a coercion.
fn has_weights(env: &Env, variable: u32, binder: u32, coercion: u32) -> bool {
    env.variable_weight() == variable
        && env.binder_weight() == binder
        && env.binders_weight(3) == 3 * binder as u128
        && env.coercion_weight() == coercion
        && env.step(0, 1) == coercion
        && env.step(1, 1) == 0
}

#[test]
fn an_environment_tells_its_weights(rt: HostRuntime) {
    let greatest = Sheet {
        steps: Steps {
            bound: 100,
            binder: 99,
            step: 10_000,
        },
        ..COERCIONS
    };
    let env = calls(&rt, rt.alloc(), &greatest).expect(&rt, "an environment");
    assert!(rt; has_weights(&env, 100, 99, 10_000));
    assert!(rt; has_weights(&coercions(&rt, rt.alloc()), 1, 1, 10));
    assert!(rt; Steps::usual() == USUAL);
}

/// Whether the lambda of this body has this weight, and is an inhabitant as said.
fn is_lambda_so(
    rt: &impl Abort,
    alloc: Global,
    env: &Env,
    body: Term,
    weight: Option<u32>,
    inhabitant: bool,
) -> bool {
    is_so(
        env,
        &over(rt, alloc, TermArg::Lam(body)),
        weight,
        inhabitant,
    )
}

#[test]
fn lambdas_bind_and_are_weighed(rt: HostRuntime) {
    let env = lambdas(&rt, rt.alloc(), 1);
    assert!(rt; is_lambda_so(&rt, rt.alloc(), &env, Term::Var(0), Some(12), true));
    assert!(rt;
        is_lambda_so(
            &rt,
            rt.alloc(),
            &env,
            leaf(&rt, rt.alloc(), 0),
            Some(16),
            true
        )
    );
    assert!(rt; is_lambda_so(&rt, rt.alloc(), &env, Term::Var(1), None, false));
    assert!(rt;
        is_lambda_so(
            &rt,
            rt.alloc(),
            &lambdas(&rt, rt.alloc(), 0),
            Term::Var(0),
            Some(12),
            false
        )
    );
}

#[test]
fn contexts_have_at_most_three_rows(rt: HostRuntime) {
    let env = lambdas(&rt, rt.alloc(), 1);
    let row = [0];
    let full = Ctx::empty().with(&row).with(&row).with(&row);
    assert!(rt; env.type_of(&full, &Term::Var(2)) == Some(0));
    assert!(rt; env.type_of(&full, &Term::Var(3)).is_none());
    assert!(rt;
        env.type_of(&full, &over(&rt, rt.alloc(), TermArg::Lam(Term::Var(0))))
            .is_none()
    );
    assert!(rt;
        env.type_of(&Ctx { used: 4, ..full }, &Term::Var(0))
            .is_none()
    );
}

/// Sheets, each with the first fault of its environment.
const FAULTS: [(Sheet, EnvFault); 12] = [
    (
        Sheet {
            limit: 0,
            depth: 4,
            ..COERCIONS
        },
        EnvFault::Limit(0),
    ),
    (
        Sheet {
            limit: 10_001,
            ..COERCIONS
        },
        EnvFault::Limit(10_001),
    ),
    (
        Sheet {
            depth: 4,
            ..COERCIONS
        },
        EnvFault::Depth(4),
    ),
    (
        Sheet {
            pairs: &[(0, 1), (1, 3)],
            ..COERCIONS
        },
        EnvFault::PairRange(1),
    ),
    (
        Sheet {
            pairs: &[(1, 1)],
            ..COERCIONS
        },
        EnvFault::PairRange(0),
    ),
    (
        Sheet {
            pairs: &[(0, 1), (1, 0), (0, 1)],
            ..COERCIONS
        },
        EnvFault::PairTwice(2),
    ),
    (
        Sheet {
            pairs: &[(1, 0), (0, 1)],
            ..COERCIONS
        },
        EnvFault::NotTransitive(0, 1, 0),
    ),
    (
        Sheet {
            pairs: &[(2, 0), (0, 1)],
            of: 3,
            ..COERCIONS
        },
        EnvFault::NotTransitive(2, 0, 1),
    ),
    (Sheet { of: 3, ..COERCIONS }, EnvFault::TypeRange(1)),
    (
        Sheet {
            weight: 4,
            goal: 3,
            ..COERCIONS
        },
        EnvFault::Weight(1),
    ),
    (
        Sheet {
            weight: 10_001,
            ..COERCIONS
        },
        EnvFault::Weight(1),
    ),
    (
        Sheet {
            goal: 3,
            ..COERCIONS
        },
        EnvFault::TypeRange(2),
    ),
];

/// A sheet whose pair is of one type.
const LOOPED: Sheet = Sheet {
    pairs: &[(1, 1)],
    ..COERCIONS
};

/// Three steps of which one is out of its range, with the number of the first such one.
const WRONG_STEPS: [([u32; 3], u32); 9] = [
    ([0, 1, 10], 1),
    ([101, 0, 0], 1),
    ([4_294_967_295, 1, 10], 1),
    ([1, 0, 10], 2),
    ([1, 101, 0], 2),
    ([1, 4_294_967_295, 10], 2),
    ([1, 1, 0], 3),
    ([1, 1, 10_001], 3),
    ([1, 1, 4_294_967_295], 3),
];

#[test]
fn steps_have_ranges(rt: HostRuntime) {
    for (three, number) in &WRONG_STEPS {
        let steps = Steps {
            bound: three[0],
            binder: three[1],
            step: three[2],
        };
        let sheet = Sheet { steps, ..LOOPED };
        assert!(rt; calls(&rt, rt.alloc(), &sheet).err() == Some(EnvFault::Step(*number)));
    }
}

/// Steps without a use in any environment.
const NO_STEPS: Steps = Steps {
    bound: 0,
    binder: 0,
    step: 0,
};

#[test]
fn steps_come_after_the_limit_and_the_depth(rt: HostRuntime) {
    let unlimited = Sheet {
        limit: 0,
        steps: NO_STEPS,
        ..COERCIONS
    };
    assert!(rt; calls(&rt, rt.alloc(), &unlimited).err() == Some(EnvFault::Limit(0)));
    let deep = Sheet {
        depth: 4,
        steps: NO_STEPS,
        ..COERCIONS
    };
    assert!(rt; calls(&rt, rt.alloc(), &deep).err() == Some(EnvFault::Depth(4)));
}

#[test]
fn the_first_fault_is_answered(rt: HostRuntime) {
    for (sheet, fault) in &FAULTS {
        assert!(rt; calls(&rt, rt.alloc(), sheet).err() == Some(*fault));
    }
}

#[test]
fn arguments_suit_their_form(rt: HostRuntime) {
    let wrong = checked(
        &rt,
        rt.alloc(),
        &COERCIONS,
        Form::This,
        one_arg(&rt, rt.alloc(), Arg::Plain(1)),
    );
    assert!(rt; wrong.err() == Some(EnvFault::Form(1)));
    let right = checked(
        &rt,
        rt.alloc(),
        &COERCIONS,
        Form::This,
        Items::new(rt.alloc()),
    );
    assert!(rt; right.is_ok());
}
