use crate::environments::{Shown, call, lambda, name, stepped};
use listing::{Item, Listing};
use plain_listing::Plain;
use reconstruction::Rebuild;
use std::alloc::Global;
use terms::{Env, EnvFault, Levels, Steps};

/// Whether the items have just these weights and texts, in this order.
fn are_listed(items: &[Item], wanted: &[(u32, &str)]) -> bool {
    if items.len() != wanted.len() {
        return false;
    }
    for (item, (weight, text)) in items.iter().zip(wanted) {
        if item.weight != *weight || item.text.as_str() != *text {
            return false;
        }
    }
    true
}

/// Whether the list of this environment is just this.
fn lists<E: Levels + Drop>(
    alloc: Global,
    env: Env,
    wanted: &[(u32, &str)],
) -> Result<bool, EnvFault> {
    let mut listing: Listing<E> = Listing::new(alloc, env)?;
    let page = listing.page(alloc, 0, 1000)?;
    Ok(page.last && are_listed(listing.items(&page), wanted))
}

/// Whether both searches give this list, where variables, binders and coercions weigh this.
fn have_one_list_by(
    alloc: Global,
    shown: &Shown<'_>,
    steps: Steps,
    wanted: &[(u32, &str)],
) -> Result<bool, EnvFault> {
    Ok(
        lists::<Rebuild>(alloc, stepped(alloc, shown, steps)?, wanted)?
            && lists::<Plain>(alloc, stepped(alloc, shown, steps)?, wanted)?,
    )
}

/// Whether both searches give this list.
fn have_one_list(
    alloc: Global,
    shown: &Shown<'_>,
    wanted: &[(u32, &str)],
) -> Result<bool, EnvFault> {
    have_one_list_by(alloc, shown, Steps::usual(), wanted)
}

#[test]
fn coercions_are_listed_alike(rt: HostRuntime) -> Result<(), EnvFault> {
    let shown = Shown {
        types: 2,
        pairs: &[(0, 1)],
        lines: &[name("x", 5, 0), call("f", 20, 0, &[1])],
        goal: 1,
        limit: 75,
        depth: 1,
    };
    let wanted = [(15, "x"), (45, "f(x)"), (75, "f(f(x))")];
    assert!(rt; have_one_list(rt.alloc(), &shown, &wanted)?);
    let usual = Steps::usual();
    let light = Steps { step: 1, ..usual };
    let wanted = [(6, "x"), (27, "f(x)"), (48, "f(f(x))"), (69, "f(f(f(x)))")];
    assert!(rt; have_one_list_by(rt.alloc(), &shown, light, &wanted)?);
    let heavy = Steps {
        step: 10_000,
        ..usual
    };
    assert!(rt; have_one_list_by(rt.alloc(), &shown, heavy, &[])?);
    Ok(())
}

#[test]
fn lambdas_are_listed_alike(rt: HostRuntime) -> Result<(), EnvFault> {
    let shown = Shown {
        types: 2,
        pairs: &[],
        lines: &[name("x", 5, 0), lambda("I", 10, 1, &[0], &[0])],
        goal: 1,
        limit: 20,
        depth: 1,
    };
    let wanted = [(12, "(I) (p0) -> p0"), (16, "(I) (p0) -> x")];
    assert!(rt; have_one_list(rt.alloc(), &shown, &wanted)?);
    let steps = Steps {
        bound: 3,
        binder: 2,
        step: 10,
    };
    let wanted = [(15, "(I) (p0) -> p0"), (17, "(I) (p0) -> x")];
    assert!(rt; have_one_list_by(rt.alloc(), &shown, steps, &wanted)?);
    Ok(())
}

#[test]
fn two_binders_are_listed_alike(rt: HostRuntime) -> Result<(), EnvFault> {
    let shown = Shown {
        types: 2,
        pairs: &[],
        lines: &[name("x", 5, 0), lambda("I", 10, 1, &[0], &[0, 0])],
        goal: 1,
        limit: 310,
        depth: 1,
    };
    let greatest = Steps {
        bound: 100,
        binder: 100,
        step: 10_000,
    };
    let wanted = [
        (215, "(I) (p0, p1) -> x"),
        (310, "(I) (p0, p1) -> p0"),
        (310, "(I) (p0, p1) -> p1"),
    ];
    assert!(rt; have_one_list_by(rt.alloc(), &shown, greatest, &wanted)?);
    Ok(())
}

/// Whether both searches give this list for a lambda of an `int` whose body is a `long`, a type above it, where the
/// terms weigh at most 19, variables 2, binders 3 and coercions as told.
fn has_long_body(alloc: Global, step: u32, wanted: &[(u32, &str)]) -> Result<bool, EnvFault> {
    let shown = Shown {
        types: 3,
        pairs: &[(0, 1)],
        lines: &[name("y", 5, 1), lambda("I", 10, 2, &[1], &[0])],
        goal: 2,
        limit: 19,
        depth: 1,
    };
    let steps = Steps {
        bound: 2,
        binder: 3,
        step,
    };
    have_one_list_by(alloc, &shown, steps, wanted)
}

#[test]
fn a_lambdas_body_is_coerced_alike(rt: HostRuntime) -> Result<(), EnvFault> {
    let both = [(18, "(I) (p0) -> y"), (19, "(I) (p0) -> p0")];
    assert!(rt; has_long_body(rt.alloc(), 4, &both)?);
    assert!(rt; has_long_body(rt.alloc(), 5, &both[..1])?);
    Ok(())
}

#[test]
fn calls_of_one_weight_are_listed_alike(rt: HostRuntime) -> Result<(), EnvFault> {
    let shown = Shown {
        types: 1,
        pairs: &[],
        lines: &[
            name("x", 5, 0),
            call("f", 20, 0, &[0]),
            call("g", 20, 0, &[0, 0]),
        ],
        goal: 0,
        limit: 50,
        depth: 1,
    };
    let wanted = [
        (5, "x"),
        (25, "f(x)"),
        (30, "g(x, x)"),
        (45, "f(f(x))"),
        (50, "f(g(x, x))"),
        (50, "g(f(x), x)"),
        (50, "g(x, f(x))"),
    ];
    assert!(rt; have_one_list(rt.alloc(), &shown, &wanted)?);
    Ok(())
}

/// Whether both searches give this list for a goal of the functional interfaces `I` of an `int`, `J` of an `I` and `K` of
/// a `J` (types 1, 2 and 3), each made by a lambda of an `int`.
fn nested_lists(
    alloc: Global,
    goal: u32,
    depth: u32,
    wanted: &[(u32, &str)],
) -> Result<bool, EnvFault> {
    let shown = Shown {
        types: 4,
        pairs: &[],
        lines: &[
            lambda("I", 10, 1, &[0], &[0]),
            lambda("J", 10, 2, &[1], &[0]),
            lambda("K", 10, 3, &[2], &[0]),
        ],
        goal,
        limit: 34,
        depth,
    };
    have_one_list(alloc, &shown, wanted)
}

#[test]
fn lambdas_in_lambdas_are_listed_alike(rt: HostRuntime) -> Result<(), EnvFault> {
    let two = [
        (23, "(J) (p0) -> (I) (p1) -> p0"),
        (23, "(J) (p0) -> (I) (p1) -> p1"),
    ];
    let three = [
        (34, "(K) (p0) -> (J) (p1) -> (I) (p2) -> p0"),
        (34, "(K) (p0) -> (J) (p1) -> (I) (p2) -> p1"),
        (34, "(K) (p0) -> (J) (p1) -> (I) (p2) -> p2"),
    ];
    assert!(rt; nested_lists(rt.alloc(), 2, 2, &two)?);
    assert!(rt; nested_lists(rt.alloc(), 3, 3, &three)?);
    assert!(rt; nested_lists(rt.alloc(), 3, 2, &[])?);
    Ok(())
}

/// Whether both searches give this list for an interface whose lambda takes itself and gives itself, three deep at most.
fn own_lists(alloc: Global, limit: u32, wanted: &[(u32, &str)]) -> Result<bool, EnvFault> {
    let shown = Shown {
        types: 1,
        pairs: &[],
        lines: &[lambda("J", 10, 0, &[0], &[0])],
        goal: 0,
        limit,
        depth: 3,
    };
    have_one_list(alloc, &shown, wanted)
}

#[test]
fn lambdas_of_their_own_type_are_listed_alike(rt: HostRuntime) -> Result<(), EnvFault> {
    let wanted = [
        (12, "(J) (p0) -> p0"),
        (23, "(J) (p0) -> (J) (p1) -> p0"),
        (23, "(J) (p0) -> (J) (p1) -> p1"),
    ];
    assert!(rt; own_lists(rt.alloc(), 33, &wanted)?);
    Ok(())
}

// A fourth lambda would be within the limit.
#[test]
fn lambdas_of_their_own_type_end_at_the_depth(rt: HostRuntime) -> Result<(), EnvFault> {
    let wanted = [
        (12, "(J) (p0) -> p0"),
        (23, "(J) (p0) -> (J) (p1) -> p0"),
        (23, "(J) (p0) -> (J) (p1) -> p1"),
        (34, "(J) (p0) -> (J) (p1) -> (J) (p2) -> p0"),
        (34, "(J) (p0) -> (J) (p1) -> (J) (p2) -> p1"),
        (34, "(J) (p0) -> (J) (p1) -> (J) (p2) -> p2"),
    ];
    assert!(rt; own_lists(rt.alloc(), 45, &wanted)?);
    Ok(())
}

// In both arguments of `h` one lambda more may stand, and within the limit two would fit.
#[test]
fn depth_counts_along_each_branch_alike(rt: HostRuntime) -> Result<(), EnvFault> {
    let shown = Shown {
        types: 2,
        pairs: &[],
        lines: &[call("h", 5, 0, &[1, 1]), lambda("I", 10, 1, &[0], &[0])],
        goal: 1,
        limit: 68,
        depth: 2,
    };
    let wanted = [
        (12, "(I) (p0) -> p0"),
        (40, "(I) (p0) -> h((I) (p1) -> p0, (I) (p1) -> p0)"),
        (40, "(I) (p0) -> h((I) (p1) -> p0, (I) (p1) -> p1)"),
        (40, "(I) (p0) -> h((I) (p1) -> p1, (I) (p1) -> p0)"),
        (40, "(I) (p0) -> h((I) (p1) -> p1, (I) (p1) -> p1)"),
    ];
    assert!(rt; have_one_list(rt.alloc(), &shown, &wanted)?);
    Ok(())
}

// The rows bind the two types in turned order, so that a variable of a wrong row has a wrong type.
#[test]
fn rows_of_two_types_are_listed_alike(rt: HostRuntime) -> Result<(), EnvFault> {
    let shown = Shown {
        types: 4,
        pairs: &[],
        lines: &[
            call("g", 5, 0, &[0, 1]),
            lambda("I", 10, 2, &[0], &[1, 0]),
            lambda("J", 10, 3, &[2], &[0, 1]),
        ],
        goal: 3,
        limit: 31,
        depth: 2,
    };
    let wanted = [
        (25, "(J) (p0, p1) -> (I) (p2, p3) -> p0"),
        (25, "(J) (p0, p1) -> (I) (p2, p3) -> p3"),
        (31, "(J) (p0, p1) -> (I) (p2, p3) -> g(p0, p1)"),
        (31, "(J) (p0, p1) -> (I) (p2, p3) -> g(p0, p2)"),
        (31, "(J) (p0, p1) -> (I) (p2, p3) -> g(p3, p1)"),
        (31, "(J) (p0, p1) -> (I) (p2, p3) -> g(p3, p2)"),
    ];
    assert!(rt; have_one_list(rt.alloc(), &shown, &wanted)?);
    Ok(())
}

#[test]
fn variables_of_both_lambdas_are_listed_alike(rt: HostRuntime) -> Result<(), EnvFault> {
    let shown = Shown {
        types: 3,
        pairs: &[],
        lines: &[
            call("g", 5, 0, &[0, 0]),
            lambda("I", 10, 1, &[0], &[0]),
            lambda("J", 10, 2, &[1], &[0]),
        ],
        goal: 2,
        limit: 29,
        depth: 2,
    };
    let wanted = [
        (23, "(J) (p0) -> (I) (p1) -> p0"),
        (23, "(J) (p0) -> (I) (p1) -> p1"),
        (29, "(J) (p0) -> (I) (p1) -> g(p0, p0)"),
        (29, "(J) (p0) -> (I) (p1) -> g(p0, p1)"),
        (29, "(J) (p0) -> (I) (p1) -> g(p1, p0)"),
        (29, "(J) (p0) -> (I) (p1) -> g(p1, p1)"),
    ];
    assert!(rt; have_one_list(rt.alloc(), &shown, &wanted)?);
    Ok(())
}
