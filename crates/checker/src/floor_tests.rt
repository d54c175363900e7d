use crate::tests::{COERCIONS, SAME_TYPE, Sheet, calls, lambdas};
use crate::{Floor, check_floors};
use lists::Items;
use std::alloc::Global;
use std::process::Abort;
use terms::Env;

/// `decl 5 int name x` and a call of a long give no long: `goal long`, `limit 4000`.
const NO_TERM: Sheet = Sheet {
    limit: 4000,
    pairs: &[],
    goal: 1,
};

/// A floor at a state whose set is empty.
fn outside(alloc: Global, goal: u32, floor: u32) -> Floor {
    Floor {
        set: Items::new(alloc),
        left: 1,
        goal,
        floor,
    }
}

/// What is answered to the floor of the goal, and another one.
fn answer(
    rt: &impl Abort,
    alloc: Global,
    env: &Env,
    first: Floor,
    second: Option<Floor>,
) -> Option<u32> {
    let mut floors = Items::new(alloc);
    floors.push(first).expect(rt, "memory");
    if let Some(floor) = second {
        floors.push(floor).expect(rt, "memory");
    }
    check_floors(alloc, env, floors.as_slice()).expect(rt, "memory")
}

#[test]
fn a_first_floor_holds_up_to_the_first_total(rt: HostRuntime) {
    let alloc = rt.alloc();
    let env = calls(&rt, alloc, COERCIONS);
    assert!(rt; answer(&rt, alloc, &env, outside(alloc, 1, 15), None) == Some(15));
    assert!(rt; answer(&rt, alloc, &env, outside(alloc, 1, 16), None).is_none());
    let env = calls(&rt, alloc, SAME_TYPE);
    assert!(rt; answer(&rt, alloc, &env, outside(alloc, 0, 5), None) == Some(5));
}

#[test]
fn a_floor_above_the_limit_says_that_there_is_no_term(rt: HostRuntime) {
    let alloc = rt.alloc();
    let env = calls(&rt, alloc, NO_TERM);
    assert!(rt; answer(&rt, alloc, &env, outside(alloc, 1, 4001), None) == Some(4001));
    assert!(rt; answer(&rt, alloc, &env, outside(alloc, 1, 4002), None).is_none());
}

#[test]
fn floors_of_one_state_or_of_another_goal_are_refused(rt: HostRuntime) {
    let alloc = rt.alloc();
    let env = calls(&rt, alloc, COERCIONS);
    let twice = answer(
        &rt,
        alloc,
        &env,
        outside(alloc, 1, 15),
        Some(outside(alloc, 1, 15)),
    );
    assert!(rt; twice.is_none());
    assert!(rt; answer(&rt, alloc, &env, outside(alloc, 0, 5), None).is_none());
    let beyond = answer(
        &rt,
        alloc,
        &env,
        outside(alloc, 1, 15),
        Some(outside(alloc, 7, 76)),
    );
    assert!(rt; beyond == Some(15));
}

#[test]
fn a_lambdas_body_has_its_parameters(rt: HostRuntime) {
    let alloc = rt.alloc();
    let env = lambdas(&rt, alloc);
    let body = Floor {
        set: Items::from_slice(alloc, &[0]).expect(&rt, "memory"),
        left: 0,
        goal: 0,
        floor: 1,
    };
    assert!(rt; answer(&rt, alloc, &env, outside(alloc, 1, 12), Some(body)) == Some(12));
    assert!(rt; answer(&rt, alloc, &env, outside(alloc, 1, 12), None).is_none());
    assert!(rt; answer(&rt, alloc, &env, outside(alloc, 1, 11), None) == Some(11));
}
