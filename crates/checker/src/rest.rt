// What is left of a floor after the floors of arguments.

ghost use Rattle.std.specs.Prelude.{◌≡◌, ◌≤◌, ◌-◌, IfOk};
ghost use Rattle.checker.specs.Floors.{arg_floor, args_floor, top};

use crate::floor_table::FloorTable;
use crate::sets::with_types;
use std::alloc::{AllocError, Global};
use terms::{Arg, Env};

/// What is left of a number after the floor of an argument.
#[tactic(auto, using(crate::proofs::Walks::rests))]
fn rest_after(
    alloc: Global,
    env: &Env,
    floors: &FloorTable,
    set: &[u32],
    left: u32,
    arg: &Arg,
    rest: u64,
) -> Result<u64, AllocError>
    requires low { rest ≤ top env.now }
    ensures { IfOk result (λ r. r ≡ rest - arg_floor env.now floors.now set.now left arg.now) }
{
    match arg {
        Arg::Plain(wanted) => {
            let floor = floors.floor_of(alloc, set, left, *wanted)?;
            Ok(rest.saturating_sub(u64::from(floor)))
        }
        Arg::Fun(params, wanted) => {
            if left == 0 {
                return Ok(0);
            }
            let more = with_types(alloc, set, params.as_slice())?;
            let inside = u64::from(floors.floor_of(alloc, &more, left - 1, *wanted)?);
            let binders = env.binders_weight(params.as_slice().len());
            let below = u128::from(rest).saturating_sub(binders) as u64;
            Ok(below.saturating_sub(inside))
        }
    }
}

/// What is left of a number after the floors of arguments.
#[tactic(auto, using(crate::proofs::Walks::rests))]
pub(crate) fn rest_of(
    alloc: Global,
    env: &Env,
    floors: &FloorTable,
    set: &[u32],
    left: u32,
    args: &[Arg],
    most: u64,
) -> Result<u64, AllocError>
    requires low { most ≤ top env.now }
    ensures { IfOk result (λ r. r ≡ most - args_floor env.now floors.now set.now left args.now) }
{
    let mut rest = most;
    let mut i = 0;
    while i < args.len() {
        rest = rest_after(alloc, env, floors, set, left, &args[i], rest)?;
        i += 1;
    }
    Ok(rest)
}
