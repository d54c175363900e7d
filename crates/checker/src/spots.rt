// Where parts are wanted, and the heads that rows name.

ghost use Rattle.std.specs.Prelude.{◌≡◌, ◌≤◌, ◌%◌};
ghost use Rattle.std.specs.Option.{option_map};
ghost use Rattle.terms.specs.Typing.{rows};
ghost use Rattle.checker.specs.Frames.{spot_of, head_of};
ghost use Rattle.checker.specs.OpenParts.{spot_view, head_view};

use crate::open_part::{Head, Spot};
use terms::{Arg, Ctx, Env, MOST_ROWS};

/// Where an argument is wanted; nowhere for a lambda where none may stand.
#[tactic(auto, using(crate::proofs::Steps::spots))]
pub(crate) fn spot_of<'a>(env: &Env, ctx: Ctx<'a>, left: u32, arg: &'a Arg) -> Option<Spot<'a>>
    requires few_rows { ctx.used ≤ 3 }
    ensures { option_map spot_view result ≡ spot_of env.now (rows ctx.entry) left arg.now }
{
    match arg {
        Arg::Plain(wanted) => Some(Spot {
            ctx,
            left,
            wanted: *wanted,
            binders: 0,
        }),
        Arg::Fun(params, wanted) => {
            if left == 0 {
                return None;
            }
            if ctx.used == MOST_ROWS {
                return None;
            }
            Some(Spot {
                ctx: ctx.with(params.as_slice()),
                left: left - 1,
                wanted: *wanted,
                binders: env.binders_weight(params.as_slice().len()),
            })
        }
    }
}

/// A variable as a head.
#[tactic(auto, using(crate::proofs::Steps::heads))]
fn variable_head<'a>(env: &Env, ctx: &Ctx<'a>, code: u32) -> Option<Head<'a>>
    requires few_rows { ctx.now.used ≤ 3 }
    requires even { code % 2 ≡ 0 }
    ensures { option_map head_view result ≡ head_of env.now (rows ctx.now) code }
{
    match ctx.variable(code / 2) {
        Some(result) => Some(Head {
            result,
            weight: env.variable_weight(),
            args: &[],
        }),
        None => None,
    }
}

/// A declaration as a head.
#[tactic(auto, using(crate::proofs::Steps::heads))]
fn declared_head<'a>(env: &'a Env, ctx: &Ctx<'a>, code: u32) -> Option<Head<'a>>
    requires odd { code % 2 ≡ 1 }
    ensures { option_map head_view result ≡ head_of env.now (rows ctx.now) code }
{
    match env.parts().decls.get((code / 2) as usize) {
        Some(decl) => Some(Head {
            result: decl.result,
            weight: decl.weight,
            args: decl.args.as_slice(),
        }),
        None => None,
    }
}

/// The head that a number of a prefix code names.
pub(crate) fn head_of<'a>(env: &'a Env, ctx: &Ctx<'a>, code: u32) -> Option<Head<'a>>
    requires few_rows { ctx.now.used ≤ 3 }
    ensures { option_map head_view result ≡ head_of env.now (rows ctx.now) code }
{
    if code % 2 == 0 {
        variable_head(env, ctx, code)
    } else {
        declared_head(env, ctx, code)
    }
}
