ghost use Rattle.std.specs.Prelude.{ℕ, IfOk, IfSome, IfNone};
ghost use Rattle.checker.specs.Rows.{IsItem};

use crate::open_part::OpenPart;
use crate::reading::read_rows;
use crate::row::Row;
use std::alloc::{AllocError, Global};
use terms::{Arg, Ctx, Env};

/// The total of the term whose rows these are, where there is such a term among the inhabitants of the goal. It goes
/// over the rows once, in order, without recursion, and believes none of their types and weights.
pub fn check_item(alloc: Global, env: &Env, rows: &[Row]) -> Result<Option<u32>, AllocError>
    ensures item { IfOk result (λ o. IfSome o (λ w. IsItem env.now rows.now w)) }
    ensures no_item { IfOk result (λ o. IfNone o ((w : ℕ) → IsItem env.now rows.now w → ⊥)) }
{
    let Some(first) = rows.first() else {
        return Ok(None);
    };
    let parts = env.parts();
    let total = u64::from(first.weight) + u64::from(env.step(first.result, parts.goal));
    if total > u64::from(parts.limit) {
        return Ok(None);
    }
    let goal = [Arg::Plain(parts.goal)];
    let mut open = Vec::new(alloc);
    open.push(OpenPart {
        ctx: Ctx::empty(),
        left: parts.depth,
        wanted: &goal,
        end: total,
    })?;
    match read_rows(env, &mut open, rows)? {
        Some(sum) => Ok(Some(sum as u32)),
        None => Ok(None),
    }
}
