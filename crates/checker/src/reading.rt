// The rows of a term, read one by one.

ghost use Rattle.std.specs.Prelude.{◌≡◌, ◌≤◌, IfOk, IfSome};
ghost use Rattle.checker.specs.Frames.{closed, begun, row_read, read_rows};
ghost use Rattle.checker.specs.OpenParts.{frames_of, frames_if, spot_view, walk_if};

use crate::open_part::{OpenPart, Spot};
use crate::row::Row;
use crate::spots::{head_of, spot_of};
use std::alloc::AllocError;
use terms::Env;

/// Ends the parts that have all their arguments. Answers whether each of them ends at the sum.
fn close(parts: &mut Vec<OpenPart<'_>>, sum: u64) -> bool
    ensures { frames_if result parts.new.items ≡ closed sum (frames_of parts.old.items) }
{
    while let Some(part) = parts.as_slice().last() {
        if !part.wanted.is_empty() {
            return true;
        }
        if part.end != sum {
            return false;
        }
        let _ = parts.pop();
    }
    true
}

/// Begins the part of a row at its place. Answers the sum that is reached, or nothing where the row can't stand
/// there, one of the parts that end doesn't end at the sum, or the sum passes the limit.
fn begin<'a>(
    env: &'a Env,
    parts: &mut Vec<OpenPart<'a>>,
    sum: u64,
    spot: Spot<'a>,
    row: Row,
) -> Result<Option<u64>, AllocError>
    requires within { sum ≤ env.now.limit }
    ensures read { IfOk result (λ o. walk_if o parts.new.items ≡ begun env.now sum (spot_view spot.entry) row (frames_of parts.old.items)) }
    ensures within { IfOk result (λ o. IfSome o (λ w. w ≤ env.now.limit)) }
{
    let head = match head_of(env, &spot.ctx, row.code) {
        Some(head) => head,
        None => return Ok(None),
    };
    if head.result != row.result {
        return Ok(None);
    }
    if !env.is_below(head.result, spot.wanted) {
        return Ok(None);
    }
    let step = u128::from(env.step(head.result, spot.wanted));
    let start = u128::from(sum)
        .saturating_add(spot.binders)
        .saturating_add(step);
    let reached = start.saturating_add(u128::from(head.weight));
    if reached > u128::from(env.parts().limit) {
        return Ok(None);
    }
    let reached = reached as u64;
    parts.push(OpenPart {
        ctx: spot.ctx,
        left: spot.left,
        wanted: head.args,
        end: start as u64 + u64::from(row.weight),
    })?;
    if close(parts, reached) {
        return Ok(Some(reached));
    }
    Ok(None)
}

/// Reads a row as the next argument of the part that was begun last. Answers the sum that is reached, or nothing where
/// no part wants an argument or the row can't stand there.
#[tactic(auto, using(crate::proofs::Steps::reading))]
fn read_row<'a>(
    env: &'a Env,
    parts: &mut Vec<OpenPart<'a>>,
    sum: u64,
    row: Row,
) -> Result<Option<u64>, AllocError>
    requires within { sum ≤ env.now.limit }
    ensures read { IfOk result (λ o. walk_if o parts.new.items ≡ row_read env.now sum (frames_of parts.old.items) row) }
    ensures within { IfOk result (λ o. IfSome o (λ w. w ≤ env.now.limit)) }
{
    let Some(part) = parts.pop() else {
        return Ok(None);
    };
    let Some((arg, rest)) = part.wanted.split_first() else {
        return Ok(None);
    };
    let spot = match spot_of(env, part.ctx, part.left, arg) {
        Some(spot) => spot,
        None => return Ok(None),
    };
    parts.push(OpenPart {
        ctx: part.ctx,
        left: part.left,
        wanted: rest,
        end: part.end,
    })?;
    begin(env, parts, sum, spot, row)
}

/// Reads all rows. Answers the sum of their weights where each part has ended then.
pub(crate) fn read_rows<'a>(
    env: &'a Env,
    parts: &mut Vec<OpenPart<'a>>,
    rows: &[Row],
) -> Result<Option<u64>, AllocError>
    ensures read { IfOk result (λ o. o ≡ read_rows env.now 0 (frames_of parts.old.items) rows.now) }
    ensures within { IfOk result (λ o. IfSome o (λ w. w ≤ env.now.limit)) }
{
    let mut sum = 0;
    for row in rows {
        match read_row(env, parts, sum, *row)? {
            Some(reached) => sum = reached,
            None => return Ok(None),
        }
    }
    if parts.as_slice().is_empty() {
        return Ok(Some(sum));
    }
    Ok(None)
}
