// What the sources weigh: declarations and pairs.

ghost use Rattle.std.specs.Prelude.{◌≡◌, ◌+◌, ◌≤◌, ◌<◌, ℕ, [], ◌∷◌, slice_get, Some, MatchOption};
ghost use Rattle.terms.specs.Reading.{binders};
ghost use Rattle.terms.specs.Weights.{binders_weight};
ghost use Rattle.edges.specs.Edges.{source_costs};

use terms::{Arg, Env};

/// A weight with what so many binders weigh, none where that is above the limit.
fn with_count(env: &Env, limit: u32, weight: u32, count: usize) -> Option<u32>
    requires within { weight ≤ limit }
    ensures value { MatchOption result (limit < weight + binders_weight env.now count) (λ w. (w ≡ weight + binders_weight env.now count) × (w ≤ limit)) }
{
    let more = env.binders_weight(count);
    if more > (limit - weight) as u128 {
        return None;
    }
    Some(weight + more as u32)
}

/// A weight with what the binders of an argument weigh, none where that is above the limit.
fn with_arg(env: &Env, limit: u32, weight: u32, arg: &Arg) -> Option<u32>
    requires within { weight ≤ limit }
    ensures value { MatchOption result (limit < weight + binders_weight env.now (binders (arg.now ∷ []))) (λ w. (w ≡ weight + binders_weight env.now (binders (arg.now ∷ []))) × (w ≤ limit)) }
{
    match arg {
        Arg::Fun(params, _) => with_count(env, limit, weight, params.as_slice().len()),
        Arg::Plain(_) => Some(weight),
    }
}

/// A weight with what the binders of the arguments weigh, none where that is above the limit.
fn with_binders(env: &Env, limit: u32, weight: u32, args: &[Arg]) -> Option<u32>
    ensures value { MatchOption result (limit < weight + binders_weight env.now (binders args.now)) (λ w. (w ≡ weight + binders_weight env.now (binders args.now)) × (w ≤ limit)) }
{
    if weight > limit {
        return None;
    }
    let mut sum = weight;
    for arg in args {
        match with_arg(env, limit, sum, arg) {
            Some(more) => sum = more,
            None => return None,
        }
    }
    Some(sum)
}

/// What a source weighs with its binders, none where that is above the limit and where there is no such source.
pub fn cost_of(env: &Env, number: u32) -> Option<u32>
    ensures value { MatchOption result ((w : ℕ) → slice_get (source_costs env.now) number ≡ Some w → env.now.limit < w) (λ w. (slice_get (source_costs env.now) number ≡ Some w) × (w ≤ env.now.limit)) }
{
    let parts = env.parts();
    let decls = parts.decls.as_slice();
    let place = number as usize;
    if place < decls.len() {
        let decl = &decls[place];
        return with_binders(env, parts.limit, decl.weight, decl.args.as_slice());
    }
    if place - decls.len() < parts.pairs.as_slice().len() {
        return with_binders(env, parts.limit, env.coercion_weight(), &[]);
    }
    None
}
