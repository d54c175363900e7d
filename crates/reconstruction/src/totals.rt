// What each edge weighs with the least weights at its tails, and a bound on that for each state.

ghost use Rattle.std.specs.Prelude.{◌≡◌, ◌+◌, ◌<◌, ◌≤◌, ℕ, None, length, slice_get, slice_index_or, Some, IfOk, MatchOption};
ghost use Rattle.edges.specs.Edges.{Edge};
ghost use Rattle.reconstruction.specs.Totals.{declared_in, least_total, IsTotal, AreTotals, IsLightest, AreLightest};

use edges::Edges;
use least_weights::Least;
use lists::Items;
use patterns::Patterns;
use std::alloc::{AllocError, Global};
use terms::{Env, Parts};

/// The least weight at a state, none also where there is no such state.
fn least_of(patterns: &Patterns, least: &Least, state: u32) -> Option<u32>
    requires as_many { length least.now ≡ length patterns.now.states }
    ensures value { result ≡ slice_index_or least.now state None }
{
    if state as usize >= patterns.states().len() {
        return None;
    }
    least.least(state)
}

/// A weight with the least weights at some states, none where that is above the limit.
fn with_least(
    patterns: &Patterns,
    least: &Least,
    limit: u32,
    weight: u32,
    states: &[u32],
) -> Option<u32>
    requires as_many { length least.now ≡ length patterns.now.states }
    ensures value { MatchOption result (limit < weight + least_total limit least.now states.now) (λ w. (w ≡ weight + least_total limit least.now states.now) × (w ≤ limit)) }
{
    if weight > limit {
        return None;
    }
    let mut sum = weight;
    for state in states {
        let more = match least_of(patterns, least, *state) {
            Some(more) => more,
            None => return None,
        };
        if more > limit - sum {
            return None;
        }
        sum += more;
    }
    Some(sum)
}

/// The total of an edge.
fn total_of(env: &Env, patterns: &Patterns, least: &Least, weight: u32, tails: &[u32]) -> u32
    requires as_many { length least.now ≡ length patterns.now.states }
    ensures total { IsTotal env.now.limit (weight + least_total env.now.limit least.now tails.now) result }
{
    let limit = env.parts().limit;
    match with_least(patterns, least, limit, weight, tails) {
        Some(total) => total,
        None => limit + 1,
    }
}

/// The totals of all edges.
pub fn all_totals(
    alloc: Global,
    env: &Env,
    patterns: &Patterns,
    edges: &Edges,
    least: &Least,
) -> Result<Items<u32>, AllocError>
    requires as_many { length least.now ≡ length patterns.now.states }
    ensures totals { IfOk result (λ totals. AreTotals env.now.limit least.now edges.now totals) }
{
    let mut totals = Items::new(alloc);
    for edge in 0..edges.len() {
        let weight = edges.weight(edge);
        totals.push(total_of(env, patterns, least, weight, edges.tails(edge)))?;
    }
    Ok(totals)
}

/// The declaration that a source is, none for a pair and for the variables: the pairs are numbered after the
/// declarations.
pub fn declared(parts: &Parts, source: Option<u32>) -> Option<u32>
    ensures value { result ≡ declared_in parts.now source }
{
    match source {
        Some(number) => {
            if (number as usize) < parts.decls.len() {
                Some(number)
            } else {
                None
            }
        }
        None => None,
    }
}

/// The number at a place, 0 past the end.
pub fn number_at(numbers: &[u32], place: u32) -> u32
    ensures value { result ≡ slice_index_or numbers.now place 0 }
{
    match numbers.get(place as usize) {
        Some(number) => *number,
        None => 0,
    }
}

/// The lesser of a total and that of an edge of a declaration.
pub fn lighter(parts: &Parts, least: u32, source: Option<u32>, total: u32) -> u32
    ensures least { result ≤ least }
    ensures head { (k : ℕ) → declared_in parts.now source ≡ Some k → result ≤ total }
{
    match declared(parts, source) {
        Some(_) => least.min(total),
        None => least,
    }
}

/// A total that no declaration's edge among these is below.
fn lightest_of(parts: &Parts, edges: &Edges, totals: &[u32], start: u32, end: u32) -> u32
    requires as_many { length totals.now ≡ length edges.now }
    requires within { end ≤ length edges.now }
    ensures light { IsLightest parts.now edges.now totals.now start end result }
{
    let mut least = u32::MAX;
    for edge in start..end {
        least = lighter(parts, least, edges.source(edge), totals[edge as usize]);
    }
    least
}

/// A total for each state that no declaration's edge there is below.
pub fn all_lightest(
    alloc: Global,
    parts: &Parts,
    edges: &Edges,
    totals: &[u32],
    states: usize,
) -> Result<Items<u32>, AllocError>
    requires as_many { length totals.now ≡ length edges.now }
    requires in_range { (m : ℕ) (e : Edge) → slice_get edges.now m ≡ Some e → e.state < states }
    requires few { states < 4294967296 }
    ensures light { IfOk result (λ all. AreLightest parts.now edges.now totals.now all) }
{
    let mut all = Items::new(alloc);
    for state in 0..states {
        let run = edges.of_state(state as u32);
        all.push(lightest_of(parts, edges, totals, run.start, run.end))?;
    }
    Ok(all)
}
