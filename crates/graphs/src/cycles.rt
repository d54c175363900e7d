ghost use Rattle.std.specs.Prelude.{◌≡◌, true, IfOk, MatchOption};
ghost use Rattle.graphs.specs.Graph.{InRange, Reaches, IsLeastCycle, IsAcyclic, IsForwardRow, IsForward};
ghost use Rattle.graphs.specs.Joined.{IsJoined};
ghost use Rattle.graphs.specs.Numbers.{number_of, all_below, NeverRises};

use crate::components::components_of;
use crate::joined::{Joined, join};
use crate::numbered::Numbered;
use crate::reach::{reached, row};
use lists::Items;
use std::alloc::{AllocError, Global};

/// The number of a node, 0 where there is none.
pub(crate) fn number_of(numbers: &[u32], node: usize) -> u32
    ensures { result ≡ number_of numbers.now node }
{
    match numbers.get(node) {
        Some(number) => *number,
        None => 0,
    }
}

/// Whether each of these nodes has a number below the bound.
#[tactic(auto, using(crate::proofs::Ranks::below_walks))]
fn all_below(numbers: &[u32], nodes: &[usize], bound: u64) -> bool
    ensures { result ≡ all_below numbers.now bound nodes.now }
{
    for node in nodes {
        if number_of(numbers, *node) as u64 >= bound {
            return false;
        }
    }
    true
}

/// Whether no edge leads to a higher number.
fn never_rises(graph: &[Items<usize>], numbers: &[u32]) -> bool
    ensures { result ≡ true → NeverRises graph.now numbers.now }
{
    for node in 0..graph.len() {
        if !all_below(
            numbers,
            row(graph, node),
            number_of(numbers, node) as u64 + 1,
        ) {
            return false;
        }
    }
    true
}

/// Whether a node reaches itself. Where no edge rises and each edge of the node falls, nothing is searched.
fn reaches_itself(alloc: Global, numbered: &Numbered<'_>, node: usize) -> Result<bool, AllocError>
    ensures { IfOk result (λ r. (r ≡ true → Reaches numbered.now.graph.now node node) × (Reaches numbered.now.graph.now node node → r ≡ true)) }
{
    if numbered.falls {
        let own = number_of(numbered.numbers, node) as u64;
        if all_below(numbered.numbers, row(numbered.graph, node), own) {
            return Ok(false);
        }
    }
    let marks = reached(alloc, numbered.graph, node)?;
    match marks.get(node) {
        Some(mark) => Ok(*mark),
        None => Ok(false),
    }
}

/// Whether the node that an edge leads to reaches the node that the edge comes from. Nothing is searched
/// where no edge rises and this one falls, nor where both nodes lie on cycles with one root.
fn comes_back(
    alloc: Global,
    numbered: &Numbered<'_>,
    joined: &Joined,
    edge: (usize, usize),
) -> Result<bool, AllocError>
    requires { IsJoined numbered.now.graph.now joined.now }
    ensures { IfOk result (λ r. (r ≡ true → Reaches numbered.now.graph.now edge.1 edge.0) × (Reaches numbered.now.graph.now edge.1 edge.0 → r ≡ true)) }
{
    let (node, next) = edge;
    if numbered.falls {
        if number_of(numbered.numbers, next) < number_of(numbered.numbers, node) {
            return Ok(false);
        }
    }
    if joined.is_way(next, node) {
        return Ok(true);
    }
    let marks = reached(alloc, numbered.graph, next)?;
    match marks.get(node) {
        Some(mark) => Ok(*mark),
        None => Ok(false),
    }
}

/// The edges of a node that don't lie on a cycle.
fn forward_row(
    alloc: Global,
    numbered: &Numbered<'_>,
    joined: &Joined,
    node: usize,
) -> Result<Items<usize>, AllocError>
    requires { IsJoined numbered.now.graph.now joined.now }
    ensures { IfOk result (λ kept. IsForwardRow numbered.now.graph.now node kept) }
{
    let nodes = row(numbered.graph, node);
    let mut kept = Items::new(alloc);
    for next in nodes {
        if comes_back(alloc, numbered, joined, (node, *next))? {
            continue;
        }
        kept.push(*next)?;
    }
    Ok(kept)
}

/// The graph without the edges that lie on cycles. It takes time linear in the graph: the components are
/// found, and of each one node is searched from along its edges and against them.
pub fn without_cycles(
    alloc: Global,
    graph: &[Items<usize>],
) -> Result<Items<Items<usize>>, AllocError>
    requires range { InRange graph.now }
    ensures exact { IfOk result (λ rows. IsForward graph.now rows) }
{
    let found = components_of(alloc, graph)?;
    let numbers = found.numbers;
    let joined = join(alloc, graph, found.roots)?;
    let numbered = Numbered {
        graph,
        numbers: &numbers,
        falls: never_rises(graph, &numbers),
    };
    let mut rows = Items::new(alloc);
    for node in 0..graph.len() {
        rows.push(forward_row(alloc, &numbered, &joined, node)?)?;
    }
    Ok(rows)
}

/// The least node but `skip` that reaches itself by one edge or more, and None exactly where there is none.
/// Paths may pass through `skip`. It takes time linear in the graph: of a graph without cycles the
/// components alone are found and looked at, and otherwise one node or two are searched from.
pub fn least_cycle(
    alloc: Global,
    graph: &[Items<usize>],
    skip: usize,
) -> Result<Option<usize>, AllocError>
    requires range { InRange graph.now }
    ensures exact { IfOk result (λ found. MatchOption found (IsAcyclic graph.now skip) (λ a. IsLeastCycle graph.now skip a)) }
{
    let numbers = components_of(alloc, graph)?.numbers;
    let numbered = Numbered {
        graph,
        numbers: &numbers,
        falls: never_rises(graph, &numbers),
    };
    for node in 0..graph.len() {
        if node == skip {
            continue;
        }
        if reaches_itself(alloc, &numbered, node)? {
            return Ok(Some(node));
        }
    }
    Ok(None)
}
