ghost use Rattle.std.specs.Prelude.{◌≡◌, ◌⊎◌, ℕ, List, true, IfOk, OnOk, length, Contains};
ghost use Rattle.graphs.specs.Graph.{edges, InRange, Reaches, is_marked};
ghost use Rattle.graphs.specs.Joined.{root_of, IsPart, IsTurned, AreRooted, IsJoined};

use crate::reach::{ancestors, free_marks, row};
use lists::Items;
use std::alloc::{AllocError, Global};

/// Which nodes lie on a cycle with the root of their component.
#[derive(Drop)]
pub(crate) struct Joined {
    /// For each node its root.
    pub roots: Vec<usize>,
    /// Nodes that their roots reach.
    pub below: Vec<bool>,
    /// Nodes that reach their roots.
    pub above: Vec<bool>,
}

/// The root of a node, 0 where there is none.
fn root_of(roots: &[usize], node: usize) -> usize
    ensures { result ≡ root_of roots.now node }
{
    match roots.get(node) {
        Some(root) => *root,
        None => 0,
    }
}

impl Joined {
    /// Whether the marks show that the first node reaches the second.
    pub fn is_way(&self, from: usize, to: usize) -> bool
        ensures { (graph : List (List ℕ)) → IsJoined graph self.now → result ≡ true → Reaches graph from to }
    {
        if root_of(&self.roots, from) != root_of(&self.roots, to) {
            return false;
        }
        is_marked(&self.above, from) && is_marked(&self.below, to)
    }
}

/// Whether a node is marked; no node outside the marks is.
fn is_marked(marks: &[bool], node: usize) -> bool
    ensures { result ≡ is_marked marks.now node }
{
    match marks.get(node) {
        Some(mark) => *mark,
        None => false,
    }
}

/// Of the nodes of a row those with the same root.
fn row_within(
    alloc: Global,
    roots: &[usize],
    node: usize,
    nodes: &[usize],
) -> Result<Items<usize>, AllocError>
    ensures { IfOk result (λ kept. (b : ℕ) → Contains kept b → Contains nodes.now b) }
{
    let root = root_of(roots, node);
    let mut kept = Items::new(alloc);
    for next in nodes {
        if root_of(roots, *next) != root {
            continue;
        }
        kept.push(*next)?;
    }
    Ok(kept)
}

/// The edges between nodes with one root.
fn within(
    alloc: Global,
    graph: &[Items<usize>],
    roots: &[usize],
) -> Result<Vec<Items<usize>>, AllocError>
    ensures { IfOk result (λ rows. IsPart graph.now rows.items) }
{
    let mut rows = Vec::new(alloc);
    for node in 0..graph.len() {
        rows.push(row_within(alloc, roots, node, row(graph, node))?)?;
    }
    Ok(rows)
}

/// Rows without an edge.
fn no_rows(alloc: Global, nodes: usize) -> Result<Vec<Items<usize>>, AllocError>
    ensures long { IfOk result (λ rows. length rows.items ≡ nodes) }
    ensures none { IfOk result (λ rows. (a b : ℕ) → Contains (edges rows.items a) b → ⊥) }
{
    let mut rows = Vec::new(alloc);
    for _ in 0..nodes {
        rows.push(Items::new(alloc))?;
    }
    Ok(rows)
}

/// Adds an edge.
fn add_edge(rows: &mut Vec<Items<usize>>, from: usize, to: usize) -> Result<(), AllocError>
    ensures long { length rows.new.items ≡ length rows.old.items }
    ensures added { OnOk result ((a b : ℕ) → Contains (edges rows.new.items a) b → Contains (edges rows.old.items a) b ⊎ ((from ≡ a) × (to ≡ b))) }
{
    if from >= rows.len() {
        return Ok(());
    }
    let row = &mut rows[from];
    row.push(to)?;
    Ok(())
}

/// Adds an edge from each of these nodes.
fn add_edges(rows: &mut Vec<Items<usize>>, nodes: &[usize], to: usize) -> Result<(), AllocError>
    ensures long { length rows.new.items ≡ length rows.old.items }
    ensures added { OnOk result ((a b : ℕ) → Contains (edges rows.new.items a) b → Contains (edges rows.old.items a) b ⊎ (Contains nodes.now a × (to ≡ b))) }
{
    for node in nodes {
        add_edge(rows, *node, to)?;
    }
    Ok(())
}

/// The edges turned round.
fn turned(alloc: Global, graph: &[Items<usize>]) -> Result<Vec<Items<usize>>, AllocError>
    ensures { IfOk result (λ rows. IsTurned graph.now rows.items) }
{
    let mut rows = no_rows(alloc, graph.len())?;
    for node in 0..graph.len() {
        add_edges(&mut rows, row(graph, node), node)?;
    }
    Ok(rows)
}

/// Marks those of the nodes that have this root.
fn mark_rooted(marks: &mut Vec<bool>, roots: &[usize], root: usize, nodes: &[usize])
    ensures { (graph : List (List ℕ)) → ((b : ℕ) → Contains nodes.now b → Reaches graph root b) → AreRooted graph roots.now marks.old.items → AreRooted graph roots.now marks.new.items }
{
    for node in nodes {
        if *node >= marks.len() {
            continue;
        }
        if root_of(roots, *node) != root {
            continue;
        }
        marks[*node] = true;
    }
}

/// Which nodes are reached from their roots. It takes time linear in the edges that the roots reach.
fn rooted(alloc: Global, graph: &[Items<usize>], roots: &[usize]) -> Result<Vec<bool>, AllocError>
    requires range { InRange graph.now }
    ensures { IfOk result (λ marks. AreRooted graph.now roots.now marks.items) }
{
    let mut lent = free_marks(alloc, graph)?;
    let mut marks = free_marks(alloc, graph)?;
    for node in 0..graph.len() {
        if root_of(roots, node) != node {
            continue;
        }
        let nodes = ancestors(alloc, graph, &mut lent, node)?;
        mark_rooted(&mut marks, roots, node, &nodes);
    }
    Ok(marks)
}

/// Which nodes lie on a cycle with their roots. Each node has one root; where the roots are those of the
/// components, it takes time linear in the graph.
pub(crate) fn join(
    alloc: Global,
    graph: &[Items<usize>],
    roots: Vec<usize>,
) -> Result<Joined, AllocError>
    requires range { InRange graph.now }
    ensures { IfOk result (λ joined. IsJoined graph.now joined) }
{
    let inner = within(alloc, graph, &roots)?;
    let back = turned(alloc, &inner)?;
    let below = rooted(alloc, &inner, &roots)?;
    let above = rooted(alloc, &back, &roots)?;
    Ok(Joined {
        roots,
        below,
        above,
    })
}
