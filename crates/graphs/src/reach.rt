ghost use Rattle.std.specs.Prelude.{◌≡◌, ◌≢◌, ◌<◌, ℕ, true, [], IfOk, OnOk, length, AllPairs, Contains};
ghost use Rattle.graphs.specs.Graph.{edges, InRange, AreMarked, AreAncestors, AreFree};
ghost use Rattle.graphs.specs.Marking.{mark, mark_row, unmark, AreListed};

use lists::Items;
use std::alloc::{AllocError, Global};

/// The nodes that the edges of a node lead to; none outside the graph.
pub(crate) fn row(graph: &[Items<usize>], node: usize) -> &[usize]
    ensures { result.now ≡ edges graph.now node }
{
    match graph.get(node) {
        Some(row) => row.as_slice(),
        None => &[],
    }
}

/// Whether each of these nodes is below the bound.
fn are_below(nodes: &[usize], bound: usize) -> bool
    ensures sound { result ≡ true → (b : ℕ) → Contains nodes.now b → b < bound }
    ensures complete { ((b : ℕ) → Contains nodes.now b → b < bound) → result ≡ true }
{
    for node in nodes {
        if *node >= bound {
            return false;
        }
    }
    true
}

/// Whether each edge leads to a node of the graph.
pub fn is_in_range(graph: &[Items<usize>]) -> bool
    ensures sound { result ≡ true → InRange graph.now }
    ensures complete { InRange graph.now → result ≡ true }
{
    for node in 0..graph.len() {
        if !are_below(row(graph, node), graph.len()) {
            return false;
        }
    }
    true
}

/// Marks for a graph, one for each node, none set.
pub fn free_marks(alloc: Global, graph: &[Items<usize>]) -> Result<Vec<bool>, AllocError>
    ensures free { IfOk result (λ marks. AreFree (length graph.now) marks.items) }
{
    Ok(Vec::from_elem(alloc, false, graph.len())?)
}

/// Marks a node and puts it on the worklist, if it isn't marked.
#[tactic(auto, unfolding(crate::specs::Marking::mark))]
fn mark(marks: &mut Vec<bool>, worklist: &mut Vec<usize>, node: usize) -> Result<(), AllocError>
    requires { node < length marks.old.items }
    ensures work { OnOk result ((marks.new.items, worklist.new.items) ≡ mark (marks.old.items, worklist.old.items) node) }
    ensures listed { AreListed marks.old.items worklist.old.items → AreListed marks.new.items worklist.new.items }
    ensures long { length marks.new.items ≡ length marks.old.items }
{
    if marks[node] {
        return Ok(());
    }
    worklist.push(node)?;
    marks[node] = true;
    Ok(())
}

/// Marks the nodes of a row.
fn mark_row(
    marks: &mut Vec<bool>,
    worklist: &mut Vec<usize>,
    nodes: &[usize],
) -> Result<(), AllocError>
    requires { (b : ℕ) → Contains nodes.now b → b < length marks.old.items }
    ensures work { OnOk result ((marks.new.items, worklist.new.items) ≡ mark_row (marks.old.items, worklist.old.items) nodes.now) }
    ensures listed { AreListed marks.old.items worklist.old.items → AreListed marks.new.items worklist.new.items }
    ensures long { length marks.new.items ≡ length marks.old.items }
{
    for node in nodes {
        mark(marks, worklist, *node)?;
    }
    Ok(())
}

/// Takes the marks of these nodes away.
fn unmark(marks: &mut Vec<bool>, nodes: &[usize])
    ensures long { length marks.new.items ≡ length marks.old.items }
    ensures marks { marks.new.items ≡ unmark marks.old.items nodes.now }
{
    for node in nodes {
        if *node >= marks.len() {
            continue;
        }
        marks[*node] = false;
    }
}

/// Which nodes are reached from a node by one edge or more, as marks. It takes time linear in the graph.
pub fn reached(alloc: Global, graph: &[Items<usize>], from: usize) -> Result<Vec<bool>, AllocError>
    requires range { InRange graph.now }
    ensures exact { IfOk result (λ marks. AreMarked graph.now from marks.items) }
{
    let mut marks = Vec::from_elem(alloc, false, graph.len())?;
    let mut worklist = Vec::new(alloc);
    mark_row(&mut marks, &mut worklist, row(graph, from))?;
    while let Some(node) = worklist.pop() {
        mark_row(&mut marks, &mut worklist, row(graph, node))?;
    }
    Ok(marks)
}

/// Marks the nodes that are reached from a node by one edge or more, and lists them. Where memory is wanting
/// some of them are marked, and each of these is listed.
fn list_reached(
    graph: &[Items<usize>],
    marks: &mut Vec<bool>,
    found: &mut Vec<usize>,
    from: usize,
) -> Result<(), AllocError>
    requires range { InRange graph.now }
    requires marks { AreFree (length graph.now) marks.old.items }
    requires empty { found.old.items ≡ [] }
    ensures exact { OnOk result (AreAncestors graph.now from found.new.items) }
    ensures distinct { OnOk result (AllPairs (λ a b. a ≢ b) found.new.items) }
    ensures listed { AreListed marks.new.items found.new.items }
    ensures long { length marks.new.items ≡ length graph.now }
{
    mark_row(marks, found, row(graph, from))?;
    let mut next = 0;
    while next < found.len() {
        let node = found[next];
        mark_row(marks, found, row(graph, node))?;
        next += 1;
    }
    Ok(())
}

/// The nodes that are reached from a node by one edge or more, each once. It takes time linear in the edges
/// of these nodes: the marks are lent, one for each node of the graph and none set, and come back so.
pub fn ancestors(
    alloc: Global,
    graph: &[Items<usize>],
    marks: &mut Vec<bool>,
    from: usize,
) -> Result<Vec<usize>, AllocError>
    requires range { InRange graph.now }
    requires marks { AreFree (length graph.now) marks.old.items }
    ensures exact { IfOk result (λ nodes. AreAncestors graph.now from nodes.items) }
    ensures distinct { IfOk result (λ nodes. AllPairs (λ a b. a ≢ b) nodes.items) }
    ensures free { AreFree (length graph.now) marks.new.items }
{
    let mut found = Vec::new(alloc);
    let done = list_reached(graph, marks, &mut found, from);
    unmark(marks, &found);
    done?;
    Ok(found)
}
