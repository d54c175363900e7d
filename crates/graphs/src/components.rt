use crate::cycles::number_of;
use crate::reach::row;
use lists::Items;
use std::alloc::{AllocError, Global};

/// A depth-first search for the strongly connected components of a graph (Tarjan 1972). Numbers of nodes
/// begin at 1, and 0 stands for none.
#[derive(Drop)]
struct Search {
    /// For each node the number of its component.
    components: Vec<u32>,
    /// For each node the node of its component that was met first.
    roots: Vec<usize>,
    /// For each node when it was met.
    met: Vec<u32>,
    /// For each node the earliest node that it is known to come back to.
    earliest: Vec<u32>,
    /// The nodes that were met and have no component.
    open: Vec<usize>,
    /// The nodes on the path to the present one, each with how many of its edges were looked at.
    path: Vec<(usize, usize)>,
    nodes_met: u32,
    components_found: u32,
}

fn put<T: Copy>(numbers: &mut Vec<T>, node: usize, number: T) {
    if node < numbers.len() {
        numbers[node] = number;
    }
}

/// The strongly connected components of a graph.
#[derive(Drop)]
pub(crate) struct Components {
    /// The number of each node's component.
    pub numbers: Vec<u32>,
    /// For each node a node of its component, the same for all of its nodes.
    pub roots: Vec<usize>,
}

impl Search {
    fn new(alloc: Global, nodes: usize) -> Result<Search, AllocError> {
        Ok(Search {
            components: vec![in alloc; 0; nodes]?,
            roots: vec![in alloc; 0; nodes]?,
            met: vec![in alloc; 0; nodes]?,
            earliest: vec![in alloc; 0; nodes]?,
            open: Vec::new(alloc),
            path: Vec::new(alloc),
            nodes_met: 0,
            components_found: 0,
        })
    }

    /// Meets a node for the first time.
    fn meet(&mut self, node: usize) -> Result<(), AllocError> {
        self.nodes_met = self.nodes_met.saturating_add(1);
        put(&mut self.met, node, self.nodes_met);
        put(&mut self.earliest, node, self.nodes_met);
        self.open.push(node)?;
        Ok(())
    }

    fn lower(&mut self, node: usize, number: u32) {
        let least = number_of(&self.earliest, node).min(number);
        put(&mut self.earliest, node, least);
    }

    /// Looks at one edge: the node that it leads to is met, or may be one to come back to.
    fn follow(&mut self, node: usize, next: usize) -> Result<(), AllocError> {
        if number_of(&self.met, next) == 0 {
            self.meet(next)?;
            self.path.push((next, 0))?;
            return Ok(());
        }
        if number_of(&self.components, next) == 0 {
            let number = number_of(&self.met, next);
            self.lower(node, number);
        }
        Ok(())
    }

    /// Closes the component of a node: of the open nodes the last, down to it.
    fn close(&mut self, node: usize) {
        self.components_found = self.components_found.saturating_add(1);
        while let Some(member) = self.open.pop() {
            put(&mut self.components, member, self.components_found);
            put(&mut self.roots, member, node);
            if member == node {
                break;
            }
        }
    }

    /// Leaves a node all of whose edges were looked at.
    fn leave(&mut self, node: usize) {
        let earliest = number_of(&self.earliest, node);
        if earliest == number_of(&self.met, node) {
            self.close(node);
        }
        if let Some((parent, _)) = self.path.as_slice().last() {
            let parent = *parent;
            self.lower(parent, earliest);
        }
    }

    /// Searches from a node that wasn't met.
    fn search(&mut self, graph: &[Items<usize>], root: usize) -> Result<(), AllocError> {
        self.meet(root)?;
        self.path.push((root, 0))?;
        for _ in 0..u64::MAX {
            let Some((node, looked)) = self.path.pop() else {
                break;
            };
            match row(graph, node).get(looked) {
                Some(next) => {
                    self.path.push((node, looked + 1))?;
                    self.follow(node, *next)?;
                }
                None => self.leave(node),
            }
        }
        Ok(())
    }
}

/// The strongly connected components, numbered so that a node's edges lead to its own component or to one of
/// a lesser number. No proof rests on what they are: whoever uses them looks at each edge once, and searches
/// where that look isn't enough.
pub(crate) fn components_of(
    alloc: Global,
    graph: &[Items<usize>],
) -> Result<Components, AllocError> {
    let mut search = Search::new(alloc, graph.len())?;
    for node in 0..graph.len() {
        if number_of(&search.met, node) == 0 {
            search.search(graph, node)?;
        }
    }
    Ok(Components {
        numbers: search.components,
        roots: search.roots,
    })
}
