use crate::{ancestors, free_marks, is_in_range, least_cycle, reached, without_cycles};
use lists::Items;
use std::alloc::{AllocError, Global};

/// The edges of graphs of six nodes, the node that is passed over, and the least other node that reaches
/// itself.
const CYCLES: [(&[(usize, usize)], usize, Option<usize>); 9] = [
    (&[], 9, None),
    (&[(0, 1), (1, 2), (0, 2), (3, 2)], 9, None),
    (&[(3, 3)], 9, Some(3)),
    (&[(4, 2), (2, 5), (5, 4), (0, 2)], 9, Some(2)),
    (&[(3, 4), (4, 3), (1, 2), (2, 1)], 9, Some(1)),
    (&[(3, 4), (4, 3), (1, 2), (2, 1)], 1, Some(2)),
    (&[(0, 0)], 0, None),
    (&[(5, 0), (0, 5)], 0, Some(5)),
    (&[(5, 4), (4, 3), (3, 2), (2, 1), (1, 0)], 0, None),
];

/// The edges of graphs of six nodes, a node, and the nodes that it reaches.
const WAYS: [(&[(usize, usize)], usize, &[usize]); 6] = [
    (&[], 0, &[]),
    (&[(0, 1), (1, 2), (0, 2), (3, 2)], 0, &[1, 2]),
    (&[(0, 1), (1, 2), (0, 2), (3, 2)], 2, &[]),
    (&[(0, 5), (5, 3), (3, 1), (1, 4)], 5, &[1, 3, 4]),
    (&[(2, 4), (4, 2)], 2, &[2, 4]),
    (&[(2, 3)], 9, &[]),
];

fn row(alloc: Global, edges: &[(usize, usize)], node: usize) -> Result<Items<usize>, AllocError> {
    let mut row = Items::new(alloc);
    for (from, to) in edges {
        if *from == node {
            row.push(*to)?;
        }
    }
    Ok(row)
}

fn graph(alloc: Global, edges: &[(usize, usize)]) -> Result<Vec<Items<usize>>, AllocError> {
    let mut rows = Vec::new(alloc);
    for node in 0..6 {
        rows.push(row(alloc, edges, node)?)?;
    }
    Ok(rows)
}

#[test]
fn the_least_named_cycle_is_found(rt: HostRuntime) -> Result<(), AllocError> {
    for (edges, skip, least) in CYCLES {
        let rows = graph(rt.alloc(), edges)?;
        assert!(rt; is_in_range(&rows));
        assert_eq!(rt; least_cycle(rt.alloc(), &rows, skip)?, least);
    }
    Ok(())
}

/// Whether the marks, and the list, are of these nodes alone.
fn are(nodes: &[usize], marks: &[bool], list: &[usize]) -> bool {
    let marked = (0..marks.len()).all(|b| marks[b] == nodes.contains(&b));
    marked && list.len() == nodes.len() && list.iter().all(|b| nodes.contains(b))
}

#[test]
fn what_is_reached_is_marked_and_listed(rt: HostRuntime) -> Result<(), AllocError> {
    for (edges, from, nodes) in WAYS {
        let rows = graph(rt.alloc(), edges)?;
        assert!(rt; is_in_range(&rows));
        let mut marks = free_marks(rt.alloc(), &rows)?;
        let list = ancestors(rt.alloc(), &rows, &mut marks, from)?;
        assert!(rt; !marks.contains(&true));
        let marks = reached(rt.alloc(), &rows, from)?;
        assert!(rt; are(nodes, &marks, &list));
    }
    Ok(())
}

/// The edges of graphs of six nodes, and how many edges of each node don't lie on a cycle.
const KEPT: [(&[(usize, usize)], [usize; 6]); 4] = [
    (
        &[(0, 1), (1, 2), (2, 1), (2, 3), (4, 4), (4, 0)],
        [1, 0, 1, 0, 1, 0],
    ),
    (
        &[(0, 1), (1, 2), (2, 0), (0, 2), (2, 3), (3, 4), (4, 3)],
        [0, 0, 1, 0, 0, 0],
    ),
    (
        &[(5, 4), (4, 3), (3, 2), (2, 1), (1, 0), (0, 5), (3, 5)],
        [0, 0, 0, 0, 0, 0],
    ),
    (&[(0, 1), (0, 2), (1, 2), (2, 3)], [2, 1, 1, 0, 0, 0]),
];

#[test]
fn edges_on_cycles_are_left_out(rt: HostRuntime) -> Result<(), AllocError> {
    for (edges, kept) in KEPT {
        let rows = graph(rt.alloc(), edges)?;
        assert!(rt; is_in_range(&rows));
        let rows = without_cycles(rt.alloc(), &rows)?;
        let lengths = rows.as_slice().iter().map(|row| row.len());
        assert!(rt; lengths.eq(kept));
    }
    Ok(())
}

#[test]
fn an_edge_that_leads_outside_is_seen(rt: HostRuntime) -> Result<(), AllocError> {
    assert!(rt; !is_in_range(&graph(rt.alloc(), &[(5, 6)])?));
    Ok(())
}
