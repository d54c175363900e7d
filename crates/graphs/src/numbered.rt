ghost use Rattle.std.specs.Prelude.{◌≡◌, true};
ghost use Rattle.graphs.specs.Graph.{InRange};
ghost use Rattle.graphs.specs.Numbers.{NeverRises};

use lists::Items;

/// A graph with a number for each node, and whether it is known that no edge leads to a higher number.
#[derive(Clone, Copy)]
pub(crate) struct Numbered<'a> {
    pub graph: &'a [Items<usize>],
    pub numbers: &'a [u32],
    pub falls: bool,
    ghost range: { InRange graph.now },
    ghost falling: { falls ≡ true → NeverRises graph.now numbers.now },
}
