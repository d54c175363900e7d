// Edges by number, their tails in one flat list.

ghost use Rattle.std.specs.Prelude.{◌≡◌, ◌<◌, ◌++◌, ◌∷◌, [], length, slice_get, Some, OnOk};
ghost use Rattle.edges.specs.Edges.{Edge};
ghost use Rattle.edges.specs.Made.{edge_of};

use crate::head::Head;
use std::alloc::{AllocError, Global};
use std::marker::Model;
use succinct::Rows;

/// Edges, each at its number. It owns its tables.
#[derive(Drop)]
pub struct Table {
    heads: Vec<Head>,
    tails: Rows,
}

impl Model for Table {
    ghost use Rattle.std.specs.Prelude.{List, length, ◌≡◌};
    ghost use Rattle.edges.specs.Edges.{Edge};
    ghost use Rattle.edges.specs.Made.{edges_of};

    ghost Value = { List Edge };

    ghost view = { λ t. edges_of t.heads.items t.tails };

    ghost invariant = { λ t. length t.heads.items ≡ length t.tails };
}

impl Table {
    /// No edges. Takes no memory.
    pub fn new(alloc: Global) -> Table
        ensures empty { result ≡ [] }
    {
        Table {
            heads: Vec::new(alloc),
            tails: Rows::new(alloc),
        }
    }

    /// How many edges there are.
    pub fn len(&self) -> usize
        ensures value { result ≡ length self.now }
    {
        self.heads.len()
    }

    /// Puts an edge at the end.
    pub fn push(&mut self, head: Head, tails: &[u32]) -> Result<(), AllocError>
        ensures added { OnOk result (self.new ≡ self.old ++ edge_of head tails.now ∷ []) }
    {
        self.heads.reserve(1)?;
        self.tails.push(tails)?;
        let _ = self.heads.push(head);
        Ok(())
    }

    /// The head of an edge.
    pub fn head(&self, edge: u32) -> Head
        requires in_range { edge < length self.now }
        ensures value { (e : Edge) → slice_get self.now edge ≡ Some e → edge_of result e.tails ≡ e }
    {
        self.heads[edge as usize]
    }

    /// The tails of an edge.
    pub fn tails(&self, edge: u32) -> &[u32]
        requires in_range { edge < length self.now }
        ensures value { (e : Edge) → slice_get self.now edge ≡ Some e → result.now ≡ e.tails }
    {
        self.tails.row(edge)
    }
}
