// The table of the edges of all states.

ghost use Rattle.std.specs.Prelude.{◌≡◌, ◌<◌, ℕ, ◌++◌, ◌∷◌, [], length, slice_get, Some, IfOk};
ghost use Rattle.succinct.specs.Compression.{IsCompression};
ghost use Rattle.patterns.specs.Patterned.{ArePatterns};
ghost use Rattle.edges.specs.Edges.{Edge, AreEdges, IsRunOf};

use crate::state_edges::{Scratch, add_state};
use crate::table::Table;
use patterns::Patterns;
use std::alloc::{AllocError, Global};
use std::marker::Model;
use std::ops::Range;
use succinct::Compressed;
use terms::Env;

/// The edges of all states, by number; those of one state stand together. It owns its tables and keeps nothing
/// of what it was derived from.
#[derive(Drop)]
pub struct Edges {
    table: Table,
    /// Where the edges of each state start, and after the last state their number.
    starts: Vec<u32>,
}

impl Model for Edges {
    ghost use Rattle.std.specs.Prelude.{List, length, ◌<◌};
    ghost use Rattle.edges.specs.Edges.{Edge};
    ghost use Rattle.edges.specs.Made.{AreRuns};

    ghost Value = { List Edge };

    ghost view = { λ e. e.table };

    ghost invariant = { λ e. (length e.table < 4294967296) × AreRuns e.starts.items e.table };
}

/// Where the next edge starts. Want of memory is answered where there are 2^32 or more.
fn end_of(table: &Table) -> Result<u32, AllocError>
    ensures value { IfOk result (λ end. end ≡ length table.now) }
    ensures small { IfOk result (λ _. length table.now < 4294967296) }
{
    let count = table.len();
    if count > 4294967295 {
        return Err(AllocError);
    }
    Ok(count as u32)
}

impl Edges {
    /// The edges of the states of an environment's patterns, at its depth and at any goal. Takes time about linear
    /// in the edges, their tails, and the states and their lists. Want of memory is also answered where there would
    /// be 2^32 edges or states.
    pub fn derive(
        alloc: Global,
        env: &Env,
        compressed: &Compressed,
        patterns: &Patterns,
    ) -> Result<Edges, AllocError>
        requires compressed { IsCompression env.now compressed.now }
        requires patterns { (goal : ℕ) × ArePatterns compressed.now goal env.now.depth patterns.now }
        ensures edges { IfOk result (λ edges. AreEdges env.now compressed.now patterns.now edges) }
        ensures small { IfOk result (λ edges. length edges < 4294967296) }
    {
        let _ = env.parts();
        let count = patterns.states().len();
        if count > 4294967295 {
            return Err(AllocError);
        }
        let mut scratch = Scratch {
            sources: Vec::new(alloc),
            tails: Vec::new(alloc),
        };
        let mut table = Table::new(alloc);
        let mut starts = Vec::new(alloc);
        starts.push(0)?;
        for i in 0..count {
            add_state(
                env,
                compressed,
                patterns,
                i as u32,
                &mut scratch,
                &mut table,
            )?;
            starts.push(end_of(&table)?)?;
        }
        Ok(Edges { table, starts })
    }

    /// How many edges there are; the numbers of edges are those below.
    pub fn len(&self) -> u32
        ensures value { result ≡ length self.now }
    {
        self.table.len() as u32
    }

    /// The numbers of the edges of a state, none where there is no such state.
    pub fn of_state(&self, state: u32) -> Range<u32>
        ensures run { IsRunOf state self.now result.start result.end }
    {
        let place = state as usize;
        match (self.starts.get(place), self.starts.get(place + 1)) {
            (Some(start), Some(end)) => *start..*end,
            _ => 0..0,
        }
    }

    /// The state at which the term of an edge is built.
    pub fn state(&self, edge: u32) -> u32
        requires in_range { edge < length self.now }
        ensures value { (e : Edge) → slice_get self.now edge ≡ Some e → result ≡ e.state }
    {
        self.table.head(edge).state
    }

    /// The declaration or pair at the head of an edge's term, none for the variables of the state. The pairs are
    /// numbered after the declarations.
    pub fn source(&self, edge: u32) -> Option<u32>
        requires in_range { edge < length self.now }
        ensures value { (e : Edge) → slice_get self.now edge ≡ Some e → result ≡ e.source }
    {
        self.table.head(edge).source
    }

    /// What an edge weighs without the terms at its tails: the head with its binders, or the coercion.
    pub fn weight(&self, edge: u32) -> u32
        requires in_range { edge < length self.now }
        ensures value { (e : Edge) → slice_get self.now edge ≡ Some e → result ≡ e.weight }
    {
        self.table.head(edge).weight
    }

    /// The states in which the wants of an edge's head are sought, in their order; a state stands as often as it
    /// is wanted.
    pub fn tails(&self, edge: u32) -> &[u32]
        requires in_range { edge < length self.now }
        ensures value { (e : Edge) → slice_get self.now edge ≡ Some e → result.now ≡ e.tails }
    {
        self.table.tails(edge)
    }
}
