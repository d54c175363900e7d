// The compressed form of an environment.

ghost use Rattle.std.specs.Prelude.{◌≡◌, ◌<◌, [], length, slice_index_or, IfOk};
ghost use Rattle.succinct.specs.Compression.{Compression, IsCompression};

use crate::kind::Succinct;
use crate::need::Need;
use crate::rows::Rows;
use crate::tables::{Tables, tables_of};
use indexmap::IndexSet;
use lists::Items;
use number_places::places_by_number;
use std::alloc::{AllocError, Global};
use std::marker::Model;
use terms::Env;

/// The succinct types of an environment. It owns its tables and keeps nothing of the environment.
#[derive(Drop)]
pub struct Compressed {
    needs: IndexSet<Need>,
    kinds: IndexSet<Succinct>,
    kind_numbers: Items<u32>,
    selected: Vec<Vec<u32>>,
    wanted: Rows,
}

impl Model for Compressed {
    ghost use Rattle.std.specs.Prelude.{map};
    ghost use Rattle.succinct.specs.Compression.{Compression};

    ghost Value = { Compression };

    ghost view = { λ c. record { needs = c.needs.keys; kinds = c.kinds.keys; kind_numbers = c.kind_numbers; selected = map (λ l. l.items) c.selected.items; wanted = c.wanted } };
}

impl Compressed {
    /// Compresses an environment, in time about linear in its declarations, their arguments and its pairs.
    /// Want of memory is also answered where there would be 2^32 needs or kinds, or where the declarations
    /// and pairs are 2^32 or more.
    pub fn new(alloc: Global, env: &Env) -> Result<Compressed, AllocError>
        ensures compressed { IfOk result (λ c. IsCompression env.now c) }
        ensures small { IfOk result (λ c. (length c.needs < 4294967296) × (length c.kinds < 4294967296)) }
    {
        let Tables {
            needs,
            kinds,
            kind_numbers,
            wanted,
        } = tables_of(alloc, env.parts())?;
        if needs.len() > 4294967295 {
            return Err(AllocError);
        }
        let count = kinds.len();
        if count > 4294967295 {
            return Err(AllocError);
        }
        let selected = places_by_number(alloc, count, kind_numbers.as_slice())?;
        Ok(Compressed {
            needs,
            kinds,
            kind_numbers,
            selected,
            wanted,
        })
    }

    /// The needs, each once. A need's number is its place here.
    pub fn needs(&self) -> &[Need]
        ensures value { result.now ≡ self.now.needs }
    {
        self.needs.as_slice()
    }

    /// The kinds, each once. A kind's number is its place here.
    pub fn kinds(&self) -> &[Succinct]
        ensures value { result.now ≡ self.now.kinds }
    {
        self.kinds.as_slice()
    }

    /// The declarations and pairs of a kind, rising; the pairs are numbered after the declarations.
    pub fn select(&self, kind: u32) -> &[u32]
        requires in_range { kind < length self.now.kinds }
        ensures value { result.now ≡ slice_index_or self.now.selected kind [] }
    {
        match self.selected.get(kind as usize) {
            Some(list) => list.as_slice(),
            None => &[],
        }
    }

    /// The needs of a declaration or a pair by their numbers, in the order of its arguments; the pairs are
    /// numbered after the declarations. There are none where there is no such source.
    pub fn wanted(&self, source: u32) -> &[u32]
        ensures value { result.now ≡ slice_index_or self.now.wanted source [] }
    {
        self.wanted.row(source)
    }
}
