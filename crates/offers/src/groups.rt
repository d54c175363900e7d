ghost use Rattle.std.specs.Prelude.{◌≡◌, ◌++◌, ◌∷◌, [], ◌<◌, ◌%◌, List, ℕ, length, map, slice_set, slice_index_or, IfOk, OnOk};
ghost use Rattle.offers.specs.Grouping.{AreGroups, row_in};

use std::alloc::{AllocError, Global};
use std::marker::Model;

/// Places in groups by numbers: those of one number are in one. Contracts see the groups.
#[derive(Drop)]
pub(crate) struct Groups {
    rows: Vec<Vec<usize>>,
}

impl Model for Groups {
    ghost use Rattle.std.specs.Prelude.{List, ℕ, ◌<◌, length, map};

    ghost Value = { List (List ℕ) };

    ghost view = { λ g. map (λ r. r.items) g.rows.items };

    ghost invariant = { λ g. 0 < length g.rows.items };
}

/// The row of a number among so many.
fn place_in(hash: u64, count: usize) -> usize
    requires { 0 < count }
    ensures value { result ≡ hash % count }
    ensures within { result < count }
{
    (hash % count as u64) as usize
}

/// One place more at the end of a row.
fn add_place(rows: &mut Vec<Vec<usize>>, at: usize, place: usize) -> Result<(), AllocError>
    requires { at < length rows.old.items }
    ensures { OnOk result (map (λ r. r.items) rows.new.items ≡ slice_set (map (λ r. r.items) rows.old.items) at (slice_index_or (map (λ r. r.items) rows.old.items) at [] ++ place ∷ [])) }
{
    rows[at].push(place)?;
    Ok(())
}

impl Groups {
    /// No place, and room for about so many.
    pub fn new(alloc: Global, count: usize) -> Result<Groups, AllocError>
        ensures { IfOk result (λ groups. AreGroups [] groups) }
    {
        let mut rows = Vec::new(alloc);
        rows.push(Vec::new(alloc))?;
        for _row in 0..count {
            rows.push(Vec::new(alloc))?;
        }
        Ok(Groups { rows })
    }

    /// With a place more, of this number.
    pub fn with(self, hash: u64, place: usize) -> Result<Groups, AllocError>
        ensures { IfOk result (λ groups. (hashes : List ℕ) → AreGroups hashes self → length hashes ≡ place → AreGroups (hashes ++ hash ∷ []) groups) }
    {
        let Groups { mut rows } = self;
        let at = place_in(hash, rows.len());
        add_place(&mut rows, at, place)?;
        Ok(Groups { rows })
    }

    /// The places of a number, and maybe others.
    pub fn row(&self, hash: u64) -> &[usize]
        ensures { result.now ≡ row_in self.now hash }
    {
        self.rows[place_in(hash, self.rows.len())].as_slice()
    }
}
