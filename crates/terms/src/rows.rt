ghost use Rattle.std.specs.Prelude.{◌≡◌, ◌<◌, ◌^◌, ℕ, length};
ghost use Rattle.std.specs.List.Sorted.{IsNonDecreasing};
ghost use Rattle.terms.specs.Table.{has, row_at};

use crate::above;
use lists::Items;
use std::marker::Model;

/// The table of a valid number of types: for each the types that it is strictly below, in rising order.
#[derive(Drop)]
pub(crate) struct Rows<'a> {
    rows: &'a [Items<u32>],
}

impl<'a> Model for Rows<'a> {
    ghost use Rattle.std.specs.Prelude.{ℕ, List, ◌<◌, ◌^◌, length};
    ghost use Rattle.std.specs.List.Sorted.{IsNonDecreasing};
    ghost use Rattle.terms.specs.Table.{row_at};

    ghost Value = { List (List ℕ) };

    ghost view = { λ r. r.rows.now };

    ghost invariant = { λ r. (length r.rows.now < 2 ^ 32) × ((a : ℕ) → IsNonDecreasing (row_at r.rows.now a)) };
}

impl<'a> Rows<'a> {
    /// These rows.
    pub(crate) fn of(rows: &'a [Items<u32>]) -> Rows<'a>
        requires few { length rows.now < 2 ^ 32 }
        requires rising { (a : ℕ) → IsNonDecreasing (row_at rows.now a) }
        ensures { result ≡ rows.now }
    {
        Rows { rows }
    }

    /// How many types there are.
    pub(crate) fn types(&self) -> u32
        ensures { result ≡ length self.now }
    {
        self.rows.len() as u32
    }

    /// The row of a type, empty past the end.
    pub(crate) fn row(&self, lower: u32) -> &'a [u32]
        ensures row { result.now ≡ row_at self.now lower }
        ensures few { length self.now < 2 ^ 32 }
    {
        above::row_at(self.rows, lower)
    }

    /// Whether the table has the pair, by binary search in the row of the lower side.
    pub(crate) fn is_pair(&self, lower: u32, upper: u32) -> bool
        ensures { result ≡ has upper (row_at self.now lower) }
    {
        above::is_pair(self.rows, lower, upper)
    }
}
