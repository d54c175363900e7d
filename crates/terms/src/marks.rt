ghost use Rattle.std.specs.Prelude.{◌≡◌, ◌⊎◌, ◌+◌, ◌<◌, ◌^◌, ◌==◌, ℕ, List, length, get_or, true, false, IsTrue, IfOk};
ghost use Rattle.std.specs.List.{list_all};
ghost use Rattle.terms.specs.Table.{has, row_at};
ghost use Rattle.terms.specs.Closed.{IsWithin, IsClosed, AreClosed, AreRight};

use crate::rows::Rows;
use std::alloc::{AllocError, Global};

/// What a walk over the types has found, for each type by its number. A mark is the number of a type and one.
#[derive(Drop)]
pub(crate) struct Marks {
    /// The type in whose row it stands.
    members: Vec<u32>,
    /// The type whose row holds all of its row.
    covered: Vec<u32>,
    /// Whether there is no gap above it.
    closed: Vec<bool>,
}

/// For each type whether it is known that there is no gap above it. Each type comes after those with shorter
/// rows, and what a type without gap has above it isn't looked through again, so that time is about linear in
/// the rows where few types stand side by side above one.
pub(crate) fn closed_types(alloc: Global, rows: &Rows<'_>) -> Result<Vec<bool>, AllocError>
    ensures { IfOk result (λ closed. AreClosed rows.now closed.items) }
{
    let order = by_length(alloc, rows)?;
    let mut marks = Marks::new(alloc, rows.types() as usize)?;
    for lower in order.as_slice() {
        marks.look_at(rows, *lower);
    }
    Ok(marks.into_closed())
}

/// The types, those with the shortest rows first. Only time hangs on it.
fn by_length(alloc: Global, rows: &Rows<'_>) -> Result<Vec<u32>, AllocError> {
    let mut order = Vec::new(alloc);
    for lower in 0..rows.types() {
        order.push(lower)?;
    }
    order.sort_unstable_by_key(|lower| rows.row(*lower).len());
    Ok(order)
}

/// The type of the row whose own row is longest. Only time hangs on it.
fn nearest(rows: &Rows<'_>, row: &[u32]) -> Option<u32> {
    row.iter()
        .copied()
        .max_by_key(|upper| rows.row(*upper).len())
}

/// The mark of a type, 0 past the end.
fn mark_at(marks: &[u32], place: u32) -> u32
    ensures { result ≡ get_or marks.now place 0 }
{
    marks.get(place as usize).copied().unwrap_or(0)
}

/// Whether a type is told to be closed, past the end not.
pub(crate) fn is_told(closed: &[bool], place: u32) -> bool
    ensures { result ≡ get_or closed.now place false }
{
    closed.get(place as usize).copied().unwrap_or(false)
}

/// Whether all of the row has this mark.
fn are_marked(marks: &[u32], row: &[u32], mark: u32) -> bool
    ensures { result ≡ list_all (λ c. get_or marks.now c 0 == mark) row.now }
{
    row.iter().all(|upper| mark_at(marks, *upper) == mark)
}

/// Gives a type this mark.
fn put_mark(marks: &mut Vec<u32>, place: u32, mark: u32)
    ensures { (x : ℕ) → (get_or marks.new.items x 0 ≡ get_or marks.old.items x 0) ⊎ ((place ≡ x) × (get_or marks.new.items x 0 ≡ mark)) }
{
    if (place as usize) < marks.len() {
        marks[place as usize] = mark;
    }
}

/// Gives all of the row this mark.
fn put_marks(marks: &mut Vec<u32>, row: &[u32], mark: u32)
    ensures { (x : ℕ) → (get_or marks.new.items x 0 ≡ get_or marks.old.items x 0) ⊎ ((has x row.now ≡ true) × (get_or marks.new.items x 0 ≡ mark)) }
{
    for upper in row {
        put_mark(marks, *upper, mark);
    }
}

impl Marks {
    /// No mark at so many types.
    fn new(alloc: Global, types: usize) -> Result<Marks, AllocError>
        ensures { IfOk result (λ marks. (rows : List (List ℕ)) → AreRight rows marks) }
    {
        Ok(Marks {
            members: vec![in alloc; 0; types]?,
            covered: vec![in alloc; 0; types]?,
            closed: vec![in alloc; false; types]?,
        })
    }

    /// Whether each type is closed.
    fn into_closed(self) -> Vec<bool>
        ensures { result ≡ self.closed }
    {
        self.closed
    }

    /// Finds out whether there is no gap above the type.
    fn look_at(&mut self, rows: &Rows<'_>, lower: u32)
        requires right { AreRight rows.now self.old }
        ensures right { AreRight rows.now self.new }
    {
        if lower >= rows.types() {
            return;
        }
        if self.is_closed(rows, lower) {
            self.tell(rows, lower);
        }
    }

    /// Whether there is no gap above the type. The nearest type above it is looked at first, since it often covers
    /// all others.
    fn is_closed(&mut self, rows: &Rows<'_>, lower: u32) -> bool
        requires low { lower < length rows.now }
        requires right { AreRight rows.now self.old }
        ensures right { AreRight rows.now self.new }
        ensures closed { IsTrue result → IsClosed rows.now lower }
    {
        self.put_members(rows, lower);
        self.look_at_nearest(rows, lower);
        for upper in rows.row(lower) {
            if !self.is_within(rows, lower, *upper) {
                return false;
            }
        }
        true
    }

    /// Marks what stands in the row of the type.
    fn put_members(&mut self, rows: &Rows<'_>, lower: u32)
        requires low { lower < length rows.now }
        requires right { AreRight rows.now self.old }
        ensures right { AreRight rows.now self.new }
    {
        put_marks(&mut self.members, rows.row(lower), lower + 1);
    }

    fn look_at_nearest(&mut self, rows: &Rows<'_>, lower: u32)
        requires low { lower < length rows.now }
        requires right { AreRight rows.now self.old }
        ensures right { AreRight rows.now self.new }
    {
        if let Some(upper) = nearest(rows, rows.row(lower)) {
            let _within = self.is_within(rows, lower, upper);
        }
    }

    /// Whether the row of the upper type is within that of the lower one, whose members are marked.
    fn is_within(&mut self, rows: &Rows<'_>, lower: u32, upper: u32) -> bool
        requires low { lower < length rows.now }
        requires right { AreRight rows.now self.old }
        ensures right { AreRight rows.now self.new }
        ensures within { IsTrue result → IsWithin rows.now upper lower }
    {
        let row = rows.row(upper);
        if mark_at(self.covered.as_slice(), upper) == lower + 1 {
            return true;
        }
        if !are_marked(self.members.as_slice(), row, lower + 1) {
            return false;
        }
        if is_told(self.closed.as_slice(), upper) {
            put_marks(&mut self.covered, row, lower + 1);
        }
        true
    }

    /// Tells that a type is closed.
    fn tell(&mut self, rows: &Rows<'_>, lower: u32)
        requires right { AreRight rows.now self.old }
        requires closed { IsClosed rows.now lower }
        ensures right { AreRight rows.now self.new }
    {
        if (lower as usize) < self.closed.len() {
            self.closed[lower as usize] = true;
        }
    }
}
