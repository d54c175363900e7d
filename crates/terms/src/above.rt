ghost use Rattle.std.specs.Prelude.{◌≡◌, ◌≢◌, ◌<◌, ◌^◌, ◌++◌, ◌∷◌, [], ℕ, List, map, length, get_or, IfOk, OnOk, IfErr, Some, None};
ghost use Rattle.std.specs.BTreeSet.{keys};
ghost use Rattle.std.specs.List.Sorted.{IsNonDecreasing};
ghost use Rattle.terms.specs.Faults.{pair_fault, pairs_fault};
ghost use Rattle.terms.specs.Table.{has, row_at, IsTable, gap_between, gap_from, first_gap};
ghost use Rattle.terms.specs.Closed.{AreClosed};
ghost use Rattle.terms.specs.declared.fault.EnvFault.TheVariants.{OutOfMemory};

use crate::fault::EnvFault;
use crate::marks::is_told;
use crate::rows::Rows;
use lists::Items;
use std::alloc::{AllocError, Global};
use std::collections::BTreeSet;

/// The table of the pairs, or the first pair that is at fault.
pub(crate) fn table_of(
    alloc: Global,
    types: usize,
    pairs: &[(u32, u32)],
) -> Result<Items<Items<u32>>, EnvFault>
    requires few { length pairs.now < 2 ^ 32 }
    ensures table { IfOk result (λ rows. IsTable pairs.now rows) }
    ensures len { IfOk result (λ rows. length rows ≡ types) }
    ensures sound { OnOk result (pairs_fault types 0 [] pairs.now ≡ None) }
    ensures first_fault { IfErr result (λ fault. fault ≢ OutOfMemory → pairs_fault types 0 [] pairs.now ≡ Some fault) }
{
    let sets = sets_of(alloc, types, pairs)?;
    Ok(rows_of(alloc, sets.as_slice())?)
}

/// For each type the set of the types that it is below.
fn sets_of(
    alloc: Global,
    types: usize,
    pairs: &[(u32, u32)],
) -> Result<Vec<BTreeSet<u32>>, EnvFault>
    requires few { length pairs.now < 2 ^ 32 }
    ensures table { IfOk result (λ sets. IsTable pairs.now (map keys sets.items)) }
    ensures len { IfOk result (λ sets. length sets.items ≡ types) }
    ensures sound { OnOk result (pairs_fault types 0 [] pairs.now ≡ None) }
    ensures first_fault { IfErr result (λ fault. fault ≢ OutOfMemory → pairs_fault types 0 [] pairs.now ≡ Some fault) }
{
    let mut sets = empty_sets(alloc, types)?;
    for i in 0..pairs.len() {
        match add_pair(&mut sets, i as u32, pairs[i]) {
            Ok(()) => {}
            Err(fault) => return Err(fault),
        }
    }
    Ok(sets)
}

/// So many empty sets.
fn empty_sets(alloc: Global, types: usize) -> Result<Vec<BTreeSet<u32>>, AllocError>
    ensures table { IfOk result (λ sets. IsTable [] (map keys sets.items)) }
    ensures len { IfOk result (λ sets. length sets.items ≡ types) }
{
    let mut sets = Vec::new(alloc);
    for _ in 0..types {
        sets.push(BTreeSet::new(alloc))?;
    }
    Ok(sets)
}

/// Adds the pair with this place to the sets of the earlier ones.
fn add_pair(sets: &mut Vec<BTreeSet<u32>>, place: u32, pair: (u32, u32)) -> Result<(), EnvFault>
    ensures added { OnOk result ((earlier : List (ℕ × ℕ)) → IsTable earlier (map keys sets.old.items) → IsTable (earlier ++ pair ∷ []) (map keys sets.new.items)) }
    ensures len { length sets.new.items ≡ length sets.old.items }
    ensures sound { OnOk result ((earlier : List (ℕ × ℕ)) → IsTable earlier (map keys sets.old.items) → pair_fault (length sets.old.items) place earlier pair ≡ None) }
    ensures fault { IfErr result (λ fault. fault ≢ OutOfMemory → (earlier : List (ℕ × ℕ)) → IsTable earlier (map keys sets.old.items) → pair_fault (length sets.old.items) place earlier pair ≡ Some fault) }
{
    let types = sets.as_slice().len();
    if pair.0 as usize >= types {
        return Err(EnvFault::PairRange(place));
    }
    if pair.1 as usize >= types {
        return Err(EnvFault::PairRange(place));
    }
    if pair.0 == pair.1 {
        return Err(EnvFault::PairRange(place));
    }
    match sets[pair.0 as usize].insert(pair.1) {
        Ok(true) => Ok(()),
        Ok(false) => Err(EnvFault::PairTwice(place)),
        Err(_) => Err(EnvFault::OutOfMemory),
    }
}

/// The sets as rows.
fn rows_of(alloc: Global, sets: &[BTreeSet<u32>]) -> Result<Items<Items<u32>>, AllocError>
    ensures { IfOk result (λ rows. rows ≡ map keys sets.now) }
{
    let mut rows = Items::new(alloc);
    for set in sets {
        rows.push(row_of(alloc, set)?)?;
    }
    Ok(rows)
}

/// A set as a row, in its order.
fn row_of(alloc: Global, set: &BTreeSet<u32>) -> Result<Items<u32>, AllocError>
    ensures { IfOk result (λ row. row ≡ keys set.now) }
{
    let mut row = Items::new(alloc);
    for upper in set {
        row.push(*upper)?;
    }
    Ok(row)
}

/// An equal table in memory of its own.
pub(crate) fn copy_rows(
    alloc: Global,
    rows: &Items<Items<u32>>,
) -> Result<Items<Items<u32>>, AllocError>
    ensures equal { IfOk result (λ copies. copies ≡ rows.now) }
{
    let mut copies = Items::new(alloc);
    for row in rows.as_slice() {
        copies.push(Items::from_slice(alloc, row.as_slice())?)?;
    }
    Ok(copies)
}

/// Whether the table has the pair, by binary search in the row of the lower side.
pub(crate) fn is_pair(rows: &[Items<u32>], lower: u32, upper: u32) -> bool
    requires rising { (a : ℕ) → IsNonDecreasing (row_at rows.now a) }
    ensures { result ≡ has upper (row_at rows.now lower) }
{
    is_in_row(row_at(rows, lower), upper)
}

/// The row of a type, empty past the end.
pub(crate) fn row_at(rows: &[Items<u32>], lower: u32) -> &[u32]
    ensures { result.now ≡ row_at rows.now lower }
{
    match rows.get(lower as usize) {
        Some(row) => row.as_slice(),
        None => &[],
    }
}

/// Whether the number stands in the row.
fn is_in_row(row: &[u32], upper: u32) -> bool
    requires { IsNonDecreasing row.now }
    ensures { result ≡ has upper row.now }
{
    row.binary_search(&upper).is_ok()
}

/// The first gap of the table: the least triple whose first side is below the second and that below the
/// third, but not the first below the third. Types that are told to have none above them are passed over.
#[tactic(auto, unfolding(crate::specs::Table::first_gap))]
pub(crate) fn first_gap(rows: &Rows<'_>, closed: &[bool]) -> Option<EnvFault>
    requires closed { AreClosed rows.now closed.now }
    ensures { result ≡ first_gap rows.now }
{
    for lower in 0..rows.types() {
        let fault = gap_above(rows, closed, lower);
        if fault.is_some() {
            return fault;
        }
    }
    None
}

/// The first gap above a type.
fn gap_above(rows: &Rows<'_>, closed: &[bool], lower: u32) -> Option<EnvFault>
    requires closed { AreClosed rows.now closed.now }
    ensures { result ≡ gap_from rows.now lower (row_at rows.now lower) }
{
    if is_told(closed, lower) {
        return None;
    }
    gap_from(rows, lower, rows.row(lower))
}

/// The first gap above a type through one of the row.
#[tactic(auto, unfolding(crate::specs::Table::gap_from, crate::specs::Table::first_in))]
fn gap_from(rows: &Rows<'_>, lower: u32, row: &[u32]) -> Option<EnvFault>
    ensures { result ≡ gap_from rows.now lower row.now }
{
    for middle in row {
        let fault = gap_between(rows, lower, *middle, rows.row(*middle));
        if fault.is_some() {
            return fault;
        }
    }
    None
}

/// The first type of the row that the lower one isn't below.
#[tactic(auto, unfolding(crate::specs::Table::gap_between, crate::specs::Table::first_in))]
fn gap_between(rows: &Rows<'_>, lower: u32, middle: u32, row: &[u32]) -> Option<EnvFault>
    ensures { result ≡ gap_between rows.now lower middle row.now }
{
    for upper in row {
        if !rows.is_pair(lower, *upper) {
            return Some(EnvFault::NotTransitive(lower, middle, *upper));
        }
    }
    None
}
