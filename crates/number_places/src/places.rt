// The places of each number of a list.

ghost use Rattle.std.specs.Prelude.{◌≡◌, ◌<◌, ◌++◌, ◌∷◌, [], ℕ, List, map, length, slice_get, slice_index_or, slice_set, Some, IfOk, OnOk};
ghost use Rattle.number_places.specs.Places.{places_of};

use std::alloc::{AllocError, Global};

/// How often each number below `count` stands in a list.
fn counts_of(alloc: Global, count: usize, numbers: &[u32]) -> Result<Vec<usize>, AllocError> {
    let mut counts = vec![in alloc; 0usize; count]?;
    for number in numbers {
        match counts.get_mut(*number as usize) {
            Some(seen) => *seen = seen.wrapping_add(1),
            None => {}
        }
    }
    Ok(counts)
}

/// The count at a place, 0 where there is none.
fn count_at(counts: &[usize], place: usize) -> usize {
    match counts.get(place) {
        Some(count) => *count,
        None => 0,
    }
}

/// As many empty lists, each with room for what is counted.
fn no_places(alloc: Global, count: usize, counts: &[usize]) -> Result<Vec<Vec<u32>>, AllocError>
    ensures as_many { IfOk result (λ lists. length lists.items ≡ count) }
    ensures empty { IfOk result (λ lists. (k : ℕ) → k < count → slice_get (map (λ l. l.items) lists.items) k ≡ Some []) }
{
    let mut lists = Vec::new(alloc);
    for i in 0..count {
        lists.push(Vec::with_capacity(alloc, count_at(counts, i))?)?;
    }
    Ok(lists)
}

/// One place more at the end of one list.
fn add_place(lists: &mut Vec<Vec<u32>>, number: u32, place: u32) -> Result<(), AllocError>
    requires in_range { number < length lists.old.items }
    ensures added { OnOk result (map (λ l. l.items) lists.new.items ≡ slice_set (map (λ l. l.items) lists.old.items) number (slice_index_or (map (λ l. l.items) lists.old.items) number [] ++ place ∷ [])) }
{
    lists[number as usize].push(place)?;
    Ok(())
}

/// For each number below `count` the places at which it stands, rising. Want of memory is also answered
/// where there are 2^32 numbers or more.
pub fn places_by_number(
    alloc: Global,
    count: usize,
    numbers: &[u32],
) -> Result<Vec<Vec<u32>>, AllocError>
    requires in_range { (i k : ℕ) → slice_get numbers.now i ≡ Some k → k < count }
    ensures as_many { IfOk result (λ lists. length lists.items ≡ count) }
    ensures each { IfOk result (λ lists. (k : ℕ) → k < count → slice_get (map (λ l. l.items) lists.items) k ≡ Some (places_of k numbers.now)) }
{
    if numbers.len() > 4294967295 {
        return Err(AllocError);
    }
    let counts = counts_of(alloc, count, numbers)?;
    let mut lists = no_places(alloc, count, counts.as_slice())?;
    for i in 0..numbers.len() {
        add_place(&mut lists, numbers[i], i as u32)?;
    }
    Ok(lists)
}

/// The list of a number, or the empty one.
pub fn list_at(lists: &Vec<Vec<u32>>, number: usize) -> &[u32]
    ensures value { result.now ≡ slice_index_or (map (λ l. l.items) lists.now.items) number [] }
{
    match lists.get(number) {
        Some(list) => list.as_slice(),
        None => &[],
    }
}
