// Numbers for values, in the order in which they are first met.

ghost use Rattle.std.specs.Prelude.{◌≡◌, ◌<◌, ◌≤◌, ℕ, true, length, slice_get, Some, IfOk, OnErr};
ghost use Rattle.succinct.specs.Numbering.{IsGrown};

use indexmap::IndexSet;
use std::alloc::AllocError;
use std::hash::Hash;

/// The number of a value, which is put at the end where it is new. Want of memory is also answered where
/// the number would be 2^32 or more; the table is then as it was.
pub fn number_of<K: Eq + Hash + Drop>(table: &mut IndexSet<K>, key: K) -> Result<u32, AllocError>
    ensures stands { IfOk result (λ i. (k : K) × (slice_get table.new.keys i ≡ Some k) × (K.eq key k ≡ true)) }
    ensures grown { IsGrown table.old.keys table.new.keys }
    ensures one_more { IfOk result (λ i. (j : ℕ) → length table.old.keys ≤ j → j < length table.new.keys → j ≡ i) }
    ensures same { OnErr result (table.new.keys ≡ table.old.keys) }
{
    if table.len() > 4294967295 && !table.contains(&key) {
        return Err(AllocError);
    }
    let (index, _) = match table.insert_full(key) {
        Ok(found) => found,
        Err(_) => return Err(AllocError),
    };
    if index < 4294967296 {
        return Ok(index as u32);
    }
    Err(AllocError)
}
