ghost use Rattle.std.specs.Prelude.{◌≡◌, ◌<◌, [], length, map, string_bytes, Some, slice_get};
ghost use Rattle.std.specs.Option.{option_map, unwrap_or};
ghost use Rattle.usage_counts.specs.Counts.{number_at, numbers_in, KeysRise};

use std::alloc::Global;
use std::collections::BTreeMap;
use std::collections::btree_map::Iter;
use std::marker::Model;

/// How often each key is used, with the keys in byte order.
pub type Uses = BTreeMap<String, u32>;

/// How often each field, method and constructor is used, by its key `owner.name:descriptor`. Each key that is
/// there is used at least once. Memory grows with the keys.
#[derive(Drop)]
pub struct Counts {
    pub(crate) uses: Uses,
}

impl Model for Counts {
    ghost use Rattle.usage_counts.specs.Counts.{Numbers, numbers_in, AreUsed};

    ghost Value = { Numbers };

    ghost view = { λ c. numbers_in c.uses };

    ghost invariant = { λ c. AreUsed c.uses.entries };
}

/// An entry by its number.
fn entry_at(uses: &Uses, i: usize) -> Option<(&String, &u32)>
    ensures is { option_map (λ p. (p.0.now, p.1.now)) result ≡ slice_get uses.now.entries i }
    ensures rising { KeysRise (numbers_in uses.now) }
{
    uses.iter().nth(i)
}

impl Counts {
    /// No key has a use. Takes no memory.
    pub fn new(alloc: Global) -> Counts
        ensures empty { result ≡ [] }
    {
        Counts {
            uses: BTreeMap::new(alloc),
        }
    }

    /// How often a key is used, at most 4,294,967,295; 0 where it isn't there.
    pub fn of(&self, key: &str) -> u32
        ensures number { result ≡ unwrap_or (number_at self.now key.now) 0 }
    {
        self.uses.get(key).copied().unwrap_or(0)
    }

    /// The number of keys that are used.
    pub fn len(&self) -> usize
        ensures keys { result ≡ length self.now }
        ensures rising { KeysRise self.now }
    {
        self.uses.len()
    }

    /// A key by its number in rising byte order, counted from 0, with the number of its uses. The time that it
    /// takes grows with `i`; `iter` gives all keys in order in the time of one pass.
    pub fn at(&self, i: usize) -> (&str, u32)
        requires inside { i < length self.now }
        ensures is { slice_get self.now i ≡ Some (result.0.now, result.1) }
        ensures rising { KeysRise self.now }
    {
        match entry_at(&self.uses, i) {
            Some((key, number)) => (key.as_str(), *number),
            None => ("", 0),
        }
    }

    /// The keys in rising byte order, each with the number of its uses.
    pub fn iter(&self) -> Iter<'_, String, u32>
        ensures entries { map (λ e. (string_bytes e.0, e.1)) result ≡ self.now }
        ensures rising { KeysRise self.now }
    {
        self.uses.iter()
    }
}
