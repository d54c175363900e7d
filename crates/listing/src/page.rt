ghost use Rattle.std.specs.Prelude.{◌≡◌, ◌<◌, ◌≤◌, ◌+◌, ◌-◌, ◌^◌, ◌&&◌, nat_le, min};

/// A stretch of the list.
#[derive(Clone, Copy, Debug)]
pub struct Page {
    /// How many items of the list come before it.
    pub first: u64,
    /// How many items it holds.
    pub len: u64,
    /// Whether the list ends with it.
    pub last: bool,
    /// How many items were found for it, beyond those found before.
    pub grown: u64,
}

/// The page of at most `count` items from the item `from` on, where so many were found before and are now.
pub fn page_of(from: u64, count: u64, before: u64, found: u64, at_end: bool) -> Page
    requires longer { before ≤ found }
    requires small { from + count < 2 ^ 64 }
    ensures first { result.first ≡ min from found }
    ensures len { result.len ≡ min count (found - from) }
    ensures last { result.last ≡ at_end && nat_le found (from + count) }
    ensures grown { before + result.grown ≡ found }
{
    Page {
        first: from.min(found),
        len: count.min(found.saturating_sub(from)),
        last: at_end && found <= from + count,
        grown: found - before,
    }
}
