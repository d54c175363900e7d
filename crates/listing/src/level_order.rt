ghost use Rattle.std.specs.Prelude.{◌≡◌, OnOk, IsSorted, IsPermutation};
ghost use Rattle.listing.specs.Found.{keyed_cmp};

use crate::item::Keyed;
use std::alloc::AllocError;
use std::cmp::Ordering;

/// Which of two terms of one level comes first: by text, then by prefix code.
fn compare(a: &Keyed, b: &Keyed) -> Ordering
    ensures { result ≡ keyed_cmp a.now b.now }
{
    match a.item.text.compare(&b.item.text) {
        Ordering::Less => Ordering::Less,
        Ordering::Equal => a.code.as_slice().cmp(b.code.as_slice()),
        Ordering::Greater => Ordering::Greater,
    }
}

/// Puts a level into order. After want of memory the same terms stand there, in some order.
pub fn put_in_order(level: &mut Vec<Keyed>) -> Result<(), AllocError>
    ensures same { IsPermutation level.old.items level.new.items }
    ensures sorted { OnOk result (IsSorted keyed_cmp level.new.items) }
{
    level.sort_by(|a, b| compare(a, b))?;
    Ok(())
}
