ghost use Rattle.std.specs.Prelude.{◌≡◌, IfOk};

use sqlite_items::Items;
use std::alloc::{AllocError, Global};

/// A value that can be copied into memory of its own.
pub trait Copies: Sized {
    /// An equal value.
    fn copy(&self, alloc: Global) -> Result<Self, AllocError>
        ensures equal { IfOk result (λ copy. copy ≡ self.now) };
}

/// A list of copies, in the same order.
pub fn copy_all<T: Copies + Drop>(alloc: Global, items: &Items<T>) -> Result<Items<T>, AllocError>
    ensures equal { IfOk result (λ copies. copies ≡ items.now) }
{
    let mut copies = Items::new(alloc);
    for item in items.as_slice() {
        copies.push(item.copy(alloc)?)?;
    }
    Ok(copies)
}

impl Copies for u32 {
    fn copy(&self, _alloc: Global) -> Result<u32, AllocError> {
        Ok(*self)
    }
}
