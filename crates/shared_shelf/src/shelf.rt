ghost use Rattle.std.specs.Prelude.{◌≡◌, ◌≤◌, IfOk, IfSome};

use crate::slots::{Shared, Slots};
use std::alloc::{AllocError, Global};
use std::sync::{Arc, Mutex, Wait};

/// Slots behind a lock, which is held only while one call looks or adds.
#[derive(Drop)]
pub struct SharedShelf<V: Drop> {
    slots: Mutex<Slots<V>>,
}

impl<V: Drop> SharedShelf<V> {
    /// No values yet; at most `capacity` of them are kept.
    pub fn new(alloc: Global, capacity: u32) -> SharedShelf<V>
        requires some { 1 ≤ capacity }
    {
        SharedShelf {
            slots: Mutex::new(Slots::new(alloc, capacity)),
        }
    }

    /// The value kept under the fingerprint; it may wait for the lock.
    pub fn find<R: Wait>(
        &self,
        rt: &R,
        print: u64,
    ) -> Result<Option<Arc<Mutex<V>, Global>>, AllocError> {
        self.slots.lock(rt).find(print)
    }

    /// The value kept under the fingerprint, or `fresh`, as `Slots::share`; it may wait for the lock. A fresh
    /// value that is handed back is the caller's.
    pub fn share<R: Wait>(
        &self,
        rt: &R,
        alloc: Global,
        print: u64,
        fresh: V,
    ) -> Result<Shared<V>, AllocError>
        ensures handed_back { IfOk result (λ shared. IfSome shared.fresh (λ value. value ≡ fresh)) }
    {
        self.slots.lock(rt).share(alloc, print, fresh)
    }
}
