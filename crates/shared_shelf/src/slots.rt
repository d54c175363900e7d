ghost use Rattle.std.specs.Prelude.{◌≡◌, ◌≤◌, ◌<◌, ◌==◌, [], length, true, false, Some, None, IfOk, OnErr, IfSome, OnOk, is_some, position};
ghost use Rattle.shared_shelf.specs.Shelves.{has, added};

use std::alloc::{AllocError, Global};
use std::marker::Model;
use std::sync::{Arc, Mutex};

/// A value that is shared, and the fresh one where it wasn't taken.
#[derive(Drop)]
pub struct Shared<V: Drop> {
    pub slot: Arc<Mutex<V>, Global>,
    pub fresh: Option<V>,
}

/// Values under fingerprints, each once. They own their part of each value; a value that is dropped here stays
/// with those who share it.
#[derive(Drop)]
pub struct Slots<V: Drop> {
    capacity: usize,
    prints: Vec<u64>,
    slots: Vec<Arc<Mutex<V>, Global>>,
}

impl<V: Drop> Model for Slots<V> {
    ghost use Rattle.std.specs.Prelude.{◌≡◌, ◌≤◌, length};
    ghost use Rattle.shared_shelf.specs.declared.kept.Kept.{Kept};

    ghost Value = { Kept };

    ghost view = { λ s. record { capacity = s.capacity; prints = s.prints.items } };

    ghost invariant = { λ s. (1 ≤ s.capacity) × (length s.prints.items ≤ s.capacity) × (length s.slots.items ≡ length s.prints.items) };
}

/// The place of a fingerprint, where it is there.
fn place_of(prints: &[u64], print: u64) -> Option<usize>
    ensures within { IfSome result (λ i. i < length prints.now) }
    ensures first { result ≡ position (λ p. p == print) prints.now }
{
    prints.iter().position(|p| *p == print)
}

impl<V: Drop> Slots<V> {
    /// No values yet; at most `capacity` of them are kept.
    pub fn new(alloc: Global, capacity: u32) -> Slots<V>
        requires some { 1 ≤ capacity }
        ensures empty { result ≡ record { capacity = capacity; prints = [] } }
    {
        Slots {
            capacity: capacity as usize,
            prints: Vec::new(alloc),
            slots: Vec::new(alloc),
        }
    }

    /// The value kept under the fingerprint.
    pub fn find(&self, print: u64) -> Result<Option<Arc<Mutex<V>, Global>>, AllocError>
        ensures found { IfOk result (λ found. is_some found ≡ has self.now print) }
    {
        match place_of(&self.prints, print) {
            Some(place) => Ok(Some(Arc::try_clone(&self.slots[place])?)),
            None => Ok(None),
        }
    }

    /// The value kept under the fingerprint, and `fresh` is handed back; or `fresh`, which is kept from there on,
    /// and the oldest value is dropped where there would be more than the capacity.
    pub fn share(&mut self, alloc: Global, print: u64, fresh: V) -> Result<Shared<V>, AllocError>
        ensures kept { IfOk result (λ shared. has self.old print ≡ true → (self.new ≡ self.old) × (shared.fresh ≡ Some fresh)) }
        ensures added { IfOk result (λ shared. has self.old print ≡ false → (self.new ≡ added self.old print) × (shared.fresh ≡ None)) }
        ensures unchanged { OnErr result (self.new ≡ self.old) }
    {
        match place_of(&self.prints, print) {
            Some(place) => Ok(Shared {
                slot: Arc::try_clone(&self.slots[place])?,
                fresh: Some(fresh),
            }),
            None => {
                let slot = Arc::new(alloc, Mutex::new(fresh)).map_err(|_| AllocError)?;
                let kept = Arc::try_clone(&slot)?;
                self.add(print, kept)?;
                Ok(Shared { slot, fresh: None })
            }
        }
    }

    /// Keeps one value more.
    fn add(&mut self, print: u64, slot: Arc<Mutex<V>, Global>) -> Result<(), AllocError>
        requires new { has self.old print ≡ false }
        ensures added { OnOk result (self.new ≡ added self.old print) }
        ensures unchanged { OnErr result (self.new ≡ self.old) }
    {
        if self.prints.push(print).is_err() {
            return Err(AllocError);
        }
        if self.slots.push(slot).is_err() {
            self.prints.pop();
            return Err(AllocError);
        }
        if self.prints.len() > self.capacity {
            self.prints.remove(0);
            let _oldest = self.slots.remove(0);
        }
        Ok(())
    }
}
