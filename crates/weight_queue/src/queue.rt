// The queue itself: std's heap of keyed items, and the count of what was taken out.

ghost use Rattle.std.specs.Prelude.{◌≡◌, ◌<◌, ◌≤◌, ◌+◌, ◌∷◌, [], length, All, IfSome, IfNone, OnOk, OnErr, IsPermutation};
ghost use Rattle.weight_queue.specs.Queued.{Queued, one_more_pop};

use crate::keyed::Keyed;
use std::alloc::{AllocError, Global};
use std::collections::BinaryHeap;
use std::marker::Model;

/// Items under keys of 32 bits, of which the least key is given first; which of several items of one key
/// comes first is left open. The queue owns its items and drops those that it holds at its end.
#[derive(Drop)]
pub struct WeightQueue<T> {
    heap: BinaryHeap<Keyed<T>>,
    pops: u64,
}

impl<T> Model for WeightQueue<T> {
    ghost use Rattle.std.specs.Prelude.{map, ◌-◌};
    ghost use Rattle.std.specs.BinaryHeap.{IsHeap, heap_items, heap_len, heap_capacity};
    ghost use Rattle.std.specs.Ordering.{nat_cmp, on, flip_args};
    ghost use Rattle.weight_queue.specs.Queued.{Queued};

    ghost Value = { Queued T };

    ghost view = { λ q. record { items = map (λ k. (k.key, k.item)) (heap_items q.heap); spare = heap_capacity q.heap - heap_len q.heap; pops = q.pops } };

    ghost invariant = { λ q. IsHeap (flip_args (on (λ k. k.key) nat_cmp)) (heap_items q.heap) };
}

impl<T: Drop> WeightQueue<T> {
    /// An empty queue. Its later growth takes memory from `alloc`; this call takes none.
    pub fn new(alloc: Global) -> WeightQueue<T>
        ensures empty { result.items ≡ [] }
        ensures no_pops { result.pops ≡ 0 }
    {
        WeightQueue {
            heap: BinaryHeap::new(alloc),
            pops: 0,
        }
    }

    /// How many items are held.
    pub fn len(&self) -> usize
        ensures held { result ≡ length self.now.items }
    {
        self.heap.len()
    }

    /// How many items were ever given by `pop`; a count of 2^64 - 1 stands for that many or more.
    pub fn pops(&self) -> u64
        ensures count { result ≡ self.now.pops }
    {
        self.pops
    }

    /// Makes room for `n` items beside those that are held. An error means that memory was wanting: the items
    /// are then as before, and the room is no less.
    pub fn reserve(&mut self, n: usize) -> Result<(), AllocError>
        ensures items { self.new.items ≡ self.old.items }
        ensures pops { self.new.pops ≡ self.old.pops }
        ensures room { OnOk result (n ≤ self.new.spare) }
        ensures no_room_lost { self.old.spare ≤ self.new.spare }
    {
        self.heap.reserve(n)
    }

    /// Adds an item in room that was reserved, so without taking memory, in time by the logarithm of `len`.
    pub fn push(&mut self, key: u32, item: T)
        requires has_room { 0 < self.old.spare }
        ensures added { IsPermutation ((key, item) ∷ self.old.items) self.new.items }
        ensures one_place_taken { self.old.spare ≤ self.new.spare + 1 }
        ensures pops { self.new.pops ≡ self.old.pops }
    {
        let _ = self.heap.push(Keyed { key, item });
    }

    /// Takes an item of a least key out, with its key. Takes no memory, in time by the logarithm of `len`.
    pub fn pop(&mut self) -> Option<(u32, T)>
        ensures taken { IfSome result (λ p. IsPermutation self.old.items (p ∷ self.new.items)) }
        ensures least { IfSome result (λ p. All (λ q. p.0 ≤ q.0) self.new.items) }
        ensures one_place_freed { IfSome result (λ p. self.new.spare ≡ self.old.spare + 1) }
        ensures counted { IfSome result (λ p. self.new.pops ≡ one_more_pop self.old.pops) }
        ensures empty { IfNone result (self.old.items ≡ []) }
        ensures unchanged { IfNone result (self.new ≡ self.old) }
    {
        match self.heap.pop() {
            Some(Keyed { key, item }) => {
                self.pops = self.pops.saturating_add(1);
                Some((key, item))
            }
            None => None,
        }
    }
}
