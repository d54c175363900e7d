// The partial terms that are still to be looked at.

ghost use Rattle.std.specs.Prelude.{◌≡◌, ◌≢◌, ◌+◌, ◌≤◌, ◌++◌, ℕ, [], None, length, OnOk, OnErr, IfNone, IfSome, IsPermutation};
ghost use Rattle.reconstruction.specs.Levelled.{IsLeastHeld, with_held};
ghost use Rattle.reconstruction.specs.Rebuilding.{HoldsKey};
ghost use Rattle.reconstruction.specs.Tallied.{capped, held_many};

use crate::item::Item;
use std::alloc::AllocError;
use std::marker::Model;
use weight_queue::WeightQueue;

/// The queue of a search, and the item that was popped last, until it is taken. No key of the queue is less than
/// that of the held item.
#[derive(Drop)]
pub struct Agenda {
    queue: WeightQueue<Item>,
    held: Option<(u32, Item)>,
}

impl Model for Agenda {
    ghost use Rattle.reconstruction.specs.Levelled.{IsLeastHeld};
    ghost use Rattle.reconstruction.specs.Pending.{Pending};

    ghost Value = { Pending };

    ghost view = { λ a. record { held = a.held; queue = a.queue.items; pops = a.queue.pops } };

    ghost invariant = { λ a. IsLeastHeld a.held a.queue.items };
}

/// Pops an item to hold, where none is held.
fn hold(queue: &mut WeightQueue<Item>, held: &mut Option<(u32, Item)>)
    requires least { IsLeastHeld held.old queue.old.items }
    ensures moved { IsPermutation (with_held held.old queue.old.items) (with_held held.new queue.new.items) }
    ensures least { IsLeastHeld held.new queue.new.items }
    ensures none { IfNone held.new (queue.new.items ≡ []) }
    ensures pops_rise { queue.old.pops ≤ queue.new.pops }
    ensures counted { (n : ℕ) → queue.old.pops ≡ capped (n + held_many held.old) → queue.new.pops ≡ capped (n + held_many held.new) }
{
    let _ = queue.pops();
    match held {
        Some(_) => {}
        None => *held = queue.pop(),
    }
}

/// Moves items that were made aside into the queue, all of them or none.
fn flush(queue: &mut WeightQueue<Item>, aside: &mut Vec<(u32, Item)>) -> Result<(), AllocError>
    ensures moved { OnOk result (IsPermutation (aside.old.items ++ queue.old.items) queue.new.items) }
    ensures same { OnErr result (queue.new.items ≡ queue.old.items) }
    ensures pops { queue.new.pops ≡ queue.old.pops }
{
    queue.reserve(aside.len())?;
    while let Some((key, item)) = aside.pop() {
        queue.push(key, item);
    }
    Ok(())
}

impl Agenda {
    /// The items of a queue, of which none is held.
    pub fn new(queue: WeightQueue<Item>) -> Agenda
        ensures fresh { result ≡ record { held = None; queue = queue.items; pops = queue.pops } }
    {
        Agenda { queue, held: None }
    }

    /// How many items the queue holds.
    pub fn queued(&self) -> usize
        ensures count { result ≡ length self.now.queue }
    {
        self.queue.len()
    }

    /// How often the queue popped.
    pub fn pops(&self) -> u64
        ensures count { result ≡ self.now.pops }
    {
        self.queue.pops()
    }

    /// The item of the least key, which is held from then on, or `None` where nothing is left.
    pub fn next(&mut self) -> Option<(u32, Item)>
        ensures held { self.new.held ≡ result }
        ensures moved { IsPermutation (with_held self.old.held self.old.queue) (with_held self.new.held self.new.queue) }
        ensures least { IsLeastHeld self.new.held self.new.queue }
        ensures none { IfNone self.new.held (self.new.queue ≡ []) }
        ensures pops_rise { self.old.pops ≤ self.new.pops }
        ensures counted { (n : ℕ) → self.old.pops ≡ capped (n + held_many self.old.held) → self.new.pops ≡ capped (n + held_many self.new.held) }
    {
        hold(&mut self.queue, &mut self.held);
        self.held
    }

    /// The weight of the level that is to be made: of the one that was begun, where fronts of it were found, else
    /// the key of the item that is held then. `None` where nothing is left.
    pub fn next_weight(&mut self, found: &[u32], level: u32) -> Option<u32>
        ensures moved { IsPermutation (with_held self.old.held self.old.queue) (with_held self.new.held self.new.queue) }
        ensures least { IsLeastHeld self.new.held self.new.queue }
        ensures going { IfSome result (λ k. found.now ≢ [] → k ≡ level) }
        ensures starting { IfSome result (λ k. found.now ≡ [] → HoldsKey k self.new.held) }
        ensures none { IfNone result ((found.now ≡ []) × (with_held self.new.held self.new.queue ≡ [])) }
        ensures pops_rise { self.old.pops ≤ self.new.pops }
        ensures counted { (n : ℕ) → self.old.pops ≡ capped (n + held_many self.old.held) → self.new.pops ≡ capped (n + held_many self.new.held) }
    {
        hold(&mut self.queue, &mut self.held);
        if !found.is_empty() {
            return Some(level);
        }
        match &self.held {
            Some((key, _)) => Some(*key),
            None => None,
        }
    }

    /// Takes the held item off.
    pub fn drop_held(&mut self)
        ensures taken { self.new ≡ record { held = None; queue = self.old.queue; pops = self.old.pops } }
    {
        self.held = None;
    }

    /// Puts items into the queue in the place of the one that is held, all of them or none.
    pub fn replace_held(&mut self, items: &mut Vec<(u32, Item)>) -> Result<(), AllocError>
        ensures moved { OnOk result (IsPermutation (items.old.items ++ self.old.queue) self.new.queue) }
        ensures taken { OnOk result (self.new.held ≡ None) }
        ensures same { OnErr result (self.new ≡ self.old) }
        ensures pops { self.new.pops ≡ self.old.pops }
    {
        flush(&mut self.queue, items)?;
        self.held = None;
        Ok(())
    }
}
