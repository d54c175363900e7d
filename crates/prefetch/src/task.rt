ghost use Rattle.std.specs.Prelude.{◌≤◌, ◌^◌};

use std::alloc::Global;
use std::sync::{Arc, Mutex};

/// To lengthen what lies in a slot until it has `upto` items. A task is known by its sender and its number, which
/// counts that sender's tasks from 0.
#[derive(Drop)]
pub struct Task<V: Drop> {
    pub sender: u32,
    pub number: u64,
    pub upto: u64,
    pub slot: Arc<Mutex<V>, Global>,
    ghost range: { (2 ≤ upto) × (upto ≤ 2 ^ 62) },
}
