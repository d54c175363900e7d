use std::collections::LinkedList;

/// What contracts see of slots: their capacity, and the fingerprints of the values kept, the oldest first. No
/// value of it is made.
pub struct Kept {
    pub capacity: u64,
    pub prints: LinkedList<u64>,
}
