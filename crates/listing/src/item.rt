ghost use Rattle.std.specs.Prelude.{◌≡◌, IfOk};

use lists::{Copies, Items, Text};
use std::alloc::{AllocError, Global};
use terms::Term;

/// One term of the list.
#[derive(Debug, Drop)]
pub struct Item {
    /// Its total: the weight at the goal, the coercion there included.
    pub weight: u32,
    /// Its Java text, in UTF-8.
    pub text: Text,
    pub term: Term,
}

impl Item {
    /// An equal item in memory of its own.
    pub fn copy(&self, alloc: Global) -> Result<Item, AllocError>
        ensures equal { IfOk result (λ item. item ≡ self.now) }
    {
        Ok(Item {
            weight: self.weight,
            text: self.text.copy(alloc)?,
            term: self.term.copy(alloc)?,
        })
    }
}

impl Copies for Item {
    fn copy(&self, alloc: Global) -> Result<Item, AllocError> {
        Item::copy(self, alloc)
    }
}

/// An item with its prefix code, while its level is put into order.
#[derive(Debug, Drop)]
pub struct Keyed {
    pub item: Item,
    pub code: Items<u64>,
}
