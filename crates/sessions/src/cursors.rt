ghost use Rattle.std.specs.Prelude.{◌≡◌, ◌<◌, ◌+◌, ◌^◌, [], length, is_some, position, ◌==◌, slice_get, Some, OnOk, OnErr, Option};
ghost use Rattle.answers.specs.declared.types.Cursor.{Cursor};
ghost use Rattle.answers.specs.Asks.{is_used_up};
ghost use Rattle.answers.specs.Cursors.{look, moved, without, with_cursor};
ghost use Rattle.sessions.specs.Kept.{StandsAt};

use answers::Cursor;
use std::alloc::{AllocError, Global};
use std::marker::Model;

/// How many cursors are kept.
const MOST_CURSORS: usize = 64;

/// The lists that a client pages through: how many were made, and the newest of them that weren't closed, the
/// newest first. Contracts see `Lists`.
#[derive(Drop)]
pub struct Cursors {
    made: u32,
    kept: Vec<Cursor>,
}

impl Model for Cursors {
    ghost use Rattle.answers.specs.Cursors.{Lists};
    ghost use Rattle.sessions.specs.Ranges.{AreFew};

    ghost Value = { Lists };

    ghost view = { λ c. record { made = c.made; cursors = c.kept.items } };

    ghost invariant = { λ c. AreFew c.kept.items };
}

impl Cursors {
    /// No cursor was made. It takes no memory.
    pub fn new(alloc: Global) -> Cursors
        ensures none { result ≡ record { made = 0; cursors = [] } }
    {
        Cursors {
            made: 0,
            kept: Vec::new(alloc),
        }
    }

    /// How many cursors were made. The next one has the number after it.
    pub fn made(&self) -> u32
        ensures count { result ≡ self.now.made }
    {
        self.made
    }

    /// Whether no further cursor can be made, since numbers have 32 bits.
    pub fn is_used_up(&self) -> bool
        ensures full { result ≡ is_used_up self.now }
    {
        self.made >= u32::MAX
    }

    /// Where the cursor of this number stands, where it is kept.
    pub fn place(&self, number: u32) -> Option<usize>
        ensures first { result ≡ position (λ c. c.number == number) self.now.cursors }
    {
        self.kept.iter().position(|cursor| cursor.number == number)
    }

    /// The cursor at a place.
    pub fn at(&self, place: usize) -> &Cursor
        requires within { place < length self.now.cursors }
        ensures there { slice_get self.now.cursors place ≡ Some result.now }
        ensures few { result.now.answered < 2 ^ 62 }
    {
        &self.kept[place]
    }

    /// Keeps a new cursor, and drops the oldest one where there were 64.
    pub fn keep(&mut self, cursor: Cursor) -> Result<(), AllocError>
        requires few { cursor.answered < 2 ^ 62 }
        ensures kept { OnOk result (self.new ≡ with_cursor cursor self.old) }
        ensures unchanged { OnErr result (self.new ≡ self.old) }
    {
        let number = cursor.number;
        self.kept.insert(0, cursor)?;
        self.kept.truncate(MOST_CURSORS);
        self.made = number;
        Ok(())
    }

    /// Moves a cursor on by so many items.
    #[tactic(auto, using(crate::proofs::KeptCursors::kept))]
    pub fn move_on(&mut self, number: u32, place: usize, count: u64)
        requires stands { StandsAt self.old.cursors number place }
        requires few { (c : Cursor) → slice_get self.old.cursors place ≡ Some c → c.answered + count < 2 ^ 62 }
        ensures moved { self.new ≡ record self.old { cursors = moved number count self.old.cursors } }
    {
        self.kept[place].answered += count;
    }

    /// Whether the cursor of this number is kept.
    #[tactic(auto, using(crate::proofs::KeptCursors::kept))]
    pub fn has(&self, number: u32) -> bool
        ensures kept { result ≡ is_some (look number self.now.cursors) }
    {
        self.place(number).is_some()
    }

    /// Drops the cursor of this number.
    #[tactic(auto, using(crate::proofs::KeptCursors::without_filter))]
    pub fn close(&mut self, number: u32)
        ensures left { self.new ≡ record self.old { cursors = without number self.old.cursors } }
    {
        self.kept.retain(|cursor| cursor.number != number);
    }
}
