use crate::task::Task;
use crossbeam_queue::protocol::{Join, Lesson, Outcome, Protocol, Split};
use crossbeam_queue::{Pass, RuledArrayQueue};
use std::collections::LinkedList;

/// What a pass of the queue knows: how many of the parts of its start it holds, the tasks that were handed with it,
/// and those that were taken with it. No value of it is made.
pub struct Known {
    pub parts: u64,
    pub sent: LinkedList<(u32, u64)>,
    pub got: LinkedList<(u32, u64)>,
}

/// Each task that was handed was taken, or waits in the queue.
pub(crate) struct Once;

impl<V: Drop> Protocol<Task<V>, Known> for Once {
    ghost use Rattle.prefetch.specs.Rule.{Kept, whole};
    ghost use Rattle.std.specs.Prelude.{map};
    ghost use Rattle.prefetch.specs.Tasks.{key};

    ghost holds = { λ items views. Kept (map key items) views };

    ghost first = { whole };
}

/// A task is handed.
pub(crate) struct Hands;

impl<V: Drop> Outcome<Task<V>, Known> for Hands {
    ghost use Rattle.std.specs.Prelude.{◌≡◌};
    ghost use Rattle.prefetch.specs.Rule.{with_sent};
    ghost use Rattle.prefetch.specs.Tasks.{key};

    ghost then = { λ v task w. w ≡ with_sent v (key task) };
}

impl<V: Drop> Lesson<Task<V>, Known> for Hands {
    ghost fact = { λ v items. Unit {0} };
}

/// A task is taken. Where there is none, who holds all parts knows that each was taken.
pub(crate) struct Takes;

impl<V: Drop> Outcome<Task<V>, Known> for Takes {
    ghost use Rattle.std.specs.Prelude.{◌≡◌};
    ghost use Rattle.prefetch.specs.Rule.{with_got};
    ghost use Rattle.prefetch.specs.Tasks.{key};

    ghost then = { λ v task w. w ≡ with_got v (key task) };
}

impl<V: Drop> Lesson<Task<V>, Known> for Takes {
    ghost use Rattle.std.specs.Prelude.{map};
    ghost use Rattle.prefetch.specs.Rule.{Accounts};
    ghost use Rattle.prefetch.specs.Tasks.{key};

    ghost fact = { λ v items. Accounts v (map key items) };
}

/// One part is cut off, or parts are brought together.
pub(crate) struct Parts;

impl Split<Known> for Parts {
    ghost use Rattle.prefetch.specs.Rule.{less_one, one_part};

    ghost left = { less_one };

    ghost right = { λ _. one_part };
}

impl Join<Known> for Parts {
    ghost use Rattle.prefetch.specs.Rule.{joined, no_part};

    ghost both = { joined };

    ghost spent = { no_part };
}

pub(crate) type Line<V> = RuledArrayQueue<Task<V>, Known, Once>;

pub(crate) type LinePass<V> = Pass<Task<V>, Known>;
