ghost use Rattle.std.specs.Prelude.{◌≡◌, ◌≤◌, ◌<◌, ◌^◌, ◌++◌, ◌∷◌, [], IfOk, IfSome, OnErr, MatchOption};
ghost use Rattle.prefetch.specs.Rule.{fresh};
ghost use Rattle.prefetch.specs.Starts.{WasAt, Taking};
ghost use Rattle.prefetch.specs.Tasks.{key};

use crate::access::Access;
use crate::task::Task;
use std::alloc::{AllocError, Global};
use std::marker::Model;
use std::sync::Wait;

/// Who takes tasks. Contracts see the queue, the parts of the start that it holds, and the tasks that it has taken.
#[derive(Drop)]
pub struct Worker<V: Drop> {
    access: Access<V>,
    taken: Vec<(u32, u64)>,
}

impl<V: Drop> Model for Worker<V> {
    ghost use Rattle.std.specs.Prelude.{◌≡◌, ◌<◌, []};
    ghost use Rattle.atomic_table.specs.Seated.{table_id_coded};
    ghost use Rattle.prefetch.specs.Starts.{Taking};

    ghost Value = { Taking };

    ghost view = { λ w. record { queue = w.access.queue; parts = w.access.knows.parts; taken = w.taken.items } };

    ghost invariant = { λ w. (0 < w.access.knows.parts) × (w.access.knows.sent ≡ []) × (w.access.knows.got ≡ w.taken.items) };
}

impl<V: Drop> Worker<V> {
    /// A worker that has taken nothing.
    pub(crate) fn new(alloc: Global, access: Access<V>) -> Worker<V>
        requires parts { 0 < access.knows.parts }
        requires none { access.knows ≡ fresh access.knows.parts }
        ensures fresh { result ≡ record { queue = access.queue; parts = access.knows.parts; taken = [] } }
    {
        Worker {
            access,
            taken: Vec::new(alloc),
        }
    }

    /// Takes the oldest task that waits, and notes it; or none, where none waits. It may wait for another call on the
    /// queue.
    pub fn take<R: Wait>(&mut self, rt: &R) -> Result<Option<Task<V>>, AllocError>
        ensures taken { IfOk result (λ r. MatchOption r (WasAt 0 × (self.new ≡ self.old)) (λ task. self.new ≡ record self.old { taken = self.old.taken ++ key task ∷ [] })) }
        ensures range { IfOk result (λ r. IfSome r (λ task. (2 ≤ task.upto) × (task.upto ≤ 2 ^ 62))) }
        ensures unchanged { OnErr result (self.new ≡ self.old) }
    {
        self.taken.reserve(1)?;
        match self.access.pop(rt) {
            Some(task) => {
                self.taken.push_reserved((task.sender, task.number));
                Ok(Some(task))
            }
            None => Ok(None),
        }
    }

    /// The tasks that it has taken, the oldest first.
    pub fn taken(&self) -> &[(u32, u64)]
        ensures taken { result.now ≡ self.now.taken }
    {
        self.taken.as_slice()
    }

    /// Its pass, with the queue.
    pub(crate) fn into_access(self) -> Access<V>
        ensures queue { result.queue ≡ self.queue }
        ensures knows { result.knows ≡ record { parts = self.parts; sent = []; got = self.taken } }
    {
        let Worker { access, taken: _ } = self;
        access
    }
}
