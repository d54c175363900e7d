ghost use Rattle.std.specs.Prelude.{◌≡◌, ◌≤◌, ◌<◌, ◌+◌, ◌^◌, [], IfErr, OnOk};
ghost use Rattle.prefetch.specs.Starts.{WasAt, Handing};
ghost use Rattle.prefetch.specs.Settling.{tasks_of};
ghost use Rattle.prefetch.specs.Rule.{one_part};
ghost use Rattle.prefetch.specs.declared.sender.HandFault.TheVariants.{Full};

use crate::access::Access;
use crate::task::Task;
use std::alloc::Global;
use std::marker::Model;
use std::sync::{Arc, Mutex, Wait};

/// Why a task wasn't handed. The slot comes back.
#[derive(Drop)]
pub enum HandFault<V: Drop> {
    /// There was no room for the task.
    Full(Arc<Mutex<V>, Global>),
    /// There was no memory for the task.
    OutOfMemory(Arc<Mutex<V>, Global>),
}

/// Who hands tasks. Contracts see the queue, the sender's number, and how many tasks it has handed.
#[derive(Drop)]
pub struct Sender<V: Drop> {
    access: Access<V>,
    sender: u32,
    handed: u64,
}

impl<V: Drop> Model for Sender<V> {
    ghost use Rattle.std.specs.Prelude.{◌≡◌, []};
    ghost use Rattle.atomic_table.specs.Seated.{table_id_coded};
    ghost use Rattle.prefetch.specs.Starts.{Handing};
    ghost use Rattle.prefetch.specs.Tasks.{numbered};

    ghost Value = { Handing };

    ghost view = { λ s. record { queue = s.access.queue; capacity = s.access.capacity; sender = s.sender; handed = s.handed } };

    ghost invariant = { λ s. s.access.knows ≡ record { parts = 1; sent = numbered s.sender s.handed; got = [] } };
}

impl<V: Drop> Sender<V> {
    /// A sender that has handed nothing.
    pub(crate) fn new(access: Access<V>, sender: u32) -> Sender<V>
        requires part { access.knows ≡ one_part }
        ensures fresh { result ≡ record { queue = access.queue; capacity = access.capacity; sender = sender; handed = 0 } }
    {
        Sender {
            access,
            sender,
            handed: 0,
        }
    }

    /// How many tasks it has handed.
    pub fn handed(&self) -> u64
        ensures count { result ≡ self.now.handed }
    {
        self.handed
    }

    /// Hands a task, which has the number of the tasks handed before. It may wait for another call on the queue, and
    /// takes no memory.
    pub fn hand<R: Wait>(
        &mut self,
        rt: &R,
        upto: u64,
        slot: Arc<Mutex<V>, Global>,
    ) -> Result<(), HandFault<V>>
        requires handed { self.old.handed < 2 ^ 56 }
        requires upto { (2 ≤ upto) × (upto ≤ 2 ^ 62) }
        ensures numbered { OnOk result (self.new ≡ record self.old { handed = self.old.handed + 1 }) }
        ensures refused { IfErr result (λ fault. (fault ≡ Full slot) × WasAt self.old.capacity × (self.new ≡ self.old)) }
    {
        let task = Task {
            sender: self.sender,
            number: self.handed,
            upto,
            slot,
        };
        match self.access.push(rt, task) {
            Ok(()) => {
                self.handed += 1;
                Ok(())
            }
            Err(task) => Err(HandFault::Full(task.slot)),
        }
    }

    /// Its pass, with the queue.
    pub(crate) fn into_access(self) -> Access<V>
        ensures queue { result.queue ≡ self.queue }
        ensures knows { result.knows ≡ record { parts = 1; sent = tasks_of self; got = [] } }
    {
        let Sender {
            access,
            sender: _,
            handed: _,
        } = self;
        access
    }
}
