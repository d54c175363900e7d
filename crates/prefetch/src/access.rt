ghost use Rattle.std.specs.Prelude.{◌≡◌, ◌<◌, ◌≤◌, MatchResult, MatchOption, IfOk, OnErr};
ghost use Rattle.prefetch.specs.Rule.{whole, one_part, less_one, joined, with_sent, with_got, IsSettled};
ghost use Rattle.prefetch.specs.Starts.{WasAt};
ghost use Rattle.prefetch.specs.Tasks.{key};

use crate::known::{Hands, Line, LinePass, Parts, Takes};
use crate::task::Task;
use std::alloc::{AllocError, Global};
use std::marker::Model;
use std::sync::{Arc, Wait};

/// A pass of a queue, with the queue.
#[derive(Drop)]
pub(crate) struct Access<V: Drop> {
    line: Arc<Line<V>, Global>,
    pass: LinePass<V>,
}

impl<V: Drop> Model for Access<V> {
    ghost use Rattle.std.specs.Arc.{arc_value};
    ghost use Rattle.atomic_table.specs.Seated.{table_id_coded};
    ghost use Rattle.crossbeam_queue.specs.Passes.{view as known, IsPassOf, ruled_capacity};
    ghost use Rattle.prefetch.specs.Starts.{Reach};

    ghost Value = { Reach };

    ghost view = { λ a. record { queue = a.pass.table_id; capacity = ruled_capacity (arc_value a.line); knows = known a.pass } };

    ghost invariant = { λ a. IsPassOf (arc_value a.line) a.pass };
}

impl<V: Drop> Access<V> {
    /// A new queue, and its pass with all parts.
    pub(crate) fn new(alloc: Global, capacity: usize) -> Result<Access<V>, AllocError>
        requires room { 0 < capacity }
        ensures new { IfOk result (λ a. (a.capacity ≡ capacity) × (a.knows ≡ whole)) }
    {
        let (line, pass) = Line::ruled(alloc, capacity)?;
        let line = Arc::new(alloc, line).map_err(|_| AllocError)?;
        Ok(Access { line, pass })
    }

    /// Cuts off one part.
    pub(crate) fn cut(&mut self) -> Result<Access<V>, AllocError>
        requires parts { 1 < self.old.knows.parts }
        ensures part { IfOk result (λ a. a ≡ record self.old { knows = one_part }) }
        ensures rest { IfOk result (λ a. self.new ≡ record self.old { knows = less_one self.old.knows }) }
        ensures unchanged { OnErr result (self.new ≡ self.old) }
    {
        let line = Arc::try_clone(&self.line)?;
        let pass = self.line.another::<Parts>(&mut self.pass);
        Ok(Access { line, pass })
    }

    /// Puts a task into the queue, or gives it back where the queue was full.
    pub(crate) fn push<R: Wait>(&mut self, rt: &R, task: Task<V>) -> Result<(), Task<V>>
        requires parts { 0 < self.old.knows.parts }
        ensures handed { MatchResult result (λ _. self.new ≡ record self.old { knows = with_sent self.old.knows (key task) }) (λ t. (t ≡ task) × (self.new ≡ self.old) × WasAt self.old.capacity) }
    {
        self.line.push_as::<Hands, R>(rt, &mut self.pass, task)
    }

    /// Takes the oldest task out of the queue, or none where the queue was empty.
    pub(crate) fn pop<R: Wait>(&mut self, rt: &R) -> Option<Task<V>>
        requires parts { 0 < self.old.knows.parts }
        ensures taken { MatchOption result ((self.new ≡ self.old) × WasAt 0) (λ t. self.new ≡ record self.old { knows = with_got self.old.knows (key t) }) }
        ensures settled { MatchOption result (self.old.knows.parts ≡ 72 → IsSettled self.new.knows) (λ _. Unit {0}) }
    {
        self.line.pop_as::<Takes, R>(rt, &mut self.pass)
    }

    /// Takes in the parts of another pass of the queue.
    pub(crate) fn join(&mut self, other: Access<V>)
        requires same { other.queue ≡ self.old.queue }
        ensures both { self.new ≡ record self.old { knows = joined self.old.knows other.knows } }
    {
        let Access { line: _, pass } = other;
        self.line.absorb::<Parts>(&mut self.pass, pass);
    }
}
