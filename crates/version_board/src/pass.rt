ghost use Rattle.std.specs.Prelude.{◌≡◌, ◌∷◌, ◌++◌, [], length, IfOk, MatchResult};
ghost use Rattle.std.specs.Arc.{arc_value};
ghost use mathlib.Core.List.{IsPrefix};
ghost use Rattle.left_right.specs.Sides.{view as known};
ghost use Rattle.version_board.specs.declared.view.View.{View};
ghost use Rattle.version_board.specs.Views.{newcomer};
ghost use Rattle.version_board.specs.Versions.{IsVersion};

use crate::log::{Naming, Prefix};
use crate::receipt::Receipt;
use crate::shown::Shown;
use crate::snapshot::Snapshot;
use crate::view::{BoardFactory, BoardReader, Looks, Reads};
use core::mem::replace_with;
use std::alloc::{AllocError, Global};
use std::marker::Model;
use std::sync::{Arc, Wait};

/// A reader of the board. Contracts see it as what it has seen.
#[derive(Drop)]
pub struct Pass<J: Naming> {
    reader: BoardReader<J>,
    prefix: Prefix<J>,
    count: u32,
}

impl<J: Naming> Model for Pass<J> {
    ghost use Rattle.std.specs.Prelude.{◌≡◌, ◌++◌, length};
    ghost use Rattle.left_right.specs.Sides.{view as known};
    ghost use Rattle.version_board.specs.declared.view.View.{View};

    ghost Value = { View };

    ghost view = { λ p. known p.reader.place };

    ghost invariant = { λ p. (p.count ≡ length (known p.reader.place).seen) × (J.first ++ p.prefix ≡ (known p.reader.place).seen) };
}

/// Enters, and copies what it finds. The length and the prefix of the history are those of what was found.
fn read_entry<J: Naming, R: Wait>(
    rt: &R,
    reader: BoardReader<J>,
) -> (
    BoardReader<J>,
    (u32, Prefix<J>, Result<Shown<J>, AllocError>),
)
    ensures later { IsPrefix (known reader.place).seen (known result.0.place).seen }
    ensures reads { (known result.0.place).reads ≡ (known reader.place).reads ++ length (known result.0.place).seen ∷ [] }
    ensures count { result.1.0 ≡ length (known result.0.place).seen }
    ensures prefix { J.first ++ result.1.1 ≡ (known result.0.place).seen }
    ensures history { IfOk result.1.2 (λ s. s ≡ (known result.0.place).seen) }
{
    let mut reader = reader;
    for _ in rt.forever() {
        match reader.enter_as::<Reads>() {
            Ok(reading) => {
                let shown = reading.get();
                let count = shown.len();
                let prefix = shown.prefix().again();
                let copy = shown.again();
                return (reading.leave(), (count, prefix, copy));
            }
            Err(back) => reader = back,
        }
    }
    unreachable!()
}

/// Enters, and takes the prefix of what it finds. It takes no memory.
fn look_entry<J: Naming, R: Wait>(
    rt: &R,
    reader: BoardReader<J>,
) -> (BoardReader<J>, (u32, Prefix<J>))
    ensures later { IsPrefix (known reader.place).seen (known result.0.place).seen }
    ensures reads { (known result.0.place).reads ≡ (known reader.place).reads }
    ensures count { result.1.0 ≡ length (known result.0.place).seen }
    ensures prefix { J.first ++ result.1.1 ≡ (known result.0.place).seen }
{
    let mut reader = reader;
    for _ in rt.forever() {
        match reader.enter_as::<Looks>() {
            Ok(reading) => {
                let shown = reading.get();
                let count = shown.len();
                let prefix = shown.prefix().again();
                return (reading.leave(), (count, prefix));
            }
            Err(back) => reader = back,
        }
    }
    unreachable!()
}

/// Enters until what it finds begins with what was told, as it does at the first time.
fn learn_entry<J: Naming, R: Wait>(
    rt: &R,
    reader: BoardReader<J>,
    told: &Prefix<J>,
) -> (BoardReader<J>, (u32, Prefix<J>))
    ensures later { IsPrefix (known reader.place).seen (known result.0.place).seen }
    ensures reads { (known result.0.place).reads ≡ (known reader.place).reads }
    ensures count { result.1.0 ≡ length (known result.0.place).seen }
    ensures prefix { J.first ++ result.1.1 ≡ (known result.0.place).seen }
    ensures told { IsPrefix (J.first ++ told.now) (known result.0.place).seen }
{
    let mut reader = reader;
    for _ in rt.forever() {
        let (next, (count, prefix)) = look_entry(rt, reader);
        if prefix.begins_with(told) {
            return (next, (count, prefix));
        }
        reader = next;
    }
    unreachable!()
}

impl<J: Naming> Pass<J> {
    /// A pass that has seen the journal that the board began with, of so many changes.
    pub(crate) fn seat(
        factory: &BoardFactory<J>,
        prefix: Prefix<J>,
        count: u32,
    ) -> Result<Pass<J>, AllocError>
        requires count { count ≡ length J.first }
        requires prefix { J.first ++ prefix ≡ J.first }
        ensures newcomer { IfOk result (λ p. p ≡ newcomer J.first) }
    {
        let reader = factory.reader()?;
        Ok(Pass {
            reader,
            prefix,
            count,
        })
    }

    /// Learns what a publisher had seen. What is shown then counts as seen, and as no read. It takes no memory; it
    /// may wait.
    pub fn learn<R: Wait>(&mut self, rt: &R, receipt: Receipt<J>)
        ensures later { IsPrefix self.old.seen self.new.seen }
        ensures told { IsPrefix (J.first ++ receipt.prefix) self.new.seen }
        ensures reads { self.new.reads ≡ self.old.reads }
    {
        let told = &receipt.prefix;
        let (count, prefix) = replace_with(&mut self.reader, (rt, told), |reader, (rt, told)| {
            learn_entry(rt, reader, told)
        });
        self.count = count;
        self.prefix = prefix;
    }

    /// The length of the longest history that it read or learnt of.
    pub fn seen(&self) -> u32
        ensures count { result ≡ length self.now.seen }
    {
        self.count
    }

    /// The prefix of the log that it read or learnt of.
    pub fn prefix(&self) -> &Prefix<J>
        ensures history { J.first ++ result.now ≡ self.now.seen }
    {
        &self.prefix
    }

    /// Reads the version that is shown at one moment of the call. It may wait. Where there is no memory for the
    /// answer, the version was read all the same.
    pub fn read<R: Wait>(&mut self, rt: &R) -> Result<Arc<Snapshot, Global>, AllocError>
        ensures later { IsPrefix self.old.seen self.new.seen }
        ensures reads { self.new.reads ≡ self.old.reads ++ length self.new.seen ∷ [] }
        ensures version { IfOk result (λ s. IsVersion self.new.seen (arc_value s)) }
    {
        let (count, prefix, copy) = replace_with(&mut self.reader, rt, |reader, rt| {
            read_entry(rt, reader)
        });
        self.count = count;
        self.prefix = prefix;
        Ok(copy?.into_snapshot())
    }
}
