ghost use Rattle.std.specs.Prelude.{◌≡◌, ◌≤◌, ◌∷◌, ◌++◌, [], None, length, IfOk, IfErr, MatchOption, MatchResult};
ghost use Rattle.std.specs.Arc.{arc_value};
ghost use Rattle.decl_index.specs.declared.change.ChangeFault.TheVariants.{JournalFull, OutOfMemory};
ghost use Rattle.decl_index.specs.History.{KeepsRanges};
ghost use Rattle.decl_index.specs.Refusals.{most_changes};
ghost use Rattle.version_board.specs.Publications.{IsRefusal, MayFollow};
ghost use Rattle.version_board.specs.Versions.{IsVersion};

use crate::log::{Log, Naming, Prefix};
use crate::receipt::{Receipt, Refusal};
use crate::shown::Shown;
use crate::snapshot::Snapshot;
use crate::view::BoardWriter;
use crate::writing::put;
use core::mem::replace_with;
use decl_index::{Change, ChangeFault};
use left_right::Absorb;
use std::alloc::Global;
use std::marker::Model;
use std::sync::{Arc, Wait};

/// The one that publishes. Contracts see it as the journal that is shown. Its drop waits for the passes that are
/// reading.
pub struct Publisher<J: Naming, R: Wait + Drop>
where
    Shown<J>: Absorb<Shown<J>, State = [Change; 0]>,
{
    writer: BoardWriter<J>,
    log: Log<J>,
    rt: R,
}

impl<J: Naming, R: Wait + Drop> Model for Publisher<J, R>
where
    Shown<J>: Absorb<Shown<J>, State = [Change; 0]>,
{
    ghost use Rattle.std.specs.Prelude.{List};
    ghost use Rattle.decl_index.specs.declared.change.Change.{Change};

    ghost Value = { List Change };

    ghost view = { λ p. p.writer.desk.shown.value };
}

/// The version after the change, and the prefix that it goes behind; the change is handed back.
fn prepare<J: Naming>(
    shown: &Shown<J>,
    alloc: Global,
    change: Change,
) -> Result<(Arc<Snapshot, Global>, Prefix<J>, Change), Refusal<J>>
    requires ranges { KeepsRanges change }
    ensures next { IfOk result (λ r. IsVersion (shown.now ++ change ∷ []) (arc_value r.0) × (J.first ++ r.1 ≡ shown.now) × (r.2 ≡ change)) }
    ensures lawful { IfOk result (λ _. MayFollow shown.now change) }
    ensures refused { IfErr result (λ e. IsRefusal shown.now change e.change e.cause) }
    ensures told { IfErr result (λ e. MatchOption e.seen (e.cause ≡ OutOfMemory) (λ r. J.first ++ r.prefix ≡ shown.now)) }
    ensures full { most_changes ≤ length shown.now → MatchResult result (λ _. ⊥) (λ e. e.cause ≡ JournalFull) }
{
    let next = match shown.snapshot().after(alloc, &change) {
        Ok(next) => next,
        Err(ChangeFault::OutOfMemory) => return Err(no_memory(change)),
        Err(cause) => {
            return Err(Refusal {
                cause,
                seen: Some(Receipt {
                    number: shown.len(),
                    prefix: shown.prefix().again(),
                }),
                change,
            });
        }
    };
    match Arc::new(alloc, next) {
        Ok(next) => Ok((next, shown.prefix().again(), change)),
        Err(_) => Err(no_memory(change)),
    }
}

/// The refusal for want of memory, which has no receipt.
fn no_memory<J: Naming>(change: Change) -> Refusal<J>
    ensures returned { result.change ≡ change }
    ensures cause { result.cause ≡ OutOfMemory }
    ensures seen { result.seen ≡ None }
{
    Refusal {
        cause: ChangeFault::OutOfMemory,
        seen: None,
        change,
    }
}

impl<J: Naming, R: Wait + Drop> Publisher<J, R> {
    /// The publisher of what the writer shows.
    pub(crate) fn new(writer: BoardWriter<J>, log: Log<J>, rt: R) -> Publisher<J, R>
        ensures shown { result ≡ writer.desk.shown.value }
    {
        Publisher { writer, log, rt }
    }

    /// Adds one change to the journal and shows the version after it, or refuses the change, hands it back and
    /// leaves the journal as it is. The refusal's receipt is None exactly where there was no memory. A full journal
    /// refuses as `Snapshot::after` does. It may wait for the passes that are reading.
    pub fn publish(&mut self, alloc: Global, change: Change) -> Result<Receipt<J>, Refusal<J>>
        requires ranges { KeepsRanges change }
        ensures published { IfOk result (λ r. (self.new ≡ self.old ++ change ∷ []) × (J.first ++ r.prefix ≡ self.new)) }
        ensures number { IfOk result (λ r. r.number ≡ length self.new) }
        ensures lawful { IfOk result (λ _. MayFollow self.old change) }
        ensures refused { IfErr result (λ e. (self.new ≡ self.old) × IsRefusal self.old change e.change e.cause) }
        ensures told { IfErr result (λ e. MatchOption e.seen (e.cause ≡ OutOfMemory) (λ r. J.first ++ r.prefix ≡ self.old)) }
        ensures full { most_changes ≤ length self.old → MatchResult result (λ _. ⊥) (λ e. e.cause ≡ JournalFull) }
    {
        let shown = self.writer.published();
        let (snapshot, mut prefix, change) = match prepare(shown, alloc, change) {
            Ok(ready) => ready,
            Err(refusal) => return Err(refusal),
        };
        let number = snapshot.number;
        if !prefix.add(&self.log, &change) {
            return Err(no_memory(change));
        }
        let next = Shown::new(snapshot, prefix.again());
        replace_with(&mut self.writer, (&self.rt, next), |writer, (rt, next)| {
            (put(rt, writer, next), ())
        });
        Ok(Receipt { number, prefix })
    }

    /// The prefix of the log that is shown.
    pub fn prefix(&self) -> Prefix<J>
        ensures journal { J.first ++ result ≡ self.now }
    {
        self.writer.published().prefix().again()
    }

    /// Ends the board. It waits for the passes that are reading.
    pub fn close(self) {
        let Self { writer, log: _, rt } = self;
        let _last = writer.take(&rt);
    }
}

impl<J: Naming, R: Wait + Drop> Drop for Publisher<J, R>
where
    Shown<J>: Absorb<Shown<J>, State = [Change; 0]>,
{
    fn drop(self) {
        let Self { writer, log: _, rt } = self;
        let _last = writer.take(&rt);
    }
}
