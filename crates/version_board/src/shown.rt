ghost use Rattle.std.specs.Prelude.{◌≡◌, ◌++◌, length, IfOk};
ghost use Rattle.std.specs.Arc.{arc_value};
ghost use Rattle.version_board.specs.Versions.{IsVersion};

use crate::log::{Naming, Prefix};
use crate::snapshot::Snapshot;
use decl_index::Change;
use left_right::Absorb;
use std::alloc::{AllocError, Global};
use std::marker::Model;
use std::sync::Arc;

/// What a board shows: a version, beside the prefix of the log that it stands for. Contracts see it as its
/// history: the changes that the board began with, then those of the prefix.
#[derive(Drop)]
pub struct Shown<J: Naming> {
    snapshot: Arc<Snapshot, Global>,
    prefix: Prefix<J>,
}

impl<J: Naming> Model for Shown<J> {
    ghost use Rattle.std.specs.Prelude.{◌++◌, List};
    ghost use Rattle.std.specs.Arc.{arc_value};
    ghost use Rattle.decl_index.specs.declared.change.Change.{Change};
    ghost use Rattle.version_board.specs.Versions.{IsVersion};

    ghost Value = { List Change };

    ghost view = { λ s. J.first ++ s.prefix };

    ghost invariant = { λ s. IsVersion (J.first ++ s.prefix) (arc_value s.snapshot) };
}

impl<J: Naming> Shown<J> {
    /// The version of the history.
    pub fn new(snapshot: Arc<Snapshot, Global>, prefix: Prefix<J>) -> Shown<J>
        requires { IsVersion (J.first ++ prefix) (arc_value snapshot) }
        ensures history { result ≡ J.first ++ prefix }
    {
        Shown { snapshot, prefix }
    }

    /// How many changes the history has.
    pub fn len(&self) -> u32
        ensures count { result ≡ length self.now }
    {
        self.snapshot.number
    }

    /// The same version once more; the snapshot is shared.
    pub fn again(&self) -> Result<Shown<J>, AllocError>
        ensures same { IfOk result (λ s. s ≡ self.now) }
    {
        Ok(Shown {
            snapshot: Arc::try_clone(&self.snapshot)?,
            prefix: self.prefix.again(),
        })
    }

    /// The snapshot of the history.
    pub fn snapshot(&self) -> &Snapshot
        ensures version { IsVersion self.now result.now }
    {
        &self.snapshot
    }

    /// The prefix of the log.
    pub fn prefix(&self) -> &Prefix<J>
        ensures history { self.now ≡ J.first ++ result.now }
    {
        &self.prefix
    }

    /// The snapshot of the history, to be kept.
    pub fn into_snapshot(self) -> Arc<Snapshot, Global>
        ensures version { IsVersion self (arc_value result) }
    {
        let Shown {
            snapshot,
            prefix: _,
        } = self;
        snapshot
    }
}

/// A version is put in the place of the one that was shown.
impl<J: Naming> Absorb<Shown<J>> for Shown<J> {
    // A clause reads an array as a list, of any length.
    type State = [Change; 0];

    ghost state = { λ s. s };

    ghost applied = { λ _ next. next };

    fn absorb_first(&mut self, operation: &Shown<J>, _other: &Shown<J>) -> Result<(), AllocError> {
        let next = operation.again()?;
        *self = next;
        Ok(())
    }
}
