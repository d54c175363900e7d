ghost use Rattle.std.specs.Prelude.{◌≡◌, [], ◌++◌, IfOk, find, nat_le, option_map};
ghost use Rattle.version_board.specs.Withdrawals.{withdrawal_of};

use decl_index::Change;
use lists::Items;
use std::alloc::{AllocError, Global};

/// A withdrawal: the number of its change, and the version up to which all are withdrawn.
#[derive(Clone, Copy, Debug)]
pub struct Withdrawal {
    pub number: u32,
    pub through: u32,
}

/// The withdrawals among the changes of a version, in the order of their numbers.
#[derive(Debug, Drop)]
pub struct Journal {
    pub withdrawals: Items<Withdrawal>,
}

impl Journal {
    /// The journal of no change.
    pub fn new(alloc: Global) -> Journal
        ensures empty { result.withdrawals ≡ [] }
    {
        Journal {
            withdrawals: Items::new(alloc),
        }
    }

    /// The journal with one change more, under its number.
    pub fn with(&self, alloc: Global, number: u32, change: &Change) -> Result<Journal, AllocError>
        ensures added { IfOk result (λ journal. journal.withdrawals ≡ self.now.withdrawals ++ withdrawal_of number change.now) }
    {
        let mut withdrawals = Items::from_slice(alloc, self.withdrawals.as_slice())?;
        if let Change::Withdraw(through) = change {
            withdrawals.push(Withdrawal {
                number,
                through: *through,
            })?;
        }
        Ok(Journal { withdrawals })
    }

    /// The number of the first withdrawal up to the version or beyond it, None where there is none.
    pub fn first_beyond(&self, version: u32) -> Option<u32>
        ensures first { result ≡ option_map (λ w. w.number) (find (λ w. nat_le version w.through) self.now.withdrawals) }
    {
        let withdrawal = self
            .withdrawals
            .as_slice()
            .iter()
            .find(|withdrawal| version <= withdrawal.through)?;
        Some(withdrawal.number)
    }
}
