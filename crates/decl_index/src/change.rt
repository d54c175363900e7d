ghost use Rattle.std.specs.Prelude.{◌≡◌, IfOk};
ghost use Rattle.decl_index.specs.declared.change.ChangeFault.TheVariants.{OutOfMemory};
ghost use Rattle.decl_index.specs.Refusals.{fault_number};

use crate::weights::Weights;
use known_classes::ClassSummary;
use lists::{Copies, Items, Text, copy_all};
use std::alloc::{AllocError, Global};

/// A change of what is known of classes.
#[derive(Debug, Drop)]
pub enum Change {
    /// First the removes, then the puts in order, then the counts: a later entry for one name decides. The key
    /// of a usage count is `owner.name:descriptor`, as `java/io/FileReader.<init>:(Ljava/lang/String;)V`.
    Publish {
        puts: Items<ClassSummary>,
        removes: Items<Text>,
        counts: Items<(Text, u32)>,
    },
    /// All versions up to this number are withdrawn.
    Withdraw(u32),
    /// From here on these are the weights.
    SetWeights(Weights),
}

/// Why a change was refused.
#[derive(Debug, Drop)]
pub enum ChangeFault {
    /// A class reaches itself by supers; the least name.
    Cyclic(Text),
    /// The index would have so many parts.
    Full(u64),
    /// There is no version of this number yet.
    TooHigh(u32),
    /// The journal has no room for a further change.
    JournalFull,
    /// A class reaches itself by outer classes; the least name.
    NestCycle(Text),
    /// There was no memory.
    OutOfMemory,
}

impl ChangeFault {
    /// The number of the fault, 1 to 5 in the order of the variants; want of memory has none.
    pub fn number(&self) -> Option<u32>
        ensures number { result ≡ fault_number self.now }
    {
        match self {
            ChangeFault::Cyclic(_) => Some(1),
            ChangeFault::Full(_) => Some(2),
            ChangeFault::TooHigh(_) => Some(3),
            ChangeFault::JournalFull => Some(4),
            ChangeFault::NestCycle(_) => Some(5),
            ChangeFault::OutOfMemory => None,
        }
    }
}

impl From<AllocError> for ChangeFault {
    ghost from_gives = { λ _ e. e ≡ OutOfMemory };

    fn from(_e: AllocError) -> ChangeFault {
        ChangeFault::OutOfMemory
    }
}

fn copy_counts(alloc: Global, counts: &Items<(Text, u32)>) -> Result<Items<(Text, u32)>, AllocError>
    ensures { IfOk result (λ copies. copies ≡ counts.now) }
{
    let mut copies = Items::new(alloc);
    for count in counts.as_slice() {
        copies.push((count.0.copy(alloc)?, count.1))?;
    }
    Ok(copies)
}

impl Copies for Change {
    fn copy(&self, alloc: Global) -> Result<Change, AllocError> {
        match self {
            Change::Publish {
                puts,
                removes,
                counts,
            } => Ok(Change::Publish {
                puts: copy_all(alloc, puts)?,
                removes: copy_all(alloc, removes)?,
                counts: copy_counts(alloc, counts)?,
            }),
            Change::Withdraw(through) => Ok(Change::Withdraw(*through)),
            Change::SetWeights(weights) => Ok(Change::SetWeights(*weights)),
        }
    }
}
