ghost use Rattle.std.specs.Prelude.{◌≡◌};
ghost use Rattle.start_text.specs.Faults.{fault_line, number_of, change_number, of_load, of_change, of_batch};
ghost use Rattle.start_text.specs.declared.fault.StartFault.TheVariants.{OutOfMemory};

use class_batches::BatchFault;
use class_pool::ClassFault;
use decl_index::ChangeFault;
use outside::LoadFault;
use std::alloc::AllocError;

/// Why there is no first version. Lines are those of the start text, from 1.
#[derive(Debug, Drop)]
pub enum StartFault {
    /// There is no start text.
    NoText,
    /// The start text has more than 16,777,216 bytes.
    LongText,
    /// The start text isn't UTF-8.
    NotUtf8,
    /// There is no file of this line's path.
    NoFile(u32),
    /// The file of this line's path has more than 16,777,216 bytes.
    LongFile(u32),
    /// The file of this line's path is no class file, for this fault of its bytes.
    NotClass(u32, ClassFault),
    /// All files are class files, but the change that they make together is refused.
    Refused(ChangeFault),
    /// The shelf failed.
    Failed,
    /// There was no memory.
    OutOfMemory,
}

/// The number of a refusal of a change.
fn change_number(fault: &ChangeFault) -> Option<u32>
    ensures { result ≡ change_number fault.now }
{
    match fault {
        ChangeFault::Cyclic(_) => Some(14),
        ChangeFault::Full(_) => Some(15),
        ChangeFault::TooHigh(_) => Some(16),
        ChangeFault::JournalFull => Some(17),
        ChangeFault::NestCycle(_) => Some(18),
        ChangeFault::OutOfMemory => None,
    }
}

impl StartFault {
    /// The line at which the fault is; 0 for the text as a whole, for the change, and for what is no fault of
    /// the text.
    pub fn place(&self) -> u32
        ensures line { result ≡ fault_line self.now }
    {
        match self {
            StartFault::NoFile(line) => *line,
            StartFault::LongFile(line) => *line,
            StartFault::NotClass(line, _) => *line,
            _ => 0,
        }
    }

    /// The number by which users are told what is wrong, from 9 to 19; None where the shelf failed or memory
    /// was wanting.
    pub fn number(&self) -> Option<u32>
        ensures number { result ≡ number_of self.now }
    {
        match self {
            StartFault::NoText => Some(9),
            StartFault::LongText => Some(19),
            StartFault::NotUtf8 => Some(19),
            StartFault::NoFile(_) => Some(9),
            StartFault::LongFile(_) => Some(10),
            StartFault::NotClass(_, _) => Some(11),
            StartFault::Refused(fault) => change_number(fault),
            StartFault::Failed => None,
            StartFault::OutOfMemory => None,
        }
    }
}

impl From<AllocError> for StartFault {
    ghost from_gives = { λ _ fault. fault ≡ OutOfMemory };

    fn from(_error: AllocError) -> StartFault {
        StartFault::OutOfMemory
    }
}

impl From<LoadFault> for StartFault {
    ghost from_gives = { λ error fault. fault ≡ of_load error };

    fn from(error: LoadFault) -> StartFault {
        match error {
            LoadFault::Failed => StartFault::Failed,
            LoadFault::OutOfMemory => StartFault::OutOfMemory,
        }
    }
}

impl From<ChangeFault> for StartFault {
    ghost from_gives = { λ error fault. fault ≡ of_change error };

    fn from(error: ChangeFault) -> StartFault {
        match error {
            ChangeFault::OutOfMemory => StartFault::OutOfMemory,
            other => StartFault::Refused(other),
        }
    }
}

impl From<BatchFault> for StartFault {
    ghost from_gives = { λ error fault. fault ≡ of_batch error };

    fn from(error: BatchFault) -> StartFault {
        match error {
            BatchFault::Broken(line, fault) => StartFault::NotClass(line, fault),
            BatchFault::OutOfMemory => StartFault::OutOfMemory,
        }
    }
}
