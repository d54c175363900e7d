ghost use Rattle.std.specs.Prelude.{◌≡◌};
ghost use Rattle.class_batches.specs.Faults.{of_class};
ghost use Rattle.class_batches.specs.declared.fault.BatchFault.TheVariants.{OutOfMemory};

use class_pool::{ClassCause, ClassFault};
use std::alloc::AllocError;

/// Why a batch gave no classes.
#[derive(Clone, Copy, Debug)]
pub enum BatchFault {
    /// The file of this number is no class file, for this fault of its bytes.
    Broken(u32, ClassFault),
    /// There was no memory.
    OutOfMemory,
}

/// What is wrong with the file of a number.
pub(crate) fn broken(number: u32, fault: ClassFault) -> BatchFault
    ensures { result ≡ of_class number fault fault.cause }
{
    match fault.cause {
        ClassCause::OutOfMemory => BatchFault::OutOfMemory,
        _ => BatchFault::Broken(number, fault),
    }
}

impl From<AllocError> for BatchFault {
    ghost from_gives = { λ _ fault. fault ≡ OutOfMemory };

    fn from(_error: AllocError) -> BatchFault {
        BatchFault::OutOfMemory
    }
}
