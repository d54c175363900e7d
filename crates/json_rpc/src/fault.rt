ghost use Rattle.std.specs.Prelude.{◌≡◌};
ghost use Rattle.json_rpc.specs.declared.fault.FrameFault.TheVariants.{OutOfMemory, ReadFault};

use outside::Failed;
use std::alloc::AllocError;

/// Why there is no next frame.
#[derive(Clone, Copy, Debug, PartialEq, Eq)]
pub enum FrameFault {
    /// The first byte that can't stand there.
    Header(u64),
    /// The place after a header part without a length.
    NoLength(u64),
    /// A length that is too great.
    TooLong(u64),
    /// The input's length, where it ends within a frame.
    Cut(u64),
    ReadFault,
    Budget,
    OutOfMemory,
}

impl From<AllocError> for FrameFault {
    ghost from_gives = { λ _ e. e ≡ OutOfMemory };

    fn from(_e: AllocError) -> FrameFault {
        FrameFault::OutOfMemory
    }
}

impl From<Failed> for FrameFault {
    ghost from_gives = { λ _ e. e ≡ ReadFault };

    fn from(_e: Failed) -> FrameFault {
        FrameFault::ReadFault
    }
}
