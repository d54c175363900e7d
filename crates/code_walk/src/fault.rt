ghost use Rattle.std.specs.Prelude.{◌≡◌};
ghost use Rattle.code_walk.specs.Faults.{no_memory};

use std::alloc::{AllocError, AllocFailed};

/// What is wrong with the code of a class file, or with what its instructions name.
#[derive(Clone, Copy, Debug, PartialEq, Eq)]
pub enum WalkCause {
    /// A `Code` attribute whose parts don't fill its length.
    Attribute,
    /// No instruction has the opcode, or `wide` doesn't go before the next one.
    Opcode,
    /// The code ends within the instruction.
    Cut,
    /// A switch whose low is above its high, or whose number of pairs is negative.
    Switch,
    /// An instruction that names a member by an index that isn't one of such a member.
    Place,
    /// Memory ran out. The place is 0, and says nothing about the bytes.
    OutOfMemory,
}

/// The first fault, and its place, counted in bytes from the file's first. That of an instruction is at its
/// opcode.
#[derive(Clone, Copy, Debug, PartialEq, Eq)]
pub struct WalkFault {
    pub at: u32,
    pub cause: WalkCause,
}

/// Memory ran out.
fn no_memory() -> WalkFault
    ensures { result ≡ no_memory }
{
    WalkFault {
        at: 0,
        cause: WalkCause::OutOfMemory,
    }
}

impl From<AllocError> for WalkFault {
    ghost from_gives = { λ _ e. e ≡ no_memory };

    fn from(_e: AllocError) -> WalkFault {
        no_memory()
    }
}

impl<T: Drop> From<AllocFailed<T>> for WalkFault {
    ghost from_gives = { λ _ e. e ≡ no_memory };

    fn from(_e: AllocFailed<T>) -> WalkFault {
        no_memory()
    }
}
