ghost use Rattle.std.specs.Prelude.{◌≡◌};
ghost use Rattle.java_resolve.specs.declared.fault.ReadFault.TheVariants.{OutOfMemory};
ghost use Rattle.java_resolve.specs.Faults.{text_fault};

use std::alloc::AllocError;

/// Why a text isn't read.
#[derive(Debug, Drop)]
pub enum ReadFault {
    OutOfMemory,
    /// It isn't the text of an expression; the length in bytes of its longest prefix with which one begins.
    Syntax(usize),
}

impl From<AllocError> for ReadFault {
    ghost from_gives = { λ _ e. e ≡ OutOfMemory };

    fn from(_: AllocError) -> ReadFault {
        ReadFault::OutOfMemory
    }
}

/// Why a text isn't read back in an environment.
#[derive(Debug, Drop)]
pub enum TextFault {
    OutOfMemory,
    /// It isn't the text of an expression; the length in bytes of its longest prefix with which one begins.
    Syntax(usize),
    /// The place in bytes of the first identifier that neither a declaration nor a lambda around it gives.
    Unknown(usize),
    /// No term that is well typed at the goal has the text.
    WrongType,
    /// Two terms or more that are well typed at the goal have it.
    TwoWays,
}

impl From<AllocError> for TextFault {
    ghost use Rattle.java_resolve.specs.declared.fault.TextFault.TheVariants as fault;

    ghost from_gives = { λ _ e. e ≡ fault.OutOfMemory };

    fn from(_: AllocError) -> TextFault {
        TextFault::OutOfMemory
    }
}

/// The fault of a text that isn't read.
pub fn text_fault(fault: ReadFault) -> TextFault
    ensures { result ≡ text_fault fault }
{
    match fault {
        ReadFault::OutOfMemory => TextFault::OutOfMemory,
        ReadFault::Syntax(at) => TextFault::Syntax(at),
    }
}
