ghost use Rattle.std.specs.Prelude.{◌≡◌};
ghost use Rattle.class_pool.specs.Causes.{cause_number};
ghost use Rattle.class_pool.specs.Reading.{no_memory};

use std::alloc::{AllocError, AllocFailed};

/// What is wrong with the bytes of a class file (JVMS 4.8, as far as a reader of shapes looks).
#[derive(Clone, Copy, Debug, PartialEq, Eq)]
pub enum ClassCause {
    /// The file ends within a part. The place is the file's length.
    Truncated,
    /// The first four bytes aren't `CAFEBABE`. The place is 0.
    Magic,
    /// The major version is below 45. The place is 6.
    Version,
    /// A tag of the pool that is in no table, or a Long or Double whose second place isn't below the
    /// count. The place is the tag's.
    Tag,
    /// A used index isn't a place of the pool with the needed tag. The place is the index's.
    Place,
    /// Bytes after the last attribute. The place is the first of them.
    Extra,
    /// The text of a field's or method's descriptor isn't one. The place is its index's.
    Descriptor,
    /// A name that can't be decoded, or a class name that isn't an internal name. The place is that of
    /// the index in the class's own part.
    Name,
    /// An `InnerClasses` attribute of a wrong length. The place is its length's.
    Attribute,
    /// Memory ran out. The place is 0, and says nothing about the bytes.
    OutOfMemory,
}

/// The first fault of a class file, and its place, counted in bytes from the file's first.
#[derive(Clone, Copy, Debug, PartialEq, Eq)]
pub struct ClassFault {
    pub at: u32,
    pub cause: ClassCause,
}

impl ClassCause {
    /// The number by which replies tell a cause; None for want of memory.
    pub fn number(self) -> Option<u32>
        ensures is { result ≡ cause_number self }
    {
        match self {
            ClassCause::Truncated => Some(1),
            ClassCause::Magic => Some(2),
            ClassCause::Version => Some(3),
            ClassCause::Tag => Some(4),
            ClassCause::Place => Some(5),
            ClassCause::Extra => Some(6),
            ClassCause::Descriptor => Some(7),
            ClassCause::Name => Some(8),
            ClassCause::Attribute => Some(9),
            ClassCause::OutOfMemory => None,
        }
    }
}

/// Memory ran out.
pub fn no_memory() -> ClassFault
    ensures is { result ≡ no_memory }
{
    ClassFault {
        at: 0,
        cause: ClassCause::OutOfMemory,
    }
}

impl From<AllocError> for ClassFault {
    ghost from_gives = { λ _ e. e ≡ no_memory };

    fn from(_e: AllocError) -> ClassFault {
        no_memory()
    }
}

impl<T: Drop> From<AllocFailed<T>> for ClassFault {
    ghost from_gives = { λ _ e. e ≡ no_memory };

    fn from(_e: AllocFailed<T>) -> ClassFault {
        no_memory()
    }
}
