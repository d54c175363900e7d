ghost use Rattle.std.specs.Prelude.{◌≡◌};
ghost use Rattle.documents.specs.declared.change.EditFault.TheVariants.{OutOfMemory};

use lists::Text;
use std::alloc::AllocError;

/// Why a change is refused. The document is then as before.
#[derive(Clone, Copy, Debug, PartialEq, Eq)]
pub enum EditFault {
    /// A line of the range isn't in the document, or its end has a lesser offset than its start.
    Range,
    /// The new text would have this many bytes, more than 16 MiB.
    TooLong(u64),
    OutOfMemory,
}

impl From<AllocError> for EditFault {
    ghost from_gives = { λ _ e. e ≡ OutOfMemory };

    fn from(_e: AllocError) -> EditFault {
        EditFault::OutOfMemory
    }
}

/// A new text in place of a range, or of the whole text where it has none.
#[derive(Debug, Drop)]
pub struct TextChange {
    /// The start and the end, each a line and a UTF-16 unit of it, both counted from 0.
    pub range: Option<((u32, u32), (u32, u32))>,
    pub text: Text,
}
