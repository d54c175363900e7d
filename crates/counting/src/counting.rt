ghost use Rattle.counting.specs.Runs.{Tells};

use crate::fault::CountFault;
use start_text::StartFault;

/// How a run of `count` over one end ended.
#[derive(Clone, Copy, Debug, PartialEq, Eq)]
pub enum Counting {
    /// All files were counted, and all lines were written.
    Whole,
    /// Nothing was counted: the line of the start text, 0 for the text itself, and the number of the cause.
    NotStarted(u32, u32),
    /// The shelf failed.
    ShelfFault,
    /// The sink failed.
    WriteFault,
    OutOfMemory,
}

impl Counting {
    /// What a fault ends a run by.
    pub(crate) fn of_fault(fault: &CountFault) -> Counting
        ensures { Tells fault.now result }
    {
        if let CountFault::Start(StartFault::Failed) = fault {
            return Counting::ShelfFault;
        }
        match fault.number() {
            Some(cause) => Counting::NotStarted(fault.place(), cause),
            None => Counting::OutOfMemory,
        }
    }
}
