ghost use Rattle.std.specs.Prelude.{◌≡◌};
ghost use Rattle.counting.specs.Faults.{fault_line, number_of, of_walk};
ghost use Rattle.counting.specs.declared.fault.CountFault.TheVariants.{Start};

use code_walk::{WalkCause, WalkFault};
use start_text::StartFault;

/// Why uses weren't counted. Lines are those of the start text, from 1.
#[derive(Debug, Drop)]
pub enum CountFault {
    /// As where a server starts: the text isn't there, too long or no UTF-8, or a file is no class file; or the
    /// shelf failed, or there was no memory.
    Start(StartFault),
    /// The file of this line is a class file, and this is wrong with its code.
    Code(u32, WalkFault),
}

impl CountFault {
    /// The line at which the fault is; 0 for the text as a whole, and for what is no fault of the text.
    pub fn place(&self) -> u32
        ensures line { result ≡ fault_line self.now }
    {
        match self {
            CountFault::Start(fault) => fault.place(),
            CountFault::Code(line, _) => *line,
        }
    }

    /// The number by which users are told what is wrong: that of a server's start, or 20 for the code of a file;
    /// None where the shelf failed or memory was wanting.
    pub fn number(&self) -> Option<u32>
        ensures number { result ≡ number_of self.now }
    {
        match self {
            CountFault::Start(fault) => fault.number(),
            CountFault::Code(_, _) => Some(20),
        }
    }
}

/// What is wrong with the code of the file of a line.
pub fn no_code(line: u32, fault: WalkFault) -> CountFault
    ensures { result ≡ of_walk line fault fault.cause }
{
    match fault.cause {
        WalkCause::OutOfMemory => CountFault::Start(StartFault::OutOfMemory),
        _ => CountFault::Code(line, fault),
    }
}

impl From<StartFault> for CountFault {
    ghost from_gives = { λ error fault. fault ≡ Start error };

    fn from(error: StartFault) -> CountFault {
        CountFault::Start(error)
    }
}
