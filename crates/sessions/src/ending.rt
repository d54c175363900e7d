ghost use Rattle.std.specs.Prelude.{◌≡◌};
ghost use Rattle.sessions.specs.Served.{status_of, fault_status};

use json_rpc::FrameFault;

/// How a session ended.
#[derive(Clone, Copy, Debug)]
pub enum Ending {
    /// `exit` was read; it tells whether `shutdown` was answered before.
    Exit(bool),
    /// The input ended between two frames.
    Input,
    /// The frames ended by this fault.
    Frames(FrameFault),
    /// A reply couldn't be written.
    Sink,
    /// Memory was wanting where nothing could be replied.
    Memory,
}

/// The status of a session: 0 after `shutdown` and `exit`, 1 after an `exit` or the end of the input without it, 3 for
/// a fault in the frames, with the place in bytes from the session's start (for a length that is too great, the
/// length) and the fault's number, 4 for a failed read, 5 for a failed write, 6 for want of memory, 7 where a byte past
/// the first 2^40 was needed.
#[derive(Clone, Copy, Debug)]
pub struct Ended {
    pub code: u8,
    pub place: u64,
    pub cause: u32,
}

/// The status of a fault of frames.
fn fault_status(fault: FrameFault) -> Ended
    ensures { result ≡ fault_status fault }
{
    match fault {
        FrameFault::Header(place) => placed_status(place, 1),
        FrameFault::NoLength(place) => placed_status(place, 2),
        FrameFault::TooLong(length) => placed_status(length, 3),
        FrameFault::Cut(place) => placed_status(place, 4),
        FrameFault::ReadFault => plain_status(4),
        FrameFault::Budget => plain_status(7),
        FrameFault::OutOfMemory => plain_status(6),
    }
}

/// The status of a fault in the bytes.
fn placed_status(place: u64, cause: u32) -> Ended
    ensures { result ≡ record { code = 3; place = place; cause = cause } }
{
    Ended {
        code: 3,
        place,
        cause,
    }
}

/// A status without a place.
fn plain_status(code: u8) -> Ended
    ensures { result ≡ record { code = code; place = 0; cause = 0 } }
{
    Ended {
        code,
        place: 0,
        cause: 0,
    }
}

impl Ending {
    /// The status that tells it.
    pub fn status(self) -> Ended
        ensures { result ≡ status_of self }
    {
        match self {
            Ending::Exit(true) => plain_status(0),
            Ending::Exit(false) => plain_status(1),
            Ending::Input => plain_status(1),
            Ending::Frames(fault) => fault_status(fault),
            Ending::Sink => plain_status(5),
            Ending::Memory => plain_status(6),
        }
    }
}
