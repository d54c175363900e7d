ghost use Rattle.std.specs.Prelude.{◌≡◌};
ghost use Rattle.serving.specs.Runs.{status_of};
ghost use Rattle.serving.specs.Counts.{counting_status};
ghost use Rattle.serving.specs.Samplings.{sampling_status};
ghost use Rattle.serving.specs.Services.{Tells, serving_status};

use counting::Counting;
use samples::Sampling;
use sessions::Ended;
use sheet_runs::Ending;
use start_text::StartFault;
use statuses::Status;

/// How a run of `serve` ended.
#[derive(Clone, Copy, Debug)]
pub enum Serving {
    /// Sessions were served: the end whose session has the greatest code, the first one of several, and how that ended.
    Sessions(u32, Ended),
    /// No session began: the line of the start text, 0 for the text itself and for the change of all its files, and
    /// the number of the cause.
    NotStarted(u32, u32),
    /// No session began, since the shelf failed.
    ShelfFault,
    /// No session began, since memory was wanting.
    OutOfMemory,
}

impl Serving {
    /// What a fault of the start ends a run by.
    pub(crate) fn of_fault(fault: &StartFault) -> Serving
        ensures { Tells fault.now result }
    {
        if let StartFault::Failed = fault {
            return Serving::ShelfFault;
        }
        match fault.number() {
            Some(cause) => Serving::NotStarted(fault.place(), cause),
            None => Serving::OutOfMemory,
        }
    }
}

/// The status of a run of `list` or `upgrade`.
#[tactic(auto, unfolding(crate::specs::Runs::status_of))]
pub fn of_sheet_run(ending: Ending) -> Status
    ensures { result ≡ status_of ending }
{
    match ending {
        Ending::Whole => Status::plain(0),
        Ending::NotSheet(line, cause) => Status {
            code: 3,
            end: 0,
            place: line as u64,
            cause,
        },
        Ending::ReadFault => Status::plain(4),
        Ending::WriteFault => Status::plain(5),
        Ending::OutOfMemory => Status::plain(6),
    }
}

/// The status of a run of `serve`.
#[tactic(auto, unfolding(crate::specs::Services::serving_status))]
pub fn of_serving(serving: Serving) -> Status
    ensures { result ≡ serving_status serving }
{
    match serving {
        Serving::Sessions(end, ended) => Status {
            code: ended.code,
            end,
            place: ended.place,
            cause: ended.cause,
        },
        Serving::NotStarted(line, cause) => Status::wrong_start(line, cause),
        Serving::ShelfFault => Status::plain(4),
        Serving::OutOfMemory => Status::plain(6),
    }
}

/// The status of a run of `count`.
#[tactic(auto, unfolding(crate::specs::Counts::counting_status))]
pub fn of_counting(counting: Counting) -> Status
    ensures { result ≡ counting_status counting }
{
    match counting {
        Counting::Whole => Status::plain(0),
        Counting::NotStarted(line, cause) => Status::wrong_start(line, cause),
        Counting::ShelfFault => Status::plain(4),
        Counting::WriteFault => Status::plain(5),
        Counting::OutOfMemory => Status::plain(6),
    }
}

/// The status of a run of `sample`.
#[tactic(auto, unfolding(crate::specs::Samplings::sampling_status))]
pub fn of_sampling(sampling: Sampling) -> Status
    ensures { result ≡ sampling_status sampling }
{
    match sampling {
        Sampling::Whole => Status::plain(0),
        Sampling::WriteFault => Status::plain(5),
        Sampling::OutOfMemory => Status::plain(6),
    }
}
