// What the program does: it reads a sheet, an environment written as text, and writes its list, or the sheet anew; or
// serves editors, each in a thread, where asked with workers that lengthen their listings ahead; or counts the uses in
// the class files of a start text; or tells a sample. The main definitions are `EndsBy` and `ServesBy`: what was read and written, by how a run ended (those of an upgrade, a count and
// a sample are `UpgradesBy` of `sheet_runs`, `CountsBy` of `counting` and `SamplesBy` of `samples`). It stands on
// `command_line`, whose `AskFor` says what the words ask for, and `statuses`, on `listing` over `reconstruction`,
// `sheet_runs` over `sheets`, `terms`, `lists`, on `sessions`, `prefetch`, `counting`, `samples` and `start_text`, and on `outside`.
#![tactic(auto)]

mod ahead;
mod command;
mod list;
mod seats;
mod service;
mod sharing;
mod status;

pub use ahead::work_ahead;
pub use command::{run, run_plain};
pub use command_line::{Command, Refused, UsageFault, client_names, read_command};
pub use sheet_runs::Ending;
pub use sheets::{SheetFault, read_sheet};
pub use status::Serving;
pub use statuses::Status;
