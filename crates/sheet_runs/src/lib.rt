// A run over a sheet, one end: the reading of its environment, which `list` and `upgrade` share, and `upgrade` itself, which
// writes the sheet anew. The main definition is `EndsOver`: what was read and written, by how the run ended and by what is
// owed for the sheet's environment; `UpgradesBy` is that of `upgrade`. It stands on `sheets`, `terms`, `lists` and `outside`.
#![tactic(auto)]

mod command;
mod ending;
mod reading;

pub use command::upgrade;
pub use ending::Ending;
pub use reading::read_env;
