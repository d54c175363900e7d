// The start of a server: the class files that a start text names, as the first version. The main definitions
// are `IsStart`, which classes a text and the files of its paths give, and `IsFaultOf`, what is wrong with them
// first. It stands on `version_board`, on `class_batches`, and on the shelves of `outside`.
#![tactic(auto)]

mod batches;
mod class_files;
mod fault;
mod start;
mod text;

pub use batches::Batches;
pub use class_files::{load_file, shape_of};
pub use fault::StartFault;
pub use start::read_start;
pub use text::read_text;
