// Writes class files (JVMS chapter 4). `write_class` answers, for a shape, the bytes of one class file of that
// shape by `class_shape`'s relation `IsClassFile`, so that reading gives the shape back. The main
// definition of its own is `file_of`: the least pool, each needed entry once in the order of first need, and
// then the parts. It stands on `class_shape`, `class_pool`, `type_names` and the kit's `indexmap`.
#![tactic(auto)]

mod checks;
mod fault;
mod modified;
mod needs;
mod parts;
mod plan;
mod pool;
mod sample;
mod writer;

pub use checks::is_whole;
pub use fault::WriteFault;
pub use sample::{Sample, make_sample};
pub use writer::write_class;
