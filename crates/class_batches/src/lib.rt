// Class files in batches. A batch holds the bytes of loaded files under their numbers, up to 4,096 files or 268,435,456
// bytes; all of them are parsed at once by as many threads as there are processors. The main definition is
// `first_broken`: the first file that is no class file, which is what reading them one by one would answer. It stands
// on the readers of class files, and knows nothing of where the bytes come from.
#![tactic(auto)]

mod batch;
mod fault;
mod files;
mod parsing;

pub use batch::Batch;
pub use fault::BatchFault;
pub use files::{LONGEST_FILE, LoadedFile};

#[cfg(test)]
mod tests;
