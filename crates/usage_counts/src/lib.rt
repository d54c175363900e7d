// How often class files use each field, method and constructor (JVMS 4.4.2 and 6.5). The main definition is
// `AreUses bytes keys`: the keys that the instructions of a class file use, in file order. `count_file` adds a
// file's uses to `Counts`, or answers the first fault and leaves them as they were. It stands on `code_walk`,
// `class_shape`, `class_pool`, `type_names` and `lists`.
#![tactic(auto)]

mod additions;
mod code_members;
mod counting;
mod counts;
mod file_tallies;
mod members;
mod tallies;

pub use counting::count_file;
pub use counts::Counts;

#[cfg(test)]
mod tests;
