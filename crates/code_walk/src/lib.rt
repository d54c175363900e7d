// The code in class files and its instructions (JVMS 4.7.3 and 6.5). The main definition is the relation
// `AreInstructions start code list`: instructions that tile a method's code, each as long as the table of
// opcodes says at its place. `instructions` answers that one list, or the first place where none stands;
// `codes` answers where all code of a file stands. It stands on `class_shape`, `class_pool` and `byteorder`.
#![tactic(auto)]

mod code_attribute;
mod code_ranges;
#[cfg(test)]
mod code_tests;
mod fault;
mod laws;
mod lengths;
mod opcodes;
#[cfg(test)]
mod tests;
mod walk;

pub use code_ranges::codes;
pub use fault::{WalkCause, WalkFault};
pub use laws::{list_or_fault, one_fault, one_list};
pub use walk::{Instr, instructions};
