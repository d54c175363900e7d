// What is known of classes: the summary of a class, lists of classes under their names with others added to
// them, and canonical names. The main definition is `canonical`, the canonical name of a class among known
// ones (JLS 6.7); the trait `Classes` says what classes are known, by internal name, by canonical name, and by
// the class around them. It stands on `lists` and `type_names`, and knows neither class files nor Java text.
#![tactic(auto)]

mod canonical_tables;
mod canonical_text;
mod classes;
mod laws;
mod members;
mod merged;
mod name_tables;
mod nested;
mod outer_first;
mod parts;
mod summary;
mod tables;

pub use canonical_tables::{canonical_named, tables_of};
pub use classes::{ClassList, Classes};
pub use laws::{canonical_names, merges_of_names};
pub use merged::Merged;
pub use name_tables::NameTables;
pub use nested::same;
pub use summary::{ClassSummary, FieldSummary, MethodSummary, Nesting, copy_text};
pub use tables::{put, put_at};

#[cfg(test)]
mod tests;
