// Which erased types are strict subtypes of which, among known classes. The main definition is
// `IsStrictSubtype`, a path of direct steps; `Subtypes` answers it from the ancestors of each class, which it
// also lists. It stands on `known_classes`, `type_names`, `name_places`
// and `graphs`.
#![tactic(auto)]

mod merges;
mod subtypes;
mod supers;
mod widening;

pub use merges::merges_of_supers;
pub use subtypes::Subtypes;

#[cfg(test)]
mod tests;
