// Tests that hold several crates side by side, each call under its own contract; there is no other code here.
// One way goes from a source text over its tokens, its unit and the summaries of its classes to the subtypes
// among them and the classes known before; another reads a class file from a real file; a third lists the terms
// of small environments by both searches. So no crate below stands on another for its tests alone.
#![tactic(auto)]

#[cfg(test)]
mod class_path_tests;
#[cfg(test)]
mod environments;
#[cfg(test)]
mod file_tests;
#[cfg(test)]
mod list_tests;
#[cfg(test)]
mod name_tests;
#[cfg(test)]
mod page_tests;
#[cfg(test)]
mod scope_tests;
#[cfg(test)]
mod source_tests;
#[cfg(test)]
mod sources;
#[cfg(test)]
mod subtype_tests;
#[cfg(test)]
mod unit_name_tests;
