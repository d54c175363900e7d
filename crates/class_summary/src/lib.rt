// How summaries of classes are made, from class files and from source texts, and what the names in a source
// text denote. The main definitions are `summary_of`, the summary of a class file's shape, and `denoted_type`,
// the erased type that a type of a source text denotes. It stands on `known_classes`, whose summaries it hands
// on, on `class_shape` and on `java_units`.
#![tactic(auto)]

mod bound_order;
mod denoted_types;
mod ends;
mod paths;
mod resolver;
mod rules;
mod shape;
mod single_imports;
mod source;
mod unit_ends;
mod unit_names;
mod variable_names;
mod variables;

pub use known_classes::{
    ClassSummary, Classes, FieldSummary, Merged, MethodSummary, Nesting, canonical_names,
};
pub use paths::{around, canonical_name, internal_name, joined};
pub use resolver::{Resolver, from_unit, resolve_name};
pub use shape::from_shape;
