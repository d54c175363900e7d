// The structure of a Java source text: its package, imports and classes with their fields and methods.
// `read_unit` reads it from the tokens and refuses nothing: what isn't recognised gives nothing. The main
// definition is `IsUnit`: the text is cut into pieces, a table of forms says what each piece gives, and
// the block of a class is cut again. The reading of lexemes below it is public in `forms`, for those who
// read bodies; laws tie it to a grammar of types, parameters and type variables. It stands on `java_tokens`
// and `lists`.
#![tactic(auto)]

mod access;
mod class;
mod entries;
pub mod forms;
mod laws;
mod lexemes;
mod members;
mod names;
mod pieces;
mod reading;
mod starts;
mod table;
mod types;
mod unit;
mod values;
mod words;

pub use laws::{
    brackets_match, forms_are_read, identifier_laws, only_signs_count, params_are_longest,
    pieces_tile, types_are_longest, vars_are_longest,
};
pub use types::{
    ClassKind, Import, Param, SourceClass, SourceField, SourceMethod, TypeText, TypeVar, Unit,
};
pub use unit::read_unit;
