// The shapes of Java expressions: texts with their words told apart, and no declaration in them. The main
// definitions are `IsShape`, the grammar of the texts that terms have, `shape_in`, the shape of a term, and
// `step`, a reader that never goes back. It has laws alone: a term's text is its shape's text, one text has one
// shape at most, where declarations are told apart so are terms, and the reader is stuck just where no
// expression begins so. It stands on `terms`, `java_tokens`, `java_units` and `unicode_ident`.
#![tactic(auto)]

mod laws;

pub use laws::{apart_laws, reader_laws, shape_laws};

#[cfg(test)]
mod tests;
