// Prints terms as Java source text, for a person to read and an editor to insert. The main definition is
// `text_of` of `terms`; `text` answers just that. It stands on `lists` and `terms`.
#![tactic(auto)]

mod arguments;
mod printer;
mod printing;
mod receivers;
mod scope;
mod words;

pub use printing::text;

#[cfg(test)]
mod tests;
