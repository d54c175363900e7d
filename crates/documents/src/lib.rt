// The texts of open documents. A document is a text that changes are applied to; places in it are lines
// and UTF-16 units, as the Language Server Protocol counts them. The main definitions are `document_after`,
// the text after changes, and `offset_of` and `position_of`, its places. It stands on `lists` and the kit's
// `memchr`.
#![tactic(auto)]

mod change;
mod document;
mod lines;
mod starts;
mod text;

pub use change::{EditFault, TextChange};
pub use document::Document;

#[cfg(test)]
mod tests;
