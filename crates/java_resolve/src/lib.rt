// Reads the texts of Java expressions back. `read_shape` goes forward once over a text and answers its shape, or the
// length of the longest prefix with which an expression begins; `resolve` answers the one term that is well typed at
// an environment's goal and has the text. Main definitions are `IsShape` of `java_shapes`, the grammar of the texts
// that terms have, and `ResolvesTo`. It stands on `java_shapes`, `java_units`, `terms`, `name_places` and
// `number_places`.
#![tactic(auto)]

mod binder;
mod binders;
mod chars;
mod closing;
mod declared;
mod expressions;
mod fault;
mod found;
mod heads;
mod index;
mod known;
mod lambdas;
mod laws;
mod lengths;
mod links;
mod names;
mod nesting;
mod openings;
mod passing;
mod paths;
mod place;
mod readable;
mod reader;
mod readings;
mod resolution;
mod setting;
mod shape;
mod steps;
mod texts;
mod tree;
mod types;
mod variables;
mod word;

pub use fault::{ReadFault, TextFault};
pub use known::{may_read, read_known};
pub use laws::{piece_laws, resolve_laws};
pub use readable::may_resolve;
pub use reader::read_shape;
pub use resolution::resolve;
pub use shape::{Argument, Before, Shape};
pub use word::Word;
