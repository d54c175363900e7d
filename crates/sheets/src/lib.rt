// The format of sheets: an environment written as text, a line for each type, pair and declaration. The main
// definition is that of a sheet, `IsSheet`, with the first fault of what is none, `sheet_fault`; lines and words
// stand below it. The text of an environment's sheet, `sheet_text`, is a sheet of that environment. It stands on
// `terms`, `name_places`, `lists` and the kit's `itoa`.
#![tactic(auto)]

mod cause;
mod declaration;
mod kind;
mod number_lines;
mod places;
mod reading;
mod sheet;
mod words;
mod writing;

pub use reading::{SheetFault, read_sheet};
pub use writing::sheet_text;
