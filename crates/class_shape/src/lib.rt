// The shape of a class file (JVMS chapter 4): its version, names, members and `InnerClasses`. The main
// definition is the relation `IsClassFile bytes shape`, which splits the whole string into the spellings of
// its parts; `read_class` answers the one shape, or the first violation. It stands on `class_pool` and
// `type_names`.
#![tactic(auto)]

mod laws;
mod methods;
mod parts;
mod reader;
mod resolved;
mod resolved_lists;
mod shapes;
mod tables;
mod texts;
mod unread;

pub use laws::{fits_or_faults, layout_laws, one_shape};
pub use methods::method_attributes;
pub use parts::{AttributeAt, IndexAt, pass_attributes};
pub use reader::read_class;
pub use shapes::{ClassShape, InnerRow, MemberKind, MemberShape};
