// What the classes that a text sees offer at a hole: types, subtype pairs, members and functional interfaces.
// `offered_members` answers them exactly. The main definition is `IsOffer`, by one definition for each step: which
// classes are offered, their candidates, what is left out, crowding, functional interfaces, types and pairs. It
// stands on `class_summary`, `subtyping`, `decl_index` and `java_bodies`.
#![tactic(auto)]

mod calls;
mod candidates;
mod crowds;
mod functional;
mod groups;
mod hashes;
mod hidden;
mod interfaces;
mod key_order;
mod laws;
mod member;
mod member_list;
mod mentioned;
mod names;
mod offer;
mod offered;
mod overrides;
mod pairs;
mod placed;
mod reach;
mod repeats;
mod spelling;
mod spellings;
mod texts;
mod types;
mod view;
mod written;

pub use calls::of_base;
pub use candidates::{copy_type, same_kind};
pub use crowds::Crowding;
pub use functional::faces;
pub use hidden::after_five;
pub use laws::one_scene;
pub use member::{Face, Kind, Member};
pub use mentioned::{mentions_void, string_type, types_of};
pub use names::{scope_names, taken_names};
pub use offer::{Offer, offered_members, own_summaries};
pub use offered::offered as offered_classes;
pub use overrides::after_three;
pub use pairs::pairs_of;
pub use reach::is_in_package;
pub use repeats::{is_static, value};
pub use spelling::{class_spelling, with_dims};
pub use spellings::Spellings;
pub use texts::is_among;
pub use view::{View, of_class};
pub use written::{owner_text, static_text};
