// The succinct types of an environment: what its declarations and pairs want, with the order and the number
// of equal wants left out, and which declarations and pairs have each succinct type. Its main definition is
// `IsCompression`; sets as rising lists stand in `specs/Sets.antt`. It stands on `terms`, `lists` and the
// kit's `indexmap`.
#![tactic(auto)]

mod compressed;
mod compressing;
mod kind;
mod need;
mod numbering;
mod rows;
mod sets;
mod tables;

pub use compressed::Compressed;
pub use kind::Succinct;
pub use need::Need;
pub use numbering::number_of;
pub use rows::Rows;
pub use sets::{make_set, set_of};

#[cfg(test)]
mod tests;
