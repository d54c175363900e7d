ghost use Rattle.std.specs.Prelude.{◌≡◌, ◌++◌, length};

use crate::log::{Naming, Prefix};
use decl_index::{Change, ChangeFault};

/// What a publisher had seen when it answered: a journal of so many changes. It is made by `Publisher::publish`
/// alone.
#[derive(Drop)]
pub struct Receipt<J: Naming> {
    pub number: u32,
    pub prefix: Prefix<J>,
    ghost counted: { number ≡ length (J.first ++ prefix) },
}

/// A change that was refused, why, and the receipt of the journal on which this was decided.
#[derive(Drop)]
pub struct Refusal<J: Naming> {
    pub cause: ChangeFault,
    pub seen: Option<Receipt<J>>,
    pub change: Change,
}
