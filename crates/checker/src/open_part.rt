ghost use Rattle.std.specs.Prelude.{◌≤◌};

use terms::{Arg, Ctx};

/// A part of a term that is being read.
#[derive(Drop)]
pub(crate) struct OpenPart<'a> {
    pub(crate) ctx: Ctx<'a>,
    /// How many more lambdas may nest in it.
    pub(crate) left: u32,
    /// The arguments of its head that are still to come.
    pub(crate) wanted: &'a [Arg],
    /// The sum of weights at which it ends.
    pub(crate) end: u64,
    ghost few_rows: { ctx.used ≤ 3 },
}

/// Where a part is wanted.
#[derive(Drop)]
pub(crate) struct Spot<'a> {
    pub(crate) ctx: Ctx<'a>,
    pub(crate) left: u32,
    pub(crate) wanted: u32,
    /// What the binders of its lambda weigh.
    pub(crate) binders: u128,
    ghost few_rows: { ctx.used ≤ 3 },
}

/// The head of a part: the type that it gives, what it weighs itself, and the arguments that it wants.
#[derive(Drop)]
pub(crate) struct Head<'a> {
    pub(crate) result: u32,
    pub(crate) weight: u32,
    pub(crate) args: &'a [Arg],
}
