ghost use Rattle.std.specs.Prelude.{◌≤◌};

use crate::index::Index;
use terms::{Ctx, Env};

/// What an expression is read in: an environment, its declarations by their words, and the lambdas around.
#[derive(Clone, Copy)]
pub struct Setting<'a> {
    pub env: &'a Env,
    pub index: &'a Index,
    pub ctx: Ctx<'a>,
    ghost few_rows: { ctx.used ≤ 3 },
}
