ghost use Rattle.std.specs.Prelude.{◌≡◌, ◌≤◌, ◌<◌, ◌++◌, ◌∷◌, []};
ghost use Rattle.terms.specs.Typing.{rows};

use std::alloc::Global;
use terms::Ctx;

/// What a term hands down to its parts: where memory comes from, and the lambdas around them.
#[derive(Clone, Copy)]
pub struct Printer<'a> {
    pub alloc: Global,
    pub ctx: Ctx<'a>,
    ghost few_rows: { ctx.used ≤ 3 },
}

impl<'a> Printer<'a> {
    /// The printer for the body of a lambda with these parameters.
    pub fn under(self, params: &'a [u32]) -> Printer<'a>
        requires { self.ctx.used < 3 }
        ensures { rows result.ctx ≡ rows self.entry.ctx ++ params.entry.now ∷ [] }
    {
        Printer {
            alloc: self.alloc,
            ctx: self.ctx.with(params),
        }
    }
}
