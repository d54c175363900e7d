ghost use Rattle.std.specs.Prelude.{◌≡◌, ◌≤◌, ◌+◌, nat_lt, if◌then◌else◌, IfSome, Some, None};
ghost use Rattle.terms.specs.View.{expr, args_view};
ghost use Rattle.terms.specs.Typing.{rows};
ghost use Rattle.terms.specs.Weights.{variable_weight, binder_weight, binders_weight, coercion_weight, step_in};
ghost use Rattle.terms.specs.Rating.{rated, rated_args, rated_arg, at_place, capped};

use crate::context::{Ctx, MOST_ROWS};
use crate::env::Env;
use crate::parts::Arg;
use crate::term::{Term, TermArg};

/// More than each weight that is told.
const CAP: u64 = 4_294_967_296;

/// The type of a term, and its weight up to `CAP`.
#[derive(Clone, Copy, Debug)]
pub(crate) struct Rating {
    pub(crate) result: u32,
    pub(crate) weight: u64,
}

/// The sum, up to the cap.
fn capped(a: u64, b: u64) -> u64
    requires a { a ≤ 4294967296 }
    requires b { b ≤ 4294967296 }
    ensures { result ≡ capped (a + b) }
{
    (a + b).min(CAP)
}

/// The weight, where it is below the cap.
pub(crate) fn told(weight: u64) -> Option<u32>
    ensures { result ≡ (if nat_lt weight 4294967296 then Some weight else None) }
{
    if weight < CAP {
        Some(weight as u32)
    } else {
        None
    }
}

impl Env {
    /// What a use of a variable weighs.
    #[tactic(auto, unfolding(crate::specs::Weights::variable_weight))]
    pub fn variable_weight(&self) -> u32
        ensures value { result ≡ variable_weight self.now }
    {
        self.parts().steps.bound
    }

    /// What a binder of a lambda weighs.
    #[tactic(auto, unfolding(crate::specs::Weights::binder_weight))]
    pub fn binder_weight(&self) -> u32
        ensures value { result ≡ binder_weight self.now }
    {
        self.parts().steps.binder
    }

    /// What a coercion weighs.
    #[tactic(auto, unfolding(crate::specs::Weights::coercion_weight))]
    pub fn coercion_weight(&self) -> u32
        ensures value { result ≡ coercion_weight self.now }
    {
        self.parts().steps.step
    }

    /// What the coercion from the one type to the other weighs: nothing where they are one.
    pub fn step(&self, from: u32, to: u32) -> u32
        ensures value { result ≡ step_in self.now (Some from) to }
    {
        if from == to {
            0
        } else {
            self.coercion_weight()
        }
    }

    /// What so many binders weigh together, however many they are.
    pub fn binders_weight(&self, count: usize) -> u128
        ensures value { result ≡ binders_weight self.now count }
    {
        count as u128 * self.binder_weight() as u128
    }

    /// The type and the weight of a term, in one walk.
    #[cycle(rate)]
    #[tactic(auto, using(crate::proofs::Ratings::rating))]
    pub(crate) fn rate(&self, ctx: &Ctx<'_>, term: &Term) -> Option<Rating>
        requires { ctx.now.used ≤ 3 }
        ensures exact { result ≡ rated self.now (rows ctx.now) (expr term.now) }
        ensures bound { IfSome result (λ r. r.weight ≤ 4294967296) }
    {
        match term {
            Term::Var(number) => match ctx.variable(*number) {
                Some(result) => Some(Rating {
                    result,
                    weight: self.variable_weight() as u64,
                }),
                None => None,
            },
            Term::Head(number, args) => match self.parts().decls.get(*number as usize) {
                Some(decl) => match self.rate_args(ctx, args.as_slice(), decl.args.as_slice()) {
                    Some(more) => Some(Rating {
                        result: decl.result,
                        weight: capped(decl.weight as u64, more),
                    }),
                    None => None,
                },
                None => None,
            },
        }
    }

    /// The weight of arguments at their places.
    #[cycle(rate)]
    #[tactic(auto, using(crate::proofs::Ratings::rating))]
    fn rate_args(&self, ctx: &Ctx<'_>, args: &[TermArg], wanted: &[Arg]) -> Option<u64>
        requires { ctx.now.used ≤ 3 }
        ensures exact { result ≡ rated_args self.now (rows ctx.now) (args_view args.now) wanted.now }
        ensures bound { IfSome result (λ sum. sum ≤ 4294967296) }
    {
        if args.len() != wanted.len() {
            return None;
        }
        let mut sum = 0;
        for i in 0..args.len() {
            match self.rate_arg(ctx, &args[i], &wanted[i]) {
                Some(more) => sum = capped(sum, more),
                None => return None,
            }
        }
        Some(sum)
    }

    /// The weight of one argument at its place.
    #[cycle(rate)]
    #[tactic(auto, using(crate::proofs::Ratings::rating))]
    fn rate_arg(&self, ctx: &Ctx<'_>, arg: &TermArg, wanted: &Arg) -> Option<u64>
        requires { ctx.now.used ≤ 3 }
        ensures exact { result ≡ rated_arg self.now (rows ctx.now) arg.now wanted.now }
        ensures bound { IfSome result (λ sum. sum ≤ 4294967296) }
    {
        match (arg, wanted) {
            (TermArg::Plain(term), Arg::Plain(to)) => self.at_place(self.rate(ctx, term), *to, 0),
            (TermArg::Lam(body), Arg::Fun(params, to)) => {
                if ctx.used == MOST_ROWS {
                    return None;
                }
                let found = self.rate(&ctx.with(params.as_slice()), body);
                let binders = self.binders_weight(params.len()).min(CAP as u128);
                self.at_place(found, *to, binders as u64)
            }
            _ => None,
        }
    }

    /// The weight of what was rated, where a type is wanted, under binders of this weight.
    fn at_place(&self, found: Option<Rating>, to: u32, binders: u64) -> Option<u64>
        requires rating { IfSome found (λ r. r.weight ≤ 4294967296) }
        requires binders { binders ≤ 4294967296 }
        ensures exact { result ≡ at_place self.now found to binders }
        ensures bound { IfSome result (λ sum. sum ≤ 4294967296) }
    {
        match found {
            Some(rating) => {
                if self.is_below(rating.result, to) {
                    let sum = capped(rating.weight, binders);
                    Some(capped(sum, self.step(rating.result, to) as u64))
                } else {
                    None
                }
            }
            None => None,
        }
    }
}
