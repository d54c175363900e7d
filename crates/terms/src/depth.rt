ghost use Rattle.std.specs.Prelude.{◌≡◌};
ghost use Rattle.terms.specs.View.{expr, args_view, arg};
ghost use Rattle.terms.specs.Expr.{no_args};
ghost use Rattle.terms.specs.Place.{shallow, args_shallow};

use crate::term::{Term, TermArg};

/// Whether lambdas nest at most this deep in a term.
#[cycle(depth)]
#[tactic(auto, using(crate::proofs::Depths::depths))]
pub(crate) fn is_shallow(term: &Term, left: u32) -> bool
    ensures { result ≡ shallow left (expr term.now) }
{
    match term {
        Term::Var(_) => true,
        Term::Head(_, args) => are_shallow(args.as_slice(), left),
    }
}

#[cycle(depth)]
#[tactic(auto, using(crate::proofs::Depths::depths))]
fn are_shallow(args: &[TermArg], left: u32) -> bool
    ensures { result ≡ args_shallow left (args_view args.now) }
{
    for arg in args {
        if !is_arg_shallow(arg, left) {
            return false;
        }
    }
    true
}

#[cycle(depth)]
#[tactic(auto, using(crate::proofs::Depths::depths))]
fn is_arg_shallow(argument: &TermArg, left: u32) -> bool
    ensures { result ≡ args_shallow left (arg argument.now no_args) }
{
    match argument {
        TermArg::Plain(term) => is_shallow(term, left),
        TermArg::Lam(body) => {
            if left == 0 {
                return false;
            }
            is_shallow(body, left - 1)
        }
    }
}
