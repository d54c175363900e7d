ghost use Rattle.std.specs.Prelude.{◌≡◌, ◌≢◌, None};
ghost use Rattle.terms.specs.Typing.{rows, type_in};
ghost use Rattle.terms.specs.View.{expr};

use crate::printer::Printer;
use terms::{Parts, Term};

/// The type of a term that has one: what its head gives.
#[tactic(auto, using(crate::proofs::Equations::printing))]
pub fn type_of(printer: &Printer<'_>, parts: &Parts, term: &Term) -> Option<u32>
    requires typed { type_in parts.now (rows printer.now.ctx) (expr term.now) ≢ None }
    ensures { result ≡ type_in parts.now (rows printer.now.ctx) (expr term.now) }
{
    match term {
        Term::Var(n) => printer.ctx.variable(*n),
        Term::Head(d, _) => match parts.decls.get(*d as usize) {
            Some(decl) => Some(decl.result),
            None => None,
        },
    }
}
