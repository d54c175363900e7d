ghost use Rattle.std.specs.Prelude.{◌≡◌, ◌++◌, ◌∷◌, [], OnOk, IfOk};
ghost use Rattle.terms.specs.View.{expr, args_view};
ghost use Rattle.terms.specs.Code.{prefix_code, args_code};

use lists::Items;
use std::alloc::{AllocError, Global};
use terms::{Term, TermArg};

/// The prefix code of a term: `2 n` for variable n, and `2 d + 1` for declaration d, before its arguments' codes.
pub fn code_of(alloc: Global, term: &Term) -> Result<Items<u64>, AllocError>
    ensures { IfOk result (λ code. code ≡ prefix_code (expr term.now)) }
{
    let mut code = Items::new(alloc);
    push_code(term, &mut code)?;
    Ok(code)
}

/// Adds the code of a term.
#[cycle(codes)]
#[tactic(auto, using(crate::proofs::Coded::coded))]
fn push_code(term: &Term, code: &mut Items<u64>) -> Result<(), AllocError>
    ensures { OnOk result (code.new ≡ code.old ++ prefix_code (expr term.now)) }
{
    match term {
        Term::Var(n) => {
            code.push(2 * *n as u64)?;
            Ok(())
        }
        Term::Head(d, args) => {
            code.push(2 * *d as u64 + 1)?;
            push_codes(args.as_slice(), code)?;
            Ok(())
        }
    }
}

/// Adds the codes of arguments, one after the other.
#[cycle(codes)]
#[tactic(auto, using(crate::proofs::Coded::coded))]
fn push_codes(args: &[TermArg], code: &mut Items<u64>) -> Result<(), AllocError>
    ensures { OnOk result (code.new ≡ code.old ++ args_code (args_view args.now)) }
{
    for i in 0..args.len() {
        push_arg_code(&args[i], code)?;
    }
    Ok(())
}

/// Adds the code of one argument.
#[cycle(codes)]
#[tactic(auto, using(crate::proofs::Coded::coded))]
fn push_arg_code(arg: &TermArg, code: &mut Items<u64>) -> Result<(), AllocError>
    ensures { OnOk result (code.new ≡ code.old ++ args_code (args_view (arg.now ∷ []))) }
{
    match arg {
        TermArg::Plain(term) => push_code(term, code),
        TermArg::Lam(body) => push_code(body, code),
    }
}
