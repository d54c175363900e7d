ghost use Rattle.std.specs.Prelude.{◌≡◌, ◌++◌, true, OnOk, drop, length};
ghost use Rattle.terms.specs.Typing.{fits, rows};
ghost use Rattle.terms.specs.Text.{printed, call_text};
ghost use Rattle.terms.specs.View.{args_view};
ghost use Rattle.java_print.specs.Pieces.{at_place, suits_place, first_text};

use crate::printer::Printer;
use crate::printing::print_term;
use crate::scope::type_of;
use crate::words::{print_cast, separator};
use lists::Text;
use std::alloc::AllocError;
use terms::{Arg, Decl, Parts, TermArg};

/// Writes one argument at its place, with its cast.
#[cycle(printing)]
#[tactic(auto, using(crate::proofs::Equations::printing))]
pub fn print_argument(
    printer: &Printer<'_>,
    parts: &Parts,
    crowded: bool,
    arg: &TermArg,
    wanted: &Arg,
    out: &mut Text,
) -> Result<(), AllocError>
    requires typed { suits_place parts.now (rows printer.now.ctx) arg.now wanted.now ≡ true }
    ensures { OnOk result (out.new ≡ out.old ++ first_text (at_place parts.now (rows printer.now.ctx) crowded arg.now wanted.now)) }
{
    match arg {
        TermArg::Plain(term) => match wanted {
            Arg::Plain(wanted) => {
                print_cast(parts, crowded, type_of(printer, parts, term), *wanted, out)?;
                print_term(printer, parts, term, out)?;
                Ok(())
            }
            Arg::Fun(_, _) => Ok(()),
        },
        TermArg::Lam(body) => match wanted {
            Arg::Fun(params, wanted) => {
                let inner = (&*printer).under(params.as_slice());
                print_cast(parts, crowded, type_of(&inner, parts, body), *wanted, out)?;
                print_term(&inner, parts, body, out)?;
                Ok(())
            }
            Arg::Plain(_) => Ok(()),
        },
    }
}

/// Writes the arguments from the one with number `from` on, in their brackets.
#[cycle(printing)]
pub fn print_arguments(
    printer: &Printer<'_>,
    parts: &Parts,
    decl: &Decl,
    args: &[TermArg],
    from: usize,
    out: &mut Text,
) -> Result<(), AllocError>
    requires typed { fits parts.now (rows printer.now.ctx) (args_view args.now) decl.now.args ≡ true }
    requires rest { fits parts.now (rows printer.now.ctx) (args_view (drop from args.now)) (drop from decl.now.args) ≡ true }
    ensures { OnOk result (out.new ≡ out.old ++ call_text (printed parts.now (rows printer.now.ctx) decl.now.crowded (args_view (drop from args.now)) (drop from decl.now.args))) }
{
    let wanted = decl.args.as_slice();
    out.push_str("(")?;
    for i in from..args.len() {
        out.push_str(separator(i == from))?;
        print_argument(printer, parts, decl.crowded, &args[i], &wanted[i], out)?;
    }
    out.push_str(")")?;
    Ok(())
}
