ghost use Rattle.std.specs.Prelude.{◌≡◌, ◌≢◌, ◌++◌, ◌&&◌, not, true, OnOk, []};
ghost use Rattle.terms.specs.Typing.{fits, rows};
ghost use Rattle.terms.specs.Text.{printed};
ghost use Rattle.terms.specs.View.{args_view};
ghost use Rattle.java_print.specs.Pieces.{at_place, suits_place, is_first_bare, is_first_bracketed, owner_text};

use crate::arguments::print_argument;
use crate::printer::Printer;
use crate::scope::type_of;
use crate::words::{is_cast, is_lambda, is_this};
use lists::Text;
use std::alloc::AllocError;
use terms::{Arg, Decl, Parts, TermArg};

/// Whether an argument is `this` without a cast.
#[tactic(auto, using(crate::proofs::Equations::printing))]
fn is_bare(printer: &Printer<'_>, parts: &Parts, crowded: bool, arg: &TermArg, wanted: &Arg) -> bool
    requires typed { suits_place parts.now (rows printer.now.ctx) arg.now wanted.now ≡ true }
    ensures { result ≡ is_first_bare (at_place parts.now (rows printer.now.ctx) crowded arg.now wanted.now) }
{
    match arg {
        TermArg::Plain(term) => match wanted {
            Arg::Plain(wanted) => {
                if !is_this(parts, term) {
                    return false;
                }
                !is_cast(crowded, type_of(printer, parts, term), *wanted)
            }
            Arg::Fun(_, _) => false,
        },
        TermArg::Lam(_) => false,
    }
}

/// Whether an argument, as a receiver, isn't printed: it is a bare `this` that isn't kept.
fn is_left_out(
    printer: &Printer<'_>,
    parts: &Parts,
    crowded: bool,
    arg: &TermArg,
    wanted: &Arg,
    keeps_this: bool,
) -> bool
    requires typed { suits_place parts.now (rows printer.now.ctx) arg.now wanted.now ≡ true }
    ensures { result ≡ is_first_bare (at_place parts.now (rows printer.now.ctx) crowded arg.now wanted.now) && not keeps_this }
{
    if keeps_this {
        return false;
    }
    is_bare(printer, parts, crowded, arg, wanted)
}

/// Whether an argument, as a receiver, stands in brackets: where it is cast or is a lambda.
#[tactic(auto, using(crate::proofs::Equations::printing))]
fn is_bracketed(
    printer: &Printer<'_>,
    parts: &Parts,
    crowded: bool,
    arg: &TermArg,
    wanted: &Arg,
) -> bool
    requires typed { suits_place parts.now (rows printer.now.ctx) arg.now wanted.now ≡ true }
    ensures { result ≡ is_first_bracketed (at_place parts.now (rows printer.now.ctx) crowded arg.now wanted.now) }
{
    match arg {
        TermArg::Plain(term) => match wanted {
            Arg::Plain(wanted) => {
                if is_lambda(parts, term) {
                    return true;
                }
                is_cast(crowded, type_of(printer, parts, term), *wanted)
            }
            Arg::Fun(_, _) => false,
        },
        TermArg::Lam(body) => match wanted {
            Arg::Fun(params, wanted) => is_cast(
                crowded,
                type_of(&(&*printer).under(params.as_slice()), parts, body),
                *wanted,
            ),
            Arg::Plain(_) => false,
        },
    }
}

/// Writes the first argument as a receiver, with its dot. A bare `this` is left out, unless it is kept.
#[cycle(printing)]
pub fn print_receiver(
    printer: &Printer<'_>,
    parts: &Parts,
    decl: &Decl,
    args: &[TermArg],
    keeps_this: bool,
    out: &mut Text,
) -> Result<(), AllocError>
    requires some { args.now ≢ [] }
    requires typed { fits parts.now (rows printer.now.ctx) (args_view args.now) decl.now.args ≡ true }
    ensures { OnOk result (out.new ≡ out.old ++ owner_text keeps_this (printed parts.now (rows printer.now.ctx) decl.now.crowded (args_view args.now) decl.now.args)) }
{
    let wanted = decl.args.as_slice();
    print_owner(
        printer,
        parts,
        decl.crowded,
        &args[0],
        &wanted[0],
        keeps_this,
        out,
    )?;
    Ok(())
}

/// Writes one argument as a receiver, with its dot.
#[cycle(printing)]
#[tactic(auto, using(crate::proofs::Equations::printing))]
fn print_owner(
    printer: &Printer<'_>,
    parts: &Parts,
    crowded: bool,
    arg: &TermArg,
    wanted: &Arg,
    keeps_this: bool,
    out: &mut Text,
) -> Result<(), AllocError>
    requires typed { suits_place parts.now (rows printer.now.ctx) arg.now wanted.now ≡ true }
    ensures { OnOk result (out.new ≡ out.old ++ owner_text keeps_this (at_place parts.now (rows printer.now.ctx) crowded arg.now wanted.now)) }
{
    if is_left_out(printer, parts, crowded, arg, wanted, keeps_this) {
        return Ok(());
    }
    if is_bracketed(printer, parts, crowded, arg, wanted) {
        out.push_str("(")?;
        print_argument(printer, parts, crowded, arg, wanted, out)?;
        out.push_str(").")?;
        return Ok(());
    }
    print_argument(printer, parts, crowded, arg, wanted, out)?;
    out.push_str(".")?;
    Ok(())
}
