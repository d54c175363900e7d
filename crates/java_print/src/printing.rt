ghost use Rattle.std.specs.Prelude.{◌≡◌, ◌≢◌, ◌++◌, true, None, OnOk, IfOk, length, []};
ghost use Rattle.terms.specs.Typing.{type_in, fits, rows, joined};
ghost use Rattle.terms.specs.Text.{text_in, text_of, printed, form_text, method_text, field_text, lambda_text, binders_text, parameters};
ghost use Rattle.terms.specs.View.{expr, args_view};

use crate::arguments::{print_argument, print_arguments};
use crate::printer::Printer;
use crate::receivers::print_receiver;
use crate::words::{parameters, print_binders, print_variable};
use lists::Text;
use std::alloc::{AllocError, Global};
use terms::{Arg, Ctx, Decl, Env, Form, Parts, Term, TermArg};

/// The bytes that a text has room for from the start; most texts of calls have about as many.
const ROOM: usize = 64;

/// The Java text of a term, in UTF-8 (Java Language Specification, chapters 6 and 15). A coercion is
/// written as a cast only at the places of a declaration that asks for it.
pub fn text(alloc: Global, env: &Env, term: &Term) -> Result<Text, AllocError>
    requires typed { type_in env.now [] (expr term.now) ≢ None }
    ensures text { IfOk result (λ text. text ≡ text_of env.now (expr term.now)) }
{
    let mut out = Text::from_string(String::with_capacity(alloc, ROOM)?);
    let printer = Printer {
        alloc,
        ctx: Ctx::empty(),
    };
    print_term(&printer, env.parts(), term, &mut out)?;
    Ok(out)
}

/// Writes a term.
#[cycle(printing)]
#[tactic(auto, using(crate::proofs::Equations::printing))]
pub fn print_term(
    printer: &Printer<'_>,
    parts: &Parts,
    term: &Term,
    out: &mut Text,
) -> Result<(), AllocError>
    requires typed { type_in parts.now (rows printer.now.ctx) (expr term.now) ≢ None }
    ensures { OnOk result (out.new ≡ out.old ++ text_in parts.now (rows printer.now.ctx) (expr term.now)) }
{
    match term {
        Term::Var(n) => print_variable(printer.alloc, parts, *n as u64, out),
        Term::Head(d, args) => match parts.decls.get(*d as usize) {
            Some(decl) => print_declared(printer, parts, decl, args.as_slice(), out),
            None => Ok(()),
        },
    }
}

/// Writes a declaration with its arguments.
#[cycle(printing)]
#[tactic(auto, using(crate::proofs::Equations::printing))]
fn print_declared(
    printer: &Printer<'_>,
    parts: &Parts,
    decl: &Decl,
    args: &[TermArg],
    out: &mut Text,
) -> Result<(), AllocError>
    requires typed { fits parts.now (rows printer.now.ctx) (args_view args.now) decl.now.args ≡ true }
    ensures { OnOk result (out.new ≡ out.old ++ form_text decl.now.form
        (binders_text parts.now (length (joined (rows printer.now.ctx))) (parameters decl.now.args))
        (printed parts.now (rows printer.now.ctx) decl.now.crowded (args_view args.now) decl.now.args)) }
{
    match &decl.form {
        Form::Name(name) => out.push_str(name.as_str()),
        Form::This => out.push_str("this"),
        Form::Call(name) => {
            out.push_str(name.as_str())?;
            print_arguments(printer, parts, decl, args, 0, out)
        }
        Form::New(name) => {
            out.push_str("new ")?;
            out.push_str(name.as_str())?;
            print_arguments(printer, parts, decl, args, 0, out)
        }
        Form::Method(name) => print_method(printer, parts, decl, args, name, out),
        Form::Field(name, hidden) => print_field(printer, parts, decl, args, name, *hidden, out),
        Form::Lambda(name) => print_lambda(printer, parts, decl, args, name, out),
    }
}

/// Writes a method with its receiver and its arguments.
#[cycle(printing)]
#[tactic(auto, using(crate::proofs::Equations::printing))]
fn print_method(
    printer: &Printer<'_>,
    parts: &Parts,
    decl: &Decl,
    args: &[TermArg],
    name: &Text,
    out: &mut Text,
) -> Result<(), AllocError>
    requires typed { fits parts.now (rows printer.now.ctx) (args_view args.now) decl.now.args ≡ true }
    ensures { OnOk result (out.new ≡ out.old ++ method_text name.now (printed parts.now (rows printer.now.ctx) decl.now.crowded (args_view args.now) decl.now.args)) }
{
    if args.is_empty() {
        return Ok(());
    }
    print_receiver(printer, parts, decl, args, false, out)?;
    out.push_str(name.as_str())?;
    print_arguments(printer, parts, decl, args, 1, out)?;
    Ok(())
}

/// Writes a field with its receiver. `hidden` keeps a receiver `this`.
#[cycle(printing)]
#[tactic(auto, using(crate::proofs::Equations::printing))]
fn print_field(
    printer: &Printer<'_>,
    parts: &Parts,
    decl: &Decl,
    args: &[TermArg],
    name: &Text,
    hidden: bool,
    out: &mut Text,
) -> Result<(), AllocError>
    requires typed { fits parts.now (rows printer.now.ctx) (args_view args.now) decl.now.args ≡ true }
    ensures { OnOk result (out.new ≡ out.old ++ field_text name.now hidden (printed parts.now (rows printer.now.ctx) decl.now.crowded (args_view args.now) decl.now.args)) }
{
    if args.is_empty() {
        return Ok(());
    }
    print_receiver(printer, parts, decl, args, hidden, out)?;
    out.push_str(name.as_str())?;
    Ok(())
}

/// Writes a lambda: its interface in brackets, its binders, its body.
#[cycle(printing)]
#[tactic(auto, using(crate::proofs::Equations::printing))]
fn print_lambda(
    printer: &Printer<'_>,
    parts: &Parts,
    decl: &Decl,
    args: &[TermArg],
    name: &Text,
    out: &mut Text,
) -> Result<(), AllocError>
    requires typed { fits parts.now (rows printer.now.ctx) (args_view args.now) decl.now.args ≡ true }
    ensures { OnOk result (out.new ≡ out.old ++ lambda_text name.now
        (binders_text parts.now (length (joined (rows printer.now.ctx))) (parameters decl.now.args))
        (printed parts.now (rows printer.now.ctx) decl.now.crowded (args_view args.now) decl.now.args)) }
{
    if args.is_empty() {
        return Ok(());
    }
    let wanted = decl.args.as_slice();
    out.push_str("(")?;
    out.push_str(name.as_str())?;
    out.push_str(") (")?;
    print_binders(
        printer.alloc,
        parts,
        printer.ctx.variables() as u64,
        parameters(wanted) as u64,
        out,
    )?;
    out.push_str(") -> ")?;
    print_argument(printer, parts, decl.crowded, &args[0], &wanted[0], out)?;
    Ok(())
}
