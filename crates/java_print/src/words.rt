ghost use Rattle.std.specs.Prelude.{◌≡◌, ◌++◌, ◌∷◌, ◌&&◌, ◌<◌, ◌+◌, ◌^◌, [], OnOk, map, length};
ghost use Rattle.std.specs.List.{range_with_len};
ghost use Rattle.terms.specs.Text.{variable_text, type_text, differs, cast_of, binders_text, is_this, is_lambda, head_decl, parameters};
ghost use Rattle.terms.specs.View.{expr};
ghost use Rattle.java_print.specs.Pieces.{separator, cast_text};

use lists::Text;
use std::alloc::{AllocError, Global};
use terms::{Arg, Form, Parts, Term};

/// What stands before a text of a list.
pub fn separator(first: bool) -> &'static str
    ensures { result.now ≡ separator first }
{
    if first { "" } else { ", " }
}

/// Writes a variable: the binder's text and the number in decimal.
pub fn print_variable(
    alloc: Global,
    parts: &Parts,
    n: u64,
    out: &mut Text,
) -> Result<(), AllocError>
    ensures { OnOk result (out.new ≡ out.old ++ variable_text parts.now n) }
{
    out.push_str(parts.binder.as_str())?;
    let digits = n.to_string(alloc)?;
    out.push_str(digits.as_str())
}

/// Writes the binders of a lambda, of which the first has the number `from`.
pub fn print_binders(
    alloc: Global,
    parts: &Parts,
    from: u64,
    count: u64,
    out: &mut Text,
) -> Result<(), AllocError>
    requires { from + count < 2 ^ 64 }
    ensures { OnOk result (out.new ≡ out.old ++ binders_text parts.now from count) }
{
    for k in 0..count {
        out.push_str(separator(k == 0))?;
        print_variable(alloc, parts, from + k, out)?;
    }
    Ok(())
}

/// The text of a type.
fn type_text(parts: &Parts, wanted: u32) -> &str
    ensures { result.now ≡ type_text parts.now wanted }
{
    match parts.types.get(wanted as usize) {
        Some(text) => text.as_str(),
        None => "",
    }
}

/// Whether a type is another one than the wanted one.
fn differs(found: Option<u32>, wanted: u32) -> bool
    ensures { result ≡ differs found wanted }
{
    match found {
        Some(found) => found != wanted,
        None => false,
    }
}

/// Whether a term of this type is cast to the wanted type.
pub fn is_cast(crowded: bool, found: Option<u32>, wanted: u32) -> bool
    ensures { result ≡ crowded && differs found wanted }
{
    if !crowded {
        return false;
    }
    differs(found, wanted)
}

/// Writes the cast of a term of this type to the wanted type, where one is printed.
pub fn print_cast(
    parts: &Parts,
    crowded: bool,
    found: Option<u32>,
    wanted: u32,
    out: &mut Text,
) -> Result<(), AllocError>
    ensures { OnOk result (out.new ≡ out.old ++ cast_text (cast_of parts.now crowded found wanted)) }
{
    if !is_cast(crowded, found, wanted) {
        return Ok(());
    }
    out.push_str("(")?;
    out.push_str(type_text(parts, wanted))?;
    out.push_str(") ")
}

/// Whether a term is `this`.
#[tactic(auto, using(crate::proofs::Equations::printing))]
pub fn is_this(parts: &Parts, term: &Term) -> bool
    ensures { result ≡ is_this (head_decl parts.now (expr term.now)) }
{
    match term {
        Term::Var(_) => false,
        Term::Head(d, _) => match parts.decls.get(*d as usize) {
            Some(decl) => matches!(decl.form, Form::This),
            None => false,
        },
    }
}

/// Whether a term is a lambda.
#[tactic(auto, using(crate::proofs::Equations::printing))]
pub fn is_lambda(parts: &Parts, term: &Term) -> bool
    ensures { result ≡ is_lambda (head_decl parts.now (expr term.now)) }
{
    match term {
        Term::Var(_) => false,
        Term::Head(d, _) => match parts.decls.get(*d as usize) {
            Some(decl) => matches!(decl.form, Form::Lambda(_)),
            None => false,
        },
    }
}

/// How many parameters the lambda at the first place has.
pub fn parameters(wanted: &[Arg]) -> usize
    ensures value { result ≡ parameters wanted.now }
    ensures small { result < 2 ^ 62 }
{
    match wanted.first() {
        Some(Arg::Fun(params, _)) => params.as_slice().len(),
        _ => 0,
    }
}
