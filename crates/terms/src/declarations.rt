ghost use Rattle.std.specs.Prelude.{◌≡◌, ◌<◌, ◌^◌, length, nat_lt};
ghost use Rattle.std.specs.List.{list_all};
ghost use Rattle.terms.specs.Faults.{is_arg_known, are_plain, is_well_formed, decl_fault, decls_fault};

use crate::fault::EnvFault;
use crate::parts::{Arg, Decl, Form};

/// The first declaration that is at fault.
#[tactic(auto, unfolding(crate::specs::Faults::decls_fault))]
pub(crate) fn decls_fault(decls: &[Decl], types: usize) -> Option<EnvFault>
    requires few { length decls.now < 2 ^ 31 }
    ensures { result ≡ decls_fault types 0 decls.now }
{
    for i in 0..decls.len() {
        let fault = decl_fault(&decls[i], types, i as u32);
        if fault.is_some() {
            return fault;
        }
    }
    None
}

/// What is wrong with the declaration at this place.
#[tactic(auto, unfolding(crate::specs::Faults::decl_fault))]
fn decl_fault(decl: &Decl, types: usize, place: u32) -> Option<EnvFault>
    ensures { result ≡ decl_fault types place decl.now }
{
    if !are_args_known(decl.args.as_slice(), types) {
        return Some(EnvFault::TypeRange(place));
    }
    if decl.result as usize >= types {
        return Some(EnvFault::TypeRange(place));
    }
    if decl.weight < 5 {
        return Some(EnvFault::Weight(place));
    }
    if decl.weight > 10_000 {
        return Some(EnvFault::Weight(place));
    }
    if !is_well_formed(&decl.form, decl.args.as_slice()) {
        return Some(EnvFault::Form(place));
    }
    None
}

fn are_args_known(args: &[Arg], types: usize) -> bool
    ensures { result ≡ list_all (is_arg_known types) args.now }
{
    args.iter().all(|arg| is_arg_known(arg, types))
}

fn is_arg_known(arg: &Arg, types: usize) -> bool
    ensures { result ≡ is_arg_known types arg.now }
{
    match arg {
        Arg::Plain(wanted) => (*wanted as usize) < types,
        Arg::Fun(params, result) => {
            if !are_known(params.as_slice(), types) {
                return false;
            }
            (*result as usize) < types
        }
    }
}

fn are_known(params: &[u32], types: usize) -> bool
    ensures { result ≡ list_all (λ p. nat_lt p types) params.now }
{
    params.iter().all(|p| (*p as usize) < types)
}

/// Whether the arguments suit the form.
fn is_well_formed(form: &Form, args: &[Arg]) -> bool
    ensures { result ≡ is_well_formed form.now args.now }
{
    match form {
        Form::Name(_) => args.is_empty(),
        Form::This => args.is_empty(),
        Form::Call(_) => are_plain(args),
        Form::New(_) => are_plain(args),
        Form::Method(_) => {
            if args.is_empty() {
                return false;
            }
            are_plain(args)
        }
        Form::Field(_, _) => {
            if args.len() != 1 {
                return false;
            }
            are_plain(args)
        }
        Form::Lambda(_) => {
            if args.len() != 1 {
                return false;
            }
            !are_plain(args)
        }
    }
}

/// Whether no place wants a lambda.
fn are_plain(args: &[Arg]) -> bool
    ensures { result ≡ are_plain args.now }
{
    for arg in args {
        if matches!(arg, Arg::Fun(_, _)) {
            return false;
        }
    }
    true
}
