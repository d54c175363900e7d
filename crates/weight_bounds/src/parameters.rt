// The types that lambdas of an environment bind.

ghost use Rattle.std.specs.Prelude.{◌≡◌, ◌++◌, IfOk, OnOk};
ghost use Rattle.std.specs.List.{flat_map};
ghost use Rattle.terms.specs.declared.parts.Decl.{Decl};
ghost use Rattle.weight_bounds.specs.Relaxed.{parameters, parameters_in, parameters_of};

use std::alloc::{AllocError, Global};
use terms::{Arg, Decl, Parts};

/// The types of the parameters of a lambda that is wanted.
fn parameters_of(arg: &Arg) -> &[u32]
    ensures value { result.now ≡ parameters_of arg.now }
{
    match arg {
        Arg::Plain(_) => &[],
        Arg::Fun(params, _) => params.as_slice(),
    }
}

/// Adds the types of the parameters of the lambdas among the arguments.
fn add_parameters(types: &mut Vec<u32>, args: &[Arg]) -> Result<(), AllocError>
    ensures added { OnOk result (types.new.items ≡ types.old.items ++ parameters_in args.now) }
{
    for arg in args {
        types.extend_from_slice(parameters_of(arg))?;
    }
    Ok(())
}

/// Adds the types of the parameters of the lambdas that declarations want.
fn add_all(types: &mut Vec<u32>, decls: &[Decl]) -> Result<(), AllocError>
    ensures added { OnOk result (types.new.items ≡ types.old.items ++ flat_map (λ (d : Decl). parameters_in d.args) decls.now) }
{
    for decl in decls {
        add_parameters(types, decl.args.as_slice())?;
    }
    Ok(())
}

/// The types of the parameters of all lambdas, one for each parameter.
pub(crate) fn parameters(alloc: Global, parts: &Parts) -> Result<Vec<u32>, AllocError>
    ensures value { IfOk result (λ types. types.items ≡ parameters parts.now) }
{
    let mut types = Vec::new(alloc);
    add_all(&mut types, parts.decls.as_slice())?;
    Ok(types)
}
