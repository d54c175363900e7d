ghost use Rattle.std.specs.Prelude.{◌∷◌, []};
ghost use Rattle.java_shapes.specs.Readable.{AreShort, HasShortRows};

use terms::{Arg, Parts};

/// Looks at the length of a row, where one is wanted: it is in memory, so it is below 2 ^ 64.
fn short_arg(arg: &Arg)
    ensures { AreShort (arg.now ∷ []) }
{
    match arg {
        Arg::Plain(_) => (),
        Arg::Fun(row, _) => {
            let _length = row.len();
        }
    }
}

/// Looks at the lengths of the rows that a declaration wants.
fn short_args(args: &[Arg])
    ensures { AreShort args.now }
{
    for arg in args {
        short_arg(arg);
    }
}

/// Looks at the lengths of the rows of all lambdas.
pub fn short_rows(parts: &Parts)
    ensures { HasShortRows parts.now }
{
    for decl in parts.decls.as_slice() {
        short_args(decl.args.as_slice());
    }
}
