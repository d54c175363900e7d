// Declarations and pairs by their numbers.

ghost use Rattle.std.specs.Prelude.{◌≡◌, ◌<◌, length, slice_get, Some};

use terms::{Decl, Parts};

/// The declaration with a number.
pub(crate) fn decl_at(parts: &Parts, number: usize) -> &Decl
    requires in_range { number < length parts.now.decls }
    ensures stands { slice_get parts.now.decls number ≡ Some result.now }
{
    &parts.decls.as_slice()[number]
}

/// The pair with a number.
pub(crate) fn pair_at(parts: &Parts, number: usize) -> (u32, u32)
    requires in_range { number < length parts.now.pairs }
    ensures stands { slice_get parts.now.pairs number ≡ Some result }
{
    parts.pairs.as_slice()[number]
}
