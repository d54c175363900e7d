ghost use Rattle.std.specs.Prelude.{◌≡◌};
ghost use Rattle.offers.specs.Scenes.{same_type};
ghost use Rattle.offers.specs.Omissions.{same_types};

use type_names::Erased;

/// Whether two types are the same.
pub(crate) fn same_type(a: &Erased, b: &Erased) -> bool
    ensures { result ≡ same_type a.now b.now }
{
    a.same(b)
}

/// Whether the types of two lists are the same, one by one.
pub(crate) fn same_types(a: &[Erased], b: &[Erased]) -> bool
    ensures { result ≡ same_types a.now b.now }
{
    if a.len() != b.len() {
        return false;
    }
    for i in 0..a.len() {
        if !same_type(&a[i], &b[i]) {
            return false;
        }
    }
    true
}
