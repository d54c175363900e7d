ghost use Rattle.std.specs.Prelude.{◌≡◌, ◌↔◌, ◌≤◌, ◌++◌, ◌∷◌, [], IsTrue, min, length, get_or, take, drop};
ghost use Rattle.std.specs.Option.{option_map};
ghost use Rattle.std.specs.Ordering.{nat_cmp};
ghost use Rattle.std.specs.Cmp.Lexicographic.{slice_cmp};
ghost use Rattle.std.specs.declared.cmp.Ordering.TheVariants.{Equal};
ghost use Rattle.type_names.specs.Descriptors.{base, field, name_of};

use crate::kinds::{Base, Erased};
use lists::Text;
use std::cmp::Ordering;

/// The name, where the base is a class.
fn class_name(kind: &Base) -> Option<&Text>
    ensures { option_map (λ name. name.now) result ≡ name_of kind.now }
{
    match kind {
        Base::Class(name) => Some(name),
        _ => None,
    }
}

/// The first byte of a base's spelling.
fn first_byte(kind: &Base) -> u8
    ensures { result ≡ get_or (base kind.now) 0 0 }
{
    match kind {
        Base::Byte => b'B',
        Base::Char => b'C',
        Base::Double => b'D',
        Base::Float => b'F',
        Base::Int => b'I',
        Base::Long => b'J',
        Base::Short => b'S',
        Base::Boolean => b'Z',
        Base::Class(_) => b'L',
    }
}

/// The order of two texts, each with a `;` after it, of which one is empty.
fn compare_ends(rest: &[u8], other: &[u8]) -> Ordering
    requires { min (length rest.now) (length other.now) ≡ 0 }
    ensures { result ≡ slice_cmp nat_cmp (rest.now ++ 59 ∷ []) (other.now ++ 59 ∷ []) }
{
    match rest {
        [] => match other {
            [] => Ordering::Equal,
            [c, ..] => b';'.cmp(c).then(Ordering::Less),
        },
        [c, ..] => c.cmp(&b';').then(Ordering::Greater),
    }
}

/// The order of two texts, each with a `;` after it.
fn compare_names(name: &[u8], other: &[u8]) -> Ordering
    ensures { result ≡ slice_cmp nat_cmp (name.now ++ 59 ∷ []) (other.now ++ 59 ∷ []) }
{
    let common = name.len().min(other.len());
    let (prefix, rest) = name.split_at(common);
    let (other_prefix, other_rest) = other.split_at(common);
    prefix
        .cmp(&other_prefix)
        .then(compare_ends(rest, other_rest))
}

/// The order of two bases by their spellings.
fn compare_bases(kind: &Base, other: &Base) -> Ordering
    ensures { result ≡ slice_cmp nat_cmp (base kind.now) (base other.now) }
{
    match class_name(kind) {
        Some(name) => match class_name(other) {
            Some(second) => compare_names(name.as_bytes(), second.as_bytes()),
            None => b'L'.cmp(&first_byte(other)),
        },
        None => first_byte(kind).cmp(&first_byte(other)),
    }
}

fn same_base(kind: &Base, other: &Base) -> bool
    ensures { IsTrue result ↔ (kind.now ≡ other.now) }
{
    match class_name(kind) {
        Some(name) => match class_name(other) {
            Some(second) => name.same(second),
            None => false,
        },
        None => first_byte(kind) == first_byte(other),
    }
}

impl Erased {
    /// Whether both are one type.
    pub fn same(&self, other: &Erased) -> bool
        ensures is { IsTrue result ↔ (self.now ≡ other.now) }
    {
        self.dims == other.dims && same_base(&self.base, &other.base)
    }

    /// The order of their descriptors, byte by byte. It takes no memory.
    pub fn compare(&self, other: &Erased) -> Ordering
        ensures is { result ≡ slice_cmp nat_cmp (field self.now) (field other.now) }
        // No two types have one descriptor.
        ensures ties { result ≡ Equal → self.now ≡ other.now }
    {
        // A `[` is above the first byte of each base.
        self.dims
            .cmp(&other.dims)
            .then(compare_bases(&self.base, &other.base))
    }
}
