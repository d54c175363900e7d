ghost use Rattle.std.specs.Prelude.{◌≡◌, true, Contains};
ghost use Rattle.subtyping.specs.Steps.{wider};
ghost use Rattle.subtyping.specs.Widening.{rank};

use type_names::Base;

/// The ranks of char, and of boolean and classes, to which nothing widens.
const CHAR: u8 = 2;

const BOOLEAN: u8 = 7;

/// A number such that a type widens to each one of a greater number below 7 but char.
fn rank(base: &Base) -> u8
    ensures { result ≡ rank base.now }
{
    match base {
        Base::Byte => 0,
        Base::Short => 1,
        Base::Char => 2,
        Base::Int => 3,
        Base::Long => 4,
        Base::Float => 5,
        Base::Double => 6,
        Base::Boolean => 7,
        Base::Class(_) => 8,
    }
}

/// Whether one primitive type widens to another (JLS 5.1.2).
pub(crate) fn widens(from: &Base, to: &Base) -> bool
    ensures sound { result ≡ true → Contains (wider from.now) to.now }
    ensures complete { Contains (wider from.now) to.now → result ≡ true }
{
    let (low, high) = (rank(from), rank(to));
    low < high && high < BOOLEAN && high != CHAR
}
