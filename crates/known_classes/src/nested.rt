ghost use Rattle.std.specs.Prelude.{◌≡◌, ◌<◌, length, bytes_eq, IfSome};
ghost use Rattle.std.specs.Option.{option_copied};
ghost use Rattle.known_classes.specs.Known.{outer_in, simple_in};
ghost use Rattle.known_classes.specs.Nested.{IsLesser};

use crate::classes::ClassList;
use crate::summary::ClassSummary;
use lists::Text;
use std::cmp::Ordering;

/// Whether two texts are the same, as a test that definitions compute.
pub fn same(left: &Text, right: &Text) -> bool
    ensures { result ≡ bytes_eq left.now right.now }
{
    left.as_str() == right.as_str()
}

/// Of a class and another that may be missing, the one whose name is less.
pub fn lesser<L: ClassList>(known: &L, place: usize, best: Option<usize>) -> usize
    requires here { place < length (L.listed known.now) }
    requires there { IfSome best (λ b. b < length (L.listed known.now)) }
    ensures within { result < length (L.listed known.now) }
    ensures class { IsLesser (L.listed known.now) place best result }
{
    let Some(best) = best else {
        return place;
    };
    if known.at(best).name.compare(&known.at(place).name) == Ordering::Less {
        return best;
    }
    place
}

/// The name of the outer class of a class, where it has one.
pub fn outer_name(class: &ClassSummary) -> Option<&Text>
    ensures { option_copied result ≡ outer_in class.now.nesting }
{
    match class.nesting.as_ref() {
        Some(nesting) => nesting.outer.as_ref(),
        None => None,
    }
}

/// The simple name of a nested class, where it has one.
pub fn simple_name(class: &ClassSummary) -> Option<&Text>
    ensures { option_copied result ≡ simple_in class.now.nesting }
{
    match class.nesting.as_ref() {
        Some(nesting) => nesting.simple.as_ref(),
        None => None,
    }
}
