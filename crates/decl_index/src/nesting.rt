ghost use Rattle.std.specs.Prelude.{◌≡◌, true};
ghost use Rattle.decl_index.specs.Changed.{Each, KeepsNesting};

use crate::sorted_classes::Sorted;
use known_classes::{ClassList, ClassSummary, Nesting};
use lists::Text;

/// Whether both are the same text, or both are none.
fn same_text(text: &Option<Text>, other: &Option<Text>) -> bool
    ensures { result ≡ true → text.now ≡ other.now }
{
    match (text, other) {
        (Some(text), Some(other)) => text.same(other),
        (None, None) => true,
        _ => false,
    }
}

/// Whether both classes stand in the same class under the same name.
fn same_nesting(nesting: &Option<Nesting>, other: &Option<Nesting>) -> bool
    ensures { result ≡ true → nesting.now ≡ other.now }
{
    match (nesting, other) {
        (Some(nesting), Some(other)) => {
            nesting.flags == other.flags
                && same_text(&nesting.outer, &other.outer)
                && same_text(&nesting.simple, &other.simple)
        }
        (None, None) => true,
        _ => false,
    }
}

/// Whether a class of the same name and nesting is there.
fn keeps_nesting(classes: &Sorted<'_>, class: &ClassSummary) -> bool
    ensures { result ≡ true → KeepsNesting classes.now class.now }
{
    let Some(place) = classes.find(class.name.as_str()) else {
        return false;
    };
    same_nesting(&classes.at(place).nesting, &class.nesting)
}

/// Whether for each of these a class of the same name and nesting is there.
pub fn all_keep_nesting(classes: &Sorted<'_>, puts: &[ClassSummary]) -> bool
    ensures { result ≡ true → Each (KeepsNesting classes.now) puts.now }
{
    for class in puts {
        if !keeps_nesting(classes, class) {
            return false;
        }
    }
    true
}
