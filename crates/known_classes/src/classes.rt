ghost use Rattle.std.specs.Prelude.{◌≡◌, ◌<◌, length, slice_get, Some};
ghost use Rattle.known_classes.specs.declared.summary.ClassSummary.{ClassSummary};
ghost use Rattle.known_classes.specs.Known.{KnownClasses, class_named, class_by_canonical, canonical, HasEachOnce, IsPlaceOf};
ghost use Rattle.known_classes.specs.Nested.{nested_class, surrounds};

use crate::summary::ClassSummary;

/// Classes in a list, each under its own name and at a place of its own: what tables of their names are made
/// from. None of the calls takes memory.
pub trait ClassList {
    ghost listed: { Self → KnownClasses };

    /// How many classes there are.
    fn count(&self) -> usize
        ensures size { result ≡ length (listed self.now) }
        ensures once { HasEachOnce (listed self.now) };

    /// The class at a place below the count.
    fn at(&self, place: usize) -> &ClassSummary
        requires { place < length (listed self.now) }
        ensures { slice_get (listed self.now) place ≡ Some result.now };

    /// The place of the class with this internal name, None exactly where there is none.
    fn find(&self, name: &str) -> Option<usize>
        ensures { IsPlaceOf (listed self.now) (class_named (listed self.now) name.now) result };
}

/// Classes that are known, each under its own name and at a place of its own. None of the calls takes
/// memory.
pub trait Classes {
    ghost listed: { Self → KnownClasses };

    /// How many classes are known.
    fn count(&self) -> usize
        ensures size { result ≡ length (listed self.now) }
        ensures once { HasEachOnce (listed self.now) };

    /// The class at a place below the count.
    fn at(&self, place: usize) -> &ClassSummary
        requires { place < length (listed self.now) }
        ensures { slice_get (listed self.now) place ≡ Some result.now };

    /// The place of the class with this internal name, None exactly where there is none.
    fn find(&self, name: &str) -> Option<usize>
        ensures { IsPlaceOf (listed self.now) (class_named (listed self.now) name.now) result };

    /// The place of the class with this canonical name, as `java.util.Map.Entry` (JLS 6.7); of several the
    /// one of the least internal name, and None exactly where there is none.
    fn by_canonical(&self, dotted: &str) -> Option<usize>
        ensures { IsPlaceOf (listed self.now) (class_by_canonical (listed self.now) (listed self.now) dotted.now) result };

    /// The canonical name of the class at a place below the count (JLS 6.7).
    fn canonical_name(&self, place: usize) -> &str
        requires { place < length (listed self.now) }
        ensures { (class : ClassSummary) → slice_get (listed self.now) place ≡ Some class → result.now ≡ canonical (listed self.now) class.name };

    /// The place of the class that stands directly in the class of this internal name and has this simple name;
    /// of several the one of the least internal name, and None exactly where there is none.
    fn nested(&self, outer: &str, simple: &str) -> Option<usize>
        ensures { IsPlaceOf (listed self.now) (nested_class outer.now simple.now (listed self.now)) result };

    /// Whether a class is recorded as nested in the class of this internal name, whether that one is known or
    /// not.
    fn surrounds(&self, name: &str) -> bool
        ensures { result ≡ surrounds (listed self.now) name.now };
}
