ghost use Rattle.std.specs.Prelude.{◌≡◌, ◌↔◌, List, ℕ, None};
ghost use Rattle.class_pool.specs.Reading.{IsBytes};
ghost use Rattle.class_shape.specs.declared.shapes.ClassShape.{ClassShape};
ghost use Rattle.class_shape.specs.Shapes.{IsClassFile};
ghost use Rattle.class_shape.specs.Violations.{first_violation};
ghost use Rattle.class_shape.specs.Layout.{PrefixesAreTruncated, LongerIsExtra, MeaningNeedsLayout};

/// No two shapes fit the same bytes.
pub fn one_shape()
    ensures one { (bytes : List ℕ) (shape other : ClassShape) → IsClassFile bytes shape → IsClassFile bytes other → shape ≡ other }
{}

/// Some shape fits bytes exactly where they have no violation.
pub fn fits_or_faults()
    ensures exactly { (bytes : List ℕ) → IsBytes bytes → (first_violation bytes ≡ None) ↔ ((shape : ClassShape) × IsClassFile bytes shape) }
{}

/// Laws of the layout of a class file: what is cut off, what goes on after its end, and which violations
/// leave the layout as it is.
pub fn layout_laws()
    ensures prefixes { PrefixesAreTruncated }
    ensures longer { LongerIsExtra }
    ensures meaning { MeaningNeedsLayout }
{}
