ghost use Rattle.std.specs.Prelude.{◌≡◌, ℕ, Bool, false, List, Option, bytes_eq};
ghost use Rattle.known_classes.specs.declared.summary.ClassSummary.{ClassSummary};
ghost use Rattle.known_classes.specs.Known.{KnownClasses, HasEachOnce, class_by_canonical, canonical};
ghost use Rattle.known_classes.specs.Nested.{nested_class, is_nested};
ghost use Rattle.known_classes.specs.Merging.{merged};
ghost use Rattle.known_classes.specs.Least.{IsLeast};
ghost use Rattle.known_classes.specs.Alike.{IsNestedSet, NestInwards, HasNoCycle};
ghost use Rattle.known_classes.specs.Laws.{MeetsEquation};

/// The canonical name of each class goes by that of its outer class, however many classes are around it. Of
/// several classes of one canonical name, or of one simple name in one class, the one that is found is the one
/// of the least internal name.
pub fn canonical_names()
    ensures equation { (known : KnownClasses) (name : List ℕ) → MeetsEquation known name }
    ensures least { (all known : KnownClasses) (name : List ℕ) (found : Option ClassSummary) → HasEachOnce known → IsLeast (λ c. bytes_eq name (canonical all c.name)) known found → found ≡ class_by_canonical all known name }
    ensures nested { (outer name : List ℕ) (known : KnownClasses) (found : Option ClassSummary) → HasEachOnce known → IsLeast (λ c. is_nested outer name c.nesting) known found → found ≡ nested_class outer name known }
{}

/// What a change of classes leaves as it was: the canonical names outside a set of names that is closed under
/// nesting, and outside of which classes stand in others as before; and that no class reaches itself by outer
/// classes, where each added class stands in an added one of a shorter name.
pub fn merges_of_names()
    ensures names { (old new : KnownClasses) (touched : List ℕ → Bool) (name : List ℕ) → IsNestedSet old new touched → touched name ≡ false → canonical new name ≡ canonical old name }
    ensures no_cycle { (base extra : KnownClasses) → HasNoCycle base → NestInwards extra → HasNoCycle (merged base extra) }
{}
