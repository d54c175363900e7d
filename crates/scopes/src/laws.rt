ghost use Rattle.std.specs.Prelude.{◌≡◌, ◌<◌, ◌≤◌, ℕ, true, Option};
ghost use Rattle.std.specs.List.{list_any};
ghost use Rattle.type_names.specs.declared.kinds.Erased.{Erased};
ghost use Rattle.type_names.specs.Descriptors.{outcome};
ghost use Rattle.terms.specs.Typing.{is_pair};
ghost use Rattle.terms.specs.Faults.{IsValid, greatest_depth};
ghost use Rattle.java_units.specs.declared.types.Unit.{Unit};
ghost use Rattle.java_bodies.specs.declared.site.HoleSite.{HoleSite};
ghost use Rattle.offers.specs.Sites.{IsSiteOf};
ghost use Rattle.scopes.specs.Holes.{IsHoleIn};
ghost use Rattle.offers.specs.Scenes.{Scene};
ghost use Rattle.offers.specs.Candidates.{same_outcome};
ghost use Rattle.scopes.specs.Kinds.{listed, number_in, is_outcome_below, environment_kinds};
ghost use Rattle.scopes.specs.Environments.{environment_of};
ghost use Rattle.offers.specs.Offers.{IsOrder};
ghost use Rattle.offers.specs.Sorting.{Rises};
ghost use Rattle.scopes.specs.Validity.{IsOrdered};
ghost use Rattle.decl_index.specs.Weighing.{AreWeights};

/// The environment of each hole is valid.
pub fn valid()
    ensures order { (v : Scene) → IsOrder v → IsOrdered v }
    ensures valid { (v : Scene) (limit depth : ℕ) → IsOrdered v → AreWeights v.weights → 0 < limit → limit < 10001 → depth ≤ greatest_depth → IsValid (environment_of v limit depth) }
    ensures pairs { (v : Scene) (limit depth : ℕ) (a b : Option Erased) → list_any (same_outcome a) (listed (environment_kinds v)) ≡ true → list_any (same_outcome b) (listed (environment_kinds v)) ≡ true → is_pair (environment_of v limit depth).pairs (number_in (environment_kinds v) a) (number_in (environment_kinds v) b) ≡ is_outcome_below v a b }
    ensures types { (v : Scene) → Rises outcome (listed (environment_kinds v)) }
{}

/// The site of a hole in a text is one of the text's unit.
pub fn hole_sites()
    ensures law { (unit : Unit) (site : HoleSite) → IsHoleIn unit site → IsSiteOf unit site }
{}
