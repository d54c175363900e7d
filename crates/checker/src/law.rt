ghost use Rattle.std.specs.Prelude.{◌≡◌, ◌≤◌, ℕ, List, [], map};
ghost use Rattle.terms.specs.Expr.{Expr};
ghost use Rattle.terms.specs.Code.{prefix_code};
ghost use Rattle.terms.specs.Place.{IsInhabitant, total_of};
ghost use Rattle.terms.specs.declared.parts.Parts.{Parts};
ghost use Rattle.checker.specs.declared.row.Row.{Row};
ghost use Rattle.checker.specs.Rows.{rows_of};
ghost use Rattle.checker.specs.declared.floor.Floor.{Floor};
ghost use Rattle.checker.specs.Floors.{FloorsHold, top};

/// Laws of rows: their codes are the prefix code of their term, and they are those of one term alone.
pub fn rows_law()
    ensures codes { (g : Parts) (e : Expr) → IsInhabitant g e → map (λ (r : Row). r.code) (rows_of g [] e) ≡ prefix_code e }
    ensures one_term { (g : Parts) (e f : Expr) → IsInhabitant g e → IsInhabitant g f → rows_of g [] e ≡ rows_of g [] f → e ≡ f }
{}

/// Laws of floors: where a list of floors holds, each inhabitant weighs at least the first of them, and where that is
/// more than the limit there is none.
pub fn floors_law()
    ensures lower { (g : Parts) (fs : List Floor) (w : ℕ) → FloorsHold g fs w → (e : Expr) → IsInhabitant g e → w ≤ total_of g e }
    ensures none { (g : Parts) (fs : List Floor) (w : ℕ) → FloorsHold g fs w → top g ≤ w → (e : Expr) → IsInhabitant g e → ⊥ }
{}
