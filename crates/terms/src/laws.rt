ghost use Rattle.std.specs.Prelude.{◌≡◌, ℕ, List, length, take, true, false, ◌≢◌};
ghost use Rattle.std.specs.declared.cmp.Ordering.TheVariants.{Equal};
ghost use Rattle.terms.specs.Expr.{Expr};
ghost use Rattle.terms.specs.Typing.{is_pair};
ghost use Rattle.terms.specs.Place.{IsInhabitant};
ghost use Rattle.terms.specs.Order.{list_cmp, ComesBefore};
ghost use Rattle.terms.specs.Listing.{IsFront, IsWhole};
ghost use Rattle.terms.specs.Faults.{IsValid};
ghost use Rattle.terms.specs.Apart.{IsToldApart, two_calls};
ghost use Rattle.terms.specs.declared.parts.Parts.{Parts};

/// Laws of the list of an environment: inhabitants that the order doesn't tell apart are one term, each
/// environment has a whole list, that is the only one, and its prefixes are just the fronts.
pub fn list_laws()
    ensures before_joins { (g : Parts) (d e f : Expr) → ComesBefore g d e → ComesBefore g e f → ComesBefore g d f }
    ensures ties_are_one { (g : Parts) (e f : Expr) → IsInhabitant g e → IsInhabitant g f → list_cmp g e f ≡ Equal → e ≡ f }
    ensures whole_list_exists { (g : Parts) → IsValid g → (es : List Expr) × IsWhole g es }
    ensures one_whole_list { (g : Parts) (ps qs : List Expr) → IsWhole g ps → IsWhole g qs → ps ≡ qs }
    ensures fronts_are_prefixes { (g : Parts) (ps qs : List Expr) → IsFront g ps → IsWhole g qs → ps ≡ take (length ps) qs }
    ensures prefixes_are_fronts { (g : Parts) (n : ℕ) (qs : List Expr) → IsWhole g qs → IsFront g (take n qs) }
{}

/// Laws of the pairs of a valid environment: they are a strict order of its types.
pub fn pair_laws()
    ensures joins { (g : Parts) → IsValid g → (a b c : ℕ) → is_pair g.pairs a b ≡ true → is_pair g.pairs b c ≡ true → is_pair g.pairs a c ≡ true }
    ensures strict { (g : Parts) → IsValid g → (a b : ℕ) → is_pair g.pairs a b ≡ true → a ≢ b }
{}

/// Two worked environments of the condition for texts to tell terms apart: two calls that only their arguments'
/// types tell apart meet it where casts are written, and not otherwise.
pub fn text_laws()
    ensures told_by_casts { IsToldApart (two_calls true) }
    ensures not_told_without { ¬ (IsToldApart (two_calls false)) }
{}
