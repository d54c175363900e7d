ghost use Rattle.std.specs.Prelude.{◌≡◌, ℕ, List, IsUtf8};
ghost use Rattle.terms.specs.Apart.{IsToldApart};
ghost use Rattle.terms.specs.Expr.{Expr};
ghost use Rattle.terms.specs.Place.{IsInhabitant};
ghost use Rattle.terms.specs.Text.{text_of};
ghost use Rattle.terms.specs.declared.parts.Parts.{Parts};
ghost use Rattle.java_shapes.specs.Readable.{IsReadable, IsApart, HasShortRows};
ghost use Rattle.java_resolve.specs.Resolved.{ResolvesTo, IsFaultOf};
ghost use Rattle.java_resolve.specs.declared.fault.TextFault.TheVariants.{TwoWays};
ghost use Rattle.hole_texts.specs.Holes.{IsOfHole};

/// The environment of each hole has texts that can be read back, and they tell its declarations apart.
pub fn hole_texts()
    ensures readable { (g : Parts) → IsOfHole g → IsReadable g }
    ensures told { (g : Parts) → IsOfHole g → IsToldApart g }
    ensures apart { (g : Parts) → IsOfHole g → IsApart g }
{}

/// So at a hole no two terms that are offered share a text, the text of each, which is in UTF-8, resolves to it, and no
/// text resolves in two ways.
pub fn terms_apart()
    ensures one_term { (g : Parts) (e f : Expr) → IsOfHole g → HasShortRows g → IsInhabitant g e → IsInhabitant g f → text_of g e ≡ text_of g f → e ≡ f }
    ensures utf8 { (g : Parts) (e : Expr) → IsOfHole g → HasShortRows g → IsInhabitant g e → IsUtf8 (text_of g e) }
    ensures own_text { (g : Parts) (e : Expr) → IsOfHole g → HasShortRows g → IsInhabitant g e → ResolvesTo g (text_of g e) e }
    ensures never_two { (g : Parts) (text : List ℕ) → IsOfHole g → HasShortRows g → IsFaultOf g text TwoWays → ⊥ }
{}
