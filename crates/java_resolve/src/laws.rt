ghost use Rattle.std.specs.Prelude.{◌≡◌, ℕ, List, IsUtf8};
ghost use Rattle.terms.specs.Expr.{Expr};
ghost use Rattle.terms.specs.Faults.{IsValid};
ghost use Rattle.terms.specs.Place.{IsInhabitant};
ghost use Rattle.terms.specs.Text.{text_of};
ghost use Rattle.terms.specs.declared.parts.Parts.{Parts};
ghost use Rattle.java_shapes.specs.Readable.{IsApart, HasShortRows};
ghost use Rattle.java_shapes.specs.Shape.{Shape, shown};
ghost use Rattle.java_resolve.specs.Pieces.{shape_pieces, joined};
ghost use Rattle.java_resolve.specs.Resolved.{ResolvesTo, IsFaultOf};
ghost use Rattle.java_resolve.specs.declared.fault.TextFault.TheVariants.{TwoWays};

/// The pieces in which an expression's identifiers are looked for are its text, from left to right, whatever
/// binders are around it. So the bytes before a piece are its place in the text.
pub fn piece_laws()
    ensures text { (bound : List (List ℕ)) (shape : Shape) → joined (shape_pieces bound shape) ≡ shown shape }
{}

/// Laws of reading texts back where texts tell terms apart: each inhabitant's own text, which is in UTF-8 as every
/// `str` is, resolves to it, and no text is that of two terms that are well typed at the goal.
pub fn resolve_laws()
    ensures own_text { (g : Parts) (e : Expr) → IsValid g → IsApart g → HasShortRows g → IsInhabitant g e → IsUtf8 (text_of g e) → ResolvesTo g (text_of g e) e }
    ensures never_two { (g : Parts) (text : List ℕ) → IsValid g → IsApart g → HasShortRows g → IsFaultOf g text TwoWays → ⊥ }
{}
