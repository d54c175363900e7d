ghost use Rattle.std.specs.Prelude.{◌≡◌, ◌≢◌, ℕ, List, true, Some, None, encode_utf8_all, chars, IsUtf8};
ghost use Rattle.java_units.specs.Identifiers.{is_identifier};
ghost use Rattle.terms.specs.Expr.{Expr};
ghost use Rattle.terms.specs.Typing.{type_in};
ghost use Rattle.terms.specs.Text.{text_in, text_of};
ghost use Rattle.terms.specs.Apart.{two_calls};
ghost use Rattle.terms.specs.Faults.{IsValid};
ghost use Rattle.terms.specs.Place.{IsInhabitant};
ghost use Rattle.terms.specs.declared.parts.Parts.{Parts};
ghost use Rattle.java_shapes.specs.Words.{spells_identifier};
ghost use Rattle.java_shapes.specs.Shape.{Shape, shown};
ghost use Rattle.java_shapes.specs.Grammar.{IsShape, IsBegun};
ghost use Rattle.java_shapes.specs.Reader.{Part, top, start, run, ended};
ghost use Rattle.java_shapes.specs.ShapeOf.{shape_in};
ghost use Rattle.java_shapes.specs.Readable.{IsReadable, IsApart, IsContext, HasShortRows};

/// Laws of shapes: a text is an identifier where its characters are; one text is the text of one shape of the
/// grammar at most; the text of a well typed term is the text of its shape, and that is one of the grammar.
pub fn shape_laws()
    ensures identifiers { (text : List ℕ) → IsUtf8 text → spells_identifier (chars text) ≡ is_identifier text }
    ensures one_shape { (binder : List ℕ) (s t : Shape) → spells_identifier binder ≡ true → IsShape binder s → IsShape binder t → shown s ≡ shown t → s ≡ t }
    ensures text_of_shape { (g : Parts) (ctx : List (List ℕ)) (e : Expr) → IsValid g → IsReadable g → HasShortRows g → IsContext ctx → type_in g ctx e ≢ None → text_in g ctx e ≡ encode_utf8_all (shown (shape_in g ctx e)) }
    ensures in_grammar { (g : Parts) (ctx : List (List ℕ)) (e : Expr) → IsValid g → IsReadable g → HasShortRows g → IsContext ctx → type_in g ctx e ≢ None → IsShape (chars g.binder) (shape_in g ctx e) }
{}

/// Where declarations are told apart, two well typed terms of one context with one text are one term, whatever
/// types are wanted at their places. So no two inhabitants of an environment share a text, and its list needs no
/// order beyond weights and texts. A worked environment of two calls with one name, told by casts, is one of these.
pub fn apart_laws()
    ensures one_term { (g : Parts) (ctx : List (List ℕ)) (e f : Expr) → IsValid g → IsApart g → HasShortRows g → IsContext ctx → type_in g ctx e ≢ None → type_in g ctx f ≢ None → text_in g ctx e ≡ text_in g ctx f → e ≡ f }
    ensures worked { IsApart (two_calls true) × HasShortRows (two_calls true) }
    ensures one_inhabitant { (g : Parts) (e f : Expr) → IsValid g → IsApart g → HasShortRows g → IsInhabitant g e → IsInhabitant g f → text_of g e ≡ text_of g f → e ≡ f }
{}

/// Laws of a reader that goes forward by characters and never back: it is stuck exactly where no expression begins
/// so, each expression's text is read to its end and gives its shape, and where it gives a shape, the text is that
/// shape's. So the length of the longest prefix that it reads is that of the longest with which an expression begins.
pub fn reader_laws()
    ensures begun { (binder text : List ℕ) (place : Part) → spells_identifier binder ≡ true → run binder (start top None) text ≡ Some place → IsBegun binder text }
    ensures stuck { (binder text : List ℕ) → spells_identifier binder ≡ true → run binder (start top None) text ≡ None → ¬ (IsBegun binder text) }
    ensures whole { (binder : List ℕ) (s : Shape) → spells_identifier binder ≡ true → IsShape binder s → (place : Part) × ((run binder (start top None) (shown s) ≡ Some place) × (ended place ≡ Some s)) }
    ensures only { (binder text : List ℕ) (place : Part) (s : Shape) → run binder (start top None) text ≡ Some place → ended place ≡ Some s → IsShape binder s × (shown s ≡ text) }
{}
