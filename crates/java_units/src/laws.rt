ghost use Rattle.java_units.specs.Brackets.{BracketsMatch};
ghost use Rattle.java_units.specs.Longest.{TextsHaveNames, TypesAreLongest, ParamsAreLongest, ParamListsAreLongest, VarsAreLongest};
ghost use Rattle.java_units.specs.Identifiers.{AsciiIdentifiers};
ghost use Rattle.java_units.specs.Pieces.{PiecesTile};
ghost use Rattle.java_units.specs.Trees.{TypesAreRead, ParamsAreRead, VarsAreRead, ParamListsAreRead};
ghost use Rattle.java_units.specs.SameSigns.{OnlySignsCount};

/// The pieces of a body, end to end, are the body.
pub fn pieces_tile()
    ensures tile { PiecesTile }
{}

/// Only the tokens other than white space and comments decide what a text declares, and they by their texts.
pub fn only_signs_count()
    ensures law { OnlySignsCount }
{}

/// A bracketed form, as type arguments and the values of an annotation, goes from its opening sign to the one
/// that matches it by counting both.
pub fn brackets_match()
    ensures law { BracketsMatch }
{}

/// Reading a type takes the longest prefix that the grammar of types spells.
pub fn types_are_longest()
    ensures law { TypesAreLongest }
{}

/// A text of ASCII characters is an identifier where tests that compute say so; each lexeme of a text that
/// counts as an identifier is one by its text.
pub fn identifier_laws()
    ensures ascii { AsciiIdentifiers }
    ensures named { TextsHaveNames }
{}

/// Reading a parameter, and parameters in brackets, takes the longest prefix that the grammar spells.
pub fn params_are_longest()
    ensures one { ParamsAreLongest }
    ensures lists { ParamListsAreLongest }
{}

/// Reading type variables takes the longest prefix that the grammar of type variables spells.
pub fn vars_are_longest()
    ensures law { VarsAreLongest }
{}

/// What is read of types, parameters and type variables is what they say by the grammar: names, dimensions, bounds.
pub fn forms_are_read()
    ensures types { TypesAreRead }
    ensures params { ParamsAreRead }
    ensures vars { VarsAreRead }
    ensures lists { ParamListsAreRead }
{}
