ghost use Rattle.java_tokens.specs.Words.{WordLaws};

/// A text of ASCII letters, digits, `_` and `$` that begins with no digit is one word; a text is one word where
/// it is one token of this kind.
pub fn word_laws()
    ensures laws { WordLaws }
{}
