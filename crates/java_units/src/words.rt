ghost use Rattle.std.specs.Prelude.{◌≡◌, IsTrue};
ghost use Rattle.java_units.specs.Signs.{has, reserved};
ghost use Rattle.java_units.specs.Forms.{modifiers};
ghost use Rattle.java_units.specs.Words.{groups_of, joined, are_by_length};

use crate::lexemes::has;

/// The words that are no identifiers (JLS 3.9, 3.10.3, 3.10.8), by their length.
const RESERVED: [&[&str]; 13] = [
    &[],
    &["_"],
    &["do", "if"],
    &["for", "int", "new", "try"],
    &[
        "byte", "case", "char", "else", "enum", "goto", "long", "null", "this", "true", "void",
    ],
    &[
        "break", "catch", "class", "const", "false", "final", "float", "short", "super", "throw",
        "while",
    ],
    &[
        "assert", "double", "import", "native", "public", "return", "static", "switch", "throws",
    ],
    &[
        "boolean", "default", "extends", "finally", "package", "private",
    ],
    &["abstract", "continue", "strictfp", "volatile"],
    &["interface", "protected", "transient"],
    &["implements", "instanceof"],
    &[],
    &["synchronized"],
];

/// The modifiers of one word, by their length.
const MODIFIERS: [&[&str]; 13] = [
    &[],
    &[],
    &[],
    &[],
    &[],
    &["final"],
    &["native", "public", "sealed", "static"],
    &["default", "private"],
    &["abstract", "strictfp", "volatile"],
    &["protected", "transient"],
    &[],
    &[],
    &["synchronized"],
];

/// Whether one of these tables has the word, where each has the words of as many bytes as its number: only
/// those of the word's own length are looked at.
fn has_by_length(groups: &[&[&str]], word: &str) -> bool
    requires { IsTrue (are_by_length 0 (groups_of groups.now)) }
    ensures { result ≡ has (joined (groups_of groups.now)) word.now }
{
    let len = word.len();
    if len >= groups.len() {
        return false;
    }
    has(groups[len], word)
}

/// Whether a word is reserved.
pub fn is_reserved(word: &str) -> bool
    ensures value { result ≡ has reserved word.now }
{
    has_by_length(&RESERVED, word)
}

/// Whether a word is a modifier.
pub fn is_modifier(word: &str) -> bool
    ensures { result ≡ has modifiers word.now }
{
    has_by_length(&MODIFIERS, word)
}
