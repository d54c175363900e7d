ghost use Rattle.std.specs.Prelude.{bytes_eq, ◌≡◌, ◌<◌, IsTrue, drop, take, length};
ghost use Rattle.java_units.specs.Signs.{seen, sign, is, has};
ghost use Rattle.java_units.specs.Forms.{begins, begins_name, begins_any};
ghost use Rattle.java_units.specs.Words.{texts};

/// A token other than white space and comments.
#[derive(Clone, Copy, Debug)]
pub struct Lexeme<'a> {
    pub word: &'a str,
    /// Whether it is an identifier: a word that isn't reserved.
    pub is_name: bool,
    /// Its number among all tokens of the text, white space and comments counted.
    pub number: usize,
    /// For a `{`, how many lexemes stand in its block.
    pub holds: usize,
}

/// What follows the first n, or nothing.
#[tactic(auto, using(crate::proofs::Walks::walks))]
pub fn tail<'a, 'b>(lexemes: &'b [Lexeme<'a>], n: usize) -> &'b [Lexeme<'a>]
    ensures rest { seen result.now ≡ drop n (seen lexemes.now) }
{
    if n >= lexemes.len() {
        return &[];
    }
    &lexemes[n..]
}

/// The first n, or all.
#[tactic(auto, using(crate::proofs::Walks::walks))]
pub fn prefix<'a, 'b>(lexemes: &'b [Lexeme<'a>], n: usize) -> &'b [Lexeme<'a>]
    ensures first { seen result.now ≡ take n (seen lexemes.now) }
{
    if n >= lexemes.len() {
        return lexemes;
    }
    &lexemes[..n]
}

/// Whether two texts are the same.
pub fn same(left: &str, right: &str) -> bool
    ensures { result ≡ bytes_eq left.now right.now }
{
    left == right
}

/// Whether the lexeme has this text.
#[tactic(auto, unfolding(crate::specs::Signs::is, crate::specs::Signs::sign))]
pub fn is(word: &str, lexeme: &Lexeme<'_>) -> bool
    ensures value { result ≡ is word.now (sign lexeme.now) }
{
    same(word, lexeme.word)
}

/// Whether the lexeme at the front has this text.
#[tactic(auto, using(crate::proofs::Walks::walks), unfolding(crate::specs::Forms::begins))]
pub fn begins(word: &str, lexemes: &[Lexeme<'_>]) -> bool
    ensures value { result ≡ begins word.now (seen lexemes.now) }
    ensures some { IsTrue result → 0 < length (seen lexemes.now) }
{
    if lexemes.is_empty() {
        return false;
    }
    is(word, &lexemes[0])
}

/// Whether an identifier stands at the front.
#[tactic(auto, using(crate::proofs::Walks::walks), unfolding(crate::specs::Forms::begins_name))]
pub fn begins_name(lexemes: &[Lexeme<'_>]) -> bool
    ensures value { result ≡ begins_name (seen lexemes.now) }
    ensures some { IsTrue result → 0 < length (seen lexemes.now) }
{
    if lexemes.is_empty() {
        return false;
    }
    lexemes[0].is_name
}

/// Whether a table has the text.
pub fn has(table: &[&str], word: &str) -> bool
    ensures { result ≡ has (texts table.now) word.now }
{
    for i in 0..table.len() {
        if same(table[i], word) {
            return true;
        }
    }
    false
}

/// Whether the lexeme at the front has one of these texts.
#[tactic(auto, using(crate::proofs::Walks::walks), unfolding(crate::specs::Forms::begins_any))]
pub fn begins_any(table: &[&str], lexemes: &[Lexeme<'_>]) -> bool
    ensures value { result ≡ begins_any (texts table.now) (seen lexemes.now) }
    ensures some { IsTrue result → 0 < length (seen lexemes.now) }
{
    if lexemes.is_empty() {
        return false;
    }
    has(table, lexemes[0].word)
}
