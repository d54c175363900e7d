ghost use Rattle.std.specs.Prelude.{◌≡◌, ◌≤◌, ◌<◌, ◌+◌, ◌==◌, ◌&&◌, ◌||◌, IsTrue, false, codes, length};
ghost use Rattle.java_units.specs.Signs.{is, sign, seen};
ghost use Rattle.java_units.specs.Forms.{entry_len, next_len, entries_len, vars_len, params_len, clause_len, stops, up_to, deeper, ends_name, declared_len, goes_on, rest_len, field_len, span};

use crate::forms::{param_len, var_len};
use crate::lexemes::{Lexeme, begins, begins_any, begins_name, is, tail};
use crate::names::{dims_len, type_len};

/// What stands between the commas of a list.
#[derive(Clone, Copy, Debug, PartialEq, Eq)]
pub enum Entry {
    /// A type.
    Type,
    /// A type variable with its bounds.
    Var,
    /// A parameter.
    Param,
    /// A name that a declaration gives to a field or a local variable, with its dimensions and what follows
    /// up to the next such name. A comma belongs to what follows unless a further name comes behind it that
    /// `=`, `,` or `;` follows, or nothing more.
    Field,
}

/// The words that begin a list of types in the head of a class.
const CLAUSES: [&str; 3] = ["extends", "implements", "permits"];

/// How deep the next lexeme stands in brackets of all three kinds.
#[tactic(auto, unfolding(crate::specs::Forms::deeper))]
pub fn deeper(depth: usize, lexeme: &Lexeme<'_>) -> usize
    requires { depth < 9223372036854775807 }
    ensures value { result ≡ deeper depth (sign lexeme.now) }
    ensures within { result ≤ depth + 1 }
{
    if is("(", lexeme) || is("[", lexeme) || is("{", lexeme) {
        return depth + 1;
    }
    if is(")", lexeme) || is("]", lexeme) || is("}", lexeme) {
        return depth.saturating_sub(1);
    }
    depth
}

/// Whether the lexeme has the text and stands outside brackets.
#[tactic(auto, unfolding(crate::specs::Forms::stops))]
pub fn stops(word: &str, depth: usize, lexeme: &Lexeme<'_>) -> bool
    ensures { result ≡ stops word.now depth (sign lexeme.now) }
{
    depth == 0 && is(word, lexeme)
}

/// Up to the first such lexeme outside brackets, or to the end.
#[tactic(auto, using(crate::proofs::Walks::walks))]
pub fn up_to(word: &str, lexemes: &[Lexeme<'_>]) -> usize
    ensures value { result ≡ up_to word.now 0 (seen lexemes.now) }
    ensures within { result ≤ length (seen lexemes.now) }
{
    let mut depth: usize = 0;
    for i in 0..lexemes.len() {
        if stops(word, depth, &lexemes[i]) {
            return i;
        }
        depth = deeper(depth, &lexemes[i]);
    }
    lexemes.len()
}

/// Whether the lexeme may follow a declared name.
fn may_follow(lexeme: &Lexeme<'_>) -> bool
    ensures { result ≡ ((is (codes "=") (sign lexeme.now) || is (codes ",") (sign lexeme.now)) || is (codes ";") (sign lexeme.now)) }
{
    is("=", lexeme) || is(",", lexeme) || is(";", lexeme)
}

/// Whether a declared name may end here.
fn ends_name(lexemes: &[Lexeme<'_>]) -> bool
    ensures { result ≡ ends_name (seen lexemes.now) }
{
    if lexemes.is_empty() {
        return true;
    }
    may_follow(&lexemes[0])
}

/// A name and its dimensions that a declaration may give: `=`, `,` or `;` follows them, or nothing more. 0
/// where none stands at the front.
#[tactic(auto, using(crate::proofs::Walks::walks), unfolding(crate::specs::Forms::declared_len))]
pub fn declared_len(lexemes: &[Lexeme<'_>]) -> usize
    ensures value { result ≡ declared_len (seen lexemes.now) }
    ensures within { result ≤ length (seen lexemes.now) }
{
    if !begins_name(lexemes) {
        return 0;
    }
    let n = 1 + dims_len(tail(lexemes, 1));
    if !ends_name(tail(lexemes, n)) {
        return 0;
    }
    n
}

/// Whether a comma stands at the front with a further such name behind it.
#[tactic(auto, unfolding(crate::specs::Forms::goes_on))]
fn goes_on(lexemes: &[Lexeme<'_>]) -> bool
    ensures { result ≡ goes_on (seen lexemes.now) }
{
    begins(",", lexemes) && declared_len(tail(lexemes, 1)) != 0
}

/// The same outside brackets.
fn turns(depth: usize, lexemes: &[Lexeme<'_>]) -> bool
    ensures { result ≡ (depth == 0 && goes_on (seen lexemes.now)) }
{
    depth == 0 && goes_on(lexemes)
}

/// Up to the first such comma outside brackets, or to the end. Names that are looked at behind different
/// commas don't overlap, so it takes time linear in the lexemes.
#[tactic(auto, using(crate::proofs::Walks::walks))]
fn rest_len(lexemes: &[Lexeme<'_>]) -> usize
    ensures value { result ≡ rest_len 0 (seen lexemes.now) }
    ensures within { result ≤ length (seen lexemes.now) }
{
    let mut depth: usize = 0;
    for i in 0..lexemes.len() {
        if turns(depth, tail(lexemes, i)) {
            return i;
        }
        depth = deeper(depth, &lexemes[i]);
    }
    lexemes.len()
}

/// A declared name with its dimensions, and what follows up to the next one.
#[tactic(auto, using(crate::proofs::Walks::walks), unfolding(crate::specs::Forms::field_len))]
fn field_len(lexemes: &[Lexeme<'_>]) -> usize
    ensures value { result ≡ field_len (seen lexemes.now) }
    ensures within { result ≤ length (seen lexemes.now) }
{
    let n = declared_len(lexemes);
    if n == 0 {
        return 0;
    }
    n + rest_len(tail(lexemes, n))
}

/// One entry.
pub fn entry_len(entry: Entry, lexemes: &[Lexeme<'_>]) -> usize
    ensures value { result ≡ entry_len entry (seen lexemes.now) }
    ensures within { result ≤ length (seen lexemes.now) }
{
    match entry {
        Entry::Type => type_len(lexemes),
        Entry::Var => var_len(lexemes),
        Entry::Param => param_len(lexemes),
        Entry::Field => field_len(lexemes),
    }
}

/// A comma and an entry.
#[tactic(auto, using(crate::proofs::Walks::walks), unfolding(crate::specs::Forms::next_len))]
pub fn next_len(entry: Entry, lexemes: &[Lexeme<'_>]) -> usize
    ensures value { result ≡ next_len entry (seen lexemes.now) }
    ensures within { result ≤ length (seen lexemes.now) }
{
    if !begins(",", lexemes) {
        return 0;
    }
    let n = entry_len(entry, tail(lexemes, 1));
    if n == 0 {
        return 0;
    }
    1 + n
}

/// Such entries, one after the other.
#[tactic(auto, using(crate::proofs::Walks::walks))]
fn nexts_len(entry: Entry, lexemes: &[Lexeme<'_>]) -> usize
    ensures value { result ≡ span (next_len entry) (seen lexemes.now) }
    ensures within { result ≤ length (seen lexemes.now) }
{
    let mut n = 0;
    loop {
        let len = next_len(entry, tail(lexemes, n));
        if len == 0 {
            return n;
        }
        n += len;
    }
}

/// Entries separated by commas.
#[tactic(auto, using(crate::proofs::Walks::walks), unfolding(crate::specs::Forms::entries_len))]
pub fn entries_len(entry: Entry, lexemes: &[Lexeme<'_>]) -> usize
    ensures value { result ≡ entries_len entry (seen lexemes.now) }
    ensures within { result ≤ length (seen lexemes.now) }
{
    let n = entry_len(entry, lexemes);
    if n == 0 {
        return 0;
    }
    n + nexts_len(entry, tail(lexemes, n))
}

/// `<`, type variables and `>`.
#[tactic(auto, using(crate::proofs::Walks::walks), unfolding(crate::specs::Forms::vars_len))]
pub fn vars_len(lexemes: &[Lexeme<'_>]) -> usize
    ensures value { result ≡ vars_len (seen lexemes.now) }
    ensures within { result ≤ length (seen lexemes.now) }
{
    if !begins("<", lexemes) {
        return 0;
    }
    let vars = entries_len(Entry::Var, tail(lexemes, 1));
    if vars == 0 {
        return 0;
    }
    let n = 1 + vars;
    if !begins(">", tail(lexemes, n)) {
        return 0;
    }
    n + 1
}

/// `(`, parameters or none, and `)`.
#[tactic(auto, using(crate::proofs::Walks::walks), unfolding(crate::specs::Forms::params_len))]
pub fn params_len(lexemes: &[Lexeme<'_>]) -> usize
    ensures value { result ≡ params_len (seen lexemes.now) }
    ensures within { result ≤ length (seen lexemes.now) }
{
    if !begins("(", lexemes) {
        return 0;
    }
    let n = 1 + entries_len(Entry::Param, tail(lexemes, 1));
    if !begins(")", tail(lexemes, n)) {
        return 0;
    }
    n + 1
}

/// A list of types in the head of a class, with the word before it.
#[tactic(auto, using(crate::proofs::Walks::walks), unfolding(crate::specs::Forms::clause_len))]
pub fn clause_len(lexemes: &[Lexeme<'_>]) -> usize
    ensures value { result ≡ clause_len (seen lexemes.now) }
    ensures within { result ≤ length (seen lexemes.now) }
{
    if !begins_any(&CLAUSES, lexemes) {
        return 0;
    }
    let n = entries_len(Entry::Type, tail(lexemes, 1));
    if n == 0 {
        return 0;
    }
    1 + n
}

/// Such lists, one after the other.
#[tactic(auto, using(crate::proofs::Walks::walks))]
pub fn clauses_len(lexemes: &[Lexeme<'_>]) -> usize
    ensures value { result ≡ span clause_len (seen lexemes.now) }
    ensures within { result ≤ length (seen lexemes.now) }
{
    let mut n = 0;
    loop {
        let len = clause_len(tail(lexemes, n));
        if len == 0 {
            return n;
        }
        n += len;
    }
}
