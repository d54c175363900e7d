ghost use Rattle.std.specs.Prelude.{◌≡◌, ◌≤◌, length};
ghost use Rattle.java_units.specs.Signs.{seen, has};
ghost use Rattle.java_units.specs.Words.{texts};
ghost use Rattle.java_units.specs.Forms.{begins_any, name_tail, name_len, rounds, angles, closing, matched, type_tail, base_len, dim_len, dims_len, type_len, span};

use crate::lexemes::{Lexeme, begins, begins_any, begins_name, is, tail};

/// The primitive types.
const PRIMITIVES: [&str; 8] = [
    "byte", "short", "char", "int", "long", "float", "double", "boolean",
];

/// `. IDENTIFIER`
#[tactic(auto, using(crate::proofs::Walks::walks), unfolding(crate::specs::Forms::name_tail))]
fn name_tail(lexemes: &[Lexeme<'_>]) -> usize
    ensures value { result ≡ name_tail (seen lexemes.now) }
    ensures within { result ≤ length (seen lexemes.now) }
{
    if begins(".", lexemes) && begins_name(tail(lexemes, 1)) {
        return 2;
    }
    0
}

/// Such tails, one after the other.
#[tactic(auto, using(crate::proofs::Walks::walks))]
fn name_tails(lexemes: &[Lexeme<'_>]) -> usize
    ensures value { result ≡ span name_tail (seen lexemes.now) }
    ensures within { result ≤ length (seen lexemes.now) }
{
    let mut n = 0;
    loop {
        let len = name_tail(tail(lexemes, n));
        if len == 0 {
            return n;
        }
        n += len;
    }
}

/// How many lexemes the name at the front takes: identifiers joined by `.`.
#[tactic(auto, using(crate::proofs::Walks::walks), unfolding(crate::specs::Forms::name_len))]
pub fn name_len(lexemes: &[Lexeme<'_>]) -> usize
    ensures value { result ≡ name_len (seen lexemes.now) }
    ensures within { result ≤ length (seen lexemes.now) }
{
    if !begins_name(lexemes) {
        return 0;
    }
    1 + name_tails(tail(lexemes, 1))
}

/// Up to and with the closing sign, where no further one is open; the two alone count.
#[tactic(auto, using(crate::proofs::Walks::walks))]
fn closing(left: &str, right: &str, lexemes: &[Lexeme<'_>]) -> usize
    ensures value { result ≡ closing left.now right.now 0 (seen lexemes.now) }
    ensures within { result ≤ length (seen lexemes.now) }
{
    let mut depth: usize = 0;
    for i in 0..lexemes.len() {
        if is(right, &lexemes[i]) {
            if depth == 0 {
                return i + 1;
            }
            depth -= 1;
            continue;
        }
        if is(left, &lexemes[i]) {
            depth += 1;
            continue;
        }
    }
    0
}

/// From an opening sign up to and with its matching closing one.
#[tactic(auto, using(crate::proofs::Walks::walks), unfolding(crate::specs::Forms::matched))]
fn matched(left: &str, right: &str, lexemes: &[Lexeme<'_>]) -> usize
    ensures value { result ≡ matched left.now right.now (seen lexemes.now) }
    ensures within { result ≤ length (seen lexemes.now) }
{
    if !begins(left, lexemes) {
        return 0;
    }
    let n = closing(left, right, tail(lexemes, 1));
    if n == 0 {
        return 0;
    }
    1 + n
}

/// `( .. )`
#[tactic(auto, unfolding(crate::specs::Forms::rounds))]
pub fn rounds(lexemes: &[Lexeme<'_>]) -> usize
    ensures value { result ≡ rounds (seen lexemes.now) }
    ensures within { result ≤ length (seen lexemes.now) }
{
    matched("(", ")", lexemes)
}

/// `< .. >`
#[tactic(auto, unfolding(crate::specs::Forms::angles))]
fn angles(lexemes: &[Lexeme<'_>]) -> usize
    ensures value { result ≡ angles (seen lexemes.now) }
    ensures within { result ≤ length (seen lexemes.now) }
{
    matched("<", ">", lexemes)
}

/// `. IDENTIFIER` with its type arguments.
#[tactic(auto, using(crate::proofs::Walks::walks), unfolding(crate::specs::Forms::type_tail))]
fn type_tail(lexemes: &[Lexeme<'_>]) -> usize
    ensures value { result ≡ type_tail (seen lexemes.now) }
    ensures within { result ≤ length (seen lexemes.now) }
{
    let n = name_tail(lexemes);
    if n == 0 {
        return 0;
    }
    n + angles(tail(lexemes, n))
}

/// Such tails, one after the other.
#[tactic(auto, using(crate::proofs::Walks::walks))]
fn type_tails(lexemes: &[Lexeme<'_>]) -> usize
    ensures value { result ≡ span type_tail (seen lexemes.now) }
    ensures within { result ≤ length (seen lexemes.now) }
{
    let mut n = 0;
    loop {
        let len = type_tail(tail(lexemes, n));
        if len == 0 {
            return n;
        }
        n += len;
    }
}

/// A type without its dimensions.
#[tactic(auto, using(crate::proofs::Walks::walks), unfolding(crate::specs::Forms::base_len))]
pub fn base_len(lexemes: &[Lexeme<'_>]) -> usize
    ensures value { result ≡ base_len (seen lexemes.now) }
    ensures within { result ≤ length (seen lexemes.now) }
{
    if begins_any(&PRIMITIVES, lexemes) {
        return 1;
    }
    if !begins_name(lexemes) {
        return 0;
    }
    let n = 1 + angles(tail(lexemes, 1));
    n + type_tails(tail(lexemes, n))
}

/// `[ ]`
#[tactic(auto, using(crate::proofs::Walks::walks), unfolding(crate::specs::Forms::dim_len))]
fn dim_len(lexemes: &[Lexeme<'_>]) -> usize
    ensures value { result ≡ dim_len (seen lexemes.now) }
    ensures within { result ≤ length (seen lexemes.now) }
{
    if begins("[", lexemes) && begins("]", tail(lexemes, 1)) {
        return 2;
    }
    0
}

/// How many lexemes the dimensions at the front take, `[ ]` each.
#[tactic(auto, using(crate::proofs::Walks::walks), unfolding(crate::specs::Forms::dims_len))]
pub fn dims_len(lexemes: &[Lexeme<'_>]) -> usize
    ensures value { result ≡ dims_len (seen lexemes.now) }
    ensures within { result ≤ length (seen lexemes.now) }
{
    let mut n = 0;
    loop {
        let len = dim_len(tail(lexemes, n));
        if len == 0 {
            return n;
        }
        n += len;
    }
}

/// How many lexemes the type at the front takes, 0 where there is none.
#[tactic(auto, using(crate::proofs::Walks::walks), unfolding(crate::specs::Forms::type_len))]
pub fn type_len(lexemes: &[Lexeme<'_>]) -> usize
    ensures value { result ≡ type_len (seen lexemes.now) }
    ensures within { result ≤ length (seen lexemes.now) }
{
    let n = base_len(lexemes);
    if n == 0 {
        return 0;
    }
    n + dims_len(tail(lexemes, n))
}
