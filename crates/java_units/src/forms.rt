// What stands at the front of some lexemes, and how many of them it takes: the forms of names, types,
// annotations, parameters and declared names.
ghost use Rattle.std.specs.Prelude.{◌≡◌, ◌≤◌, ◌<◌, IsTrue, length};
ghost use Rattle.java_units.specs.Signs.{seen};
ghost use Rattle.java_units.specs.Forms.{begins_any, modifiers, annotation_len, modifier_len, non_sealed_len, lead_len, bound_len, bounds_len, var_len, final_len, dots_len, ahead_len, wide_len, param_name_len, param_len, span};

pub use crate::entries::{Entry, declared_len, entries_len, entry_len};
pub use crate::lexemes::{Lexeme, begins, begins_any, begins_name, is, prefix, same, tail};
pub use crate::members::held_len;
use crate::names::rounds;
pub use crate::names::{base_len, dims_len, name_len, type_len};
pub use crate::reading::{is_identifier, is_name, lexemes};
pub use crate::starts::entries;
pub use crate::values::{fields_of, first_text, type_text};
use crate::words::is_modifier;
pub use crate::words::is_reserved;

/// `@`, a name and what `(` and its matching `)` enclose after it.
#[tactic(auto, using(crate::proofs::Walks::walks), unfolding(crate::specs::Forms::annotation_len))]
fn annotation_len(lexemes: &[Lexeme<'_>]) -> usize
    ensures value { result ≡ annotation_len (seen lexemes.now) }
    ensures within { result ≤ length (seen lexemes.now) }
{
    if !begins("@", lexemes) {
        return 0;
    }
    let name = name_len(tail(lexemes, 1));
    if name == 0 {
        return 0;
    }
    let n = 1 + name;
    n + rounds(tail(lexemes, n))
}

/// How many lexemes the annotations at the front take.
#[tactic(auto, using(crate::proofs::Walks::walks))]
pub fn annotations_len(lexemes: &[Lexeme<'_>]) -> usize
    ensures value { result ≡ span annotation_len (seen lexemes.now) }
    ensures within { result ≤ length (seen lexemes.now) }
{
    let mut n = 0;
    loop {
        let len = annotation_len(tail(lexemes, n));
        if len == 0 {
            return n;
        }
        n += len;
    }
}

/// `non - sealed`
#[tactic(auto, using(crate::proofs::Walks::walks), unfolding(crate::specs::Forms::non_sealed_len))]
fn non_sealed_len(lexemes: &[Lexeme<'_>]) -> usize
    ensures value { result ≡ non_sealed_len (seen lexemes.now) }
    ensures within { result ≤ length (seen lexemes.now) }
{
    if !begins("non", lexemes) || !begins("-", tail(lexemes, 1)) {
        return 0;
    }
    if !begins("sealed", tail(lexemes, 2)) {
        return 0;
    }
    3
}

/// Whether a modifier of one word stands at the front.
#[tactic(auto, using(crate::proofs::Walks::walks), unfolding(crate::specs::Forms::begins_any))]
fn begins_modifier(lexemes: &[Lexeme<'_>]) -> bool
    ensures value { result ≡ begins_any modifiers (seen lexemes.now) }
    ensures some { IsTrue result → 0 < length (seen lexemes.now) }
{
    if lexemes.is_empty() {
        return false;
    }
    is_modifier(lexemes[0].word)
}

/// A modifier.
#[tactic(auto, using(crate::proofs::Walks::walks), unfolding(crate::specs::Forms::modifier_len))]
fn modifier_len(lexemes: &[Lexeme<'_>]) -> usize
    ensures value { result ≡ modifier_len (seen lexemes.now) }
    ensures within { result ≤ length (seen lexemes.now) }
{
    if begins_modifier(lexemes) {
        return 1;
    }
    non_sealed_len(lexemes)
}

/// An annotation or a modifier.
#[tactic(auto, using(crate::proofs::Walks::walks), unfolding(crate::specs::Forms::lead_len))]
pub fn lead_len(lexemes: &[Lexeme<'_>]) -> usize
    ensures value { result ≡ lead_len (seen lexemes.now) }
    ensures within { result ≤ length (seen lexemes.now) }
{
    let n = annotation_len(lexemes);
    if n == 0 {
        return modifier_len(lexemes);
    }
    n
}

/// Annotations and modifiers, one after the other.
#[tactic(auto, using(crate::proofs::Walks::walks))]
pub fn leads_len(lexemes: &[Lexeme<'_>]) -> usize
    ensures value { result ≡ span lead_len (seen lexemes.now) }
    ensures within { result ≤ length (seen lexemes.now) }
{
    let mut n = 0;
    loop {
        let len = lead_len(tail(lexemes, n));
        if len == 0 {
            return n;
        }
        n += len;
    }
}

/// `& TYPE`
#[tactic(auto, using(crate::proofs::Walks::walks), unfolding(crate::specs::Forms::bound_len))]
fn bound_len(lexemes: &[Lexeme<'_>]) -> usize
    ensures value { result ≡ bound_len (seen lexemes.now) }
    ensures within { result ≤ length (seen lexemes.now) }
{
    if !begins("&", lexemes) {
        return 0;
    }
    let n = type_len(tail(lexemes, 1));
    if n == 0 {
        return 0;
    }
    1 + n
}

/// Such bounds, one after the other.
#[tactic(auto, using(crate::proofs::Walks::walks))]
fn bounds_after(lexemes: &[Lexeme<'_>]) -> usize
    ensures value { result ≡ span bound_len (seen lexemes.now) }
    ensures within { result ≤ length (seen lexemes.now) }
{
    let mut n = 0;
    loop {
        let len = bound_len(tail(lexemes, n));
        if len == 0 {
            return n;
        }
        n += len;
    }
}

/// `extends` and the bounds of a type variable.
#[tactic(auto, using(crate::proofs::Walks::walks), unfolding(crate::specs::Forms::bounds_len))]
pub fn bounds_len(lexemes: &[Lexeme<'_>]) -> usize
    ensures value { result ≡ bounds_len (seen lexemes.now) }
    ensures within { result ≤ length (seen lexemes.now) }
{
    if !begins("extends", lexemes) {
        return 0;
    }
    let first = type_len(tail(lexemes, 1));
    if first == 0 {
        return 0;
    }
    let n = 1 + first;
    n + bounds_after(tail(lexemes, n))
}

/// A type variable with its bounds.
#[tactic(auto, using(crate::proofs::Walks::walks), unfolding(crate::specs::Forms::var_len))]
pub fn var_len(lexemes: &[Lexeme<'_>]) -> usize
    ensures value { result ≡ var_len (seen lexemes.now) }
    ensures within { result ≤ length (seen lexemes.now) }
{
    if !begins_name(lexemes) {
        return 0;
    }
    1 + bounds_len(tail(lexemes, 1))
}

/// How many lexemes `final` takes: 1 or 0.
#[tactic(auto, using(crate::proofs::Walks::walks), unfolding(crate::specs::Forms::final_len))]
pub fn final_len(lexemes: &[Lexeme<'_>]) -> usize
    ensures value { result ≡ final_len (seen lexemes.now) }
    ensures within { result ≤ length (seen lexemes.now) }
{
    if begins("final", lexemes) {
        return 1;
    }
    0
}

/// `. . .`
#[tactic(auto, using(crate::proofs::Walks::walks), unfolding(crate::specs::Forms::dots_len))]
pub fn dots_len(lexemes: &[Lexeme<'_>]) -> usize
    ensures value { result ≡ dots_len (seen lexemes.now) }
    ensures within { result ≤ length (seen lexemes.now) }
    ensures few { result ≤ 3 }
{
    if !begins(".", lexemes) || !begins(".", tail(lexemes, 1)) {
        return 0;
    }
    if !begins(".", tail(lexemes, 2)) {
        return 0;
    }
    3
}

/// How many lexemes annotations and `final` take, which come before the type of a parameter.
#[tactic(auto, using(crate::proofs::Walks::walks), unfolding(crate::specs::Forms::ahead_len))]
pub fn ahead_len(lexemes: &[Lexeme<'_>]) -> usize
    ensures value { result ≡ ahead_len (seen lexemes.now) }
    ensures within { result ≤ length (seen lexemes.now) }
{
    let n = annotations_len(lexemes);
    n + final_len(tail(lexemes, n))
}

/// The type of a parameter, with the dots after it.
#[tactic(auto, using(crate::proofs::Walks::walks), unfolding(crate::specs::Forms::wide_len))]
pub fn wide_len(lexemes: &[Lexeme<'_>]) -> usize
    ensures value { result ≡ wide_len (seen lexemes.now) }
    ensures within { result ≤ length (seen lexemes.now) }
{
    let n = type_len(lexemes);
    if n == 0 {
        return 0;
    }
    n + dots_len(tail(lexemes, n))
}

/// The name of a parameter with its dimensions.
#[tactic(auto, using(crate::proofs::Walks::walks), unfolding(crate::specs::Forms::param_name_len))]
fn param_name_len(lexemes: &[Lexeme<'_>]) -> usize
    ensures value { result ≡ param_name_len (seen lexemes.now) }
    ensures within { result ≤ length (seen lexemes.now) }
{
    if begins_name(lexemes) || begins("this", lexemes) {
        return 1 + dims_len(tail(lexemes, 1));
    }
    0
}

/// A parameter.
#[tactic(auto, using(crate::proofs::Walks::walks), unfolding(crate::specs::Forms::param_len))]
pub fn param_len(lexemes: &[Lexeme<'_>]) -> usize
    ensures value { result ≡ param_len (seen lexemes.now) }
    ensures within { result ≤ length (seen lexemes.now) }
{
    let ahead = ahead_len(lexemes);
    let rest = tail(lexemes, ahead);
    let n = wide_len(rest);
    if n == 0 {
        return 0;
    }
    let name = param_name_len(tail(rest, n));
    if name == 0 {
        return 0;
    }
    ahead + n + name
}
