ghost use Rattle.std.specs.Prelude.{◌≡◌, drop};
ghost use Rattle.java_units.specs.Signs.{seen};
ghost use Rattle.java_bodies.specs.Statements.{statement_len, statement, may_begin, own_statement, typed, named, valued, is_just, is_declaration, is_assignment, is_field_assignment, asked_by};

use java_units::forms::{
    Lexeme, ahead_len, begins, begins_any, begins_name, dims_len, prefix, tail, type_len,
};

/// What ends a statement.
const SEPARATORS: [&str; 3] = [";", "{", "}"];

/// What the hole's own statement asks a value for.
#[derive(Clone, Copy, Debug, PartialEq, Eq)]
pub enum Asking {
    /// The variable that it declares.
    Declaration,
    /// The result of the method.
    Return,
    /// A variable or a field, by its name alone.
    Variable,
    /// A field, behind `this`.
    Field,
    /// It asks for no value.
    Nothing,
}

/// How many lexemes the statement at the front takes.
fn statement_len(lexemes: &[Lexeme<'_>]) -> usize
    ensures { result ≡ statement_len (seen lexemes.now) }
{
    for i in 0..lexemes.len() {
        if begins_any(&SEPARATORS, tail(lexemes, i)) {
            return i + 1;
        }
    }
    lexemes.len()
}

/// The statement at the front, with what ends it.
#[tactic(auto, unfolding(crate::specs::Statements::statement))]
pub fn statement<'a, 'b>(lexemes: &'b [Lexeme<'a>]) -> &'b [Lexeme<'a>]
    ensures { seen result.now ≡ statement (seen lexemes.now) }
{
    prefix(lexemes, statement_len(lexemes))
}

/// Whether a statement may begin at the place.
#[tactic(auto, unfolding(crate::specs::Statements::may_begin))]
pub fn may_begin(lexemes: &[Lexeme<'_>], k: usize) -> bool
    ensures { result ≡ may_begin (seen lexemes.now) k }
{
    if k == 0 {
        return true;
    }
    begins_any(&SEPARATORS, tail(lexemes, k - 1))
}

/// The place behind the last end of a statement.
fn own_start(lexemes: &[Lexeme<'_>]) -> usize
    ensures { drop result (seen lexemes.now) ≡ own_statement (seen lexemes.now) }
{
    let mut left = lexemes.len();
    while left > 0 {
        if begins_any(&SEPARATORS, tail(lexemes, left - 1)) {
            return left;
        }
        left -= 1;
    }
    0
}

/// The hole's own statement.
#[tactic(auto, unfolding(crate::specs::Statements::own_statement))]
pub fn own_statement<'a, 'b>(lexemes: &'b [Lexeme<'a>]) -> &'b [Lexeme<'a>]
    ensures { seen result.now ≡ own_statement (seen lexemes.now) }
{
    tail(lexemes, own_start(lexemes))
}

/// What follows annotations and `final`.
#[tactic(auto, unfolding(crate::specs::Statements::typed))]
pub fn typed<'a, 'b>(lexemes: &'b [Lexeme<'a>]) -> &'b [Lexeme<'a>]
    ensures { seen result.now ≡ typed (seen lexemes.now) }
{
    tail(lexemes, ahead_len(lexemes))
}

/// What follows the type of a declaration.
#[tactic(auto, unfolding(crate::specs::Statements::named))]
pub fn named<'a, 'b>(lexemes: &'b [Lexeme<'a>]) -> &'b [Lexeme<'a>]
    ensures { seen result.now ≡ named (seen lexemes.now) }
{
    let typed = typed(lexemes);
    tail(typed, type_len(typed))
}

/// What follows the name of a declaration and its dimensions.
#[tactic(auto, using(crate::proofs::Lengths::lengths), unfolding(crate::specs::Statements::valued))]
fn valued<'a, 'b>(lexemes: &'b [Lexeme<'a>]) -> &'b [Lexeme<'a>]
    ensures { seen result.now ≡ valued (seen lexemes.now) }
{
    let named = named(lexemes);
    tail(named, 1 + dims_len(tail(named, 1)))
}

/// Whether this lexeme stands at the front and nothing follows it.
#[tactic(auto, using(crate::proofs::Lengths::lengths), unfolding(crate::specs::Statements::is_just))]
pub fn is_just(word: &str, lexemes: &[Lexeme<'_>]) -> bool
    ensures { result ≡ is_just word.now (seen lexemes.now) }
{
    begins(word, lexemes) && lexemes.len() == 1
}

/// `TYPE N DIMS =`
#[tactic(auto, unfolding(crate::specs::Statements::is_declaration))]
pub fn is_declaration(lexemes: &[Lexeme<'_>]) -> bool
    ensures { result ≡ is_declaration (seen lexemes.now) }
{
    if type_len(typed(lexemes)) == 0 {
        return false;
    }
    begins_name(named(lexemes)) && is_just("=", valued(lexemes))
}

/// `N =`
#[tactic(auto, unfolding(crate::specs::Statements::is_assignment))]
fn is_assignment(lexemes: &[Lexeme<'_>]) -> bool
    ensures { result ≡ is_assignment (seen lexemes.now) }
{
    begins_name(lexemes) && is_just("=", tail(lexemes, 1))
}

/// `this . N =`
#[tactic(auto, unfolding(crate::specs::Statements::is_field_assignment))]
fn is_field_assignment(lexemes: &[Lexeme<'_>]) -> bool
    ensures { result ≡ is_field_assignment (seen lexemes.now) }
{
    if !begins("this", lexemes) || !begins(".", tail(lexemes, 1)) {
        return false;
    }
    is_assignment(tail(lexemes, 2))
}

/// What the hole's own statement asks a value for.
#[tactic(auto, unfolding(crate::specs::Statements::asked_by))]
pub fn asked_by(lexemes: &[Lexeme<'_>]) -> Asking
    ensures { result ≡ asked_by (seen lexemes.now) }
{
    if is_declaration(lexemes) {
        return Asking::Declaration;
    }
    if is_just("return", lexemes) {
        return Asking::Return;
    }
    if is_assignment(lexemes) {
        return Asking::Variable;
    }
    if is_field_assignment(lexemes) {
        return Asking::Field;
    }
    Asking::Nothing
}
