ghost use Rattle.std.specs.Prelude.{◌≡◌, ◌≤◌, length};
ghost use Rattle.java_units.specs.Signs.{seen};
ghost use Rattle.java_units.specs.Pieces.{fills, package_len, star_len, target_len, import_len, kind_len, named_len, vars_end, header_len, class_len, result_len, past_vars, is_call, is_constructor, is_method, fields_len, form, form_of};

use crate::entries::{Entry, clauses_len, entries_len, params_len, vars_len};
use crate::lexemes::{Lexeme, begins, begins_any, begins_name, tail};
use crate::names::{name_len, rounds, type_len};
use crate::pieces::{Form, bare, end};

/// The words that begin a class.
const KINDS: [&str; 4] = ["class", "interface", "enum", "record"];

/// Whether a form takes all of these, and one at least.
#[tactic(auto, using(crate::proofs::Walks::walks), unfolding(crate::specs::Pieces::fills))]
fn fills(n: usize, head: &[Lexeme<'_>]) -> bool
    ensures { result ≡ fills n (seen head.now) }
{
    n != 0 && n == head.len()
}

/// `package NAME`
#[tactic(auto, using(crate::proofs::Walks::walks), unfolding(crate::specs::Pieces::package_len))]
fn package_len(head: &[Lexeme<'_>]) -> usize
    ensures value { result ≡ package_len (seen head.now) }
    ensures within { result ≤ length (seen head.now) }
{
    if !begins("package", head) {
        return 0;
    }
    let n = name_len(tail(head, 1));
    if n == 0 {
        return 0;
    }
    1 + n
}

/// `. *`
#[tactic(auto, using(crate::proofs::Walks::walks), unfolding(crate::specs::Pieces::star_len))]
pub fn star_len(head: &[Lexeme<'_>]) -> usize
    ensures value { result ≡ star_len (seen head.now) }
    ensures within { result ≤ length (seen head.now) }
{
    if begins(".", head) && begins("*", tail(head, 1)) {
        return 2;
    }
    0
}

/// What an import names.
#[tactic(auto, using(crate::proofs::Walks::walks), unfolding(crate::specs::Pieces::target_len))]
fn target_len(head: &[Lexeme<'_>]) -> usize
    ensures value { result ≡ target_len (seen head.now) }
    ensures within { result ≤ length (seen head.now) }
{
    let n = name_len(head);
    if n == 0 {
        return 0;
    }
    n + star_len(tail(head, n))
}

/// `import` and what it names.
#[tactic(auto, using(crate::proofs::Walks::walks), unfolding(crate::specs::Pieces::import_len))]
fn import_len(head: &[Lexeme<'_>]) -> usize
    ensures value { result ≡ import_len (seen head.now) }
    ensures within { result ≤ length (seen head.now) }
{
    if !begins("import", head) {
        return 0;
    }
    let n = target_len(tail(head, 1));
    if n == 0 {
        return 0;
    }
    1 + n
}

/// The words that begin a class.
#[tactic(auto, using(crate::proofs::Walks::walks), unfolding(crate::specs::Pieces::kind_len))]
pub fn kind_len(head: &[Lexeme<'_>]) -> usize
    ensures value { result ≡ kind_len (seen head.now) }
    ensures within { result ≤ length (seen head.now) }
{
    if begins_any(&KINDS, head) {
        return 1;
    }
    if begins("@", head) && begins("interface", tail(head, 1)) {
        return 2;
    }
    0
}

/// These, and the name of the class.
#[tactic(auto, using(crate::proofs::Walks::walks), unfolding(crate::specs::Pieces::named_len))]
pub fn named_len(head: &[Lexeme<'_>]) -> usize
    ensures value { result ≡ named_len (seen head.now) }
    ensures within { result ≤ length (seen head.now) }
{
    let n = kind_len(head);
    if n == 0 {
        return 0;
    }
    if !begins_name(tail(head, n)) {
        return 0;
    }
    n + 1
}

/// These, and the type variables or none.
#[tactic(auto, using(crate::proofs::Walks::walks), unfolding(crate::specs::Pieces::vars_end))]
fn vars_end(head: &[Lexeme<'_>]) -> usize
    ensures value { result ≡ vars_end (seen head.now) }
    ensures within { result ≤ length (seen head.now) }
{
    let n = named_len(head);
    if n == 0 {
        return 0;
    }
    n + vars_len(tail(head, n))
}

/// These, and the bracketed header of a record.
#[tactic(auto, using(crate::proofs::Walks::walks), unfolding(crate::specs::Pieces::header_len))]
pub fn header_len(head: &[Lexeme<'_>]) -> usize
    ensures value { result ≡ header_len (seen head.now) }
    ensures within { result ≤ length (seen head.now) }
{
    let n = vars_end(head);
    if !begins("record", head) {
        return n;
    }
    let header = rounds(tail(head, n));
    if header == 0 {
        return 0;
    }
    if n == 0 {
        return 0;
    }
    n + header
}

/// All that comes before the block of a class.
#[tactic(auto, using(crate::proofs::Walks::walks), unfolding(crate::specs::Pieces::class_len))]
fn class_len(head: &[Lexeme<'_>]) -> usize
    ensures value { result ≡ class_len (seen head.now) }
    ensures within { result ≤ length (seen head.now) }
{
    let n = header_len(head);
    if n == 0 {
        return 0;
    }
    n + clauses_len(tail(head, n))
}

/// `void` or a type.
#[tactic(auto, using(crate::proofs::Walks::walks), unfolding(crate::specs::Pieces::result_len))]
pub fn result_len(head: &[Lexeme<'_>]) -> usize
    ensures value { result ≡ result_len (seen head.now) }
    ensures within { result ≤ length (seen head.now) }
{
    if begins("void", head) {
        return 1;
    }
    type_len(head)
}

/// What follows the type variables.
#[tactic(auto, unfolding(crate::specs::Pieces::past_vars))]
pub fn past_vars<'a, 'b>(head: &'b [Lexeme<'a>]) -> &'b [Lexeme<'a>]
    ensures { seen result.now ≡ past_vars (seen head.now) }
{
    tail(head, vars_len(head))
}

/// A name, and parameters in brackets.
#[tactic(auto, unfolding(crate::specs::Pieces::is_call))]
fn is_call(head: &[Lexeme<'_>]) -> bool
    ensures { result ≡ is_call (seen head.now) }
{
    begins_name(head) && params_len(tail(head, 1)) != 0
}

/// The form of a constructor.
#[tactic(auto, unfolding(crate::specs::Pieces::is_constructor))]
fn is_constructor(name: &str, head: &[Lexeme<'_>]) -> bool
    ensures { result ≡ is_constructor name.now (seen head.now) }
{
    let rest = past_vars(head);
    begins(name, rest) && is_call(rest)
}

/// The form of a method.
#[tactic(auto, unfolding(crate::specs::Pieces::is_method))]
fn is_method(head: &[Lexeme<'_>]) -> bool
    ensures { result ≡ is_method (seen head.now) }
{
    let rest = past_vars(head);
    let n = result_len(rest);
    n != 0 && is_call(tail(rest, n))
}

/// A type and the fields of it.
#[tactic(auto, using(crate::proofs::Walks::walks), unfolding(crate::specs::Pieces::fields_len))]
fn fields_len(head: &[Lexeme<'_>]) -> usize
    ensures value { result ≡ fields_len (seen head.now) }
    ensures within { result ≤ length (seen head.now) }
{
    let n = type_len(head);
    if n == 0 {
        return 0;
    }
    let fields = entries_len(Entry::Field, tail(head, n));
    if fields == 0 {
        return 0;
    }
    n + fields
}

/// The form of a piece by what is left of its head and by its end.
#[tactic(auto, unfolding(crate::specs::Pieces::form))]
fn form(name: &str, head: &[Lexeme<'_>], end: &[Lexeme<'_>]) -> Form
    ensures { result ≡ form name.now (seen head.now) (seen end.now) }
{
    if fills(package_len(head), head) && begins(";", end) {
        return Form::Package;
    }
    if fills(import_len(head), head) && begins(";", end) {
        return Form::Import;
    }
    if fills(class_len(head), head) && begins("{", end) {
        return Form::Class;
    }
    if is_constructor(name, head) {
        return Form::Constructor;
    }
    if is_method(head) {
        return Form::Method;
    }
    if fills(fields_len(head), head) && begins(";", end) {
        return Form::Field;
    }
    Form::Nothing
}

/// The form of the piece at the front, in a class of this name.
pub fn form_of(name: &str, piece: &[Lexeme<'_>]) -> Form
    ensures { result ≡ form_of name.now (seen piece.now) }
{
    form(name, bare(piece), end(piece))
}
