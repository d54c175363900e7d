ghost use Rattle.std.specs.Prelude.{◌≡◌, ◌≤◌, ◌+◌, ◌++◌, ◌∷◌, [], ℕ, List, true, map, IfOk, IfSome, IfNone, OnOk, length, string_bytes, chars, bytes_eq};
ghost use Rattle.terms.specs.Apart.{Declares};
ghost use Rattle.terms.specs.Text.{variable_text};
ghost use Rattle.terms.specs.Typing.{rows, joined};
ghost use Rattle.terms.specs.declared.parts.Arg.{Arg};
ghost use Rattle.terms.specs.declared.parts.Arg.TheVariants as arg;
ghost use Rattle.terms.specs.declared.parts.Decl.{Decl};
ghost use Rattle.java_shapes.specs.ShapeOf.{binder_shapes};
ghost use Rattle.java_resolve.specs.Found.{one, each, entry_in};
ghost use Rattle.java_resolve.specs.Lambdas.{WantsLambda, IsLambda, are_variables, lambda_over, lambda_in};
ghost use Rattle.java_resolve.specs.Trees.{tree_view, found_view, entry_view, row_view};

use crate::found::{Entry, Found, Row, pick};
use crate::heads::{Kind, deeper, one_head};
use crate::setting::Setting;
use crate::tree::{Tree, TreeArg};
use crate::word::Word;
use java_units::forms::same;
use lists::Items;
use std::alloc::{AllocError, Global};
use std::rc::Rc;
use terms::{Arg, Decl, Env, Parts};

/// A declaration of lambdas: the types of their parameters, and the one that their bodies are wanted at.
#[derive(Clone, Copy)]
pub struct Wanted<'a> {
    pub decl: &'a Decl,
    pub row: &'a [u32],
    pub result: u32,
}

/// The one argument, where there is just one.
fn only(args: &[Arg]) -> Option<&Arg>
    ensures some { IfSome result (λ a. args.now ≡ a.now ∷ []) }
    ensures none { IfNone result ((a : Arg) → args.now ≡ a ∷ [] → ⊥) }
{
    if args.len() != 1 {
        return None;
    }
    Some(&args[0])
}

/// The lambda that this argument of a declaration wants.
fn wanted_at<'a>(decl: &'a Decl, wanted: &'a Arg) -> Option<Wanted<'a>>
    ensures some { IfSome result (λ w. (w.decl.now ≡ decl.now) × (wanted.now ≡ arg.Fun w.row.now w.result)) }
    ensures none { IfNone result ((ps : List ℕ) (r : ℕ) → wanted.now ≡ arg.Fun ps r → ⊥) }
{
    match wanted {
        Arg::Plain(_) => None,
        Arg::Fun(row, result) => Some(Wanted {
            decl,
            row: row.as_slice(),
            result: *result,
        }),
    }
}

/// What a declaration wants, where it is one of lambdas.
fn lambda_wanted(decl: &Decl) -> Option<Wanted<'_>>
    ensures some { IfSome result (λ w. (w.decl.now ≡ decl.now) × WantsLambda decl.now w.row.now w.result) }
    ensures none { IfNone result ((ps : List ℕ) (r : ℕ) → WantsLambda decl.now ps r → ⊥) }
{
    if !Kind::Lambda.accepts(&decl.form) {
        return None;
    }
    match only(decl.args.as_slice()) {
        None => None,
        Some(wanted) => wanted_at(decl, wanted),
    }
}

/// What the declaration with this number wants, where it is one of lambdas.
fn decl_wanted(parts: &Parts, number: u32) -> Option<Wanted<'_>>
    ensures some { IfSome result (λ w. Declares parts.now number w.decl.now × WantsLambda w.decl.now w.row.now w.result) }
    ensures none { IfNone result ((d : Decl) (ps : List ℕ) (r : ℕ) → Declares parts.now number d → WantsLambda d ps r → ⊥) }
{
    match parts.decls.get(number as usize) {
        None => None,
        Some(decl) => lambda_wanted(decl),
    }
}

/// The text of a variable.
fn variable_text(alloc: Global, parts: &Parts, number: usize) -> Result<String, AllocError>
    ensures value { IfOk result (λ s. string_bytes s ≡ variable_text parts.now number) }
{
    let mut text = String::from_str(alloc, parts.binder.as_str())?;
    let digits = (number as u64).to_string(alloc)?;
    text.push_str(digits.as_str())?;
    Ok(text)
}

/// Whether the word is the variable with this number.
fn is_variable(alloc: Global, parts: &Parts, number: usize, word: &Word) -> Result<bool, AllocError>
    ensures value { IfOk result (λ b. b ≡ bytes_eq (chars (variable_text parts.now number)) word.now) }
{
    let text = variable_text(alloc, parts, number)?;
    let wanted = text.as_str();
    let found = word.as_str();
    Ok(same(wanted, found))
}

/// The next number.
fn next_number(number: usize) -> Result<usize, AllocError>
    ensures { IfOk result (λ n. n ≡ number + 1) }
{
    match number.checked_add(1) {
        Some(next) => Ok(next),
        None => Err(AllocError),
    }
}

/// Whether the words are the variables from this number on.
fn are_variables(
    alloc: Global,
    parts: &Parts,
    from: usize,
    words: &[Word],
) -> Result<bool, AllocError>
    ensures value { IfOk result (λ b. b ≡ are_variables parts.now from words.now) }
{
    let mut number = from;
    for word in words {
        let is_next = is_variable(alloc, parts, number, word)?;
        if !is_next {
            return Ok(false);
        }
        number = next_number(number)?;
    }
    Ok(true)
}

/// Whether the binders of a lambda with these parameters are the variables from this number on.
fn has_binders(
    alloc: Global,
    parts: &Parts,
    from: usize,
    row: &[u32],
    binders: &[Word],
) -> Result<bool, AllocError>
    ensures yes { IfOk result (λ b. b ≡ true → binder_shapes parts.now from (length row.now) ≡ binders.now) }
    ensures no { IfOk result (λ b. binder_shapes parts.now from (length row.now) ≡ binders.now → b ≡ true) }
{
    if row.len() != binders.len() {
        return Ok(false);
    }
    are_variables(alloc, parts, from, binders)
}

/// The declaration with this number, where it is one of lambdas that have these binders.
pub fn lambda_decl<'a>(
    alloc: Global,
    setting: &Setting<'a>,
    number: u32,
    binders: &[Word],
) -> Result<Option<Wanted<'a>>, AllocError>
    ensures some { IfOk result (λ o. IfSome o (λ w. IsLambda setting.now.env.now number (length (joined (rows setting.now.ctx))) binders.now w.decl.now w.row.now w.result)) }
    ensures none { IfOk result (λ o. IfNone o ((d : Decl) (ps : List ℕ) (r : ℕ) → IsLambda setting.now.env.now number (length (joined (rows setting.now.ctx))) binders.now d ps r → ⊥)) }
{
    let from = setting.ctx.variables();
    let parts = setting.env.parts();
    match decl_wanted(parts, number) {
        None => Ok(None),
        Some(wanted) => {
            let has_binders = has_binders(alloc, parts, from, wanted.row, binders)?;
            if !has_binders {
                return Ok(None);
            }
            Ok(Some(wanted))
        }
    }
}

/// The lambdas of a declaration over the bodies that suit it.
pub fn lambda_over(
    alloc: Global,
    env: &Env,
    number: u32,
    wanted: Wanted<'_>,
    cast: &Option<Word>,
    body: &Row,
) -> Result<Row, AllocError>
    ensures value { IfOk result (λ row. row_view row ≡ lambda_in env.now wanted.entry.decl.now number wanted.entry.result cast.now (row_view body.now)) }
{
    let found = pick(
        env,
        wanted.decl.crowded,
        cast,
        wanted.result,
        body.entries.as_slice(),
    )?;
    let mut entries = Items::new(alloc);
    add_body(alloc, number, wanted.decl.result, found, &mut entries)?;
    let depth = deeper(body.depth)?;
    Ok(Row { entries, depth })
}

/// Adds a lambda over a body, where there is any.
fn add_body(
    alloc: Global,
    number: u32,
    kind: u32,
    body: Found,
    entries: &mut Items<Entry>,
) -> Result<(), AllocError>
    ensures added { OnOk result (map entry_view entries.new ≡ map entry_view entries.old ++ entry_in kind (each (lambda_over number) (found_view body))) }
{
    let found = match body {
        Found::Nothing => return Ok(()),
        Found::One(tree) => one_lambda(alloc, number, tree)?,
        Found::Two => Found::Two,
    };
    entries.push(Entry { kind, found })
}

/// The one lambda over a body.
fn one_lambda(alloc: Global, number: u32, body: Rc<Tree>) -> Result<Found, AllocError>
    ensures value { IfOk result (λ f. found_view f ≡ one (lambda_over number (tree_view body.value))) }
{
    let mut trees = Items::new(alloc);
    trees.push(TreeArg::Lam(body))?;
    one_head(alloc, number, trees)
}
