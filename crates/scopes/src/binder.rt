ghost use Rattle.std.specs.Prelude.{◌≡◌, ◌++◌, ◌+◌, ◌<◌, ◌==◌, ◌≤◌, ℕ, List, ◌-◌, ◌||◌, false, get_or, map, length, drop, replicate, unwrap_or, not, if◌then◌else◌, IfOk, OnOk, slice_get, Some};
ghost use Rattle.std.specs.List.{list_any, list_all, slice_split};
ghost use Rattle.java_tokens.specs.Classes.{is_digit};
ghost use Rattle.class_summary.specs.Names.{first_from};
ghost use Rattle.scopes.specs.Binders.{is_between, is_digits, run_of, binder_of, IsMarked, free_of, form_text, words};

use lists::Text;
use std::alloc::{AllocError, Global};
use terms::{Decl, Form};

/// Whether a byte is a decimal digit.
#[tactic(auto, unfolding(java_tokens::specs::Classes::is_digit))]
fn is_digit(byte: u8) -> bool
    ensures { result ≡ is_digit byte }
{
    b'0' <= byte && byte <= b'9'
}

/// Whether bytes are decimal digits.
fn are_digits(bytes: &[u8]) -> bool
    ensures { result ≡ list_all is_digit bytes.now }
{
    bytes.iter().all(|b| is_digit(*b))
}

/// Whether bytes are one decimal digit or more.
#[tactic(auto, using(crate::proofs::Runs::digits_some))]
fn is_digits(bytes: &[u8]) -> bool
    ensures { result ≡ is_digits bytes.now }
{
    if bytes.is_empty() {
        return false;
    }
    are_digits(bytes)
}

/// How many letters stood before this rest of a word, if it is digits; else 0.
fn run_before(rest: &[u8], run: usize) -> usize
    ensures { result ≡ (if is_digits rest.now then run else 0) }
{
    if is_digits(rest) { run } else { 0 }
}

/// The bytes from a place on.
fn suffix(bytes: &[u8], from: usize) -> &[u8]
    requires { from ≤ length bytes.now }
    ensures { result.now ≡ drop from bytes.now }
{
    &bytes[from..]
}

/// How many letters `p` stand before the digits of a word that consists of both, 0 for other words.
fn run_of(word: &[u8]) -> usize
    ensures { result ≡ run_of word.now }
{
    for i in 0..word.len() {
        if word[i] != b'p' {
            return run_before(suffix(word, i), i);
        }
    }
    0
}

/// Whether a byte stands between identifiers.
fn is_between(byte: u8) -> bool
    ensures { result ≡ is_between byte }
{
    byte == b'.' || byte == b'[' || byte == b']'
}

/// What stands between dots and square brackets.
fn pieces(alloc: Global, text: &[u8]) -> Result<Vec<&[u8]>, AllocError>
    ensures { IfOk result (λ all. map (λ w. w.now) all.items ≡ slice_split is_between text.now) }
{
    text.split(|b| is_between(*b)).collect(alloc)
}

/// Adds the runs of the identifiers in a text.
fn add_runs(alloc: Global, text: &[u8], runs: &mut Vec<usize>) -> Result<(), AllocError>
    ensures { OnOk result (runs.new.items ≡ runs.old.items ++ map run_of (slice_split is_between text.now)) }
{
    let pieces = pieces(alloc, text)?;
    for word in &pieces {
        runs.push(run_of(word))?;
    }
    Ok(())
}

/// Marks with one at each of these runs that is a place of theirs.
fn marked(mut marks: Vec<bool>, runs: &[usize]) -> Vec<bool>
    ensures { IsMarked runs.now marks.items result.items }
{
    for run in runs {
        if *run < marks.len() {
            marks[*run] = true;
        }
    }
    marks
}

/// The least number from 1 on without a mark, 1 where each has one.
fn unmarked(marks: &[bool]) -> usize
    ensures { result ≡ unwrap_or (first_from (length marks.now - 1) 1 (λ n. not (get_or marks.now n false))) 1 }
{
    for n in 1..marks.len() {
        if !marks[n] {
            return n;
        }
    }
    1
}

/// n marks that aren't set.
fn unset(alloc: Global, n: usize) -> Result<Vec<bool>, AllocError>
    ensures { IfOk result (λ marks. marks.items ≡ replicate n false) }
{
    let marks = vec![in alloc; false; n]?;
    Ok(marks)
}

/// The least number from 1 on that isn't among these runs.
fn free(alloc: Global, runs: &[usize]) -> Result<usize, AllocError>
    ensures { IfOk result (λ n. n ≡ free_of runs.now) }
{
    if runs.len() > usize::MAX - 2 {
        return Err(AllocError);
    }
    let marks = unset(alloc, runs.len() + 2)?;
    let marks = marked(marks, runs);
    let free = unmarked(marks.as_slice());
    Ok(free)
}

/// n letters `p`.
fn letters(alloc: Global, n: usize) -> Result<Text, AllocError>
    ensures { IfOk result (λ text. text ≡ replicate n 112) }
{
    let mut text = Text::new(alloc);
    for _k in 0..n {
        text.push_str("p")?;
    }
    Ok(text)
}

/// The shortest run of `p` that makes no variable of words with these runs.
fn binder_for(alloc: Global, runs: &[usize]) -> Result<Text, AllocError>
    ensures { IfOk result (λ text. (words : List (List ℕ)) → runs.now ≡ map run_of words → text ≡ binder_of words) }
{
    let n = free(alloc, runs)?;
    let text = letters(alloc, n)?;
    Ok(text)
}

/// The text of a form.
fn form_text(form: &Form) -> &str
    ensures { result.now ≡ form_text form.now }
{
    match form {
        Form::Name(text) => text.as_str(),
        Form::This => "",
        Form::Call(text) => text.as_str(),
        Form::New(text) => text.as_str(),
        Form::Method(text) => text.as_str(),
        Form::Field(text, _) => text.as_str(),
        Form::Lambda(text) => text.as_str(),
    }
}

/// Adds the runs of the identifiers in the texts of declarations.
fn add_decl_runs(alloc: Global, decls: &[Decl], runs: &mut Vec<usize>) -> Result<(), AllocError>
    ensures { OnOk result (runs.new.items ≡ runs.old.items ++ map run_of (words (map (λ d. form_text d.form) decls.now))) }
{
    for decl in decls {
        add_runs(alloc, form_text(&decl.form).as_bytes(), runs)?;
    }
    Ok(())
}

/// Adds the runs of the identifiers in texts.
fn add_text_runs(alloc: Global, texts: &[Text], runs: &mut Vec<usize>) -> Result<(), AllocError>
    ensures { OnOk result (runs.new.items ≡ runs.old.items ++ map run_of (words texts.now)) }
{
    for text in texts {
        add_runs(alloc, text.as_bytes(), runs)?;
    }
    Ok(())
}

/// Adds the runs of names.
fn add_name_runs(names: &[Text], runs: &mut Vec<usize>) -> Result<(), AllocError>
    ensures { OnOk result (runs.new.items ≡ runs.old.items ++ map run_of names.now) }
{
    for name in names {
        runs.push(run_of(name.as_bytes()))?;
    }
    Ok(())
}

/// The binder of an environment: the shortest run of `p` that no identifier in its declarations and in the texts of
/// its types, and no name, continues with digits alone.
pub(crate) fn binder(
    alloc: Global,
    decls: &[Decl],
    texts: &[Text],
    names: &[Text],
) -> Result<Text, AllocError>
    ensures { IfOk result (λ text. text ≡ binder_of (words (map (λ d. form_text d.form) decls.now ++ texts.now) ++ names.now)) }
{
    let mut runs = Vec::new(alloc);
    add_decl_runs(alloc, decls, &mut runs)?;
    add_text_runs(alloc, texts, &mut runs)?;
    add_name_runs(names, &mut runs)?;
    let text = binder_for(alloc, runs.as_slice())?;
    Ok(text)
}
