ghost use Rattle.std.specs.Prelude.{◌≡◌, ◌||◌, ℕ, List, [], ◌∷◌, OnOk, IfOk, chars, IsUtf8};
ghost use Rattle.indexmap.specs.IndexSet.{contains_text};
ghost use Rattle.java_units.specs.Signs.{has};
ghost use Rattle.java_resolve.specs.Known.{words, words_of, form_words, wanted_words, decl_words, decls_words, is_declared, Adds, Begins, Knows};
ghost use Rattle.terms.specs.Text.{type_text};

use crate::chars::{first, is_word_part};
use crate::word::Word;
use indexmap::IndexSet;
use std::alloc::{AllocError, Global};
use terms::{Arg, Decl, Form, Parts};

/// Adds a word at the end, where it is new.
pub fn add_word(alloc: Global, set: &mut IndexSet<String>, word: &Word) -> Result<(), AllocError>
    ensures added { OnOk result (Adds set.old set.new (word.now ∷ [])) }
    ensures kept { OnOk result (Begins set.old.keys set.new.keys) }
{
    let text = String::from_str(alloc, word.as_str())?;
    match set.insert(text) {
        Ok(_) => {}
        Err(_) => return Err(AllocError),
    }
    Ok(())
}

/// The word that is read behind one more character of a text. A word that the character ends is added.
fn next_word(
    alloc: Global,
    set: &mut IndexSet<String>,
    mut word: Word,
    c: char,
) -> Result<Word, AllocError>
    ensures { IfOk result (λ w. (b rest : List ℕ) → IsUtf8 b → (contains_text set.new b || has (words w rest) (chars b)) ≡ (contains_text set.old b || has (words word (c ∷ rest)) (chars b))) }
{
    if is_word_part(c) {
        word.push(c)?;
        return Ok(word);
    }
    add_word(alloc, set, &word)?;
    Ok(Word::new(alloc))
}

/// Adds the words of a text.
fn add_text(alloc: Global, set: &mut IndexSet<String>, text: &str) -> Result<(), AllocError>
    ensures { OnOk result (Adds set.old set.new (words_of text.now)) }
{
    let mut word = Word::new(alloc);
    let mut rest = text;
    while let Some((c, more)) = first(rest) {
        word = next_word(alloc, set, word, c)?;
        rest = more;
    }
    add_word(alloc, set, &word)
}

/// Adds the words of a form.
fn add_form(alloc: Global, set: &mut IndexSet<String>, form: &Form) -> Result<(), AllocError>
    ensures { OnOk result (Adds set.old set.new (form_words form.now)) }
{
    match form {
        Form::Name(text) => add_text(alloc, set, text.as_str()),
        Form::This => Ok(()),
        Form::Call(text) => add_text(alloc, set, text.as_str()),
        Form::New(text) => add_text(alloc, set, text.as_str()),
        Form::Method(text) => add_text(alloc, set, text.as_str()),
        Form::Field(text, _) => add_text(alloc, set, text.as_str()),
        Form::Lambda(text) => add_text(alloc, set, text.as_str()),
    }
}

/// Adds the words of a type.
fn add_type(
    alloc: Global,
    set: &mut IndexSet<String>,
    parts: &Parts,
    number: u32,
) -> Result<(), AllocError>
    ensures { OnOk result (Adds set.old set.new (words_of (type_text parts.now number))) }
{
    match parts.types.get(number as usize) {
        Some(text) => add_text(alloc, set, text.as_str()),
        None => add_text(alloc, set, ""),
    }
}

/// Adds the words of the type that a place wants.
fn add_arg(
    alloc: Global,
    set: &mut IndexSet<String>,
    parts: &Parts,
    arg: &Arg,
) -> Result<(), AllocError>
    ensures { OnOk result (Adds set.old set.new (wanted_words parts.now (arg.now ∷ []))) }
{
    match arg {
        Arg::Plain(wanted) => add_type(alloc, set, parts, *wanted),
        Arg::Fun(_, wanted) => add_type(alloc, set, parts, *wanted),
    }
}

/// Adds the words of the types that these places want.
fn add_wanted(
    alloc: Global,
    set: &mut IndexSet<String>,
    parts: &Parts,
    args: &[Arg],
) -> Result<(), AllocError>
    ensures { OnOk result (Adds set.old set.new (wanted_words parts.now args.now)) }
{
    for arg in args {
        add_arg(alloc, set, parts, arg)?;
    }
    Ok(())
}

/// Adds the words of a declaration.
fn add_decl(
    alloc: Global,
    set: &mut IndexSet<String>,
    parts: &Parts,
    decl: &Decl,
) -> Result<(), AllocError>
    ensures { OnOk result (Adds set.old set.new (decl_words parts.now decl.now)) }
{
    add_form(alloc, set, &decl.form)?;
    if decl.crowded {
        return add_wanted(alloc, set, parts, decl.args.as_slice());
    }
    Ok(())
}

/// Adds the words of declarations.
fn add_decls(
    alloc: Global,
    set: &mut IndexSet<String>,
    parts: &Parts,
    decls: &[Decl],
) -> Result<(), AllocError>
    ensures { OnOk result (Adds set.old set.new (decls_words parts.now decls.now)) }
{
    for decl in decls {
        add_decl(alloc, set, parts, decl)?;
    }
    Ok(())
}

/// The words of an environment's declarations.
pub fn declared_words(alloc: Global, parts: &Parts) -> Result<IndexSet<String>, AllocError>
    ensures { IfOk result (λ set. Knows set (is_declared parts.now) []) }
{
    let mut set = IndexSet::new(alloc);
    add_decls(alloc, &mut set, parts, parts.decls.as_slice())?;
    Ok(set)
}
