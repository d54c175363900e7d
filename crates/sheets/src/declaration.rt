ghost use Rattle.std.specs.Prelude.{◌≡◌, ◌∷◌, ◌&&◌, [], true, false, map, IfOk, MatchOption};
ghost use Rattle.std.specs.List.{list_all};
ghost use Rattle.sheets.specs.Words.{texts, has, index_of};
ghost use Rattle.sheets.specs.SheetLines.{is_this, is_lambda, args_in, body_in, decl_words};
ghost use Rattle.sheets.specs.Sheets.{form_of, wanted, decl_of, has_all};
ghost use Rattle.terms.specs.declared.parts.Arg.TheVariants.{Plain};

use crate::kind::FormWord;
use crate::words::{number, prefix, tail, word};
use lists::{Items, Text};
use name_places::Names;
use std::alloc::{AllocError, Global};
use terms::{Arg, Decl, Form};

/// Whether a form has no name.
#[tactic(auto, unfolding(crate::specs::SheetLines::is_this))]
fn is_this(form: FormWord) -> bool
    ensures { result ≡ is_this form }
{
    matches!(form, FormWord::This)
}

/// Whether a form is a lambda's.
#[tactic(auto, unfolding(crate::specs::SheetLines::is_lambda))]
fn is_lambda(form: FormWord) -> bool
    ensures { result ≡ is_lambda form }
{
    matches!(form, FormWord::Lambda)
}

/// The words of a declaration's arguments; of a lambda those of its parameters.
#[tactic(auto, unfolding(crate::specs::SheetLines::args_in))]
fn args_in<'w, 'a>(form: FormWord, words: &'w [&'a str]) -> &'w [&'a str]
    ensures { texts result.now ≡ args_in form (texts words.now) }
{
    if is_lambda(form) {
        return prefix(tail(words, 5), words.len().saturating_sub(7));
    }
    if is_this(form) {
        return tail(words, 4);
    }
    tail(words, 5)
}

/// The numbers of types, where each is declared.
fn numbers(alloc: Global, names: &Names, words: &[&str]) -> Result<Option<Items<u32>>, AllocError>
    ensures { IfOk result (λ found. MatchOption found
        (list_all (has names.now) (texts words.now) ≡ false)
        (λ all. (list_all (has names.now) (texts words.now) ≡ true) × (all ≡ map (index_of names.now) (texts words.now)))) }
{
    let mut all = Items::new(alloc);
    for text in words {
        let Some(number) = names.place(text) else {
            return Ok(None);
        };
        all.push(number)?;
    }
    Ok(Some(all))
}

/// Places for values of types, where each is declared.
fn plain(alloc: Global, names: &Names, words: &[&str]) -> Result<Option<Items<Arg>>, AllocError>
    ensures { IfOk result (λ found. MatchOption found
        (list_all (has names.now) (texts words.now) ≡ false)
        (λ all. (list_all (has names.now) (texts words.now) ≡ true) × (all ≡ map (λ w. Plain (index_of names.now w)) (texts words.now)))) }
{
    let mut all = Items::new(alloc);
    for text in words {
        let Some(number) = names.place(text) else {
            return Ok(None);
        };
        all.push(Arg::Plain(number))?;
    }
    Ok(Some(all))
}

/// The place for a lambda, where all its types are declared.
fn function(
    alloc: Global,
    names: &Names,
    params: &[&str],
    body: &str,
) -> Result<Option<Items<Arg>>, AllocError>
    ensures { IfOk result (λ found. MatchOption found
        ((list_all (has names.now) (texts params.now) && has names.now body.now) ≡ false)
        (λ all. ((list_all (has names.now) (texts params.now) && has names.now body.now) ≡ true)
        × (all ≡ wanted names.now (texts params.now) (body.now ∷ [])))) }
{
    let Some(params) = numbers(alloc, names, params)? else {
        return Ok(None);
    };
    let Some(body) = names.place(body) else {
        return Ok(None);
    };
    let mut all = Items::new(alloc);
    all.push(Arg::Fun(params, body))?;
    Ok(Some(all))
}

/// What a declaration wants, where all its types are declared.
#[tactic(auto, unfolding(crate::specs::SheetLines::body_in))]
fn wanted(
    alloc: Global,
    names: &Names,
    form: FormWord,
    words: &[&str],
) -> Result<Option<Items<Arg>>, AllocError>
    ensures { IfOk result (λ found. MatchOption found
        ((list_all (has names.now) (args_in form (texts words.now)) && list_all (has names.now) (body_in form (texts words.now))) ≡ false)
        (λ all. ((list_all (has names.now) (args_in form (texts words.now)) && list_all (has names.now) (body_in form (texts words.now))) ≡ true)
        × (all ≡ wanted names.now (args_in form (texts words.now)) (body_in form (texts words.now))))) }
{
    let args = args_in(form, words);
    if is_lambda(form) {
        let body = word(words, words.len().saturating_sub(1));
        return function(alloc, names, args, body);
    }
    plain(alloc, names, args)
}

/// How a declaration is written in Java.
#[tactic(auto, unfolding(crate::specs::Sheets::form_of))]
fn form_of(alloc: Global, form: FormWord, name: &str) -> Result<Form, AllocError>
    ensures { IfOk result (λ written. written ≡ form_of form name.now) }
{
    match form {
        FormWord::Name => Ok(Form::Name(Text::from_str(alloc, name)?)),
        FormWord::This => Ok(Form::This),
        FormWord::Call => Ok(Form::Call(Text::from_str(alloc, name)?)),
        FormWord::New => Ok(Form::New(Text::from_str(alloc, name)?)),
        FormWord::Method => Ok(Form::Method(Text::from_str(alloc, name)?)),
        FormWord::Field => Ok(Form::Field(Text::from_str(alloc, name)?, false)),
        FormWord::HiddenField => Ok(Form::Field(Text::from_str(alloc, name)?, true)),
        FormWord::Lambda => Ok(Form::Lambda(Text::from_str(alloc, name)?)),
    }
}

/// The declaration that the words of a line say, where all its types are declared.
pub fn decl_of(
    alloc: Global,
    names: &Names,
    crowded: bool,
    form: FormWord,
    words: &[&str],
) -> Result<Option<Decl>, AllocError>
    ensures { IfOk result (λ found. MatchOption found
        (has_all names.now (decl_words crowded form (texts words.now)) ≡ false)
        (λ decl. (has_all names.now (decl_words crowded form (texts words.now)) ≡ true)
        × (decl ≡ decl_of names.now (decl_words crowded form (texts words.now))))) }
{
    let Some(result) = names.place(word(words, 2)) else {
        return Ok(None);
    };
    let Some(args) = wanted(alloc, names, form, words)? else {
        return Ok(None);
    };
    let written = form_of(alloc, form, word(words, 4))?;
    Ok(Some(Decl {
        args,
        result,
        weight: number(word(words, 1)),
        crowded,
        form: written,
    }))
}
