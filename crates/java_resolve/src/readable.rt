ghost use Rattle.std.specs.Prelude.{◌≡◌, ◌||◌, ◌&&◌, ℕ, List, true, false, not, [], ◌∷◌, IfOk, chars};
ghost use Rattle.java_units.specs.Signs.{has};
ghost use Rattle.java_units.specs.Forms.{primitives};
ghost use Rattle.java_shapes.specs.Words.{literals};
ghost use Rattle.java_shapes.specs.Readable.{is_free, IsFormText, IsTypeText, IsReadable};
ghost use Rattle.terms.specs.Text.{type_text};
ghost use Rattle.java_resolve.specs.Readable.{are_parts, parts_option, is_free_path, is_form_text, dims_from, IsCut, AreTypeTexts, IsDeclReadable, AreDeclsReadable};
ghost use Rattle.java_resolve.specs.Keys.{key};

use crate::binder::is_binder;
use crate::chars::first;
use crate::texts::{key, type_text};
use crate::word::{Word, has};
use java_units::forms::is_identifier;
use std::alloc::{AllocError, Global};
use terms::{Arg, Decl, Env, Form, Parts};

/// The literals that a declaration may be written as.
const LITERALS: [&str; 4] = ["0", "true", "false", "\"\""];

/// Whether a word is an identifier that is no variable's text.
fn is_free(binder: &str, word: &str) -> bool
    ensures { result ≡ is_free (chars binder.now) (chars word.now) }
{
    if !is_identifier(word) {
        return false;
    }
    !is_binder(binder, word)
}

/// The word that is read behind one more character of a path, where the word that a dot ends is free.
#[tactic(auto, unfolding(crate::specs::Readable::are_parts))]
fn next_part(
    alloc: Global,
    binder: &str,
    mut part: Word,
    c: char,
) -> Result<Option<Word>, AllocError>
    ensures { IfOk result (λ o. (rest : List ℕ) → parts_option (is_free (chars binder.now)) o rest ≡ are_parts (is_free (chars binder.now)) part (c ∷ rest)) }
{
    if c != '.' {
        part.push(c)?;
        return Ok(Some(part));
    }
    if !is_free(binder, part.as_str()) {
        return Ok(None);
    }
    Ok(Some(Word::new(alloc)))
}

/// Whether a text is such identifiers joined by dots.
fn is_free_path(alloc: Global, binder: &str, text: &str) -> Result<bool, AllocError>
    ensures { IfOk result (λ r. r ≡ is_free_path (chars binder.now) (chars text.now)) }
{
    let mut part = Word::new(alloc);
    let mut rest = text;
    while let Some((c, more)) = first(rest) {
        match next_part(alloc, binder, part, c)? {
            Some(next) => part = next,
            None => return Ok(false),
        }
        rest = more;
    }
    Ok(is_free(binder, part.as_str()))
}

/// Whether a text is a literal.
fn is_literal(text: &str) -> bool
    ensures { result ≡ has literals (chars text.now) }
{
    has(&LITERALS, text)
}

/// Whether a text is a name that can be read.
fn is_name_text(alloc: Global, binder: &str, text: &str) -> Result<bool, AllocError>
    ensures { IfOk result (λ r. r ≡ (is_free_path (chars binder.now) (chars text.now) || has literals (chars text.now))) }
{
    if is_free_path(alloc, binder, text)? {
        return Ok(true);
    }
    Ok(is_literal(text))
}

/// Whether this text of a form can be read.
fn is_form_text(alloc: Global, binder: &str, form: &Form, text: &str) -> Result<bool, AllocError>
    requires { text.now ≡ key form.now }
    ensures { IfOk result (λ r. r ≡ is_form_text (chars binder.now) form.now) }
{
    match form {
        Form::Name(_) => is_name_text(alloc, binder, text),
        Form::This => Ok(true),
        Form::Call(_) => is_free_path(alloc, binder, text),
        Form::New(_) => is_free_path(alloc, binder, text),
        Form::Method(_) => Ok(is_free(binder, text)),
        Form::Field(_, _) => Ok(is_free(binder, text)),
        Form::Lambda(_) => is_free_path(alloc, binder, text),
    }
}

/// Whether the text of a form can be read.
fn is_form_readable(alloc: Global, parts: &Parts, form: &Form) -> Result<bool, AllocError>
    ensures yes { IfOk result (λ r. r ≡ true → IsFormText parts.now form.now) }
    ensures no { IfOk result (λ r. IsFormText parts.now form.now → r ≡ true) }
{
    is_form_text(alloc, parts.binder.as_str(), form, key(form))
}

/// A text up to its first `[`, and the rest.
fn cut(alloc: Global, text: &str) -> Result<(Word, &str), AllocError>
    ensures { IfOk result (λ r. IsCut (chars text.now) r.0 (chars r.1.now)) }
{
    let mut base = Word::new(alloc);
    let mut rest = text;
    while let Some((c, more)) = first(rest) {
        if c == '[' {
            return Ok((base, rest));
        }
        base.push(c)?;
        rest = more;
    }
    Ok((base, rest))
}

/// Whether the character is the next one of some `[]`.
#[tactic(auto, unfolding(crate::specs::Readable::dims_from))]
fn is_bracket(is_open: bool, c: char) -> bool
    ensures { (rest : List ℕ) → (result && dims_from (not is_open) rest) ≡ dims_from is_open (c ∷ rest) }
{
    if is_open { c == ']' } else { c == '[' }
}

/// Whether a text is some `[]`.
fn are_dimensions(text: &str) -> bool
    ensures { result ≡ dims_from false (chars text.now) }
{
    let mut is_open = false;
    let mut rest = text;
    while let Some((c, more)) = first(rest) {
        if !is_bracket(is_open, c) {
            return false;
        }
        is_open = !is_open;
        rest = more;
    }
    !is_open
}

/// Whether a word is a primitive type or identifiers joined by dots.
fn is_base(alloc: Global, binder: &str, word: &Word) -> Result<bool, AllocError>
    ensures { IfOk result (λ r. r ≡ (has primitives word.now || is_free_path (chars binder.now) word.now)) }
{
    if word.is_primitive() {
        return Ok(true);
    }
    is_free_path(alloc, binder, word.as_str())
}

/// Whether the text of a type can be read.
fn is_type_text(alloc: Global, parts: &Parts, number: u32) -> Result<bool, AllocError>
    ensures yes { IfOk result (λ r. r ≡ true → IsTypeText parts.now (type_text parts.now number)) }
    ensures no { IfOk result (λ r. IsTypeText parts.now (type_text parts.now number) → r ≡ true) }
{
    let (base, rest) = cut(alloc, type_text(parts, number))?;
    if !are_dimensions(rest) {
        return Ok(false);
    }
    is_base(alloc, parts.binder.as_str(), &base)
}

/// Whether the text of the type that a place wants can be read.
fn is_arg_text(alloc: Global, parts: &Parts, arg: &Arg) -> Result<bool, AllocError>
    ensures yes { IfOk result (λ r. r ≡ true → AreTypeTexts parts.now (arg.now ∷ [])) }
    ensures no { IfOk result (λ r. AreTypeTexts parts.now (arg.now ∷ []) → r ≡ true) }
{
    match arg {
        Arg::Plain(wanted) => is_type_text(alloc, parts, *wanted),
        Arg::Fun(_, wanted) => is_type_text(alloc, parts, *wanted),
    }
}

/// Whether the texts of the types that these places want can be read.
fn are_arg_texts(alloc: Global, parts: &Parts, args: &[Arg]) -> Result<bool, AllocError>
    ensures yes { IfOk result (λ r. r ≡ true → AreTypeTexts parts.now args.now) }
    ensures no { IfOk result (λ r. AreTypeTexts parts.now args.now → r ≡ true) }
{
    for arg in args {
        if !is_arg_text(alloc, parts, arg)? {
            return Ok(false);
        }
    }
    Ok(true)
}

/// Whether the texts of a declaration can be read.
fn is_decl_readable(alloc: Global, parts: &Parts, decl: &Decl) -> Result<bool, AllocError>
    ensures yes { IfOk result (λ r. r ≡ true → IsDeclReadable parts.now decl.now) }
    ensures no { IfOk result (λ r. IsDeclReadable parts.now decl.now → r ≡ true) }
{
    if !is_form_readable(alloc, parts, &decl.form)? {
        return Ok(false);
    }
    if !decl.crowded {
        return Ok(true);
    }
    are_arg_texts(alloc, parts, decl.args.as_slice())
}

/// Whether the texts of declarations can be read.
fn are_decls_readable(alloc: Global, parts: &Parts, decls: &[Decl]) -> Result<bool, AllocError>
    ensures yes { IfOk result (λ r. r ≡ true → AreDeclsReadable parts.now decls.now) }
    ensures no { IfOk result (λ r. AreDeclsReadable parts.now decls.now → r ≡ true) }
{
    for decl in decls {
        if !is_decl_readable(alloc, parts, decl)? {
            return Ok(false);
        }
    }
    Ok(true)
}

/// Whether texts can be read back in an environment: its binder is an identifier, the texts of its forms, and of the
/// types that crowded declarations want, are identifiers joined by dots, or what else may stand there, and none of
/// these identifiers is the binder with digits alone behind it. Takes time linear in these texts.
pub fn may_resolve(alloc: Global, env: &Env) -> Result<bool, AllocError>
    ensures yes { IfOk result (λ r. r ≡ true → IsReadable env.now) }
    ensures no { IfOk result (λ r. IsReadable env.now → r ≡ true) }
{
    let parts = env.parts();
    if !is_identifier(parts.binder.as_str()) {
        return Ok(false);
    }
    are_decls_readable(alloc, parts, parts.decls.as_slice())
}
