ghost use Rattle.std.specs.Prelude.{◌≡◌, ◌+◌, ℕ, List, Bool, true, false, [], ◌∷◌, ◌++◌, OnOk, IfOk, IfSome, IfNone, chars, codes};
ghost use Rattle.std.specs.List.{list_all};
ghost use Rattle.std.specs.Char.{is_ascii};
ghost use Rattle.java_resolve.specs.Pieces.{sign, word, cut, cast_pieces, binder_pieces, header_pieces, separator};
ghost use Rattle.java_resolve.specs.Known.{is_known, Passes, Knows};

use crate::chars::{first, is_word_part};
use crate::word::Word;
use indexmap::IndexSet;
use std::alloc::{AllocError, Global};

/// Going over the text of an expression: the words that are known at a place, and the bytes before it.
#[derive(Drop)]
pub struct Passing {
    pub set: IndexSet<String>,
    pub at: usize,
}

/// What stands before an argument or a binder.
pub fn separator(is_first: bool) -> &'static str
    ensures { result.now ≡ separator is_first }
{
    if is_first { "" } else { ", " }
}

/// Goes over so many bytes. Beyond 2^64 there is no memory.
fn advance(at: &mut usize, bytes: usize) -> Result<(), AllocError>
    ensures bytes { OnOk result (at.new ≡ at.old + bytes) }
{
    match at.checked_add(bytes) {
        Some(behind) => {
            *at = behind;
            Ok(())
        }
        None => Err(AllocError),
    }
}

/// Goes over a sign.
pub fn pass_sign(at: &mut usize, text: &str) -> Result<(), AllocError>
    requires { list_all is_ascii text.now ≡ true }
    ensures { (d : List ℕ → Bool) → OnOk result (Passes d (sign text.now ∷ []) at.old at.new true) }
{
    advance(at, text.len())
}

/// Whether a word is no identifier or is known.
fn knows(set: &IndexSet<String>, name: &Word) -> bool
    ensures { (d : List ℕ → Bool) (bound : List (List ℕ)) → Knows set.now d bound → result ≡ is_known d (word bound name.now) }
{
    if !name.is_identifier() {
        return true;
    }
    set.contains(name.as_str())
}

/// Goes over a word.
fn pass_word(set: &IndexSet<String>, at: &mut usize, name: &Word) -> Result<bool, AllocError>
    ensures { (d : List ℕ → Bool) (bound : List (List ℕ)) → Knows set.now d bound → IfOk result (Passes d (word bound name.now ∷ []) at.old at.new) }
{
    if !knows(set, name) {
        return Ok(false);
    }
    advance(at, name.as_str().len())?;
    Ok(true)
}

/// The word that is read behind one more character, where the word that the character ends is known.
fn pass_char(
    alloc: Global,
    set: &IndexSet<String>,
    at: &mut usize,
    mut name: Word,
    c: char,
) -> Result<Option<Word>, AllocError>
    ensures known { (d : List ℕ → Bool) (bound : List (List ℕ)) → Knows set.now d bound → IfOk result (λ o. IfSome o (λ w. (rest : List ℕ) (to : ℕ) (r : Bool) → Passes d (cut bound w rest) at.new to r → Passes d (cut bound name (c ∷ rest)) at.old to r)) }
    ensures unknown { (d : List ℕ → Bool) (bound : List (List ℕ)) → Knows set.now d bound → IfOk result (λ o. IfNone o ((rest : List ℕ) → Passes d (cut bound name (c ∷ rest)) at.old at.new false)) }
{
    if is_word_part(c) {
        name.push(c)?;
        return Ok(Some(name));
    }
    let is_known = pass_word(set, at, &name)?;
    if !is_known {
        return Ok(None);
    }
    advance(at, c.len_utf8())?;
    Ok(Some(Word::new(alloc)))
}

/// Goes over a text.
pub fn pass_text(
    alloc: Global,
    set: &IndexSet<String>,
    at: &mut usize,
    text: &str,
) -> Result<bool, AllocError>
    ensures { (d : List ℕ → Bool) (bound : List (List ℕ)) → Knows set.now d bound → IfOk result (Passes d (cut bound [] (chars text.now)) at.old at.new) }
{
    let mut name = Word::new(alloc);
    let mut rest = text;
    while let Some((c, more)) = first(rest) {
        match pass_char(alloc, set, at, name, c)? {
            Some(next) => name = next,
            None => return Ok(false),
        }
        rest = more;
    }
    pass_word(set, at, &name)
}

/// Goes over a word with its dots.
pub fn pass_name(
    alloc: Global,
    set: &IndexSet<String>,
    at: &mut usize,
    name: &Word,
) -> Result<bool, AllocError>
    ensures { (d : List ℕ → Bool) (bound : List (List ℕ)) → Knows set.now d bound → IfOk result (Passes d (cut bound [] name.now) at.old at.new) }
{
    pass_text(alloc, set, at, name.as_str())
}

/// Goes over a word with its dots between a bracket and a sign.
fn pass_enclosed(
    alloc: Global,
    set: &IndexSet<String>,
    at: &mut usize,
    name: &Word,
    close: &str,
) -> Result<bool, AllocError>
    requires { list_all is_ascii close.now ≡ true }
    ensures { (d : List ℕ → Bool) (bound : List (List ℕ)) → Knows set.now d bound → IfOk result (Passes d (sign (codes "(") ∷ (cut bound [] name.now ++ sign close.now ∷ [])) at.old at.new) }
{
    pass_sign(at, "(")?;
    let is_known = pass_name(alloc, set, at, name)?;
    if !is_known {
        return Ok(false);
    }
    pass_sign(at, close)?;
    Ok(true)
}

/// Goes over a cast, where there is one.
pub fn pass_cast(
    alloc: Global,
    set: &IndexSet<String>,
    at: &mut usize,
    cast: &Option<Word>,
) -> Result<bool, AllocError>
    ensures { (d : List ℕ → Bool) (bound : List (List ℕ)) → Knows set.now d bound → IfOk result (Passes d (cast_pieces bound cast.now) at.old at.new) }
{
    match cast {
        None => Ok(true),
        Some(name) => pass_enclosed(alloc, set, at, name, ") "),
    }
}

/// Goes over a binder behind its separator.
fn pass_binder(
    alloc: Global,
    set: &IndexSet<String>,
    at: &mut usize,
    is_first: bool,
    binder: &Word,
) -> Result<bool, AllocError>
    ensures { (d : List ℕ → Bool) (bound : List (List ℕ)) → Knows set.now d bound → IfOk result (Passes d (sign (separator is_first) ∷ cut bound [] binder.now) at.old at.new) }
{
    pass_sign(at, separator(is_first))?;
    pass_name(alloc, set, at, binder)
}

/// Goes over the binders of a lambda.
fn pass_binders(
    alloc: Global,
    set: &IndexSet<String>,
    at: &mut usize,
    binders: &[Word],
) -> Result<bool, AllocError>
    ensures { (d : List ℕ → Bool) (bound : List (List ℕ)) → Knows set.now d bound → IfOk result (Passes d (binder_pieces bound true binders.now) at.old at.new) }
{
    for i in 0..binders.len() {
        let is_known = pass_binder(alloc, set, at, i == 0, &binders[i])?;
        if !is_known {
            return Ok(false);
        }
    }
    Ok(true)
}

/// Goes over a lambda up to its body.
pub fn pass_header(
    alloc: Global,
    set: &IndexSet<String>,
    at: &mut usize,
    interface: &Word,
    binders: &[Word],
) -> Result<bool, AllocError>
    ensures { (d : List ℕ → Bool) (bound : List (List ℕ)) → Knows set.now d bound → IfOk result (Passes d (header_pieces bound interface.now binders.now) at.old at.new) }
{
    let is_known = pass_enclosed(alloc, set, at, interface, ") (")?;
    if !is_known {
        return Ok(false);
    }
    let are_known = pass_binders(alloc, set, at, binders)?;
    if !are_known {
        return Ok(false);
    }
    pass_sign(at, ") -> ")?;
    Ok(true)
}
