ghost use Rattle.std.specs.Prelude.{◌≡◌, ℕ, List, IsUtf8, slice_get, Some};
ghost use Rattle.terms.specs.declared.parts.Decl.{Decl};
ghost use Rattle.scopes.specs.Binders.{form_text};
ghost use Rattle.hole_texts.specs.Texts.{HasTexts};

use lists::Text;
use terms::{Decl, Form, Parts};

/// Looks at a text: each `str` is in UTF-8.
fn look_at_text(text: &Text)
    ensures { IsUtf8 text.now }
{
    let _text = text.as_str();
}

/// Looks at the text of a form.
fn look_at_form(form: &Form)
    ensures { IsUtf8 (form_text form.now) }
{
    match form {
        Form::Name(text) => look_at_text(text),
        Form::This => (),
        Form::Call(text) => look_at_text(text),
        Form::New(text) => look_at_text(text),
        Form::Method(text) => look_at_text(text),
        Form::Field(text, _) => look_at_text(text),
        Form::Lambda(text) => look_at_text(text),
    }
}

/// Looks at the texts of these forms.
fn look_at_forms(decls: &[Decl])
    ensures { (i : ℕ) (d : Decl) → slice_get decls.now i ≡ Some d → IsUtf8 (form_text d.form) }
{
    for decl in decls {
        look_at_form(&decl.form);
    }
}

/// Looks at these texts.
fn look_at_all(texts: &[Text])
    ensures { (i : ℕ) (t : List ℕ) → slice_get texts.now i ≡ Some t → IsUtf8 t }
{
    for text in texts {
        look_at_text(text);
    }
}

/// Looks at the texts of an environment.
pub fn look_at_texts(parts: &Parts)
    ensures { HasTexts parts.now }
{
    look_at_forms(parts.decls.as_slice());
    look_at_all(parts.types.as_slice());
}
