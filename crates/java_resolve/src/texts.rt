ghost use Rattle.std.specs.Prelude.{◌≡◌};
ghost use Rattle.terms.specs.Text.{type_text};
ghost use Rattle.java_resolve.specs.Keys.{key};

use terms::{Form, Parts};

/// The text of a form, and `this`.
pub fn key(form: &Form) -> &str
    ensures value { result.now ≡ key form.now }
{
    match form {
        Form::Name(text) => text.as_str(),
        Form::This => "this",
        Form::Call(text) => text.as_str(),
        Form::New(text) => text.as_str(),
        Form::Method(text) => text.as_str(),
        Form::Field(text, _) => text.as_str(),
        Form::Lambda(text) => text.as_str(),
    }
}

/// The text of a type.
pub fn type_text(parts: &Parts, number: u32) -> &str
    ensures { result.now ≡ type_text parts.now number }
{
    match parts.types.get(number as usize) {
        Some(text) => text.as_str(),
        None => "",
    }
}
