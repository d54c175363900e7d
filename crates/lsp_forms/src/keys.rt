ghost use Rattle.std.specs.Prelude.{◌≡◌, IfOk, IfErr, option_map};
ghost use Rattle.lsp_forms.specs.Keys.{are_names, cut, is_descriptor, is_key};

use crate::forms::ParamFault;
use json_rpc::Refused;
use std::alloc::Global;
use type_names::{is_internal_name, read_field, read_method};

/// The text before the first `:`, and the text after it.
fn cut_at_colon(text: &str) -> Option<(&str, &str)>
    ensures { option_map (λ x. (x.0.now, x.1.now)) result ≡ cut 58 text.now }
{
    text.split_once(':')
}

/// The text before the first `.`, and the text after it.
fn cut_at_dot(text: &str) -> Option<(&str, &str)>
    ensures { option_map (λ x. (x.0.now, x.1.now)) result ≡ cut 46 text.now }
{
    text.split_once('.')
}

/// Whether a text is an internal name, `.` and a member's name.
fn are_names(text: &str) -> bool
    ensures { result ≡ are_names (cut 46 text.now) }
{
    match cut_at_dot(text) {
        Some((class, name)) => {
            is_internal_name(class) && !name.is_empty() && cut_at_dot(name).is_none()
        }
        None => false,
    }
}

/// Whether a text is the descriptor of a field or of a method.
fn is_descriptor(alloc: Global, text: &str) -> Result<bool, Refused<ParamFault>>
    ensures answer { IfOk result (λ b. b ≡ is_descriptor text.now) }
    ensures memory { IfErr result (λ e. e ≡ Refused.OutOfMemory) }
{
    match read_field(alloc, text) {
        Ok(Some(_)) => return Ok(true),
        Ok(None) => {}
        Err(_) => return Err(Refused::OutOfMemory),
    }
    match read_method(alloc, text) {
        Ok(kind) => Ok(kind.is_some()),
        Err(_) => Err(Refused::OutOfMemory),
    }
}

/// Whether a text is the key of a member.
#[tactic(auto, unfolding(crate::specs::Keys::is_key))]
pub fn is_key(alloc: Global, key: &str) -> Result<bool, Refused<ParamFault>>
    ensures answer { IfOk result (λ b. b ≡ is_key key.now) }
    ensures memory { IfErr result (λ e. e ≡ Refused.OutOfMemory) }
{
    let Some((names, descriptor)) = cut_at_colon(key) else {
        return Ok(false);
    };
    if !are_names(names) {
        return Ok(false);
    }
    is_descriptor(alloc, descriptor)
}
