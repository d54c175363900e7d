ghost use Rattle.std.specs.Prelude.{◌≡◌, Ok, Err, IfOk, IfErr, MatchResult, Option, Some, option_map};
ghost use Rattle.serde_json.specs.View.{view, number_view};
ghost use Rattle.lsp_forms.specs.Params.{RefusedAs, whole};
ghost use Rattle.lsp_forms.specs.Forms.{completion_at, completion_of, did_close_of, did_open_of, uri_in};

use crate::forms::{Completion, DidClose, DidOpen, ParamFault};
use crate::params::{
    MISSING, MOST_PLACE, OUT_OF_RANGE, member, number_of, refused, text_of, whole,
};
use json_rpc::Refused;
use lists::Text;
use serde_json::{Number, Value};
use std::alloc::Global;

/// `textDocument.uri`
pub fn uri_in(params: &Value) -> Option<&str>
    ensures { option_map (λ s. s.now) result ≡ uri_in (view params.now) }
{
    text_of(member(params, "textDocument", "uri"))
}

/// A copy of a text that was found.
pub fn kept(alloc: Global, text: &str) -> Result<Text, Refused<ParamFault>>
    ensures { MatchResult result (λ t. t ≡ text.now) (λ e. e ≡ Refused.OutOfMemory) }
{
    match Text::from_str(alloc, text) {
        Ok(text) => Ok(text),
        Err(_) => Err(Refused::OutOfMemory),
    }
}

/// The parameters of `textDocument/didClose`.
#[tactic(auto, unfolding(crate::specs::Forms::did_close_from))]
pub fn read_did_close(alloc: Global, params: &Value) -> Result<DidClose, Refused<ParamFault>>
    ensures form { IfOk result (λ form. did_close_of (view params.now) ≡ Ok form) }
    ensures refusal { IfErr result (λ e. RefusedAs (did_close_of (view params.now)) e) }
{
    let Some(uri) = uri_in(params) else {
        return Err(refused(MISSING));
    };
    Ok(DidClose {
        uri: kept(alloc, uri)?,
    })
}

/// The parameters of `textDocument/didOpen`.
#[tactic(auto, unfolding(crate::specs::Forms::did_open_from))]
pub fn read_did_open(alloc: Global, params: &Value) -> Result<DidOpen, Refused<ParamFault>>
    ensures form { IfOk result (λ form. did_open_of (view params.now) ≡ Ok form) }
    ensures refusal { IfErr result (λ e. RefusedAs (did_open_of (view params.now)) e) }
{
    let Some(uri) = uri_in(params) else {
        return Err(refused(MISSING));
    };
    let Some(text) = text_of(member(params, "textDocument", "text")) else {
        return Err(refused(MISSING));
    };
    Ok(DidOpen {
        uri: kept(alloc, uri)?,
        text: kept(alloc, text)?,
    })
}

/// A completion whose numbers are there.
#[tactic(auto, unfolding(crate::specs::Forms::completion_at))]
fn completion_at(
    alloc: Global,
    uri: &str,
    line: &Number,
    character: &Number,
) -> Result<Completion, Refused<ParamFault>>
    ensures form { IfOk result (λ form. completion_at uri.now (whole (number_view line.now) 0 2147483647) (whole (number_view character.now) 0 2147483647) ≡ Ok form) }
    ensures refusal { IfErr result (λ e. RefusedAs (completion_at uri.now (whole (number_view line.now) 0 2147483647) (whole (number_view character.now) 0 2147483647)) e) }
{
    let Some(line) = whole(line, 0, MOST_PLACE) else {
        return Err(refused(OUT_OF_RANGE));
    };
    let Some(character) = whole(character, 0, MOST_PLACE) else {
        return Err(refused(OUT_OF_RANGE));
    };
    Ok(Completion {
        uri: kept(alloc, uri)?,
        line: line as u32,
        character: character as u32,
    })
}

/// The parameters of `textDocument/completion`.
#[tactic(auto, unfolding(crate::specs::Forms::completion_from))]
pub fn read_completion(alloc: Global, params: &Value) -> Result<Completion, Refused<ParamFault>>
    ensures form { IfOk result (λ form. completion_of (view params.now) ≡ Ok form) }
    ensures refusal { IfErr result (λ e. RefusedAs (completion_of (view params.now)) e) }
{
    let Some(uri) = uri_in(params) else {
        return Err(refused(MISSING));
    };
    let Some(line) = number_of(member(params, "position", "line")) else {
        return Err(refused(MISSING));
    };
    let Some(character) = number_of(member(params, "position", "character")) else {
        return Err(refused(MISSING));
    };
    completion_at(alloc, uri, line, character)
}
