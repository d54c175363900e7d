ghost use Rattle.std.specs.Prelude.{◌≡◌, Ok, Err, IfOk, IfErr, codes, Option, Some, None, option_map};
ghost use Rattle.serde_json.specs.Find.{get};
ghost use Rattle.serde_json.specs.View.{view, items_view, number_view};
ghost use Rattle.lsp_forms.specs.Params.{RefusedAs, each};
ghost use Rattle.lsp_forms.specs.Forms.{change_of, changes_in, did_change_of, place_number, range_position, range_from, range_of};

use crate::documents::{kept, uri_in};
use crate::forms::{ChangeForm, DidChange, ParamFault};
use crate::params::{MISSING, MOST_PLACE, number_of, refused, text_of, whole, within};
use json_rpc::Refused;
use lists::{Items, Text};
use serde_json::{Number, Value};
use std::alloc::{AllocError, Global};

/// A line or character of a range.
#[tactic(auto, unfolding(crate::specs::Forms::place_number))]
fn place_number(number: Option<&Number>) -> Option<u32>
    ensures { result ≡ place_number (option_map (λ n. number_view n.now) number.entry) }
{
    match whole(number?, 0, MOST_PLACE) {
        Some(number) => Some(number as u32),
        None => None,
    }
}

/// A position of a range.
#[tactic(auto, unfolding(crate::specs::Forms::place_from))]
fn range_position(value: Option<&Value>) -> Option<(u32, u32)>
    ensures { result ≡ range_position (option_map (λ v. view v.now) value.entry) }
{
    let line = place_number(number_of(within(value, "line")));
    let character = place_number(number_of(within(value, "character")));
    match line {
        Some(line) => match character {
            Some(character) => Some((line, character)),
            None => None,
        },
        None => None,
    }
}

/// The range of an object.
#[tactic(auto, unfolding(crate::specs::Forms::range_from))]
fn range_from(range: &Value) -> Option<Option<((u32, u32), (u32, u32))>>
    ensures { result ≡ range_from (range_position (get (codes "start") (view range.now))) (range_position (get (codes "end") (view range.now))) }
{
    let start = range_position(range.get("start"));
    let end = range_position(range.get("end"));
    match start {
        Some(start) => match end {
            Some(end) => Some(Some((start, end))),
            None => None,
        },
        None => None,
    }
}

/// An optional range: None where it isn't well formed, `Some(None)` where it is left out.
#[tactic(auto, unfolding(crate::specs::Forms::range_of))]
fn range_of(value: Option<&Value>) -> Option<Option<((u32, u32), (u32, u32))>>
    ensures { result ≡ range_of (option_map (λ v. view v.now) value.entry) }
{
    match value {
        None | Some(Value::Null) => Some(None),
        Some(range) => match range {
            Value::Object(_) => range_from(range),
            _ => None,
        },
    }
}

/// One change, or None where it isn't well formed.
#[tactic(auto, unfolding(crate::specs::Forms::change_from))]
fn change_of(alloc: Global, value: &Value) -> Result<Option<ChangeForm>, AllocError>
    ensures { IfOk result (λ change. change ≡ change_of (view value.now)) }
{
    let Some(text) = text_of(value.get("text")) else {
        return Ok(None);
    };
    let Some(range) = range_of(value.get("range")) else {
        return Ok(None);
    };
    let text = Text::from_str(alloc, text)?;
    Ok(Some(ChangeForm { range, text }))
}

/// All changes of a list, or None where one isn't well formed.
#[tactic(auto, using(crate::proofs::Lists::starts))]
fn changes_of(alloc: Global, values: &[Value]) -> Result<Option<Items<ChangeForm>>, AllocError>
    ensures { IfOk result (λ changes. changes ≡ each change_of (items_view values.now)) }
{
    let mut changes = Items::new(alloc);
    let mut rest = values;
    while let Some((value, more)) = rest.split_first() {
        let Some(change) = change_of(alloc, value)? else {
            return Ok(None);
        };
        changes.push(change)?;
        rest = more;
    }
    Ok(Some(changes))
}

/// The changes of a message, or None where they aren't well formed.
#[tactic(auto, unfolding(crate::specs::Forms::changes_in))]
fn changes_in(alloc: Global, value: Option<&Value>) -> Result<Option<Items<ChangeForm>>, AllocError>
    ensures { IfOk result (λ changes. changes ≡ changes_in (option_map (λ v. view v.now) value.entry)) }
{
    match value {
        Some(Value::Array(values)) => changes_of(alloc, values.as_slice()),
        _ => Ok(None),
    }
}

/// The parameters of `textDocument/didChange`. They are refused exactly where the URI isn't a string.
#[tactic(auto, unfolding(crate::specs::Forms::did_change_from))]
pub fn read_did_change(alloc: Global, params: &Value) -> Result<DidChange, Refused<ParamFault>>
    ensures form { IfOk result (λ form. did_change_of (view params.now) ≡ Ok form) }
    ensures refusal { IfErr result (λ e. RefusedAs (did_change_of (view params.now)) e) }
{
    let Some(uri) = uri_in(params) else {
        return Err(refused(MISSING));
    };
    let uri = kept(alloc, uri)?;
    match changes_in(alloc, params.get("contentChanges")) {
        Ok(changes) => Ok(DidChange { uri, changes }),
        Err(_) => Err(Refused::OutOfMemory),
    }
}
