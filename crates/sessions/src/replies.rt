ghost use Rattle.std.specs.Prelude.{◌≡◌, codes, false, map, option_map, Some, None, IfOk};
ghost use Rattle.serde_json.specs.View.{view};
ghost use Rattle.serde_json.specs.Data.{null, string};
ghost use Rattle.serde_json.specs.Written.{has_float};
ghost use Rattle.answers.specs.Replies.{id_data, page_data, form_of};
ghost use Rattle.sessions.specs.Texts.{result_data, failure_data, error_data, result_text, failure_text};

use crate::failure::Failure;
use answers::{Cursor, Page};
use json_rpc::Id;
use listing::Item;
use lists::{Items, Text};
use lsp_forms::{ItemForm, make_list};
use serde_json::{Map, Value};
use std::alloc::{AllocError, Global};

/// An id as JSON; null where a message shows none.
fn id_value(alloc: Global, id: Option<&Id>) -> Result<Value, AllocError>
    ensures value { IfOk result (λ v. view v ≡ id_data (option_map (λ i. i.now) id.entry)) }
{
    match id {
        None => Ok(Value::Null),
        Some(Id::Number(number)) => Ok(Value::from(*number)),
        Some(Id::Text(text)) => Value::try_from_str(alloc, text.as_str()),
    }
}

/// The version of the protocol.
fn version(alloc: Global) -> Result<Value, AllocError>
    ensures { IfOk result (λ v. view v ≡ string (codes "2.0")) }
{
    Value::try_from_str(alloc, "2.0")
}

/// The reply with a result, as JSON.
fn result_value(alloc: Global, id: &Id, value: Value) -> Result<Value, AllocError>
    ensures { IfOk result (λ v. view v ≡ result_data id.now (view value)) }
{
    let id = id_value(alloc, Some(id))?;
    let version = version(alloc)?;
    let mut members = Map::new(alloc);
    serde_json::put(&mut members, alloc, "id", id)?;
    serde_json::put(&mut members, alloc, "jsonrpc", version)?;
    serde_json::put(&mut members, alloc, "result", value)?;
    Ok(Value::Object(members))
}

/// The body of the reply with a result, which holds no float.
#[tactic(auto, using(crate::proofs::Written::result_written))]
pub fn result_reply(alloc: Global, id: &Id, value: Value) -> Result<Vec<u8>, AllocError>
    requires whole { has_float (view value) ≡ false }
    ensures body { IfOk result (λ body. body.items ≡ result_text id.now (view value)) }
{
    let reply = result_value(alloc, id, value)?;
    reply.to_vec(alloc)
}

/// The body of the reply with the result null.
pub fn null_reply(alloc: Global, id: &Id) -> Result<Vec<u8>, AllocError>
    ensures body { IfOk result (λ body. body.items ≡ result_text id.now null) }
{
    result_reply(alloc, id, Value::Null)
}

/// An error as JSON.
fn error_value(alloc: Global, failure: &Failure) -> Result<Value, AllocError>
    ensures { IfOk result (λ v. view v ≡ error_data failure.now) }
{
    let message = Value::try_from_str(alloc, failure.message())?;
    let data = failure.data(alloc)?;
    let mut members = Map::new(alloc);
    serde_json::put(&mut members, alloc, "code", Value::from(failure.code()))?;
    if let Some(data) = data {
        serde_json::put(&mut members, alloc, "data", data)?;
    }
    serde_json::put(&mut members, alloc, "message", message)?;
    Ok(Value::Object(members))
}

/// The reply with an error, as JSON.
fn failure_value(alloc: Global, id: Option<&Id>, failure: &Failure) -> Result<Value, AllocError>
    ensures { IfOk result (λ v. view v ≡ failure_data (option_map (λ i. i.now) id.entry) failure.now) }
{
    let error = error_value(alloc, failure)?;
    let id = id_value(alloc, id)?;
    let version = version(alloc)?;
    let mut members = Map::new(alloc);
    serde_json::put(&mut members, alloc, "error", error)?;
    serde_json::put(&mut members, alloc, "id", id)?;
    serde_json::put(&mut members, alloc, "jsonrpc", version)?;
    Ok(Value::Object(members))
}

/// The body of the reply with an error.
#[tactic(auto, using(crate::proofs::Written::failure_written))]
pub fn failure_reply(
    alloc: Global,
    id: Option<&Id>,
    failure: Failure,
) -> Result<Vec<u8>, AllocError>
    ensures body { IfOk result (λ body. body.items ≡ failure_text (option_map (λ i. i.now) id.entry) failure) }
{
    let reply = failure_value(alloc, id, &failure)?;
    reply.to_vec(alloc)
}

/// Items as they are answered.
fn forms_of(alloc: Global, items: &[Item]) -> Result<Items<ItemForm>, AllocError>
    ensures forms { IfOk result (λ forms. forms ≡ map form_of items.now) }
{
    let mut forms = Items::new(alloc);
    for item in items {
        forms.push(ItemForm {
            weight: item.weight,
            text: Text::from_str(alloc, item.text.as_str())?,
        })?;
    }
    Ok(forms)
}

/// The reply with a page of a cursor, as JSON.
fn page_value(alloc: Global, cursor: &Cursor, from: u64, page: &Page) -> Result<Value, AllocError>
    ensures { IfOk result (λ v. view v ≡ page_data cursor.now from page.now) }
{
    let forms = forms_of(alloc, page.items.as_slice())?;
    make_list(
        alloc,
        cursor.number,
        from,
        page.grown,
        page.last,
        cursor.version,
        forms.as_slice(),
        cursor.start,
        cursor.end,
    )
}

/// The body of the reply with a page of a cursor, whose first item has the number `from`.
#[tactic(auto, using(crate::proofs::Written::page))]
pub fn page_reply(
    alloc: Global,
    id: &Id,
    cursor: &Cursor,
    from: u64,
    page: &Page,
) -> Result<Vec<u8>, AllocError>
    ensures body { IfOk result (λ body. body.items ≡ result_text id.now (page_data cursor.now from page.now)) }
{
    let list = page_value(alloc, cursor, from, page)?;
    result_reply(alloc, id, list)
}
