ghost use Rattle.std.specs.Prelude.{◌≡◌, codes, is_some, option_map, Option, Some, None, IfOk, IfErr};
ghost use Rattle.serde_json.specs.Find.{get};
ghost use Rattle.serde_json.specs.View.{view};
ghost use Rattle.json_rpc.specs.Messages.{id_of, id_in, params_of, is_version, by_params, by_method, with_method, without_method, heard, heard_as, message_of, Refuses};

use crate::message::{Id, Message, RpcFault, RpcRefusal};
use lists::Text;
use serde_json::Value;
use std::alloc::{AllocError, Global};

const PARSE_ERROR: i32 = -32_700;

const INVALID_REQUEST: i32 = -32_600;

/// The refusal of a value that is no valid message.
fn invalid(id: Option<Id>) -> RpcRefusal
    ensures { result ≡ RpcRefusal.Fault (record { code = INVALID_REQUEST; id = id }) }
{
    RpcRefusal::Fault(RpcFault {
        code: INVALID_REQUEST,
        id,
    })
}

/// Whether the value has a member of this name.
fn has(value: &Value, name: &str) -> bool
    ensures { result ≡ is_some (get name.now (view value.now)) }
{
    value.get(name).is_some()
}

/// The id that a value is.
#[tactic(auto, unfolding(crate::specs::Messages::id_of))]
fn read_id(alloc: Global, value: &Value) -> Result<Option<Id>, AllocError>
    ensures { IfOk result (λ id. id ≡ id_of (view value.now)) }
{
    match value {
        Value::String(text) => Ok(Some(Id::Text(Text::from_str(alloc, text.as_str())?))),
        Value::Number(number) => match number.as_i64() {
            Some(number) => Ok(Some(Id::Number(number))),
            None => Ok(None),
        },
        _ => Ok(None),
    }
}

/// The id that the value of a body shows.
#[tactic(auto, unfolding(crate::specs::Messages::id_in))]
fn shown_id(alloc: Global, value: &Value) -> Result<Option<Id>, AllocError>
    ensures { IfOk result (λ id. id ≡ id_in (get (codes "id") (view value.now))) }
{
    match value.get("id") {
        Some(id) => read_id(alloc, id),
        None => Ok(None),
    }
}

/// Whether the value says that it is of version 2.0.
#[tactic(auto, unfolding(crate::specs::Messages::is_version))]
fn is_version(value: &Value) -> bool
    ensures { result ≡ is_version (get (codes "jsonrpc") (view value.now)) }
{
    match value.get("jsonrpc") {
        Some(Value::String(text)) => text.as_str() == "2.0",
        _ => false,
    }
}

/// Takes the parameters out of a value; None where they are of another kind.
#[tactic(auto, unfolding(crate::specs::Messages::params_of))]
fn take_params(value: &mut Value) -> Option<Value>
    ensures { option_map (λ v. view v) result ≡ params_of (get (codes "params") (view value.old)) }
{
    match value.get_mut("params") {
        None => Some(Value::Null),
        Some(params) => match params {
            Value::Null | Value::Array(_) | Value::Object(_) => Some(params.take()),
            _ => None,
        },
    }
}

/// The message of a value without a method.
#[tactic(auto, unfolding(crate::specs::Messages::without_method))]
fn without_method(value: &Value, id: Option<Id>) -> Result<Message, RpcRefusal>
    requires { id ≡ id_in (get (codes "id") (view value.now)) }
    ensures ok { IfOk result (λ m. heard_as m ≡ without_method (view value.now)) }
    ensures fault { IfErr result (λ e. Refuses (Some (without_method (view value.now))) e) }
{
    if has(value, "id") && (has(value, "result") || has(value, "error")) {
        return Ok(Message::Response);
    }
    Err(invalid(id))
}

/// The message of a value of version 2.0 with a method.
#[tactic(auto, unfolding(crate::specs::Messages::by_params, crate::specs::Messages::by_id, crate::specs::Messages::id_in))]
fn with_params(value: &mut Value, id: Option<Id>, method: Text) -> Result<Message, RpcRefusal>
    requires { id ≡ id_in (get (codes "id") (view value.old)) }
    ensures ok { IfOk result (λ m. heard_as m ≡ by_params (get (codes "id") (view value.old)) (params_of (get (codes "params") (view value.old))) method) }
    ensures fault { IfErr result (λ e. Refuses (Some (by_params (get (codes "id") (view value.old)) (params_of (get (codes "params") (view value.old))) method)) e) }
{
    let has_id = has(value, "id");
    let Some(params) = take_params(value) else {
        return Err(invalid(id));
    };
    if !has_id {
        return Ok(Message::Notice { method, params });
    }
    match id {
        Some(id) => Ok(Message::Request { id, method, params }),
        None => Err(invalid(None)),
    }
}

/// The message of a value with a method.
#[tactic(auto, unfolding(crate::specs::Messages::with_method))]
fn with_method(value: &mut Value, id: Option<Id>, method: Text) -> Result<Message, RpcRefusal>
    requires { id ≡ id_in (get (codes "id") (view value.old)) }
    ensures ok { IfOk result (λ m. heard_as m ≡ with_method (view value.old) method) }
    ensures fault { IfErr result (λ e. Refuses (Some (with_method (view value.old) method)) e) }
{
    if !is_version(value) {
        return Err(invalid(id));
    }
    with_params(value, id, method)
}

/// The message that a JSON value is.
#[tactic(auto, unfolding(crate::specs::Messages::by_method))]
fn hear(alloc: Global, value: &mut Value) -> Result<Message, RpcRefusal>
    ensures ok { IfOk result (λ m. heard_as m ≡ heard (view value.old)) }
    ensures fault { IfErr result (λ e. Refuses (Some (heard (view value.old))) e) }
{
    let id = shown_id(alloc, value)?;
    match value.get("method") {
        None => without_method(value, id),
        Some(Value::String(method)) => {
            let method = Text::from_str(alloc, method.as_str())?;
            with_method(value, id, method)
        }
        Some(_) => Err(invalid(id)),
    }
}

/// The JSON value of a body.
#[tactic(auto, using(crate::proofs::Bodies::bodies))]
fn parse(alloc: Global, body: &[u8]) -> Result<Value, RpcRefusal>
    ensures ok { IfOk result (λ v. message_of body.now ≡ Some (heard (view v))) }
    ensures fault { IfErr result (λ e. Refuses (message_of body.now) e) }
{
    match Value::from_slice(alloc, body) {
        Ok(value) => Ok(value),
        Err(error) => {
            if error.is_memory() {
                return Err(RpcRefusal::OutOfMemory);
            }
            Err(RpcRefusal::Fault(RpcFault {
                code: PARSE_ERROR,
                id: None,
            }))
        }
    }
}

/// The message that a body is, as `serde_json` reads it: of members of one name the last counts, and
/// values nest at most 127 deep.
pub fn read_message(alloc: Global, body: &[u8]) -> Result<Message, RpcRefusal>
    ensures message { IfOk result (λ m. message_of body.now ≡ Some (heard_as m)) }
    ensures refusal { IfErr result (λ e. Refuses (message_of body.now) e) }
{
    let mut value = parse(alloc, body)?;
    hear(alloc, &mut value)
}
