ghost use Rattle.std.specs.Prelude.{◌≡◌, ℕ, ◌+◌, Some, slice_get, decimal, replicate, string_bytes, codes, IfOk};
ghost use Rattle.serde_json.specs.Data.{array, member, no_members, object, string};
ghost use Rattle.serde_json.specs.View.{items_of, view};
ghost use Rattle.lsp_forms.specs.declared.forms.ItemForm.{ItemForm};
ghost use Rattle.lsp_forms.specs.Results.{capabilities, commands, item_answer, item_answers, item_at, list_answer, page_answer, position, range, state_answer, ten_digits, version_answer};

use crate::forms::ItemForm;
use itoa::Buffer;
use serde_json::{Map, Value, json};
use std::alloc::{AllocError, Global};

/// The commands of `workspace/executeCommand`.
fn make_commands(alloc: Global) -> Result<Value, AllocError>
    ensures { IfOk result (λ v. view v ≡ commands) }
{
    json!(in alloc; [
        "insynth.close",
        "insynth.explain",
        "insynth.page",
        "insynth.publish",
        "insynth.weights",
        "insynth.withdraw"
    ])
}

/// What the server can do: the answer to `initialize`.
pub fn make_capabilities(alloc: Global) -> Result<Value, AllocError>
    ensures value { IfOk result (λ v. view v ≡ capabilities) }
{
    let commands = make_commands(alloc)?;
    json!(in alloc; {
        "capabilities": {
            "completionProvider": {},
            "executeCommandProvider": {"commands": commands},
            "positionEncoding": "utf-16",
            "textDocumentSync": {"change": 2u64, "openClose": true}
        },
        "serverInfo": {"name": "insynthd"}
    })
}

/// The answer to `insynth.publish`, to `insynth.weights` and to `insynth.withdraw`.
pub fn make_version(alloc: Global, number: u32) -> Result<Value, AllocError>
    ensures value { IfOk result (λ v. view v ≡ version_answer number) }
{
    json!(in alloc; {"version": number})
}

/// A position: a line and a UTF-16 unit.
fn make_position(alloc: Global, place: (u32, u32)) -> Result<Value, AllocError>
    ensures { IfOk result (λ v. view v ≡ position place) }
{
    json!(in alloc; {"character": place.1, "line": place.0})
}

/// A range from its start to its end.
fn make_range(alloc: Global, start: (u32, u32), end: (u32, u32)) -> Result<Value, AllocError>
    ensures { IfOk result (λ v. view v ≡ range start end) }
{
    let end = make_position(alloc, end)?;
    let start = make_position(alloc, start)?;
    let mut members = Map::new(alloc);
    serde_json::put(&mut members, alloc, "end", end)?;
    serde_json::put(&mut members, alloc, "start", start)?;
    Ok(Value::Object(members))
}

/// So many zeros.
fn zeros(alloc: Global, count: usize) -> Result<String, AllocError>
    ensures { IfOk result (λ text. string_bytes text ≡ replicate count 48) }
{
    let mut text = String::new(alloc);
    for _ in 0..count {
        text.push_str("0")?;
    }
    Ok(text)
}

/// A number in ten digits with zeros, or in more where it needs them.
#[tactic(auto, unfolding(crate::specs::Results::ten_digits))]
fn ten_digits(alloc: Global, number: u128) -> Result<Value, AllocError>
    ensures { IfOk result (λ v. view v ≡ string (ten_digits number)) }
{
    let mut buffer = Buffer::new();
    let digits = buffer.format(number);
    let mut text = zeros(alloc, 10usize.saturating_sub(digits.len()))?;
    text.push_str(digits)?;
    Ok(Value::String(text))
}

/// A number in decimal.
fn decimal_text(alloc: Global, number: u32) -> Result<Value, AllocError>
    ensures { IfOk result (λ v. view v ≡ string (decimal number)) }
{
    let mut buffer = Buffer::new();
    Value::try_from_str(alloc, buffer.format(number))
}

/// The edit that an item makes in a range.
fn make_edit(alloc: Global, text: &str, span: &Value) -> Result<Value, AllocError>
    ensures { IfOk result (λ v. view v ≡ object (member (codes "newText") (string text.now) (member (codes "range") (view span.now) no_members))) }
{
    let new_text = Value::try_from_str(alloc, text)?;
    let span = span.clone()?;
    let mut members = Map::new(alloc);
    serde_json::put(&mut members, alloc, "newText", new_text)?;
    serde_json::put(&mut members, alloc, "range", span)?;
    Ok(Value::Object(members))
}

/// An item with its number in the whole list.
fn make_item(
    alloc: Global,
    number: u128,
    item: &ItemForm,
    span: &Value,
) -> Result<Value, AllocError>
    ensures { IfOk result (λ v. view v ≡ item_answer number (view span.now) item.now) }
{
    let detail = decimal_text(alloc, item.weight)?;
    let label = Value::try_from_str(alloc, item.text.as_str())?;
    let sort_text = ten_digits(alloc, number)?;
    let edit = make_edit(alloc, item.text.as_str(), span)?;
    let mut members = Map::new(alloc);
    serde_json::put(&mut members, alloc, "detail", detail)?;
    serde_json::put(&mut members, alloc, "label", label)?;
    serde_json::put(&mut members, alloc, "sortText", sort_text)?;
    serde_json::put(&mut members, alloc, "textEdit", edit)?;
    Ok(Value::Object(members))
}

/// Items, the first of which has the number `from`.
fn make_items(
    alloc: Global,
    from: u64,
    items: &[ItemForm],
    span: &Value,
) -> Result<Value, AllocError>
    ensures { IfOk result (λ v. view v ≡ array (items_of (item_answers from (view span.now) items.now))) }
{
    let mut values = Vec::new(alloc);
    let mut rest = items;
    while let Some((item, more)) = rest.split_first() {
        let number = from as u128 + values.len() as u128;
        values.push(make_item(alloc, number, item, span)?)?;
        rest = more;
    }
    Ok(Value::Array(values))
}

/// What the list says beside its items.
fn make_state(
    alloc: Global,
    cursor: u32,
    from: u64,
    grown: u64,
    last: bool,
    version: u32,
) -> Result<Value, AllocError>
    ensures { IfOk result (λ v. view v ≡ state_answer cursor from grown last version) }
{
    json!(in alloc; {"cursor": cursor, "from": from, "grown": grown, "last": last, "version": version})
}

/// A page of a list, by its parts.
fn make_page(alloc: Global, state: Value, last: bool, items: Value) -> Result<Value, AllocError>
    ensures { IfOk result (λ v. view v ≡ page_answer (view state) last (view items)) }
{
    let mut members = Map::new(alloc);
    serde_json::put(&mut members, alloc, "insynth", state)?;
    serde_json::put(&mut members, alloc, "isIncomplete", Value::Bool(!last))?;
    serde_json::put(&mut members, alloc, "items", items)?;
    Ok(Value::Object(members))
}

/// A page of a list, whose first item has the number `from`, counted from 0 over all pages. The items
/// replace the text from `start` to `end`, each a line and a UTF-16 unit.
pub fn make_list(
    alloc: Global,
    cursor: u32,
    from: u64,
    grown: u64,
    last: bool,
    version: u32,
    items: &[ItemForm],
    start: (u32, u32),
    end: (u32, u32),
) -> Result<Value, AllocError>
    ensures value { IfOk result (λ v. view v ≡ list_answer cursor from grown last version items.now start end) }
    ensures numbers { IfOk result (λ v. (i : ℕ) (form : ItemForm) → slice_get items.now i ≡ Some form → item_at i (view v) ≡ Some (item_answer (from + i) (range start end) form)) }
{
    let state = make_state(alloc, cursor, from, grown, last, version)?;
    let span = make_range(alloc, start, end)?;
    let items = make_items(alloc, from, items, &span)?;
    make_page(alloc, state, last, items)
}
