ghost use Rattle.std.specs.Prelude.{◌≡◌, IfOk, map};
ghost use Rattle.serde_json.specs.Data.{array};
ghost use Rattle.serde_json.specs.View.{items_of, view};
ghost use Rattle.lsp_forms.specs.Results.{whole_number};
ghost use Rattle.lsp_forms.specs.Certificates.{row_answer, rows_answer, floor_answer, floors_answer};

use checker::{Floor, Row};
use serde_json::{Map, Value, json};
use std::alloc::{AllocError, Global};

/// A row: its code, its type and its weight.
fn make_row(alloc: Global, row: &Row) -> Result<Value, AllocError>
    ensures { IfOk result (λ v. view v ≡ row_answer row.now) }
{
    json!(in alloc; [row.code, row.result, row.weight])
}

/// Rows, one after the other.
fn row_values(alloc: Global, rows: &[Row]) -> Result<Value, AllocError>
    ensures { IfOk result (λ v. view v ≡ array (items_of (map row_answer rows.now))) }
{
    let mut values = Vec::new(alloc);
    for row in rows {
        values.push(make_row(alloc, row)?)?;
    }
    Ok(Value::Array(values))
}

/// The rows of an item, which say why it has this total.
pub fn make_rows(alloc: Global, rows: &[Row], weight: u32) -> Result<Value, AllocError>
    ensures value { IfOk result (λ v. view v ≡ rows_answer rows.now weight) }
{
    let rows = row_values(alloc, rows)?;
    let mut members = Map::new(alloc);
    serde_json::put(&mut members, alloc, "rows", rows)?;
    serde_json::put(&mut members, alloc, "weight", Value::from(weight))?;
    Ok(Value::Object(members))
}

/// The types of a set.
fn make_set(alloc: Global, set: &[u32]) -> Result<Value, AllocError>
    ensures { IfOk result (λ v. view v ≡ array (items_of (map whole_number set.now))) }
{
    let mut values = Vec::new(alloc);
    for number in set {
        values.push(Value::from(*number))?;
    }
    Ok(Value::Array(values))
}

/// A floor: the types of the variables in its state, how many lambdas may nest there, the type that is wanted, and the
/// floor.
fn make_floor(alloc: Global, floor: &Floor) -> Result<Value, AllocError>
    ensures { IfOk result (λ v. view v ≡ floor_answer floor.now) }
{
    let set = make_set(alloc, floor.set.as_slice())?;
    json!(in alloc; [set, floor.left, floor.goal, floor.floor])
}

/// Floors, one after the other.
fn floor_values(alloc: Global, floors: &[Floor]) -> Result<Value, AllocError>
    ensures { IfOk result (λ v. view v ≡ array (items_of (map floor_answer floors.now))) }
{
    let mut values = Vec::new(alloc);
    for floor in floors {
        values.push(make_floor(alloc, floor)?)?;
    }
    Ok(Value::Array(values))
}

/// Floors, which say why nothing weighs less than the first of them.
pub fn make_floors(alloc: Global, floors: &[Floor], floor: u32) -> Result<Value, AllocError>
    ensures value { IfOk result (λ v. view v ≡ floors_answer floors.now floor) }
{
    let floors = floor_values(alloc, floors)?;
    let mut members = Map::new(alloc);
    serde_json::put(&mut members, alloc, "floor", Value::from(floor))?;
    serde_json::put(&mut members, alloc, "rows", floors)?;
    Ok(Value::Object(members))
}
