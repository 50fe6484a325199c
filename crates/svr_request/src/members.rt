ghost use Rattle.std.specs.Prelude.{◌≡◌, ℕ, List, false, map, IfOk, option_map};
ghost use Rattle.std.specs.Str.{bytes_eq};
ghost use Rattle.serde_json.specs.Data.{object};
ghost use Rattle.serde_json.specs.Find.{as_array, as_str, get, get_member};
ghost use Rattle.serde_json.specs.View.{items_view, members_view, view};
ghost use Rattle.svr_json.specs.Parts.{text_at};
ghost use Rattle.svr_request.specs.Requests.{given_of, given_row, table_and_row};

use serde_json::{Map, Value};
use std::alloc::Global;
use svr_edge::{Items, Memory, Text};
use svr_rows::Given;

/// Takes a member out of an object, and leaves the others.
fn take_out(members: &mut Map<String, Value>, name: &str) -> Option<Value>
    ensures taken { option_map view result ≡ get_member name.now (members_view members.old.entries) }
    ensures others { (other : List ℕ) → bytes_eq name.now other ≡ false
        → get_member other (members_view members.new.entries) ≡ get_member other (members_view members.old.entries) }
{
    members.remove(name)
}

/// Takes the value that an object has as a member.
pub(crate) fn take_member(value: Value, name: &str) -> Option<Value>
    ensures { option_map view result ≡ get name.now (view value) }
{
    match value {
        Value::Object(mut members) => take_out(&mut members, name),
        _ => None,
    }
}

/// The text of a string, moved.
fn text_from(value: Value) -> Option<Text>
    ensures { result ≡ as_str (view value) }
{
    match value {
        Value::String(text) => Some(Text::from_string(text)),
        _ => None,
    }
}

/// The values of an array, moved.
fn values_from(value: Value) -> Option<Vec<Value>>
    ensures { option_map (λ values. items_view values.items) result ≡ as_array (view value) }
{
    match value {
        Value::Array(values) => Some(values),
        _ => None,
    }
}

/// Takes the string that an object has as a member.
pub(crate) fn take_text(value: Value, name: &str) -> Option<Text>
    ensures { result ≡ text_at name.now (view value) }
{
    text_from(take_member(value, name)?)
}

/// What a value gives for a cell. A text is moved.
fn given(value: Value) -> Given
    ensures { result ≡ given_of (view value) }
{
    match value {
        Value::Number(number) => match number.as_i64() {
            Some(number) => Given::Int(number),
            None => Given::Other,
        },
        Value::String(text) => Given::Text(Text::from_string(text)),
        Value::Null | Value::Bool(_) | Value::Array(_) | Value::Object(_) => Given::Other,
    }
}

/// Takes the string that an object has as `table` and the array that it has as `row`.
fn take_table_and_values(mut members: Map<String, Value>) -> Option<(Text, Vec<Value>)>
    ensures { option_map (λ both. (both.0, given_row (items_view both.1.items))) result ≡ table_and_row (object (members_view members.entries)) }
{
    let table = text_from(take_out(&mut members, "table")?)?;
    let values = values_from(take_out(&mut members, "row")?)?;
    Some((table, values))
}

/// What the values of a row give for its cells.
fn given_row(alloc: Global, values: Vec<Value>) -> Result<Items<Given>, Memory>
    ensures { IfOk result (λ row. row ≡ map (λ value. given_of (view value)) values.items) }
{
    let row = values.into_iter().map(given).collect(alloc)?;
    Ok(Items::from_vec(row))
}

/// Takes the table and the row out of an object.
pub(crate) fn take_table_and_row(
    alloc: Global,
    value: Value,
) -> Result<Option<(Text, Items<Given>)>, Memory>
    ensures { IfOk result (λ both. both ≡ table_and_row (view value)) }
{
    let Value::Object(members) = value else {
        return Ok(None);
    };
    match take_table_and_values(members) {
        Some((table, values)) => Ok(Some((table, given_row(alloc, values)?))),
        None => Ok(None),
    }
}
