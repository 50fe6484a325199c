ghost use Rattle.std.specs.Prelude.{◌≡◌, map, IfSome, pos, ◌≤ℤ◌, ◌≤◌};
ghost use Rattle.serde_json.specs.View.{view};
ghost use Rattle.svr_schema.specs.Parts.{count_within, elements_at, is_list_at, text_or_empty, whole_within};

use serde_json::Value;
use svr_json::elements;

/// The string at a member, empty where there is none.
pub fn text_or_empty<'a>(value: &'a Value, name: &str) -> &'a str
    ensures { result.now ≡ text_or_empty name.now (view value.now) }
{
    svr_json::text_at(value, name).unwrap_or("")
}

/// The elements of the array at a member, none where there is none.
pub fn elements_at<'a>(value: &'a Value, name: &str) -> &'a [Value]
    ensures { map view result.now ≡ elements_at name.now (view value.now) }
{
    match value.get(name) {
        Some(member) => elements(member),
        None => &[],
    }
}

/// Whether an array of `low` to `high` elements stands at the member.
pub fn is_list_at(value: &Value, name: &str, low: usize, high: usize) -> bool
    ensures { result ≡ is_list_at name.now low high (view value.now) }
{
    let is_array = value.get(name).and_then(Value::as_array).is_some();
    let count = elements_at(value, name).len();
    is_array && low <= count && count <= high
}

/// The whole number from `low` to `high` at the member.
pub fn whole_within(value: &Value, name: &str, low: i64, high: i64) -> Option<i64>
    ensures value { result ≡ whole_within name.now low high (view value.now) }
{
    match value.get(name)?.as_i64() {
        Some(n) if low <= n && n <= high => Some(n),
        _ => None,
    }
}

/// The whole number from `low` to `high` at the member, none of which is negative.
pub fn count_within(value: &Value, name: &str, low: u64, high: u64) -> Option<u64>
    ensures value { result ≡ count_within name.now low high (view value.now) }
    ensures within { IfSome result (λ n. (low ≤ n) × (n ≤ high)) }
{
    match value.get(name)?.as_u64() {
        Some(n) if low <= n && n <= high => Some(n),
        _ => None,
    }
}
