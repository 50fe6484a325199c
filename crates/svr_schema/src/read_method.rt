ghost use Rattle.std.specs.Prelude.{◌≡◌, codes};
ghost use Rattle.serde_json.specs.View.{view};
ghost use Rattle.svr_schema.specs.Parts.{text_or_empty};
ghost use Rattle.svr_schema.specs.Rules.{chunk_in, method_in, method_of_kind, plain_in, threshold_in};

use crate::method::MethodSpec;
use crate::parts::{count_within, text_or_empty};
use serde_json::Value;
use svr_json::has_members;

fn read_threshold(value: &Value) -> Option<MethodSpec>
    ensures { result ≡ threshold_in (view value.now) }
{
    if !has_members(value, &["den", "kind", "num"]) {
        return None;
    }
    let num = count_within(value, "num", 1, 1_000_000)?;
    let den = count_within(value, "den", 1, num)?;
    Some(MethodSpec::Threshold { num, den })
}

fn read_chunk(value: &Value) -> Option<MethodSpec>
    ensures { result ≡ chunk_in (view value.now) }
{
    if !has_members(value, &["kind", "min_docs", "ratio"]) {
        return None;
    }
    let ratio = count_within(value, "ratio", 100, 100_000)?;
    let min_docs = count_within(value, "min_docs", 1, 1_000_000)?;
    Some(MethodSpec::Chunk { ratio, min_docs })
}

/// A method that has no numbers.
fn read_plain(value: &Value, method: MethodSpec) -> Option<MethodSpec>
    ensures { result ≡ plain_in method (view value.now) }
{
    if has_members(value, &["kind"]) {
        Some(method)
    } else {
        None
    }
}

/// The method that a value is, one of four forms.
fn read_kind(value: &Value) -> Option<MethodSpec>
    ensures { result ≡ method_of_kind (text_or_empty (codes "kind") (view value.now)) (view value.now) }
{
    match text_or_empty(value, "kind") {
        "id" => read_plain(value, MethodSpec::Id),
        "score" => read_plain(value, MethodSpec::Score),
        "score-threshold" => read_threshold(value),
        "chunk" => read_chunk(value),
        _ => None,
    }
}

/// The method of a schema's value.
#[tactic(auto, unfolding(crate::specs::Rules::method_in))]
pub fn read_method(value: &Value) -> Option<MethodSpec>
    ensures { result ≡ method_in (view value.now) }
{
    read_kind(value.get("method")?)
}
