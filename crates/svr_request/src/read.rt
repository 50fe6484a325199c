ghost use Rattle.std.specs.Prelude.{◌≡◌, ◌≤◌, IfOk, ok_or, option_map};
ghost use Rattle.serde_json.specs.Data.{depth};
ghost use Rattle.serde_json.specs.Read.{max_depth};
ghost use Rattle.serde_json.specs.View.{view};
ghost use Rattle.svr_request.specs.Requests.{asked_of, block_in, block_of, bytes_in, delete_request, deleted_id, header_in, insert_request, k_in, load_request, lone_request, merge_slice_request, mode_in, request_of, schema_request, search_request, seen, seen_or_refused, slice_terms, table_and_row_in, update_request};

use crate::members::{take_member, take_table_and_row, take_text};
use crate::refusal::Refusal;
use crate::request::{Asked, HITS_BY_DEFAULT, Request, SchemaValue};
use serde_json::Value;
use std::alloc::Global;
use svr_edge::{Items, Memory, Text};
use svr_json::{has_only, text_at};
use svr_num::{DocId, Mode};
use svr_rows::Given;

/// The ids of rows are below this number.
const ID_END: u64 = 1 << 63;

/// The longest block of a load, in bytes.
const BLOCK_BYTES: u64 = 8_388_608;

/// The most terms of one step of a merge.
const MOST_TERMS: u64 = 1_000;

fn read_id(value: &Value) -> Option<DocId>
    ensures { result ≡ deleted_id (view value.now) }
{
    match value.get("id")?.as_u64() {
        Some(id) if id < ID_END => Some(id),
        _ => None,
    }
}

fn read_terms(value: &Value) -> Option<u32>
    ensures { result ≡ slice_terms (view value.now) }
{
    match value.get("terms")?.as_u64() {
        Some(terms) if 1 <= terms && terms <= MOST_TERMS => Some(terms as u32),
        _ => None,
    }
}

fn read_bytes(value: &Value) -> Option<u64>
    ensures { result ≡ bytes_in (view value.now) }
{
    value.get("bytes")?.as_u64()
}

fn read_header(value: Option<&Value>) -> Option<bool>
    ensures { result ≡ header_in (option_map (λ v. view v.now) value.entry) }
{
    match value {
        Some(value) => value.as_bool(),
        None => Some(false),
    }
}

fn read_mode(value: Option<&Value>) -> Option<Mode>
    ensures { result ≡ mode_in (option_map (λ v. view v.now) value.entry) }
{
    let Some(value) = value else {
        return Some(Mode::All);
    };
    match value.as_str()? {
        "all" => Some(Mode::All),
        "any" => Some(Mode::Any),
        _ => None,
    }
}

fn read_k(value: Option<&Value>) -> Option<i128>
    ensures { result ≡ k_in (option_map (λ v. view v.now) value.entry) }
{
    let Some(value) = value else {
        return Some(HITS_BY_DEFAULT);
    };
    if let Some(k) = value.as_u64() {
        return Some(i128::from(k));
    }
    value.as_i64().map(i128::from)
}

fn schema_request(value: Value) -> Option<Request>
    requires { depth (view value) ≤ max_depth }
    ensures { option_map seen result ≡ schema_request (view value) }
{
    if !has_only(&value, &["op", "schema"]) {
        return None;
    }
    let value = take_member(value, "schema")?;
    Some(Request::Schema(SchemaValue { value }))
}

/// The table and the row of an `insert` or an `update`.
fn read_table_and_row(alloc: Global, value: Value) -> Result<Option<(Text, Items<Given>)>, Memory>
    ensures { IfOk result (λ both. both ≡ table_and_row_in (view value)) }
{
    if !has_only(&value, &["op", "row", "table"]) {
        return Ok(None);
    }
    take_table_and_row(alloc, value)
}

fn insert_request(alloc: Global, value: Value) -> Result<Option<Request>, Memory>
    ensures { IfOk result (λ request. option_map seen request ≡ insert_request (view value)) }
{
    let both = read_table_and_row(alloc, value)?;
    Ok(both.map(|(table, row)| Request::Insert { table, row }))
}

fn update_request(alloc: Global, value: Value) -> Result<Option<Request>, Memory>
    ensures { IfOk result (λ request. option_map seen request ≡ update_request (view value)) }
{
    let both = read_table_and_row(alloc, value)?;
    Ok(both.map(|(table, row)| Request::Update { table, row }))
}

fn delete_request(value: Value) -> Option<Request>
    ensures { option_map seen result ≡ delete_request (view value) }
{
    if !has_only(&value, &["id", "op", "table"]) {
        return None;
    }
    let id = read_id(&value)?;
    let table = take_text(value, "table")?;
    Some(Request::Delete { table, id })
}

fn load_request(value: Value) -> Option<Request>
    ensures { option_map seen result ≡ load_request (view value) }
{
    if !has_only(&value, &["bytes", "header", "op", "table"]) {
        return None;
    }
    if read_bytes(&value)? > BLOCK_BYTES {
        return None;
    }
    let header = read_header(value.get("header"))?;
    let table = take_text(value, "table")?;
    Some(Request::Load { table, header })
}

fn search_request(value: Value) -> Option<Request>
    ensures { option_map seen result ≡ search_request (view value) }
{
    if !has_only(&value, &["k", "mode", "op", "query"]) {
        return None;
    }
    let mode = read_mode(value.get("mode"))?;
    let k = read_k(value.get("k"))?;
    let query = take_text(value, "query")?;
    Some(Request::Search { query, mode, k })
}

/// The request of an op that has no member of its own.
fn lone_request(value: &Value, request: Request) -> Option<Request>
    ensures { option_map seen result ≡ lone_request (seen request) (view value.now) }
{
    if has_only(value, &["op"]) {
        Some(request)
    } else {
        None
    }
}

fn merge_slice_request(value: &Value) -> Option<Request>
    ensures { option_map seen result ≡ merge_slice_request (view value.now) }
{
    if !has_only(value, &["op", "terms"]) {
        return None;
    }
    let terms = read_terms(value)?;
    Some(Request::MergeSlice { terms })
}

/// A request whose members are right, or `BadShape`.
fn or_bad_shape(request: Option<Request>) -> Result<Request, Refusal>
    ensures { seen_or_refused result ≡ ok_or (option_map seen request) Refusal.BadShape }
{
    request.ok_or(Refusal::BadShape)
}

#[tactic(auto, unfolding(crate::specs::Requests::asked_of))]
fn request_in(alloc: Global, value: Value) -> Result<Result<Request, Refusal>, Memory>
    requires { depth (view value) ≤ max_depth }
    ensures { IfOk result (λ asked. seen_or_refused asked ≡ asked_of (view value)) }
{
    match text_at(&value, "op") {
        Some("schema") => Ok(or_bad_shape(schema_request(value))),
        Some("insert") => Ok(or_bad_shape(insert_request(alloc, value)?)),
        Some("update") => Ok(or_bad_shape(update_request(alloc, value)?)),
        Some("delete") => Ok(or_bad_shape(delete_request(value))),
        Some("load") => Ok(or_bad_shape(load_request(value))),
        Some("search") => Ok(or_bad_shape(search_request(value))),
        Some("merge") => Ok(or_bad_shape(lone_request(&value, Request::Merge))),
        Some("merge-begin") => Ok(or_bad_shape(lone_request(&value, Request::MergeBegin))),
        Some("merge-slice") => Ok(or_bad_shape(merge_slice_request(&value))),
        Some("merge-publish") => Ok(or_bad_shape(lone_request(&value, Request::MergePublish))),
        _ => Ok(Err(Refusal::UnknownOp)),
    }
}

/// How many bytes of a block follow a value, if one follows.
fn read_block_size(value: &Value) -> Option<u64>
    ensures { result ≡ block_in (view value.now) }
{
    match text_at(value, "op")? {
        "load" => read_bytes(value),
        _ => None,
    }
}

/// Reads a line as a request, and tells whether a block follows it: one does where it is an object whose `op` is `load`
/// and whose `bytes` is a whole number.
pub fn read_request(alloc: Global, line: &[u8]) -> Result<Asked, Memory>
    ensures request { IfOk result (λ asked. seen_or_refused asked.request ≡ request_of line.now) }
    ensures block { IfOk result (λ asked. asked.block ≡ block_of line.now) }
{
    match Value::from_slice(alloc, line) {
        Ok(value) => Ok(Asked {
            block: read_block_size(&value),
            request: request_in(alloc, value)?,
        }),
        Err(error) => {
            if error.is_memory() {
                return Err(Memory);
            }
            Ok(Asked {
                block: None,
                request: Err(Refusal::NotJson),
            })
        }
    }
}
