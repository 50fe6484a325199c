ghost use Rattle.std.specs.Prelude.{◌≤◌};
ghost use Rattle.serde_json.specs.Data.{depth};
ghost use Rattle.serde_json.specs.Read.{max_depth};
ghost use Rattle.serde_json.specs.View.{view};

use crate::refusal::Refusal;
use serde_json::Value;
use svr_edge::{Items, Text};
use svr_num::{DocId, Mode};
use svr_rows::Given;

/// How many hits a search asks for that doesn't say it.
pub const HITS_BY_DEFAULT: i128 = 10;

/// What a line holds.
#[derive(Drop)]
pub struct Asked {
    /// How many bytes behind the line are its block, if it has one. It has one also where its request is refused.
    pub block: Option<u64>,
    /// What it asks for, or why that is refused: `NotJson`, `UnknownOp` or `BadShape`.
    pub request: Result<Request, Refusal>,
}

/// A value that is given as a schema. It is part of a line that was read as JSON, and so its text can be read again.
#[derive(Drop)]
pub struct SchemaValue {
    pub value: Value,
    ghost nests: { depth (view value) ≤ max_depth },
}

/// What a line asks for. Tables go by their names.
#[derive(Drop)]
pub enum Request {
    /// To take a value as the schema.
    Schema(SchemaValue),
    /// To add a row.
    Insert { table: Text, row: Items<Given> },
    /// To put a row in place of the one that has its id.
    Update { table: Text, row: Items<Given> },
    /// To take out the row with an id.
    Delete { table: Text, id: DocId },
    /// To add the rows of the block that comes with the request, all or none. Where `header` is true its first record is
    /// dropped.
    Load { table: Text, header: bool },
    /// To find the best `k` documents whose text has the query's terms.
    Search { query: Text, mode: Mode, k: i128 },
    /// To merge the lists of all terms.
    Merge,
    MergeBegin,
    /// To go on with a merge by at most so many terms, 1 to 1,000.
    MergeSlice { terms: u32 },
    MergePublish,
}
