ghost use Rattle.std.specs.Prelude.{◌≡◌, ℕ, Some, Ok, Err, codes, map, false, IfOk, IfErr};
ghost use Rattle.serde_json.specs.View.{view};
ghost use Rattle.serde_json.specs.Written.{has_float};
ghost use Rattle.svr_schema.specs.Components.{component_in};
ghost use Rattle.svr_schema.specs.Lawful.{IsSchema};
ghost use Rattle.svr_schema.specs.Lookups.{table_at};
ghost use Rattle.svr_schema.specs.Parts.{elements_at};
ghost use Rattle.svr_schema.specs.Rules.{IsWritable, divisor_in, has_short_text, schema_in, text_place};
ghost use Rattle.svr_schema.specs.Steps.{AreFew};

use crate::component::Component;
use crate::error::SchemaError;
use crate::lookup::{column_of_kind, columns_of, table_at};
use crate::method::MethodSpec;
use crate::parts::{text_or_empty, whole_within};
use crate::read_component::read_components;
use crate::read_method::read_method;
use crate::read_table::read_tables;
use crate::table::{ColumnKind, Table};
use serde_json::Value;
use std::alloc::Global;
use svr_edge::{Items, Memory};
use svr_json::has_members;

/// The longest text of a schema's value, in bytes, written without blanks.
const SCHEMA_BYTES: usize = 1_048_576;

/// Tables, which column of which of them is searched, and how a document's score is computed and listed.
#[derive(Drop)]
pub struct Schema {
    pub tables: Items<Table>,
    /// The place of the table that holds the documents.
    pub text_table: u8,
    /// The place of the text column in that table.
    pub text_column: u8,
    pub components: Items<Component>,
    /// By what the weighted sum of the components is divided, from 1 to 1,000,000,000.
    pub divisor: i64,
    pub method: MethodSpec,
}

impl Schema {
    /// The place of the table of a name.
    pub fn table(&self, name: &str) -> Option<u8>
        requires { IsSchema self.now }
        ensures { result ≡ table_at self.now.tables name.now }
    {
        table_at(self.tables.as_slice(), name)
    }
}

/// Where the text column stands.
#[derive(Clone, Copy)]
struct TextPlace {
    table: u8,
    column: u8,
}

#[tactic(auto, unfolding(crate::specs::Rules::text_place))]
fn read_text(tables: &[Table], value: &Value) -> Option<TextPlace>
    requires { AreFew tables.now }
    ensures { result ≡ text_place tables.now (view value.now) }
{
    let text = value.get("text")?;
    if !has_members(text, &["column", "table"]) {
        return None;
    }
    let table = table_at(tables, text_or_empty(text, "table"))?;
    let column = column_of_kind(
        columns_of(tables, table),
        ColumnKind::Text,
        text_or_empty(text, "column"),
    )?;
    Some(TextPlace { table, column })
}

#[tactic(auto, unfolding(crate::specs::Rules::divisor_in))]
fn read_divisor(value: &Value) -> Option<i64>
    ensures { result ≡ divisor_in (view value.now) }
{
    whole_within(value, "divisor", 1, 1_000_000_000)
}

/// Whether the text that is written for the value isn't too long.
fn has_short_text(alloc: Global, value: &Value) -> Result<bool, Memory>
    requires { has_float (view value.now) ≡ false }
    ensures { IfOk result (λ short. short ≡ has_short_text (view value.now)) }
{
    Ok(value.to_vec(alloc)?.len() <= SCHEMA_BYTES)
}

/// Reads a value as a schema.
pub fn read_schema(alloc: Global, value: &Value) -> Result<Schema, SchemaError>
    ensures schema { IfOk result (λ schema. schema_in (view value.now) ≡ Ok schema) }
    ensures lawful { IfOk result IsSchema }

    // The text that is written for the value can be kept in its place.
    ensures text { IfOk result (λ _. IsWritable (view value.now)) }

    // Each element of the components makes one, and none is passed over.
    ensures complete { IfOk result (λ schema. map Some schema.components
        ≡ map (component_in schema.tables schema.text_table) (elements_at (codes "components") (view value.now))) }

    // The first rule that fails is told.
    ensures rule { IfErr result (λ why. (n : ℕ) → why ≡ SchemaError.Rule n → schema_in (view value.now) ≡ Err n) }
{
    let tables = read_tables(alloc, value)?;
    let Some(text) = read_text(tables.as_slice(), value) else {
        return Err(SchemaError::Rule(8));
    };
    let components = read_components(alloc, tables.as_slice(), text.table, value)?;
    let Some(divisor) = read_divisor(value) else {
        return Err(SchemaError::Rule(13));
    };
    let Some(method) = read_method(value) else {
        return Err(SchemaError::Rule(14));
    };
    if !has_short_text(alloc, value)? {
        return Err(SchemaError::Rule(14));
    }
    Ok(Schema {
        tables,
        text_table: text.table,
        text_column: text.column,
        components,
        divisor,
        method,
    })
}
